// A line of text, made from its end to its start: the digits of a number come out last one first.
ghost use Rattle.std.specs.Prelude.{◌≤◌};

// More than the longest line has.
pub const TEXT_SIZE: usize = 64;

// The text is the bytes from place `from` on.
// Kept for a rule of the project: the programs work in fixed memory, so a text is no `String`.
#[derive(Clone, Copy)]
pub struct Text {
    pub bytes: [u8; TEXT_SIZE],
    pub from: usize,
    ghost inside: { from ≤ 64 },
}
