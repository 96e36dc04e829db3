// What a granted operation does to the medium, and where it works. Everything is total: where bytes do not fit, nothing
// is written.
#![tactic(auto)]

ghost use Rattle.std.specs.Prelude.{◌≡◌};
ghost use Rattle.effect.specs.Effect.{medium_after, next_version_of};

use rules::Operation;

// Where an operation works. `quarterstart` is where the partition starts on the medium; `start` and `size` are the object's
// extent in it, `newstart` is the start of a new one; `looksize` and `version` are a look's result, `nextversion` is the next
// version.
#[derive(Clone, Copy)]
pub struct GrantContext {
    pub quarterstart: u32,
    pub start: u32,
    pub size: u32,
    pub newstart: u32,
    pub looksize: u32,
    pub version: u32,
    pub nextversion: u32,
}

// Kept for what may not change: the clause of next_version (`next_version_of`), which has 0 behind the last version.
// The next version; 0 after the last that there is, which row 21 refuses.
pub fn next_version(last: u32) -> u32
    ensures { result ≡ next_version_of last }
{
    last.wrapping_add(1)
}

// A write's bytes go into its object's own part of the medium; a new extent is cleared.
pub fn update_medium(medium: &mut [u8], bytes: &[u8], o: Operation, context: GrantContext)
    ensures { medium.new ≡ medium_after o context bytes.now medium.old }
{
    match o {
        Operation::Write { offset, .. } => {
            let start = context.quarterstart as usize + context.start as usize;
            let size = context.size as usize;
            extent::write_extent(medium, start, size, offset as usize, bytes);
        }
        Operation::Create { size, .. } => {
            let start = context.quarterstart as usize + context.newstart as usize;
            extent::clear_extent(medium, start, size as usize);
        }
        _ => {}
    }
}
