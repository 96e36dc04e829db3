// A reply's head and lengths, as document 01 has them: "mark 4C 41, operation, level, result length (four bytes), result".
#![tactic(auto)]

ghost use Rattle.std.specs.Prelude.{◌≡◌, cond, ◌+◌};
ghost use Rattle.lemmas.specs.Tests.{◌is◌};
ghost use Rattle.rules.specs.Frame.{digest_size};
ghost use Rattle.rules.specs.Operations.{result_length, head_size, reply_length, head};

// The lengths of a reply's head and of its digest.
pub const HEAD_SIZE: usize = 8;

const SEAL_SIZE: u32 = rules::DIGEST_SIZE as u32;

// The lengths of a look's result, of size and version, and of a raise's or a create's, of the new version.
const LOOK_SIZE: u32 = 8;

const VERSION_SIZE: u32 = 4;

// How long the result is that a request calls for; operations 2 and 6 to 8 have none.
pub fn result_length(r: rules::Request) -> u32
    ensures { result ≡ result_length r }
{
    match r.operation {
        1 => r.B,
        3 => LOOK_SIZE,
        4 | 5 => VERSION_SIZE,
        _ => 0,
    }
}

// How long a reply with a result of n bytes is: head, result, and at level 2 a digest.
pub fn length_with(r: rules::Request, n: u32) -> u64
    ensures { result ≡ head_size + n + cond (r.level is 2) digest_size 0 }
{
    let seal = if r.level == 2 { SEAL_SIZE } else { 0 };
    HEAD_SIZE as u64 + u64::from(n) + u64::from(seal)
}

// How long the whole reply is.
pub fn reply_length(r: rules::Request) -> u64
    ensures { result ≡ reply_length r }
{
    length_with(r, result_length(r))
}

// The head before a result of n bytes.
pub fn reply_head(r: rules::Request, n: u32) -> [u8; HEAD_SIZE]
    ensures { result ≡ head r n }
{
    let [n3, n2, n1, n0] = n.to_be_bytes();
    [0x4c, 0x41, r.operation, r.level, n3, n2, n1, n0]
}
