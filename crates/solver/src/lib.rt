// The client end for the cutting solver, which is written in C: frame builder and reply check here, the records' encoders and
// decoders in `codec`. The crate `solver_c` exports all of them.
#![tactic(auto)]

ghost use Rattle.std.specs.Prelude.{◌≡◌};
ghost use Rattle.rules.specs.Refusals.{answer_length, answer_row};
ghost use Rattle.solver.specs.Exported.{built_of, space_after, checked_of};

use rules::{Refusal, row_of};

pub mod codec;

// The builder's answer: row 0 and the frame's length, or the row and length 0.
// Kept for the C interface: this struct and the next are what include/sievelast.h declares, where C has no Result.
#[repr(C)]
#[derive(Drop)]
pub struct FrameBuilt {
    pub row: u64,
    pub length: u64,
}

// The check's answer: row 0 and the result's place and length in the reply; or the row, 0 and 0.
#[repr(C)]
#[derive(Drop)]
pub struct ReplyChecked {
    pub row: u64,
    pub start: u64,
    pub length: u64,
}

impl From<Result<usize, Refusal>> for FrameBuilt {
    ghost from_gives = { λ answer built. built ≡ record { row = answer_row answer; length = answer_length answer } };

    fn from(answer: Result<usize, Refusal>) -> FrameBuilt {
        FrameBuilt {
            row: u64::from(row_of(answer)),
            length: answer.unwrap_or(0) as u64,
        }
    }
}

// Writes a frame at the start of `space`, from credential, request and data, under the credential key.
pub fn sievelast_build(
    credential: &[u8],
    request: &[u8],
    bytes: &[u8],
    key: &[u8],
    space: &mut [u8],
) -> FrameBuilt
    ensures { (result ≡ built_of credential.now request.now bytes.now key.now space.old) × (space.new ≡ space_after credential.now request.now bytes.now key.now space.old) }
{
    FrameBuilt::from(client::build(credential, request, bytes, key, space))
}

// Finds the result in a reply to that credential and request, under the credential key.
pub fn sievelast_check(credential: &[u8], request: &[u8], key: &[u8], reply: &[u8]) -> ReplyChecked
    ensures { result ≡ checked_of credential.now request.now key.now reply.now }
{
    match client::check(credential, request, key, reply) {
        Ok(part) => ReplyChecked {
            row: 0,
            start: reply_check::HEAD_SIZE as u64,
            length: part.len() as u64,
        },
        Err(refusal) => ReplyChecked {
            row: u64::from(refusal.row()),
            start: 0,
            length: 0,
        },
    }
}
