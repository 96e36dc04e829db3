// What the parse answers from a credential and a request: the fields of both, the operation with its own arguments; or
// the row, of 3 to 6, that refuses them.
ghost use Rattle.std.specs.Prelude.{◌≡◌, ◌<◌, ◌^◌};
ghost use Rattle.rules.specs.Frame.{frame_length, starts_behind};
ghost use Rattle.wire.specs.Parse.{ArgumentsKept, MemberKept, Formed, operation_number, first_number, second_number, reach_magic, reach_member, answer_of, records_answer};

use crate::{Parsed, ParsedRequest};
use rules::{Operation, Refusal};

// The operation numbered op, with those of A and B that it carries; the others are 0.
fn operation_of(op: u8, a: u32, b: u32) -> Operation
    requires { ArgumentsKept op a b }
    ensures { (operation_number result ≡ op) × (first_number result ≡ a) × (second_number result ≡ b) }
{
    match op {
        1 => Operation::Read {
            offset: a,
            length: b,
        },
        2 => Operation::Write {
            offset: a,
            length: b,
        },
        3 => Operation::Look,
        4 => Operation::Raise,
        5 => Operation::Create { number: a, size: b },
        6 => Operation::Delete,
        7 => Operation::SetKey { target: a },
        _ => Operation::LoadTable,
    }
}

// The member that a request of this mark names.
fn member_of(magic: u16, member: u32) -> Option<u32>
    requires { MemberKept magic member }
    ensures { (reach_magic result ≡ magic) × (reach_member result ≡ member) }
{
    (magic == fields::GROUP_MAGIC).then_some(member)
}

// Where the parts start in a frame whose request r starts at place at.
fn starts_behind(at: usize, r: rules::Request) -> rules::PartStarts
    requires { frame_length at r < 2 ^ 64 }
    ensures { result ≡ starts_behind at r }
{
    let long = fields::request_length(r);
    let payload = at + long;
    rules::PartStarts {
        request: at,
        payload,
        digest: payload + r.n as usize,
    }
}

// The fields of both in a frame of len bytes whose request starts at place at, or the row that refuses them.
pub fn fields_or_row(
    c: rules::Credential,
    r: rules::Request,
    at: usize,
    len: usize,
) -> Result<Parsed, Refusal>
    requires { Formed r }
    ensures { answer_of result ≡ records_answer c r at len }
{
    record_rows::record_row(c, r, at, len)?;
    let request = ParsedRequest {
        operation: operation_of(r.operation, r.A, r.B),
        member: member_of(r.magic, r.member),
        level: r.level,
        time: r.time,
        count: r.count,
        n: r.n,
        starts: starts_behind(at, r),
    };
    Ok(Parsed {
        credential: c,
        request,
    })
}
