// The parse of a frame (document 01, rows 2 to 6): its fields, or the row that refuses it.
#![tactic(auto)]

ghost use Rattle.std.specs.Prelude.{◌≡◌};
ghost use Rattle.rules.specs.Frame.{target_of};
ghost use Rattle.wire.specs.Parse.{operation_numbers, reach_magic, numbers_of, answer_of, frame_answer};

use reader::Reader;
use rules::{Operation, Refusal, refuse};

mod outcome;
mod reader;

// A request that no row from 3 to 6 refuses. Its nonce is time and count; n is the data's length; starts tells where it, its data
// and the digest start in the frame. It reads, writes or looks at the bytes of `member`, of the group that the credential names
// (document 02, change 6), or at those of the credential's own object where it names none.
#[derive(Clone, Copy)]
pub struct ParsedRequest {
    pub operation: Operation,
    pub member: Option<u32>,
    pub level: u8,
    pub time: u64,
    pub count: u32,
    pub n: u32,
    pub starts: rules::PartStarts,
}

// The fields of a frame that no row from 2 to 6 refuses: those of its credential and of its request.
#[derive(Clone, Copy)]
pub struct Parsed {
    pub credential: rules::Credential,
    pub request: ParsedRequest,
}

// An operation's number in document 01, its A and its B.
#[derive(Clone, Copy)]
struct OperationNumbers {
    operation: u8,
    a: u32,
    b: u32,
}

// Rows 2 to 6, or the fields.
pub fn parse(frame: &[u8]) -> Result<Parsed, Refusal>
    ensures { answer_of result ≡ frame_answer frame.now }
{
    refuse(frame.len() < fields::LEAST_FRAME, Refusal::ShortFrame)?;
    Reader::new(frame).walk()
}

// The numbers of an operation: the documents' own, and A and B, 0 where the operation carries none.
fn operation_numbers(o: Operation) -> OperationNumbers
    ensures { result ≡ operation_numbers o }
{
    let (operation, a, b) = match o {
        Operation::Read { offset, length } => (1, offset, length),
        Operation::Write { offset, length } => (2, offset, length),
        Operation::Look => (3, 0, 0),
        Operation::Raise => (4, 0, 0),
        Operation::Create { number, size } => (5, number, size),
        Operation::Delete => (6, 0, 0),
        Operation::SetKey { target } => (7, target, 0),
        Operation::LoadTable => (8, 0, 0),
    };
    OperationNumbers { operation, a, b }
}

// The mark of a request that names this member, or none.
fn reach_magic(member: Option<u32>) -> u16
    ensures { result ≡ reach_magic member }
{
    match member {
        None => fields::REQUEST_MAGIC,
        Some(_) => fields::GROUP_MAGIC,
    }
}

// A parsed request's numbers again.
// Kept, the new form is no plainer: a From beside this function would be a second name for the same numbers.
pub fn numbers(request: ParsedRequest) -> rules::Request
    ensures { result ≡ numbers_of request }
{
    let v = operation_numbers(request.operation);
    rules::Request {
        magic: reach_magic(request.member),
        operation: v.operation,
        level: request.level,
        time: request.time,
        count: request.count,
        A: v.a,
        B: v.b,
        n: request.n,
        member: request.member.unwrap_or(0),
    }
}

// The number of the object whose bytes the request reads, writes or looks at, 0 for the partition.
pub fn target_of(c: rules::Credential, request: ParsedRequest) -> u32
    ensures { result ≡ target_of c (numbers_of request) }
{
    request.member.unwrap_or(c.object)
}
