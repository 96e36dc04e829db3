// Frames, built by the client end from the script's settings and a line's numbers.
use crate::script::{LINE_NUMBERS, Line};
use crate::settings::Settings;
use crate::words::Call;
use rules::{Credential, Refusal};

// A load's data: "two of mask and one of level" for each of seven operations, from the line's numbers.
const NEEDS_SIZE: usize = 21;

const NEEDS_WIDTHS: [usize; LINE_NUMBERS] = [2, 1, 2, 1, 2, 1, 2, 1, 2, 1, 2, 1, 2, 1];

// A list's data: four bytes for each of the line's numbers.
const MEMBER_SIZE: usize = 4;

const LIST_SIZE: usize = MEMBER_SIZE * LINE_NUMBERS;

const LIST_WIDTHS: [usize; LINE_NUMBERS] = [MEMBER_SIZE; LINE_NUMBERS];

// Rights bit 7, that of a group credential.
// Kept, the new form is no plainer: `record_rows` has the same number to itself, and hands out no part of row 6.
const GROUP_RIGHT: u16 = 128;

// A number in a narrower type: the largest of that type where it is larger.
pub fn saturated<T: TryFrom<u64> + Copy>(x: u64, largest: T) -> T
where
    T::Error: Drop,
{
    T::try_from(x).unwrap_or(largest)
}

fn credential_of(s: &Settings) -> Credential {
    Credential {
        magic: fields::CREDENTIAL_MAGIC,
        partition: saturated(s.partition, u8::MAX),
        slot: saturated(s.slot, u8::MAX),
        object: saturated(s.object, u32::MAX),
        version: saturated(s.version, u32::MAX),
        rights: saturated(s.rights, u16::MAX),
        least: saturated(s.least, u8::MAX),
        zero: 0,
        first: saturated(s.first, u32::MAX),
        end: saturated(s.end, u32::MAX),
        expiry: s.expiry,
        holder: saturated(s.holder, u32::MAX),
    }
}

// An operation with its arguments A and B.
#[derive(Clone, Copy)]
struct Operation {
    number: u8,
    a: u64,
    b: u64,
}

// The numbers of a request for an operation with n data bytes, in the order of a group's, which ends in the member.
fn request_of(
    s: &Settings,
    magic: u16,
    operation: Operation,
    n: u64,
) -> [u64; fields::GROUP_FIELDS] {
    [
        u64::from(magic),
        u64::from(operation.number),
        s.level,
        s.time,
        s.count,
        operation.a,
        operation.b,
        n,
        s.member,
    ]
}

// Writes the frame of an operation with these data bytes into space, and answers its length: the credential's issuer and the
// frame builder are the product's own. Under a group's credential it is a group's request.
fn build_with(
    s: &Settings,
    operation: Operation,
    key: &[u8],
    data: &[u8],
    space: &mut [u8],
) -> Result<usize, Refusal> {
    let credential = credential_of(s);
    let (magic, size) = if credential.rights & GROUP_RIGHT == 0 {
        (fields::REQUEST_MAGIC, fields::REQUEST_SIZE)
    } else {
        (fields::GROUP_MAGIC, fields::GROUP_REQUEST_SIZE)
    };
    let mut bytes = [0u8; fields::CREDENTIAL_SIZE];
    let secret = client::issue(credential, key, &mut bytes)?;
    let mut request = [0u8; fields::GROUP_REQUEST_SIZE];
    let numbers = request_of(s, magic, operation, data.len() as u64);
    octets::layout::write(&mut request, 0, &fields::GROUP_WIDTHS, &numbers);
    client::build(&bytes, &request[..size], data, &secret, space)
}

// Writes the frame of a call's line with these numbers; its data is the line's text, a load's table, or a list. B counts the bytes that
// are written.
pub fn build(
    s: &Settings,
    call: Call,
    line: Line,
    numbers: [u64; LINE_NUMBERS],
    key: &[u8],
    space: &mut [u8],
) -> Result<usize, Refusal> {
    let [a, b, ..] = numbers;
    let number = call.operation();
    match call {
        Call::Load => {
            let mut needs = [0u8; NEEDS_SIZE];
            octets::layout::write(&mut needs, 0, &NEEDS_WIDTHS, &numbers);
            build_with(s, Operation { number, a: 0, b: 0 }, key, &needs, space)
        }
        Call::List => {
            let mut list = [0u8; LIST_SIZE];
            octets::layout::write(&mut list, 0, &LIST_WIDTHS, &numbers);
            let n = MEMBER_SIZE * line.number_count();
            let b = n as u64;
            build_with(s, Operation { number, a: 0, b }, key, &list[..n], space)
        }
        Call::Write => {
            let text = line.text();
            let b = text.len() as u64;
            build_with(s, Operation { number, a, b }, key, text, space)
        }
        _ => build_with(s, Operation { number, a, b }, key, line.text(), space),
    }
}
