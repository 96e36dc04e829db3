// Rows 3 to 6 of document 01 over a credential and a request, as changes 5 and 6 of document 02 read them; and what the
// client end refuses of the two.
#![tactic(auto)]

ghost use Rattle.std.specs.Prelude.{◌≡◌};
ghost use Rattle.rules.specs.Rows.{row3, row4, row6, outside_credential, outside_request, data_length, wrong_data};
ghost use Rattle.rules.specs.Client.{bad_records};
ghost use Rattle.rules.specs.Refusals.{answer_row};
ghost use Rattle.record_rows.specs.Refusals.{bad_credential, other_length, wrong_length, record_row};

use fields::{CREDENTIAL_MAGIC, GROUP_MAGIC, REQUEST_MAGIC};
use rules::{Refusal, refuse};

// The most data that a frame carries, and the data that operations 7 and 8 carry.
const MOST_DATA: u32 = 1048576;

const SEED_SIZE: u32 = 16;

const TABLE_SIZE: u32 = needs::NEEDS_SIZE as u32;

// What rights bit 7, that of a group credential, counts.
const GROUP_RIGHT: u16 = 128;

// Row 3.
fn bad_magic(c: rules::Credential, r: rules::Request) -> bool
    ensures { result ≡ row3 c r }
{
    (c.magic != CREDENTIAL_MAGIC) | !((r.magic == REQUEST_MAGIC) | (r.magic == GROUP_MAGIC))
}

// Row 4, in the credential, in the request, in either.
fn outside_credential(c: rules::Credential) -> bool
    ensures { result ≡ outside_credential c }
{
    (c.partition > 3)
        | (c.slot > 4)
        | ((c.slot > 2) & (c.partition != 0))
        | (c.rights > 255)
        | (c.least > 2)
        | (c.zero != 0)
}

fn outside_request(r: rules::Request) -> bool
    ensures { result ≡ outside_request r }
{
    (r.operation < 1) | (r.operation > 8) | (r.level > 2) | (r.n > MOST_DATA)
}

fn outside(c: rules::Credential, r: rules::Request) -> bool
    ensures { result ≡ row4 c r }
{
    outside_credential(c) | outside_request(r)
}

// The data's length that the operation calls for.
fn data_length(r: rules::Request) -> u32
    ensures { result ≡ data_length r }
{
    match r.operation {
        2 => r.B,
        7 => SEED_SIZE,
        8 => TABLE_SIZE,
        _ => 0,
    }
}

// Row 5: of the request alone; of a frame of len bytes whose request starts at start; of both.
fn wrong_data(r: rules::Request) -> bool
    ensures { result ≡ wrong_data r }
{
    r.n != data_length(r)
}

fn other_length(r: rules::Request, start: usize, len: usize) -> bool
    ensures { result ≡ other_length r start len }
{
    len.checked_sub(start) != Some(fields::rest_length(r))
}

fn wrong_length(r: rules::Request, start: usize, len: usize) -> bool
    ensures { result ≡ wrong_length r start len }
{
    wrong_data(r) | other_length(r, start, len)
}

// Row 6.
fn misfit(c: rules::Credential, r: rules::Request) -> bool
    ensures { result ≡ row6 c r }
{
    let op = r.operation;
    let a = r.A;
    let b = r.B;
    let slot = c.slot;
    let none = c.object == 0;
    let create = op == 5;
    let delete = op == 6;
    let key = op == 7;
    let load = op == 8;
    let group = c.rights / GROUP_RIGHT % 2 == 1;
    let member = r.magic == GROUP_MAGIC;
    ((op < 7) & (slot > 1))
        | (key & ((slot < 2) | (c.version != 0)))
        | (((op == 1) | (op == 2) | delete) & none)
        | ((create | key) & !none)
        | (((op == 3) | (op == 4) | delete) & ((a != 0) | (b != 0)))
        | (create & ((a == 0) | (b == 0)))
        | (key & (b != 0))
        | (key & (slot == 2) & (a > 1))
        | (key & (slot == 3) & (a > 3))
        | (key & (slot == 4) & (a > 0))
        | (load & ((slot != 2) | !none | (c.version != 0) | (a != 0) | (b != 0)))
        | (group & (op > 3))
        | (group & none)
        | (group & !member)
        | (!group & member)
}

// Whether a credential's own fields are refused, by row 3 or 4.
pub fn bad_credential(c: rules::Credential) -> bool
    ensures { result ≡ bad_credential c }
{
    (c.magic != CREDENTIAL_MAGIC) | outside_credential(c)
}

// Refuses a credential and a request, in a frame of len bytes whose request starts at start, by the lowest of rows 3 to 6 that
// applies.
pub fn record_row(
    c: rules::Credential,
    r: rules::Request,
    start: usize,
    len: usize,
) -> Result<(), Refusal>
    ensures { answer_row result ≡ record_row c r start len }
{
    refuse(bad_magic(c, r), Refusal::WrongMark)?;
    refuse(outside(c, r), Refusal::WrongField)?;
    refuse(wrong_length(r, start, len), Refusal::WrongLength)?;
    refuse(misfit(c, r), Refusal::Misfit)
}

// Whether a credential and a request, each in bytes of its own, are refused: by a length that is not its mark's, or by one of
// rows 3 to 7, of which the last goes by document 01's rule. One that is not all there is read as zeros, whose mark row 3
// refuses.
pub fn bad_records(credential: &[u8], request: &[u8]) -> bool
    ensures { result ≡ bad_records credential.now request.now }
{
    let c = fields::credential_in(credential, 0);
    let r = fields::request_in(request, 0);
    let n = needs::default_need(r.operation);
    (credential.len() != fields::credential_length(c))
        | (request.len() != fields::request_length(r))
        | bad_magic(c, r)
        | outside(c, r)
        | wrong_data(r)
        | misfit(c, r)
        | needs::low_level(n, c, r)
}
