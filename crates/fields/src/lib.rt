// Document 01's credential and request, read from bytes, and the request of a group credential (document 02, change 6). A part's
// mark tells its form: which fields it has, and how long it is.
#![tactic(auto)]

ghost use Rattle.std.specs.Prelude.{◌≡◌, replicate};
ghost use Rattle.rules.specs.Frame.{credential_length, request_length};
ghost use Rattle.octets.specs.Fields.{fields_read};
ghost use Rattle.fields.specs.Records.{credential_in, request_in, request_read, rest_length};

// The two bytes that each form starts with (the documents' marks).
pub const CREDENTIAL_MAGIC: u16 = 0x4c43;

pub const REQUEST_MAGIC: u16 = 0x4c52;

pub const GROUP_MAGIC: u16 = 0x4c47;

const MAGIC_SIZE: usize = 2;

// How long each is, and how long the shortest frame is, which row 2 asks of every form.
pub const CREDENTIAL_SIZE: usize = 36;

pub const REQUEST_SIZE: usize = 28;

pub const GROUP_REQUEST_SIZE: usize = 32;

pub const LEAST_FRAME: usize = CREDENTIAL_SIZE + REQUEST_SIZE + rules::DIGEST_SIZE;

// The layouts: the fields' widths in bytes, in their order; and how many fields each has.
pub const CREDENTIAL_WIDTHS: [usize; 12] = [2, 1, 1, 4, 4, 2, 1, 1, 4, 4, 8, 4];

pub const REQUEST_WIDTHS: [usize; 8] = [2, 1, 1, 8, 4, 4, 4, 4];

pub const GROUP_WIDTHS: [usize; 9] = [2, 1, 1, 8, 4, 4, 4, 4, 4];

pub const CREDENTIAL_FIELDS: usize = CREDENTIAL_WIDTHS.len();

pub const REQUEST_FIELDS: usize = REQUEST_WIDTHS.len();

pub const GROUP_FIELDS: usize = GROUP_WIDTHS.len();

// How long a credential is, and how long a request is, by its mark.
pub fn credential_length(c: rules::Credential) -> usize
    ensures { result ≡ credential_length c }
{
    CREDENTIAL_SIZE
}

pub fn request_length(r: rules::Request) -> usize
    ensures { result ≡ request_length r }
{
    if r.magic == GROUP_MAGIC {
        return GROUP_REQUEST_SIZE;
    }
    REQUEST_SIZE
}

// How long a frame is from its request on: request, data and digest.
pub fn rest_length(r: rules::Request) -> usize
    ensures { result ≡ rest_length r }
{
    request_length(r) + r.n as usize + rules::DIGEST_SIZE
}

// Kept, the new form is no plainer: here and below a slice and a place in it, as octets has them, since bytes may be lacking from
// there on.
// The numbers of a layout's fields at place at, in their order; all zeros where they are not all there.
fn numbers_in<const N: usize>(s: &[u8], at: usize, widths: &[usize; N]) -> [u64; N]
    ensures { result ≡ fields_read s.now at widths.now (replicate N 0) }
{
    let mut numbers = [0; N];
    octets::layout::read(s, at, widths, &mut numbers);
    numbers
}

// The credential at place at; all zeros where it is not all there.
pub fn credential_in(s: &[u8], at: usize) -> rules::Credential
    ensures { result ≡ credential_in s.now at }
{
    let v = numbers_in(s, at, &CREDENTIAL_WIDTHS);
    rules::Credential {
        magic: v[0] as u16,
        partition: v[1] as u8,
        slot: v[2] as u8,
        object: v[3] as u32,
        version: v[4] as u32,
        rights: v[5] as u16,
        least: v[6] as u8,
        zero: v[7] as u8,
        first: v[8] as u32,
        end: v[9] as u32,
        expiry: v[10],
        holder: v[11] as u32,
    }
}

// The numbers of the request at place at, in the order of its fields, read by the widths that its mark tells; 0 for a member that
// it has not, and all zeros where it is not all there.
fn request_numbers(s: &[u8], at: usize) -> [u64; GROUP_FIELDS]
    ensures { result ≡ request_read s.now at }
{
    if octets::number(s, at, MAGIC_SIZE) == u64::from(GROUP_MAGIC) {
        return numbers_in(s, at, &GROUP_WIDTHS);
    }
    let [magic, operation, level, time, count, a, b, n] = numbers_in(s, at, &REQUEST_WIDTHS);
    [magic, operation, level, time, count, a, b, n, 0]
}

// The request at place at; all zeros where it is not all there.
pub fn request_in(s: &[u8], at: usize) -> rules::Request
    ensures { result ≡ request_in s.now at }
{
    let v = request_numbers(s, at);
    rules::Request {
        magic: v[0] as u16,
        operation: v[1] as u8,
        level: v[2] as u8,
        time: v[3],
        count: v[4] as u32,
        A: v[5] as u32,
        B: v[6] as u32,
        n: v[7] as u32,
        member: v[8] as u32,
    }
}
