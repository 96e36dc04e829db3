// The two records of a frame as C structs, and the results that are numbers: encoded and decoded.
#![tactic(auto)]

ghost use Rattle.std.specs.Prelude.{◌≡◌, ◌≢◌};
ghost use Rattle.rules.specs.Frame.{credential_size, group_request_size, request_length, request_size};
ghost use Rattle.request_bytes.specs.Put.{request_put};
ghost use Rattle.records.specs.Coding.{credential_from, credential_fields, request_with, request_from, group_request_from, request_fields, encode_row, credential_encoded, request_encoded, group_request_encoded, credential_decoded, request_told, request_decoded, group_request_decoded, look_decoded, version_decoded};
ghost use Rattle.records.specs.Answers.{credential_answer, request_answer, group_request_answer, look_answer, version_answer};

use rules::{Refusal, refuse, row_of};

// Kept, the new form is no plainer: `reply` has the same lengths as numbers of 32 bits, for the drive; neither crate stands on the other.
// The length of a look's result, size and version, and of a raise's or a create's; how wide each of the numbers is.
const LOOK_SIZE: usize = 8;

const VERSION_SIZE: usize = 4;

const NUMBER_SIZE: usize = 4;

// A credential without what is the same in each: mark and zero byte. The order is that of include/sievelast_records.h.
#[repr(C)]
#[derive(Clone, Copy, Default)]
pub struct CredentialFields {
    pub expiry: u64,
    pub object: u32,
    pub version: u32,
    pub first: u32,
    pub end: u32,
    pub holder: u32,
    pub rights: u16,
    pub partition: u8,
    pub slot: u8,
    pub least: u8,
}

// A request without its mark, and without the member of a group's; n is its data's length. The order is the header's.
#[repr(C)]
#[derive(Clone, Copy, Default)]
pub struct RequestFields {
    pub time: u64,
    pub count: u32,
    pub a: u32,
    pub b: u32,
    pub n: u32,
    pub operation: u8,
    pub level: u8,
}

// A record as it was read: row 0 and its fields; or row 28 and zeros.
// Kept for the C interface: this and the four structs behind it are what include/sievelast_records.h declares, where C has no Result.
#[repr(C)]
#[derive(Clone, Copy)]
pub struct CredentialDecoded {
    pub row: u64,
    pub fields: CredentialFields,
}

#[repr(C)]
#[derive(Clone, Copy)]
pub struct RequestDecoded {
    pub row: u64,
    pub fields: RequestFields,
}

// A group's request as it was read, its member too.
#[repr(C)]
#[derive(Clone, Copy)]
pub struct GroupRequestDecoded {
    pub row: u64,
    pub fields: RequestFields,
    pub member: u32,
}

// A look's result as it was read, and that of a raise or a create: row 0 and the numbers; or row 28 and zeros.
#[repr(C)]
#[derive(Clone, Copy)]
pub struct LookDecoded {
    pub row: u64,
    pub size: u32,
    pub version: u32,
}

#[repr(C)]
#[derive(Clone, Copy)]
pub struct VersionDecoded {
    pub row: u64,
    pub version: u32,
}

// The fields that a credential has, and those that a request has.
impl From<rules::Credential> for CredentialFields {
    ghost from_gives = { λ c fields. fields ≡ credential_fields c };

    fn from(c: rules::Credential) -> CredentialFields {
        CredentialFields {
            expiry: c.expiry,
            object: c.object,
            version: c.version,
            first: c.first,
            end: c.end,
            holder: c.holder,
            rights: c.rights,
            partition: c.partition,
            slot: c.slot,
            least: c.least,
        }
    }
}

impl From<rules::Request> for RequestFields {
    ghost from_gives = { λ r fields. fields ≡ request_fields r };

    fn from(r: rules::Request) -> RequestFields {
        RequestFields {
            time: r.time,
            count: r.count,
            a: r.A,
            b: r.B,
            n: r.n,
            operation: r.operation,
            level: r.level,
        }
    }
}

// What C gets of what was read, or of the row that refuses it.
impl From<Result<rules::Credential, Refusal>> for CredentialDecoded {
    ghost from_gives = { λ answer decoded. decoded ≡ credential_answer answer };

    fn from(answer: Result<rules::Credential, Refusal>) -> CredentialDecoded {
        CredentialDecoded {
            row: u64::from(row_of(answer)),
            fields: match answer {
                Ok(c) => CredentialFields::from(c),
                Err(_) => CredentialFields::default(),
            },
        }
    }
}

impl From<Result<rules::Request, Refusal>> for RequestDecoded {
    ghost from_gives = { λ answer decoded. decoded ≡ request_answer answer };

    fn from(answer: Result<rules::Request, Refusal>) -> RequestDecoded {
        RequestDecoded {
            row: u64::from(row_of(answer)),
            fields: match answer {
                Ok(q) => RequestFields::from(q),
                Err(_) => RequestFields::default(),
            },
        }
    }
}

impl From<Result<rules::Request, Refusal>> for GroupRequestDecoded {
    ghost from_gives = { λ answer decoded. decoded ≡ group_request_answer answer };

    fn from(answer: Result<rules::Request, Refusal>) -> GroupRequestDecoded {
        let row = u64::from(row_of(answer));
        match answer {
            Ok(q) => GroupRequestDecoded {
                row,
                fields: RequestFields::from(q),
                member: q.member,
            },
            Err(_) => GroupRequestDecoded {
                row,
                fields: RequestFields::default(),
                member: 0,
            },
        }
    }
}

impl From<Result<(u32, u32), Refusal>> for LookDecoded {
    ghost from_gives = { λ answer decoded. decoded ≡ look_answer answer };

    fn from(answer: Result<(u32, u32), Refusal>) -> LookDecoded {
        let (size, version) = answer.unwrap_or((0, 0));
        LookDecoded {
            row: u64::from(row_of(answer)),
            size,
            version,
        }
    }
}

impl From<Result<u32, Refusal>> for VersionDecoded {
    ghost from_gives = { λ answer decoded. decoded ≡ version_answer answer };

    fn from(answer: Result<u32, Refusal>) -> VersionDecoded {
        VersionDecoded {
            row: u64::from(row_of(answer)),
            version: answer.unwrap_or(0),
        }
    }
}

// The credential that has those fields.
// Kept, the new form is no plainer: a From would hide the mark and the zero byte that this adds, and the group's request takes a
// member beside the fields.
pub fn credential_from(c: CredentialFields) -> rules::Credential
    ensures { result ≡ credential_from c }
{
    rules::Credential {
        magic: fields::CREDENTIAL_MAGIC,
        partition: c.partition,
        slot: c.slot,
        object: c.object,
        version: c.version,
        rights: c.rights,
        least: c.least,
        zero: 0,
        first: c.first,
        end: c.end,
        expiry: c.expiry,
        holder: c.holder,
    }
}

// The request of a mark that has those fields and that member.
fn request_with(magic: u16, r: RequestFields, member: u32) -> rules::Request
    ensures { result ≡ request_with magic r member }
{
    rules::Request {
        magic,
        operation: r.operation,
        level: r.level,
        time: r.time,
        count: r.count,
        A: r.a,
        B: r.b,
        n: r.n,
        member,
    }
}

// The request that has those fields; and the group's.
pub fn request_from(r: RequestFields) -> rules::Request
    ensures { result ≡ request_from r }
{
    request_with(fields::REQUEST_MAGIC, r, 0)
}

pub fn group_request_from(r: RequestFields, member: u32) -> rules::Request
    ensures { result ≡ group_request_from r member }
{
    request_with(fields::GROUP_MAGIC, r, member)
}

// Writes a credential's bytes at the start of space, and answers row 0; row 29 where they do not fit: nothing is written.
pub fn encode_credential(c: CredentialFields, space: &mut [u8]) -> u64
    ensures { (result ≡ encode_row credential_size space.old) × (space.new ≡ credential_encoded space.old c) }
{
    let room = refuse(space.len() < fields::CREDENTIAL_SIZE, Refusal::ShortSpace);
    credential_bytes::put_credential(credential_from(c), space);
    u64::from(row_of(room))
}

// Writes a request's bytes in the same way, of either form.
fn encode(q: rules::Request, space: &mut [u8]) -> u64
    ensures { (result ≡ encode_row (request_length q) space.old) × (space.new ≡ request_put space.old q) }
{
    let room = refuse(space.len() < fields::request_length(q), Refusal::ShortSpace);
    request_bytes::put_request(q, space);
    u64::from(row_of(room))
}

pub fn encode_request(r: RequestFields, space: &mut [u8]) -> u64
    ensures { (result ≡ encode_row request_size space.old) × (space.new ≡ request_encoded space.old r) }
{
    encode(request_from(r), space)
}

// The same of a group's request.
pub fn encode_group_request(r: RequestFields, member: u32, space: &mut [u8]) -> u64
    ensures { (result ≡ encode_row group_request_size space.old) × (space.new ≡ group_request_encoded space.old r member) }
{
    encode(group_request_from(r, member), space)
}

// The credential in 36 bytes; row 28 for other lengths, another mark, and a zero byte that is not 0.
fn credential_in(bytes: &[u8]) -> Result<rules::Credential, Refusal>
    ensures { credential_answer result ≡ credential_decoded bytes.now }
{
    let c = fields::credential_in(bytes, 0);
    let unmarked = (c.magic != fields::CREDENTIAL_MAGIC) | (c.zero != 0);
    refuse(
        (bytes.len() != fields::CREDENTIAL_SIZE) | unmarked,
        Refusal::WrongRecord,
    )?;
    Ok(c)
}

// The request of that mark, in as many bytes as the mark tells; row 28 for other lengths, and for another mark. Bytes that are not
// all there are read as zeros, whose mark is 0.
fn request_in(bytes: &[u8], magic: u16) -> Result<rules::Request, Refusal>
    requires { magic ≢ 0 }
    ensures { result ≡ request_told magic bytes.now }
{
    let q = fields::request_in(bytes, 0);
    refuse(
        (bytes.len() != fields::request_length(q)) | (q.magic != magic),
        Refusal::WrongRecord,
    )?;
    Ok(q)
}

// Size and version of a look's result; row 28 where it is not 8 bytes long.
fn look_in(bytes: &[u8]) -> Result<(u32, u32), Refusal>
    ensures { look_answer result ≡ look_decoded bytes.now }
{
    refuse(bytes.len() != LOOK_SIZE, Refusal::WrongRecord)?;
    let size = octets::number(bytes, 0, NUMBER_SIZE);
    let version = octets::number(bytes, NUMBER_SIZE, NUMBER_SIZE);
    Ok((size as u32, version as u32))
}

// The new version, of the result of a raise or a create; row 28 where it is not 4 bytes long.
fn version_in(bytes: &[u8]) -> Result<u32, Refusal>
    ensures { version_answer result ≡ version_decoded bytes.now }
{
    refuse(bytes.len() != VERSION_SIZE, Refusal::WrongRecord)?;
    let version = octets::number(bytes, 0, VERSION_SIZE);
    Ok(version as u32)
}

// The fields of a credential's 36 bytes; row 28 for other lengths, another mark, and a zero byte that is not 0.
pub fn decode_credential(bytes: &[u8]) -> CredentialDecoded
    ensures { result ≡ credential_decoded bytes.now }
{
    CredentialDecoded::from(credential_in(bytes))
}

// The fields of a request's 28 bytes; row 28 for other lengths, and for another mark.
pub fn decode_request(bytes: &[u8]) -> RequestDecoded
    ensures { result ≡ request_decoded bytes.now }
{
    RequestDecoded::from(request_in(bytes, fields::REQUEST_MAGIC))
}

// The fields and the member of the 32 bytes of a group's request; row 28 for other lengths, and for another mark.
pub fn decode_group_request(bytes: &[u8]) -> GroupRequestDecoded
    ensures { result ≡ group_request_decoded bytes.now }
{
    GroupRequestDecoded::from(request_in(bytes, fields::GROUP_MAGIC))
}

// Size and version of a look's result; row 28 where it is not 8 bytes long.
pub fn decode_look(bytes: &[u8]) -> LookDecoded
    ensures { result ≡ look_decoded bytes.now }
{
    LookDecoded::from(look_in(bytes))
}

// The new version, of the result of a raise or a create; row 28 where it is not 4 bytes long.
pub fn decode_version(bytes: &[u8]) -> VersionDecoded
    ensures { result ≡ version_decoded bytes.now }
{
    VersionDecoded::from(version_in(bytes))
}
