// The client end for C, as a static library: the calls of the crate `solver`. include/sievelast.h declares frame builder and reply
// check, include/sievelast_records.h the records' encoders and decoders.
#![tactic(auto)]

ghost use Rattle.std.specs.Prelude.{◌≡◌};
ghost use Rattle.rules.specs.Frame.{credential_size, group_request_size, request_size};
ghost use Rattle.records.specs.Coding.{encode_row, credential_encoded, request_encoded, group_request_encoded, credential_decoded, request_decoded, group_request_decoded, look_decoded, version_decoded};
ghost use Rattle.solver.specs.Exported.{built_of, space_after, checked_of};

use solver::{FrameBuilt, ReplyChecked, codec};

// Kept for the C interface: the functions here hand on those of `solver` under C's names.
// Writes a frame at the start of `space`, from credential, request and data, under the credential key.
#[unsafe(no_mangle)]
pub extern "C" fn sievelast_build(
    credential: &[u8],
    request: &[u8],
    bytes: &[u8],
    key: &[u8],
    space: &mut [u8],
) -> FrameBuilt
    ensures { (result ≡ built_of credential.now request.now bytes.now key.now space.old) × (space.new ≡ space_after credential.now request.now bytes.now key.now space.old) }
{
    solver::sievelast_build(credential, request, bytes, key, space)
}

// Finds the result in a reply to that credential and request, under the credential key.
#[unsafe(no_mangle)]
pub extern "C" fn sievelast_check(
    credential: &[u8],
    request: &[u8],
    key: &[u8],
    reply: &[u8],
) -> ReplyChecked
    ensures { result ≡ checked_of credential.now request.now key.now reply.now }
{
    solver::sievelast_check(credential, request, key, reply)
}

// Writes a credential's 36 bytes at the start of `space`.
#[unsafe(no_mangle)]
pub extern "C" fn sievelast_credential_encode(c: records::CredentialFields, space: &mut [u8]) -> u64
    ensures { (result ≡ encode_row credential_size space.old) × (space.new ≡ credential_encoded space.old c) }
{
    codec::sievelast_credential_encode(c, space)
}

// The fields of a credential's 36 bytes.
#[unsafe(no_mangle)]
pub extern "C" fn sievelast_credential_decode(bytes: &[u8]) -> records::CredentialDecoded
    ensures { result ≡ credential_decoded bytes.now }
{
    codec::sievelast_credential_decode(bytes)
}

// Writes a request's 28 bytes at the start of `space`.
#[unsafe(no_mangle)]
pub extern "C" fn sievelast_request_encode(r: records::RequestFields, space: &mut [u8]) -> u64
    ensures { (result ≡ encode_row request_size space.old) × (space.new ≡ request_encoded space.old r) }
{
    codec::sievelast_request_encode(r, space)
}

// The fields of a request's 28 bytes.
#[unsafe(no_mangle)]
pub extern "C" fn sievelast_request_decode(bytes: &[u8]) -> records::RequestDecoded
    ensures { result ≡ request_decoded bytes.now }
{
    codec::sievelast_request_decode(bytes)
}

// Writes the 32 bytes of a group's request at the start of `space`.
#[unsafe(no_mangle)]
pub extern "C" fn sievelast_group_request_encode(
    r: records::RequestFields,
    member: u32,
    space: &mut [u8],
) -> u64
    ensures { (result ≡ encode_row group_request_size space.old) × (space.new ≡ group_request_encoded space.old r member) }
{
    codec::sievelast_group_request_encode(r, member, space)
}

// The fields and the member of the 32 bytes of a group's request.
#[unsafe(no_mangle)]
pub extern "C" fn sievelast_group_request_decode(bytes: &[u8]) -> records::GroupRequestDecoded
    ensures { result ≡ group_request_decoded bytes.now }
{
    codec::sievelast_group_request_decode(bytes)
}

// Size and version, of a look's result.
#[unsafe(no_mangle)]
pub extern "C" fn sievelast_look_decode(bytes: &[u8]) -> records::LookDecoded
    ensures { result ≡ look_decoded bytes.now }
{
    codec::sievelast_look_decode(bytes)
}

// The new version, of the result of a raise or a create.
#[unsafe(no_mangle)]
pub extern "C" fn sievelast_version_decode(bytes: &[u8]) -> records::VersionDecoded
    ensures { result ≡ version_decoded bytes.now }
{
    codec::sievelast_version_decode(bytes)
}
