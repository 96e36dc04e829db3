// The records of a frame and the results that are numbers, encoded and decoded for C: what the calls do is the crate `records`'.
ghost use Rattle.std.specs.Prelude.{◌≡◌};
ghost use Rattle.rules.specs.Frame.{credential_size, group_request_size, request_size};
ghost use Rattle.records.specs.Coding.{encode_row, credential_encoded, request_encoded, group_request_encoded, credential_decoded, request_decoded, group_request_decoded, look_decoded, version_decoded};

// Writes a credential's 36 bytes at the start of `space`.
pub fn sievelast_credential_encode(c: records::CredentialFields, space: &mut [u8]) -> u64
    ensures { (result ≡ encode_row credential_size space.old) × (space.new ≡ credential_encoded space.old c) }
{
    records::encode_credential(c, space)
}

// The fields of a credential's 36 bytes.
pub fn sievelast_credential_decode(bytes: &[u8]) -> records::CredentialDecoded
    ensures { result ≡ credential_decoded bytes.now }
{
    records::decode_credential(bytes)
}

// Writes a request's 28 bytes at the start of `space`.
pub fn sievelast_request_encode(r: records::RequestFields, space: &mut [u8]) -> u64
    ensures { (result ≡ encode_row request_size space.old) × (space.new ≡ request_encoded space.old r) }
{
    records::encode_request(r, space)
}

// The fields of a request's 28 bytes.
pub fn sievelast_request_decode(bytes: &[u8]) -> records::RequestDecoded
    ensures { result ≡ request_decoded bytes.now }
{
    records::decode_request(bytes)
}

// Writes the 32 bytes of a group's request at the start of `space`.
pub fn sievelast_group_request_encode(
    r: records::RequestFields,
    member: u32,
    space: &mut [u8],
) -> u64
    ensures { (result ≡ encode_row group_request_size space.old) × (space.new ≡ group_request_encoded space.old r member) }
{
    records::encode_group_request(r, member, space)
}

// The fields and the member of the 32 bytes of a group's request.
pub fn sievelast_group_request_decode(bytes: &[u8]) -> records::GroupRequestDecoded
    ensures { result ≡ group_request_decoded bytes.now }
{
    records::decode_group_request(bytes)
}

// Size and version, of a look's result.
pub fn sievelast_look_decode(bytes: &[u8]) -> records::LookDecoded
    ensures { result ≡ look_decoded bytes.now }
{
    records::decode_look(bytes)
}

// The new version, of the result of a raise or a create.
pub fn sievelast_version_decode(bytes: &[u8]) -> records::VersionDecoded
    ensures { result ≡ version_decoded bytes.now }
{
    records::decode_version(bytes)
}
