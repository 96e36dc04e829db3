// The rows of the issuer and the builder, 26, 28 and 29, and the parts of a frame put together.
ghost use Rattle.std.specs.Prelude.{◌≡◌, List, ◌++◌, ℕ, ◌+◌, ◌≤◌, length};
ghost use Rattle.lemmas.specs.Lists.{splice};
ghost use Rattle.lemmas.specs.RowTable.{first_row};
ghost use Rattle.digest.specs.Hmac.{hmac};
ghost use Rattle.rules.specs.Client.{build_rows, issue_rows};
ghost use Rattle.rules.specs.Frame.{covered, digest_size};
ghost use Rattle.rules.specs.Refusals.{answer_row};

use digest::mac;
use rules::{DIGEST_SIZE, KEY_SIZE, Refusal, refuse};

// Rows 26, 28 and 29 of the issuer, the first that refuses.
pub fn issue_row(c: rules::Credential, key: &[u8], space: &[u8]) -> Result<(), Refusal>
    ensures { answer_row result ≡ first_row (issue_rows c key.now space.now) }
{
    refuse(key.len() != KEY_SIZE, Refusal::WrongKeySize)?;
    refuse(record_rows::bad_credential(c), Refusal::WrongRecord)?;
    refuse(space.len() < fields::CREDENTIAL_SIZE, Refusal::ShortSpace)
}

// Kept for the C interface: credential, request, data, key and space one by one, as C passes them to the calls above these.
// The same of the builder.
pub fn build_row(
    credential: &[u8],
    request: &[u8],
    bytes: &[u8],
    key: &[u8],
    space: &[u8],
) -> Result<(), Refusal>
    ensures { answer_row result ≡ first_row (build_rows credential.now request.now bytes.now key.now space.now) }
{
    let c = fields::credential_in(credential, 0);
    let r = fields::request_in(request, 0);
    let start = fields::credential_length(c);
    let rest = fields::rest_length(r);
    let bad = record_rows::bad_records(credential, request) | (r.n as usize != bytes.len());
    refuse(key.len() != KEY_SIZE, Refusal::WrongKeySize)?;
    refuse(bad, Refusal::WrongRecord)?;
    refuse(!octets::fits(space.len(), start, rest), Refusal::ShortSpace)
}

// The digest of a frame: over credential and request, and the data too from level 1.
pub fn frame_digest(
    credential: &[u8],
    request: &[u8],
    bytes: &[u8],
    key: &[u8],
    level: u8,
) -> [u8; DIGEST_SIZE]
    ensures { result ≡ hmac key.now (covered level credential.now request.now bytes.now) }
{
    if level == 0 {
        return mac::of3(key, credential, request, &bytes[..0]);
    }
    mac::of3(key, credential, request, bytes)
}

// The four parts of a frame, one after the other, at the start of the space; and how long they are together.
pub fn join(
    credential: &[u8],
    request: &[u8],
    bytes: &[u8],
    digest: &[u8; DIGEST_SIZE],
    space: &mut [u8],
) -> usize
    requires { length credential.now + length request.now + length bytes.now + digest_size ≤ length space.old }
    ensures { (result ≡ length credential.now + length request.now + length bytes.now + digest_size) × (space.new ≡ splice space.old 0 (credential.now ++ (request.now ++ (bytes.now ++ digest.now)))) }
{
    octets::copy_to(space, 0, credential);
    let at = credential.len();
    octets::copy_to(space, at, request);
    let at = at + request.len();
    octets::copy_to(space, at, bytes);
    let at = at + bytes.len();
    octets::copy_to(space, at, digest);
    at + DIGEST_SIZE
}
