// The client end of document 01: issuer, frame builder and reply check. The reply check is the crate `reply_check`'s.
#![tactic(auto)]

ghost use Rattle.client.specs.Answers.{built_frame, issued_of};
ghost use Rattle.client.specs.Met.{IssueMet, BuildMet};

use digest::mac;
pub use reply_check::check;
use rules::{KEY_SIZE, Refusal};

mod rows;

// Writes a credential's bytes at the start of `space` and returns its key, made from the key in its slot.
pub fn issue(c: rules::Credential, key: &[u8], space: &mut [u8]) -> Result<[u8; KEY_SIZE], Refusal>
    ensures { IssueMet c key.now space.old (issued_of result) space.new }
{
    rows::issue_row(c, key, space)?;
    credential_bytes::put_credential(c, space);
    Ok(mac::of(key, &space[..fields::CREDENTIAL_SIZE]))
}

// Writes a frame at the start of `space`: credential, request, data and the digest under the credential key; and returns its length.
// It knows no drive's operation tables: a level that document 01's rule allows, a partition's table may still refuse (row 7).
pub fn build(
    credential: &[u8],
    request: &[u8],
    bytes: &[u8],
    key: &[u8],
    space: &mut [u8],
) -> Result<usize, Refusal>
    ensures { BuildMet credential.now request.now bytes.now key.now space.old (built_frame result) space.new }
{
    rows::build_row(credential, request, bytes, key, space)?;
    let r = fields::request_in(request, 0);
    let digest = rows::frame_digest(credential, request, bytes, key, r.level);
    Ok(rows::join(credential, request, bytes, &digest, space))
}
