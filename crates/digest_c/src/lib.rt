// The digests for C programs, such as the bench: the bytes go to the space lent, if it has room for them, and the row
// comes back.
#![tactic(auto)]

ghost use Rattle.std.specs.Prelude.{◌≡◌, ◌++◌};
ghost use Rattle.digest.specs.Hmac.{hmac};
ghost use Rattle.digest.specs.Digest.{digest_of, sha256_answer, hmac_answer};
ghost use Rattle.digest_c.specs.Out as O;

use digest::TooLong;

// The 32 bytes at the start of the space, if it has room for them; else it stays as it is.
fn put(out: &mut [u8], d: [u8; 32])
    ensures { out.new ≡ O.put out.old d }
{
    if 32 <= out.len() {
        out[..32].copy_from_slice(&d);
    }
}

// An answer as C gets it: the digest, or 32 zero bytes, goes to the space, and the row comes back.
fn handed(out: &mut [u8], answer: Result<[u8; 32], TooLong>) -> u32
    ensures value { result ≡ (digest_of answer).row }
    ensures out_after { out.new ≡ O.put out.old (digest_of answer).bytes }
{
    match answer {
        Ok(d) => {
            put(out, d);
            0
        }
        Err(TooLong) => {
            put(out, [0; 32]);
            27
        }
    }
}

// SHA-256, or row 27 and zeros.
#[unsafe(no_mangle)]
pub extern "C" fn digest_sha256(message: &[u8], out: &mut [u8]) -> u32
    ensures value { result ≡ (sha256_answer message.now).row }
    ensures out_after { out.new ≡ O.put out.old (sha256_answer message.now).bytes }
{
    handed(out, digest::sha256(message))
}

// HMAC, or row 27 and zeros.
#[unsafe(no_mangle)]
pub extern "C" fn digest_hmac(key: &[u8], message: &[u8], out: &mut [u8]) -> u32
    ensures value { result ≡ (hmac_answer key.now message.now).row }
    ensures out_after { out.new
        ≡ O.put out.old (hmac_answer key.now message.now).bytes }
{
    handed(out, digest::hmac(key, message))
}

// HMAC of three parts, one after the other.
#[unsafe(no_mangle)]
pub extern "C" fn digest_hmac3(key: &[u8], a: &[u8], b: &[u8], c: &[u8], out: &mut [u8])
    ensures { out.new
        ≡ O.put out.old (hmac key.now (a.now ++ b.now ++ c.now)) }
{
    put(out, digest::mac::of3(key, a, b, c));
}
