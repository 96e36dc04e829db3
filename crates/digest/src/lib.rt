// SHA-256 (FIPS 180-4) and HMAC (RFC 2104) over lent bytes. `sha256` and `hmac` refuse what is too long, row 27; the
// module `mac` has no limit, and takes a message in one part or in several. The same for SHA-256 is `sha256_stream`.
#![tactic(auto)]

ghost use Rattle.std.specs.Prelude.{◌≡◌};
ghost use Rattle.digest.specs.Digest.{digest_of, sha256_answer, hmac_answer};

pub mod mac;

// The most bytes that a key or a message may have.
const MOST: usize = 16_777_216;

// The refusal of row 27: key or message has more than 16,777,216 bytes.
#[derive(Clone, Copy, Debug, PartialEq, Eq)]
pub struct TooLong;

// The SHA-256 of `message`, if it has no more than 16,777,216 bytes.
pub fn sha256(message: &[u8]) -> Result<[u8; 32], TooLong>
    ensures { digest_of result ≡ sha256_answer message.now }
{
    if message.len() > MOST {
        return Err(TooLong);
    }
    Ok(sha256_stream::of(message))
}

// The HMAC of `message` under `key`, if neither has more than 16,777,216 bytes.
pub fn hmac(key: &[u8], message: &[u8]) -> Result<[u8; 32], TooLong>
    ensures { digest_of result ≡ hmac_answer key.now message.now }
{
    if key.len() > MOST || message.len() > MOST {
        return Err(TooLong);
    }
    Ok(mac::of(key, message))
}
