// A keyed hash, HMAC of RFC 2104, that takes its message part by part.
ghost use Rattle.std.specs.Prelude.{◌≡◌, ◌++◌};
ghost use Rattle.digest.specs.Hmac as Rfc;
ghost use Rattle.digest.specs.Mac.{mac_started, mac_absorbed, mac_finished};

use sha256_stream::Hash;

// Plain data: `inner` has taken the key with ipad and then the message, `outer` the key with opad.
#[derive(Clone, Copy)]
pub struct Mac {
    pub inner: Hash,
    pub outer: Hash,
}

// The key as a block: hashed first if it is longer, and filled up with zeros.
fn key_block(key: &[u8]) -> [u8; 64]
    ensures { result ≡ Rfc.key_block key.now }
{
    let mut block = [0u8; 64];
    if key.len() <= 64 {
        octets::copy_to(&mut block, 0, key);
        return block;
    }
    let short = sha256_stream::of(key);
    octets::copy_to(&mut block, 0, &short);
    block
}

// The block with each byte XORed with `c`.
fn xored(k: [u8; 64], c: u8) -> [u8; 64]
    ensures { result ≡ Rfc.xored c k }
{
    let mut block = k;
    for b in &mut block {
        *b ^= c;
    }
    block
}

// A keyed hash of no bytes. A Mac is plain data: prepare a key once and use it for several messages, each by `absorb`
// and `finish` from the same value. That saves two of the four blocks of a short message.
pub fn start(key: &[u8]) -> Mac
    ensures { result ≡ mac_started key.now }
{
    let k = key_block(key);
    let ipad = xored(k, 0x36);
    let opad = xored(k, 0x5c);
    let inner = sha256_stream::absorb(sha256_stream::start(), &ipad);
    let outer = sha256_stream::absorb(sha256_stream::start(), &opad);
    Mac { inner, outer }
}

// The keyed hash with the bytes of `part` taken after those that it took.
pub fn absorb(a: Mac, part: &[u8]) -> Mac
    ensures { result ≡ mac_absorbed a part.now }
{
    let inner = sha256_stream::absorb(a.inner, part);
    let outer = a.outer;
    Mac { inner, outer }
}

// The digest of the bytes taken, under the key.
pub fn finish(a: Mac) -> [u8; 32]
    ensures { result ≡ mac_finished a }
{
    let text = sha256_stream::finish(a.inner);
    sha256_stream::finish(sha256_stream::absorb(a.outer, &text))
}

// The digest of `m` under `key`.
pub fn of(key: &[u8], m: &[u8]) -> [u8; 32]
    ensures { result ≡ Rfc.hmac key.now m.now }
{
    finish(absorb(start(key), m))
}

// The digest under `key` of three parts, one after the other. None is copied.
pub fn of3(key: &[u8], a: &[u8], b: &[u8], c: &[u8]) -> [u8; 32]
    ensures { result ≡ Rfc.hmac key.now (a.now ++ b.now ++ c.now) }
{
    finish(absorb(absorb(absorb(start(key), a), b), c))
}
