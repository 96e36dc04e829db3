// SHA-256 (FIPS 180-4) of a message taken part by part, of any length: the words so far, the bytes of the block that is not full yet, and the
// count of all bytes. Whole blocks are read straight from the part lent; only the ends of parts are copied.
#![tactic(auto)]

ghost use Rattle.std.specs.Prelude.{◌≡◌, ◌+◌, ◌<◌, ◌≤◌, [], ◌∷◌, ◌++◌, length, take, drop};
ghost use Rattle.std.proofs.Math.Seq.{paste};
ghost use Rattle.lemmas.specs.BigEndian.{big_endian};
ghost use Rattle.sha256_block.specs.Sha256 as Fips;
ghost use Rattle.sha256_block.specs.Sha256.{bytes, sha256};
ghost use Rattle.sha256_block.specs.PaddingCases.{zero_filled};
ghost use Rattle.sha256_stream.specs.Stream.{started, absorbed, finished};

use sha256_block::{State, blocks, compress};

// Where the length field starts in its block, and the most bytes that a last block can have for it to fit (FIPS 180-4, 5.1.1).
const LENGTH_AT: usize = 56;

const MOST_WITH_LENGTH: usize = 55;

// Plain data. `total` counts the bytes, modulo 2^64; the last total % 64 of them stand at the start of `pending`.
#[derive(Clone, Copy)]
pub struct Hash {
    pub chain: State,
    pub pending: [u8; 64],
    pub total: u64,
}

// The 32 bytes of eight words.
fn bytes_of(s: State) -> [u8; 32]
    ensures { result ≡ bytes s }
{
    let words = [s.a, s.b, s.c, s.d, s.e, s.f, s.g, s.h];
    let mut out = [0u8; 32];
    for (i, x) in words.iter().enumerate() {
        out[4 * i..4 * i + 4].copy_from_slice(&x.to_be_bytes());
    }
    out
}

// Kept, the new form is no plainer: places and a count, and not parts, since the count of all bytes tells how many of `pending` are in use.
// `pending` with `count` bytes of `s`, from `at` on, put after its first `used`.
fn stashed(pending: [u8; 64], used: usize, s: &[u8], at: usize, count: usize) -> [u8; 64]
    requires { (used + count ≤ 64) × (at + count ≤ length s.now) }
    ensures { result ≡ paste pending used (drop at s.now) count }
{
    let mut p = pending;
    p[used..used + count].copy_from_slice(&s[at..at + count]);
    p
}

// `pending` with the byte 80 behind its first `used`, and zeros behind that up to `end`.
fn marked(pending: [u8; 64], used: usize, end: usize) -> [u8; 64]
    requires { (used < 64) × (end ≤ 64) }
    ensures { take end result ≡ zero_filled end (take used pending ++ 0x80 ∷ []) }
{
    let mut p = pending;
    p[used] = 0x80;
    p[used + 1..end.max(used + 1)].fill(0);
    p
}

// `p` with the length field, the message's length in bits, as its last eight bytes.
fn with_length(p: [u8; 64], bits: u64) -> [u8; 64]
    ensures { result ≡ take 56 p ++ big_endian 8 bits }
{
    let mut q = p;
    q[LENGTH_AT..].copy_from_slice(&bits.to_be_bytes());
    q
}

// The digest where `p` is the message's last block, but for the length field: the field goes to its end.
fn ended(chain: State, p: [u8; 64], bits: u64) -> [u8; 32]
    ensures { result ≡ bytes (Fips.compress chain (take 56 p ++ big_endian 8 bits)) }
{
    let last = with_length(p, bits);
    bytes_of(compress(chain, &last))
}

// A hash of no bytes.
pub fn start() -> Hash
    ensures { result ≡ started }
{
    let chain = State {
        a: 0x6a09e667,
        b: 0xbb67ae85,
        c: 0x3c6ef372,
        d: 0xa54ff53a,
        e: 0x510e527f,
        f: 0x9b05688c,
        g: 0x1f83d9ab,
        h: 0x5be0cd19,
    };
    let pending = [0u8; 64];
    Hash {
        chain,
        pending,
        total: 0,
    }
}

// The hash with the bytes of `part` taken after those that it took.
pub fn absorb(h: Hash, part: &[u8]) -> Hash
    ensures { result ≡ absorbed h part.now }
{
    let chain = h.chain;
    let pending = h.pending;
    let used = (h.total % 64) as usize;
    let n = part.len();
    let total = h.total.wrapping_add(n as u64);
    let room = 64 - used;
    if n < room {
        let p = stashed(pending, used, part, 0, n);
        return Hash {
            chain,
            pending: p,
            total,
        };
    }
    let full = stashed(pending, used, part, 0, room);
    let first = compress(chain, &full);
    let last = blocks(first, part, room);
    let rest = (n - room) % 64;
    let p = stashed(full, 0, part, n - rest, rest);
    Hash {
        chain: last,
        pending: p,
        total,
    }
}

// The digest of the bytes taken. The padding goes by cases: in a last block of 0 to 55 bytes the length field fits, after one
// of 56 to 63 another block follows.
pub fn finish(h: Hash) -> [u8; 32]
    ensures { result ≡ finished h }
{
    let chain = h.chain;
    let pending = h.pending;
    let used = (h.total % 64) as usize;
    let bits = h.total << 3;
    if used <= MOST_WITH_LENGTH {
        let only = marked(pending, used, LENGTH_AT);
        return ended(chain, only, bits);
    }
    let full = marked(pending, used, 64);
    let first = compress(chain, &full);
    let zeros = [0u8; 64];
    ended(first, zeros, bits)
}

// The digest of `m`.
pub fn of(m: &[u8]) -> [u8; 32]
    ensures { result ≡ sha256 m.now }
{
    finish(absorb(start(), m))
}
