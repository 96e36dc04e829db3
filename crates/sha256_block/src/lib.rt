// A block of 64 bytes worked into the eight words of a hash: FIPS 180-4, section 6.2.2.
#![tactic(auto)]

ghost use Rattle.std.specs.Prelude.{◌≡◌, ◌+◌, ◌-◌, ◌*◌, ◌/◌, ◌<◌, ◌≤◌, length, take, drop};
ghost use Rattle.sha256_block.specs.Sha256 as Fips;

use word::{big0, big1, ch, maj, small0, small1, word_at};

mod lanes;
mod word;

// The constants of section 4.2.2.
const ROUND_WORDS: [u32; 64] = [
    0x428a2f98, 0x71374491, 0xb5c0fbcf, 0xe9b5dba5, 0x3956c25b, 0x59f111f1, 0x923f82a4, 0xab1c5ed5,
    0xd807aa98, 0x12835b01, 0x243185be, 0x550c7dc3, 0x72be5d74, 0x80deb1fe, 0x9bdc06a7, 0xc19bf174,
    0xe49b69c1, 0xefbe4786, 0x0fc19dc6, 0x240ca1cc, 0x2de92c6f, 0x4a7484aa, 0x5cb0a9dc, 0x76f988da,
    0x983e5152, 0xa831c66d, 0xb00327c8, 0xbf597fc7, 0xc6e00bf3, 0xd5a79147, 0x06ca6351, 0x14292967,
    0x27b70a85, 0x2e1b2138, 0x4d2c6dfc, 0x53380d13, 0x650a7354, 0x766a0abb, 0x81c2c92e, 0x92722c85,
    0xa2bfe8a1, 0xa81a664b, 0xc24b8b70, 0xc76c51a3, 0xd192e819, 0xd6990624, 0xf40e3585, 0x106aa070,
    0x19a4c116, 0x1e376c08, 0x2748774c, 0x34b0bcb5, 0x391c0cb3, 0x4ed8aa4a, 0x5b9cca4f, 0x682e6ff3,
    0x748f82ee, 0x78a5636f, 0x84c87814, 0x8cc70208, 0x90befffa, 0xa4506ceb, 0xbef9a3f7, 0xc67178f2,
];

// Eight words: the hash value, and the working variables.
#[derive(Clone, Copy)]
pub struct State {
    pub a: u32,
    pub b: u32,
    pub c: u32,
    pub d: u32,
    pub e: u32,
    pub f: u32,
    pub g: u32,
    pub h: u32,
}

// One round, with the constant `k` and the word `w` of the schedule. What has waited longest is added first, and the
// three rotates of `e`, which the round before made last, at the end.
fn round(s: State, k: u32, w: u32) -> State
    ensures { result ≡ Fips.round k w s }
{
    let t1 = s
        .h
        .wrapping_add(k.wrapping_add(w))
        .wrapping_add(ch(s.e, s.f, s.g))
        .wrapping_add(big1(s.e));
    let t2 = big0(s.a).wrapping_add(maj(s.a, s.b, s.c));
    State {
        a: t1.wrapping_add(t2),
        b: s.a,
        c: s.b,
        d: s.c,
        e: s.d.wrapping_add(t1),
        f: s.e,
        g: s.f,
        h: s.g,
    }
}

// Word `t` of the schedule, from those before it.
fn next_at(w: &[u32; 64], t: usize) -> u32
    requires { (16 ≤ t) × (t < 64) }
    ensures { result ≡ Fips.next w.now t }
{
    small1(w[t - 2])
        .wrapping_add(w[t - 7])
        .wrapping_add(small0(w[t - 15]))
        .wrapping_add(w[t - 16])
}

// Kept, the new form is no plainer: here, below, in `lanes` and in `word` a message and a place in it, as the standard's blocks have places
// in their message; the laws of these functions speak of what lies behind that place, which a part alone would not show.
// Sixteen words of the block that starts at `at`, and room for the others.
fn loaded(s: &[u8], at: usize) -> [u32; 64]
    requires { at + 64 ≤ length s.now }
    ensures { take 16 result ≡ Fips.words 16 (drop at s.now) }
{
    let mut w = [0u32; 64];
    for i in 0..16 {
        w[i] = word_at(s, at + 4 * i);
    }
    w
}

// The first sixteen rounds, over the words that `w` has. Four to a turn: the inner loop is unrolled. By one loop over the rounds
// a message of one block has 0.92 of the speed.
fn first_rounds(k: &[u32; 64], w: &[u32; 64], s: State) -> State
    ensures { Fips.rounds (drop 16 k.now) (drop 16 (Fips.extend 48 (take 16 w.now))) result
        ≡ Fips.rounds k.now (Fips.extend 48 (take 16 w.now)) s }
{
    let mut v = s;
    for turn in 0..4 {
        for i in 0..4 {
            let t = 4 * turn + i;
            v = round(v, k[t], w[t]);
        }
    }
    v
}

// The other rounds, each with its word made first from the sixteen that `w` has. Four to a turn, as above.
fn later_rounds(k: &[u32; 64], w: &mut [u32; 64], s: State) -> State
    ensures { result
        ≡ Fips.rounds (drop 16 k.now) (drop 16 (Fips.extend 48 (take 16 w.old))) s }
{
    let mut v = s;
    for turn in 4..16 {
        for i in 0..4 {
            let t = 4 * turn + i;
            let x = next_at(&*w, t);
            w[t] = x;
            v = round(v, k[t], x);
        }
    }
    v
}

// The 64 rounds over the schedule whose first sixteen words `m` has.
fn all_rounds(m: [u32; 64], s: State) -> State
    ensures { result ≡ Fips.rounds Fips.K (Fips.extend 48 (take 16 m)) s }
{
    let k = ROUND_WORDS;
    let mut w = m;
    let v = first_rounds(&k, &w, s);
    later_rounds(&k, &mut w, v)
}

// Word by word, the sum of the hash value and the working variables.
fn added(s: State, t: State) -> State
    ensures { result ≡ Fips.added s t }
{
    State {
        a: s.a.wrapping_add(t.a),
        b: s.b.wrapping_add(t.b),
        c: s.c.wrapping_add(t.c),
        d: s.d.wrapping_add(t.d),
        e: s.e.wrapping_add(t.e),
        f: s.f.wrapping_add(t.f),
        g: s.g.wrapping_add(t.g),
        h: s.h.wrapping_add(t.h),
    }
}

// The block of `m` that starts at `at`, worked into `s`.
fn compress_at(s: State, m: &[u8], at: usize) -> State
    requires { at + 64 ≤ length m.now }
    ensures { result ≡ Fips.compress s (take 64 (drop at m.now)) }
{
    added(s, all_rounds(loaded(m, at), s))
}

// Blocks of `m` from `from` on, worked into `s` eight at a time; fewer than eight are left.
fn eights_from(s: State, m: &[u8], from: usize) -> State
    requires { from ≤ length m.now }
    ensures { result ≡ Fips.blocks ((length m.now - from) / 512 * 8) s (drop from m.now) }
{
    let mut v = s;
    for i in 0..(m.len() - from) / 512 {
        v = lanes::eight_at(v, m, from + 512 * i);
    }
    v
}

// Kept, the new form is no plainer: it differs from the one above in what a step is, eight blocks or one, and one function over
// both would take the step as a closure and speak of that closure's promise.
// Every whole block of `m` from `from` on, worked into `s`.
fn blocks_from(s: State, m: &[u8], from: usize) -> State
    requires { from ≤ length m.now }
    ensures { result ≡ Fips.blocks ((length m.now - from) / 64) s (drop from m.now) }
{
    let mut v = s;
    for i in 0..(m.len() - from) / 64 {
        v = compress_at(v, m, from + 64 * i);
    }
    v
}

// A block worked into `s`.
pub fn compress(s: State, m: &[u8; 64]) -> State
    ensures { result ≡ Fips.compress s (take 64 m.now) }
{
    compress_at(s, m, 0)
}

// Every whole block of `m` from `from` on, worked into `s`; past the end there is none.
pub fn blocks(s: State, m: &[u8], from: usize) -> State
    ensures { result ≡ Fips.blocks ((length m.now - from) / 64) s (drop from m.now) }
{
    if m.len() < from {
        return s;
    }
    let v = eights_from(s, m, from);
    blocks_from(v, m, from + (m.len() - from) / 512 * 512)
}
