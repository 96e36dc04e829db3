// Eight blocks at a time, their schedules side by side: word `t` of block `l`, in lane `l`, is word `8 * t + l`.
// No word needs one of the fifteen before it, so the compiler makes four words at a time.
ghost use Rattle.std.specs.Prelude.{◌≡◌, ℕ, ◌+◌, ◌*◌, ◌<◌, ◌≤◌, List, length, drop};
ghost use Rattle.sha256_block.specs.Sha256 as Fips;
ghost use Rattle.sha256_block.specs.Lanes.{lane_word, Lanes};

use crate::word::{small0, small1, word_at};
use crate::{ROUND_WORDS, State, added, round};

// Sixteen words of each of the eight blocks that start at `at`.
fn load(m: &[u8], at: usize, w: &mut [u32; 512])
    requires { at + 512 ≤ length m.now }
    ensures { Lanes 128 w.new (drop at m.now) }
{
    for t in 0..16 {
        for l in 0..8 {
            w[8 * t + l] = word_at(m, at + 64 * l + 4 * t);
        }
    }
}

// Word `p`, from the words 2, 7, 15 and 16 steps before it in its lane.
// Kept, the new form is no plainer: one function with the distance of two words in a row as a parameter would have two contracts, that
// of a block's schedule and that of eight side by side.
fn next_at(w: &[u32; 512], p: usize) -> u32
    requires { (128 ≤ p) × (p < 512) }
    ensures { (m : List ℕ) → Lanes p w.now m → result ≡ lane_word m p }
{
    small1(w[p - 16])
        .wrapping_add(w[p - 56])
        .wrapping_add(small0(w[p - 120]))
        .wrapping_add(w[p - 128])
}

// The other 48 words of each, over the sixteen that `w` has.
fn extend(w: &mut [u32; 512])
    ensures { (m : List ℕ) → Lanes 128 w.old m → Lanes 512 w.new m }
{
    for p in 128..512 {
        w[p] = next_at(&*w, p);
    }
}

// The 64 rounds over lane `l`. Eight to a turn: the inner loop is unrolled. By one loop over the rounds a long message has 0.76 of
// the speed.
fn lane_rounds(k: &[u32; 64], w: &[u32; 512], l: usize, s: State) -> State
    requires { l < 8 }
    ensures { (m : List ℕ) → Lanes 512 w.now m
        → result ≡ Fips.rounds k.now (Fips.schedule (drop (64 * l) m)) s }
{
    let mut v = s;
    for turn in 0..8 {
        for i in 0..8 {
            let t = 8 * turn + i;
            v = round(v, k[t], w[8 * t + l]);
        }
    }
    v
}

// The eight blocks whose schedules `w` has, worked into `s` one after the other.
fn compress_lanes(w: &[u32; 512], s: State) -> State
    ensures { (m : List ℕ) → Lanes 512 w.now m → 512 ≤ length m → result ≡ Fips.blocks 8 s m }
{
    let k = ROUND_WORDS;
    let mut v = s;
    for l in 0..8 {
        v = added(v, lane_rounds(&k, w, l, v));
    }
    v
}

// The eight blocks of `m` that start at `at`, worked into `s`.
pub fn eight_at(s: State, m: &[u8], at: usize) -> State
    requires { at + 512 ≤ length m.now }
    ensures { result ≡ Fips.blocks 8 s (drop at m.now) }
{
    let mut w = [0u32; 512];
    load(m, at, &mut w);
    extend(&mut w);
    compress_lanes(&w, s)
}
