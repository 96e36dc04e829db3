// Bytes at a place of a lent slice: big-endian numbers read and written, bytes copied and compared.
// Kept, the new form is no plainer: a slice and a place in it, and not the part from there on. The place may lie outside of the
// slice, and these functions say what happens then; a caller that cut the slice first would have to say it each time.
#![tactic(auto)]

ghost use Rattle.std.specs.Prelude.{◌≡◌, ◌+◌, ◌<◌, ◌^◌, leb};
ghost use Rattle.lemmas.specs.Lists.{same as lists_same};
ghost use Rattle.octets.specs.Numbers.{number_in, number_put, bytes_put};

pub mod layout;
mod places;

// Whether n bytes from place at on lie within len. Where at + n passes 64 bits they do not.
pub fn fits(len: usize, at: usize, n: usize) -> bool
    ensures { result ≡ leb (at + n) len }
{
    at.checked_add(n).is_some_and(|end| end <= len)
}

// The number that the n bytes from place at on spell; 0 where they are more than eight, or not all there.
#[tactic(auto, using(lemmas::specs::BigEndian::power_positive))]
pub fn number(s: &[u8], at: usize, n: usize) -> u64
    ensures { (result ≡ number_in s.now at n) × (result < 256 ^ n) }
{
    if n > 8 || !fits(s.len(), at, n) {
        return 0;
    }
    places::number_at(s, at, n)
}

// Writes x in n bytes from place at on; where they do not fit, nothing is written.
pub fn put(s: &mut [u8], at: usize, n: usize, x: u64)
    ensures { s.new ≡ number_put s.old at n x }
{
    if !fits(s.len(), at, n) {
        return;
    }
    places::put_at(s, at, n, x);
}

// Whether a and b are the same bytes. Where they are as long as each other every byte of both is read, whatever it is.
pub fn same(a: &[u8], b: &[u8]) -> bool
    ensures { result ≡ lists_same a.now b.now }
{
    if a.len() != b.len() {
        return false;
    }
    let mut diff: u8 = 0;
    for (x, y) in a.iter().zip(b) {
        diff |= x ^ y;
    }
    diff == 0
}

// Copies bytes into space from place at on; where they do not fit, nothing is written.
pub fn copy_to(space: &mut [u8], at: usize, bytes: &[u8])
    ensures { space.new ≡ bytes_put space.old at bytes.now }
{
    if !fits(space.len(), at, bytes.len()) {
        return;
    }
    places::copy_at(space, at, bytes);
}
