// Numbers and bytes at a place. What is lent here is long enough: the functions above see to that.
ghost use Rattle.std.specs.Prelude.{◌≡◌, ◌+◌, ◌≤◌, ◌<◌, ◌^◌, length};
ghost use Rattle.lemmas.specs.Lists.{splice};
ghost use Rattle.lemmas.specs.BigEndian.{number_at, big_endian};

// Kept, the new form is no plainer: here and below a slice and a place in it, as in lib.rt, whose functions have looked at the places.
// The number that the n bytes from place at on spell.
pub fn number_at(s: &[u8], at: usize, n: usize) -> u64
    requires { (at + n ≤ length s.now) × (n ≤ 8) }
    ensures { (result ≡ number_at s.now at n) × (result < 256 ^ n) }
{
    let mut r: u64 = 0;
    for byte in &s[at..at + n] {
        r = r * 256 + u64::from(*byte);
    }
    r
}

// Writes x in n bytes from place at on, the last byte first.
pub fn put_at(s: &mut [u8], at: usize, n: usize, x: u64)
    requires { at + n ≤ length s.old }
    ensures { s.new ≡ splice s.old at (big_endian n x) }
{
    let mut rest = x;
    for i in (0..n).rev() {
        s[at + i] = (rest % 256) as u8;
        rest /= 256;
    }
}

// Copies bytes into s from place at on.
// Kept for the C interface: a loop, since the library's copy asks the program for memmove, and the archives want no more of it than
// memcpy and memset (tests/c/archives.sh).
pub fn copy_at(s: &mut [u8], at: usize, bytes: &[u8])
    requires { at + length bytes.now ≤ length s.old }
    ensures { s.new ≡ splice s.old at bytes.now }
{
    for (i, b) in bytes.iter().enumerate() {
        s[at + i] = *b;
    }
}
