// The functions of FIPS 180-4, section 4.1.2, on words of 32 bits, and words as four bytes.
ghost use Rattle.std.specs.Prelude.{◌≡◌, ◌+◌, ◌*◌, ◌^◌, ◌≤◌, length, drop};
ghost use Rattle.lemmas.specs.BigEndian.{number_at};
ghost use Rattle.sha256_block.specs.Sha256.{Ch, Maj, Σ₀, Σ₁, σ₀, σ₁};

// Of each bit of `x`: that of `y` where it is 1, that of `z` where it is 0.
pub fn ch(x: u32, y: u32, z: u32) -> u32
    ensures { result ≡ Ch x y z }
{
    ((y ^ z) & x) ^ z
}

// Each bit that two or three of the words have. The next round has `x ^ y` again, as its `y ^ z`.
pub fn maj(x: u32, y: u32, z: u32) -> u32
    ensures { result ≡ Maj x y z }
{
    ((x ^ y) & (y ^ z)) ^ y
}

// Kept, the new form is no plainer: the standard names four functions here, which differ in the numbers of bits alone; one with
// these numbers as const parameters would have to be told them, and which function it is, at each call.
// Rotates by 2, 13 and 22.
pub fn big0(x: u32) -> u32
    ensures { result ≡ Σ₀ x }
{
    x.rotate_right(2) ^ x.rotate_right(13) ^ x.rotate_right(22)
}

// Rotates by 6, 11 and 25.
pub fn big1(x: u32) -> u32
    ensures { result ≡ Σ₁ x }
{
    x.rotate_right(6) ^ x.rotate_right(11) ^ x.rotate_right(25)
}

// Rotates by 7 and 18 and a shift by 3.
pub fn small0(x: u32) -> u32
    ensures { result ≡ σ₀ x }
{
    x.rotate_right(7) ^ x.rotate_right(18) ^ (x >> 3)
}

// Rotates by 17 and 19 and a shift by 10.
pub fn small1(x: u32) -> u32
    ensures { result ≡ σ₁ x }
{
    x.rotate_right(17) ^ x.rotate_right(19) ^ (x >> 10)
}

// The word whose four bytes, the highest first, stand at `at`.
pub fn word_at(s: &[u8], at: usize) -> u32
    requires { at + 4 ≤ length s.now }
    ensures { result ≡ number_at (drop at s.now) 0 4 }
{
    u32::from_be_bytes([s[at], s[at + 1], s[at + 2], s[at + 3]])
}
