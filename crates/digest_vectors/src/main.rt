// The published examples of SHA-256 (FIPS 180-4) and of HMAC with it (RFC 4231), and messages at the edges of a block.
// The file `stdout` has what each must give; no value in it comes from a run of this program.
#![tactic(auto)]

ghost use Rattle.std.specs.Prelude.{◌≡◌, ◌<◌, ◌≤◌};
ghost use Rattle.digest_vectors.specs.Hex.{hex_digit, hex, count};

use std::io;
use std::io::{Print, Stdout};

// A number below 16 as a hexadecimal digit.
fn digit(x: u8) -> u8
    requires { x < 16 }
    ensures { result ≡ hex_digit x }
{
    if x < 10 { x + 48 } else { x + 87 }
}

// A digest in hexadecimal digits.
fn hex_of(d: [u8; 32]) -> [u8; 64]
    ensures { result ≡ hex d }
{
    let mut text = [0u8; 64];
    for (i, b) in d.iter().enumerate() {
        text[2 * i] = digit((*b >> 4) % 16);
        text[2 * i + 1] = digit(*b % 16);
    }
    text
}

// A line: what it is of, and the digest.
fn line(out: Stdout, label: &[u8], d: [u8; 32]) -> io::Result<()> {
    let text = hex_of(d);
    out.write_all(label)?;
    out.write_all(b" ")?;
    out.write_all(&text)?;
    out.write_all(b"\n")
}

fn sha(out: Stdout, label: &[u8], message: &[u8]) -> io::Result<()> {
    line(out, label, digest::sha256(message).unwrap_or([0; 32]))
}

fn keyed(out: Stdout, label: &[u8], key: &[u8], message: &[u8]) -> io::Result<()> {
    line(out, label, digest::hmac(key, message).unwrap_or([0; 32]))
}

// A million times the letter a, a thousand at a time.
fn million(out: Stdout) -> io::Result<()> {
    let part = [97u8; 1000];
    let mut h = sha256_stream::start();
    for _ in 0..1000 {
        h = sha256_stream::absorb(h, &part);
    }
    line(out, b"sha256 a*1000000", sha256_stream::finish(h))
}

// The bytes 0, 1, 2, ..
fn counting() -> [u8; 129]
    ensures { result ≡ count 129 }
{
    let mut b = [0u8; 129];
    for i in 0..129 {
        b[i] = i as u8;
    }
    b
}

// The examples of FIPS 180-4, and those that NIST gives beside them, by their bytes or as byte * count.
fn published(out: Stdout) -> io::Result<()> {
    sha(out, b"sha256 empty", b"")?;
    sha(out, b"sha256 abc", b"abc")?;
    sha(
        out,
        b"sha256 448 bits",
        b"abcdbcdecdefdefgefghfghighijhijkijkljklmklmnlmnomnopnopq",
    )?;
    sha(
        out,
        b"sha256 896 bits",
        b"abcdefghbcdefghicdefghijdefghijkefghijklfghijklmghijklmnhijklmnoijklmnopjklmnopqklmnopqrlmnopqrsmnopqrstnopqrstu",
    )?;
    million(out)?;
    sha(out, b"sha256 bd", &[0xbdu8])?;
    sha(out, b"sha256 c98c8e55", &[0xc9u8, 0x8c, 0x8e, 0x55])?;
    sha(out, b"sha256 00*55", &[0u8; 55])?;
    sha(out, b"sha256 00*56", &[0u8; 56])?;
    sha(out, b"sha256 00*57", &[0u8; 57])?;
    sha(out, b"sha256 00*64", &[0u8; 64])?;
    sha(out, b"sha256 00*1000", &[0u8; 1000])?;
    sha(out, b"sha256 41*1000", &[0x41u8; 1000])?;
    sha(out, b"sha256 55*1005", &[0x55u8; 1005])
}

// The digests of the bytes 0, 1, .. n - 1, for each n from one number on up to another. At the end of a block it is told where the
// length field still fits, where another block follows, and behind it. These digests are OpenSSL's.
fn edges(out: Stdout, from: usize, end: usize) -> io::Result<()>
    requires { end ≤ 130 }
{
    let b = counting();
    for n in from..end {
        out.print(format_args!("sha256 0..{n}"))?;
        sha(out, b"", &b[..n])?;
    }
    Ok(())
}

// RFC 4231, section 4. The RFC shows the first 128 bits of case 5 only; here the whole is printed.
fn rfc4231(out: Stdout) -> io::Result<()> {
    keyed(out, b"rfc4231 1", &[0x0bu8; 20], b"Hi There")?;
    keyed(out, b"rfc4231 2", b"Jefe", b"what do ya want for nothing?")?;
    keyed(out, b"rfc4231 3", &[0xaau8; 20], &[0xddu8; 50])?;
    let b = counting();
    keyed(out, b"rfc4231 4", &b[1..26], &[0xcdu8; 50])?;
    keyed(out, b"rfc4231 5", &[0x0cu8; 20], b"Test With Truncation")?;
    keyed(
        out,
        b"rfc4231 6",
        &[0xaau8; 131],
        b"Test Using Larger Than Block-Size Key - Hash Key First",
    )?;
    keyed(
        out,
        b"rfc4231 7",
        &[0xaau8; 131],
        b"This is a test using a larger than block-size key and a larger than block-size data. The key needs to be hashed before being used by the HMAC algorithm.",
    )
}

fn main(rt: HostRuntime) -> io::Result<()> {
    let out = rt.stdout();
    published(out)?;
    edges(out, 54, 66)?;
    edges(out, 118, 130)?;
    rfc4231(out)
}
