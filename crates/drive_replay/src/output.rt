// The output, gathered in a buffer.
ghost use Rattle.std.specs.Prelude.{◌≤◌};

use rules::{DIGEST_SIZE, Refusal, row_of};
use std::io;
use std::io::{Stdout, Write};

// So many bytes of output are gathered before they are written.
const SIZE: usize = 65536;

const DIGITS: [u8; 16] = *b"0123456789abcdef";

// The first `used` bytes are not written yet.
#[derive(Drop)]
pub struct Output {
    stdout: Stdout,
    bytes: [u8; SIZE],
    used: usize,
    ghost in_range: { used ≤ 65536 },
}

impl Output {
    pub fn new(stdout: Stdout) -> Output {
        Output {
            stdout,
            bytes: [0; SIZE],
            used: 0,
        }
    }

    // Two hexadecimal digits a byte.
    fn put_hex(&mut self, bytes: &[u8]) -> io::Result<()> {
        for x in bytes {
            let high = DIGITS[usize::from(*x / 16)];
            let low = DIGITS[usize::from(*x % 16)];
            self.write_all(&[high, low])?;
        }
        Ok(())
    }

    // A record's line: row, reply length, reply space or `-` where it has no byte, digest of the medium and the bytes behind it.
    pub fn put_line(
        &mut self,
        answer: Result<usize, Refusal>,
        space: &[u8],
        medium: &[u8],
    ) -> io::Result<()> {
        let row = row_of(answer);
        let replied = answer.unwrap_or(0);
        write!(self, "{row} {replied} ")?;
        if space.is_empty() {
            self.write_all(b"-")?;
        }
        self.put_hex(space)?;
        self.write_all(b" ")?;
        // No medium here is too long for a digest.
        self.put_hex(&digest::sha256(medium).unwrap_or([0; DIGEST_SIZE]))?;
        self.write_all(b"\n")
    }
}

impl Write for Output {
    // A full buffer is written before the next byte goes in.
    fn write(&mut self, bytes: &[u8]) -> io::Result<usize> {
        if self.used == SIZE {
            self.flush()?;
        }
        let from = self.used;
        let n = bytes.len().min(SIZE - from);
        let buffer = &mut self.bytes[..];
        buffer[from..from + n].copy_from_slice(&bytes[..n]);
        self.used = from + n;
        Ok(n)
    }

    // Writes the bytes that are not written yet.
    fn flush(&mut self) -> io::Result<()> {
        let n = self.used;
        self.stdout.write_all(&self.bytes[..n])?;
        self.used = 0;
        Ok(())
    }
}
