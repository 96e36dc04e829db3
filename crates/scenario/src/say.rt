// The lines that are printed.
use std::io;
use std::io::{Print, Stdout};

// Two hexadecimal digits a byte.
fn print_bytes(out: Stdout, bytes: &[u8]) -> io::Result<()> {
    for x in bytes {
        out.print(format_args!("{x:02x}"))?;
    }
    Ok(())
}

// A line of text as it is.
pub fn line(out: Stdout, text: &[u8]) -> io::Result<()> {
    out.write_all(text)?;
    out.write_all(b"\n")
}

// A line that the player does not know.
pub fn error(out: Stdout, text: &[u8]) -> io::Result<()> {
    out.write_all(b"error: ")?;
    line(out, text)
}

pub fn number(out: Stdout, label: &[u8], x: u64) -> io::Result<()> {
    numbers(out, label, &[x])
}

// Numbers in one line.
pub fn numbers(out: Stdout, label: &[u8], xs: &[u64]) -> io::Result<()> {
    out.write_all(label)?;
    out.write_all(b":")?;
    for x in xs {
        out.print(format_args!(" {x}"))?;
    }
    out.write_all(b"\n")
}

// What each operation needs: its mask and its least level.
pub fn needs(out: Stdout, label: &[u8], masks: &[u32], leasts: &[u32]) -> io::Result<()> {
    out.write_all(label)?;
    out.write_all(b":")?;
    for (mask, least) in masks.iter().zip(leasts) {
        out.print(format_args!(" {mask} {least}"))?;
    }
    out.write_all(b"\n")
}

pub fn bytes(out: Stdout, label: &[u8], b: &[u8]) -> io::Result<()> {
    out.write_all(label)?;
    out.write_all(b": ")?;
    print_bytes(out, b)?;
    out.write_all(b"\n")
}

// A call's line: what it is, its row, and the reply where there is one.
pub fn answer(out: Stdout, label: &[u8], row: u32, reply: &[u8]) -> io::Result<()> {
    if reply.is_empty() {
        return number(out, label, u64::from(row));
    }
    out.write_all(label)?;
    out.print(format_args!(": {row} "))?;
    print_bytes(out, reply)?;
    out.write_all(b"\n")
}
