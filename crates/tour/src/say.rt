// What the tour prints: a line for each step.
use rules::{Refusal, row_of};
use std::io;
use std::io::{Print, Stdout};

fn print_row(out: Stdout, what: &[u8], row: u32) -> io::Result<()> {
    out.write_all(what)?;
    out.print(format_args!(": row {row}"))
}

// A result of four bytes is a version; a longer one here is a shape.
fn print_result(out: Stdout, res: &[u8]) -> io::Result<()> {
    match res.len() {
        0..4 => Ok(()),
        4 => {
            let version = records::decode_version(res).version;
            out.print(format_args!(", version {version}"))
        }
        _ => {
            out.write_all(b", the shape is '")?;
            out.write_all(res)?;
            out.write_all(b"'")
        }
    }
}

pub fn format(out: Stdout, answer: Result<(), Refusal>) -> io::Result<()> {
    print_row(out, b"format a drive of 400 bytes", row_of(answer))?;
    out.write_all(b"\n")
}

// The row, and what stands in a good reply.
pub fn step(out: Stdout, what: &[u8], answer: Result<&[u8], Refusal>) -> io::Result<()> {
    match answer {
        Ok(res) => {
            print_row(out, what, 0)?;
            out.write_all(b", reply good")?;
            print_result(out, res)?;
        }
        Err(refusal) => {
            print_row(out, what, refusal.row())?;
            out.write_all(b", no reply")?;
        }
    }
    out.write_all(b"\n")
}
