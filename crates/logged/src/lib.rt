// Standard input and output, with a log of each. What a read brought and what was handed to a write is added to a log
// that the caller lends, as far as it has room: so contracts can speak of all bytes that came in and went out, however
// many. Nothing reads a log. A program lends logs of no byte, and nothing is copied.
#![tactic(auto)]

ghost use Rattle.std.specs.Prelude.{◌≤◌, ◌≡◌, length, take, IfOk};
ghost use Rattle.logged.specs.Log.{Added, count_of};

use std::io::{ErrorKind, Read, Stdin, Stdout, Write};

// A proved loop has to end: a read that was interrupted so often has failed.
const MOST_TRIES: u64 = 0x8000000000000000;

// A read failed: more of the input may be to come.
#[derive(Clone, Copy, Debug, PartialEq, Eq)]
pub struct ReadFailed;

// Not all could be written.
#[derive(Clone, Copy, Debug, PartialEq, Eq)]
pub struct WriteFailed;

// Kept, the new form is no plainer: here and below a log and how many of its bytes are in use, which outlive the call; a struct of both
// would be lent in their place.
// Adds bytes to the log, the first `at` bytes of log or all of it where it has fewer, as far as it has room.
fn add(log: &mut [u8], at: &mut usize, bytes: &[u8])
    ensures { Added log.old at.old bytes.now log.new at.new }
{
    let end = (*at).min(log.len());
    let n = bytes.len().min(log.len() - end);
    octets::copy_to(log, end, &bytes[..n]);
    *at = end + n;
}

// One read of standard input, tried again where a signal interrupts it: how many bytes it brought.
fn read_input(mut stdin: Stdin, space: &mut [u8]) -> Result<usize, ReadFailed>
    ensures { IfOk result (λ n. n ≤ length space.new) }
{
    for _ in 0..MOST_TRIES {
        match stdin.read(space) {
            Ok(n) => return Ok(n),
            Err(e) if e.kind() == ErrorKind::Interrupted => {}
            Err(_) => return Err(ReadFailed),
        }
    }
    Err(ReadFailed)
}

// One read, logged: how many bytes it brought, 0 at the end of the input or where the space is empty. `at` is how many bytes
// the log has.
pub fn read(
    stdin: Stdin,
    space: &mut [u8],
    log: &mut [u8],
    at: &mut usize,
) -> Result<usize, ReadFailed>
    ensures { (count_of result ≤ length space.old) × Added log.old at.old (take (count_of result) space.new) log.new at.new }
{
    let got = read_input(stdin, space);
    let count = got.unwrap_or(0);
    add(log, at, &space[..count]);
    got
}

// Reads until the space is full, the input ends or a read fails: how many bytes it brought, at the start of the space. No log.
pub fn read_full(stdin: Stdin, space: &mut [u8]) -> usize
    ensures { result ≤ length space.new }
{
    let mut done: usize = 0;
    // Kept, the new form is no plainer: each turn goes on by as many bytes as its read brought, which no range or slice counts.
    while done < space.len() {
        match read_input(stdin, &mut space[done..]) {
            Ok(n) if n > 0 => done += n,
            _ => break,
        }
    }
    done
}

// Writes all bytes, or as many as can be written, and logs that they were to be written. `at` is how many bytes the log has.
pub fn write(
    mut stdout: Stdout,
    bytes: &[u8],
    log: &mut [u8],
    at: &mut usize,
) -> Result<(), WriteFailed>
    ensures { Added log.old at.old bytes.now log.new at.new }
{
    add(log, at, bytes);
    stdout.write_all(bytes).map_err(|_| WriteFailed)
}
