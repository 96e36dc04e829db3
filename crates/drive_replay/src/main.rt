// Replays a trace against the drive, of formats, calls, and objects and needs put into the record, and prints for each record a
// line with what it left behind: row, reply length, the whole reply space, a digest of the medium and of the 8 bytes behind it.
// tests/model/src/bin/library.rs has the layouts of both. A record that does not fit the buffers, or is none, ends the output
// with the line `cut`.
//
// `stdin` is the trace that `target/model/library 59 20 stdin stdout` writes (tests/model/build makes that program), and
// `stdout` is what it expects.
#![tactic(auto)]

use output::Output;
use std::io;
use std::io::{Stdin, Stdout, Write};
use store::Store;
use trace::Trace;

mod output;
mod store;
mod trace;

// A proved loop has to end, and nothing says that the input does: after so many records the program gives up.
const RECORD_LIMIT: u64 = 0x8000000000000000;

// Replays the records of the input until it ends, and says so where it did not end after a record.
fn run(stdin: Stdin, stdout: Stdout) -> io::Result<()> {
    let mut trace = Trace::new(stdin);
    let mut store = Store::new();
    let mut out = Output::new(stdout);
    for _ in 0..RECORD_LIMIT {
        let Ok(next) = trace.next(store.size) else {
            break;
        };
        let Some(record) = next else {
            return out.flush();
        };
        let Ok(outcome) = store.replay(record, &trace) else {
            break;
        };
        out.put_line(outcome.answer, store.space(outcome), store.medium())?;
    }
    out.write_all(b"cut\n")?;
    out.flush()
}

fn main(rt: HostRuntime) -> io::Result<()> {
    run(rt.stdin(), rt.stdout())
}
