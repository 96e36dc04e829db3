// The program `report` (document 02, change 1): reads what `gate` reads, puts the same calls to a drive that is formatted
// the same way, and prints at the end how many calls there were of each partition and row. Its memory does not grow with
// the input.
#![tactic(auto)]

ghost use Rattle.std.specs.Prelude.{◌≡◌, map, ◌≤◌, length, ◌++◌};
ghost use Rattle.rules.specs.Program.{formatted};
ghost use Rattle.rules.specs.Report.{counter_count, count_lines, counts_from, total};
ghost use Rattle.drive.specs.Chain.{state_of};
ghost use Rattle.logged.specs.Log.{Added};
ghost use Rattle.reader.specs.Promises.{answered_row, answered_partition};
ghost use Rattle.report.specs.Promises.{at_start, counted_all, loop_state, no_counts, out_size, printed, Progress, RoundMet, RunMet, ServeMet};

use drive::Drive;
use lines::Last;
use reader::{Answered, Intake};
use std::io::{Stdin, Stdout};

// The medium, the reply space and the buffer of the output have so many bytes.
const BUFFER_SIZE: usize = 65536;

// So many answers are taken at a time.
const ANSWERS: usize = 1024;

// The program's memory, but for the drive and the logs.
#[derive(Drop)]
struct Buffers {
    medium: [u8; BUFFER_SIZE],
    input: [u8; reader::INPUT_SIZE],
    reply: [u8; BUFFER_SIZE],
    answers: [Answered; ANSWERS],
    counters: [u64; tally::COUNTERS],
    out: [u8; BUFFER_SIZE],
}

// The state between two rounds: the input, and how many calls there have been.
#[derive(Clone, Copy)]
struct Counted {
    intake: Intake,
    calls: u64,
}

// Counts calls by their rows and partitions.
fn count_all(counters: &mut [u64], answers: &[Answered])
    ensures { counters.new ≡ counted_all counters.old (map answered_row answers.now) (map answered_partition answers.now) }
{
    for answered in answers {
        tally::count(counters, answered.partition, answered.row());
    }
}

// Kept, the new form is no plainer: here and below handles, drive, counts, buffers and logs one by one, since the clauses name each.
// A round of the reader, and its calls counted.
fn round(
    stdin: Stdin,
    drive: &mut Drive,
    counted: &mut Counted,
    buffers: &mut Buffers,
    inlog: &mut [u8],
)
    requires { Progress (loop_state drive.old counted.old) buffers.old.medium buffers.old.input buffers.old.counters inlog.old }
    ensures { RoundMet (loop_state drive.old counted.old) (loop_state drive.new counted.new) buffers.new.medium buffers.new.input buffers.new.counters inlog.new }
{
    let count = reader::next(
        stdin,
        drive,
        &mut counted.intake,
        reader::MOST_FRAME,
        &mut buffers.medium,
        &mut buffers.input,
        &mut buffers.reply,
        &mut buffers.answers,
        inlog,
    );
    count_all(&mut buffers.counters, &buffers.answers[..count]);
    counted.calls += count as u64;
}

// Rounds until the input stops.
// Kept, the new form is no plainer: `gate` has such a loop too, but each over a state, buffers and a promise of its own, so
// one function for both would take a trait with all three as its ghost members, and this body is three lines.
fn serve(
    stdin: Stdin,
    drive: &mut Drive,
    counted: &mut Counted,
    buffers: &mut Buffers,
    inlog: &mut [u8],
)
    requires { (state_of drive.old buffers.old.medium ≡ formatted) × (buffers.old.counters ≡ no_counts) × (counted.old ≡ at_start) }
    ensures { ServeMet (loop_state drive.new counted.new) buffers.new.medium buffers.new.input buffers.new.counters inlog.new }
{
    loop {
        round(stdin, drive, counted, buffers, inlog);
        if counted.intake.stopped.is_some() {
            return;
        }
    }
}

// Writes the counts and then the total, and tells how many bytes the log of the output then has.
fn print(stdout: Stdout, counters: &[u64], calls: u64, out: &mut [u8], outlog: &mut [u8]) -> usize
    requires { (length counters.now ≡ counter_count) × (out_size ≤ length out.old) }
    ensures { Added outlog.old 0 (count_lines (counts_from 0 counters.now) ++ total calls) outlog.new result }
{
    let lines = tally::put_counts(counters, out, 0);
    let end = lines::put_last(out, lines, Last::Calls, calls);
    let mut logged = 0;
    // Output that can't be written ends the program as written output does.
    let _ = logged::write(stdout, &out[..end], outlog, &mut logged);
    logged
}

// The shift report, from a freshly formatted drive and counters of 0: the rounds, and then the counts of their calls. It
// returns how many bytes the log of the output has.
fn run(
    stdin: Stdin,
    stdout: Stdout,
    drive: &mut Drive,
    counted: &mut Counted,
    buffers: &mut Buffers,
    inlog: &mut [u8],
    outlog: &mut [u8],
) -> usize
    requires { (state_of drive.old buffers.old.medium ≡ formatted) × (buffers.old.counters ≡ no_counts) × (counted.old ≡ at_start) }
    ensures { RunMet (printed drive.new counted.new result) buffers.new.medium inlog.new outlog.new }
{
    serve(stdin, drive, counted, buffers, inlog);
    print(
        stdout,
        &buffers.counters,
        counted.calls,
        &mut buffers.out,
        outlog,
    )
}

fn main(rt: HostRuntime) {
    let no_answer = Answered {
        answer: Ok(0),
        partition: 0,
    };
    let mut buffers = Buffers {
        medium: [0; BUFFER_SIZE],
        input: reader::input_buffer(),
        reply: [0; BUFFER_SIZE],
        answers: [no_answer; ANSWERS],
        counters: [0; tally::COUNTERS],
        out: [0; BUFFER_SIZE],
    };
    let mut counted = Counted {
        intake: reader::start(),
        calls: 0,
    };
    let f = drive::format(&mut buffers.medium, 1, &[0u8; 32], &[1u8; 32]);
    let mut drive = f.drive;
    run(
        rt.stdin(),
        rt.stdout(),
        &mut drive,
        &mut counted,
        &mut buffers,
        &mut [],
        &mut [],
    );
}
