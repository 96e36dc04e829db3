// The program `gate` (document 01, "Client end"): puts each input record of standard input to the gate of a freshly
// formatted drive, and prints a line for each. All records that have arrived whole are answered, and their lines
// written, before it waits for more; it reads and writes by buffers, and its memory does not grow with the input.
#![tactic(auto)]

ghost use Rattle.std.specs.Prelude.{◌≡◌, Ok, cond, map, ◌+◌, ◌*◌, ◌^◌, ◌≤◌, ◌<◌, length, take};
ghost use Rattle.rules.specs.Program.{cut, formatted};
ghost use Rattle.rules.specs.Program.{ended as program_ended};
ghost use Rattle.drive.specs.Chain.{state_of};
ghost use Rattle.logged.specs.Log.{Added};
ghost use Rattle.reader.specs.Promises.{answered_row, answered_length};
ghost use Rattle.gate.specs.Promises.{at_start, lines_of, line_size, loop_state, Progress, RoundMet, ServeMet, RunMet, has_ended};

use drive::Drive;
use lines::Last;
use logged::WriteFailed;
use reader::{Answered, Intake, Stop};
use std::io::{Stdin, Stdout};

// The medium, the reply space and the buffer of the output have so many bytes.
const BUFFER_SIZE: usize = 65536;

// So many answers are taken at a time.
const ANSWERS: usize = 1024;

// The program's memory, but for the drive and the logs.
#[derive(Drop)]
struct Buffers {
    medium: [u8; BUFFER_SIZE],
    input: [u8; reader::INPUT_SIZE],
    reply: [u8; BUFFER_SIZE],
    answers: [Answered; ANSWERS],
    out: [u8; BUFFER_SIZE],
}

// The state between two rounds: the input, how many calls there have been, how many bytes the log of the output has.
#[derive(Clone, Copy)]
struct Served {
    intake: Intake,
    calls: u64,
    logged: usize,
}

// Puts the lines of the calls after the first n at the start of out.
fn put_lines(out: &mut [u8], n: u64, answers: &[Answered]) -> usize
    requires { (length answers.now * line_size ≤ length out.old) × (n + length answers.now < 2 ^ 64) }
    ensures { (result ≤ length out.old) × (take result out.new ≡ lines_of n (map answered_row answers.now) (map answered_length answers.now)) }
{
    let mut put = 0;
    for (i, answered) in answers.iter().enumerate() {
        let number = n + i as u64 + 1;
        put = lines::put_line(out, put, number, answered.row(), answered.length());
    }
    put
}

// Kept, the new form is no plainer: here and below handles, drive, counts, buffers and logs one by one, since the clauses name each.
// A round of the reader, and the lines of its calls.
fn round(
    stdin: Stdin,
    stdout: Stdout,
    drive: &mut Drive,
    served: &mut Served,
    buffers: &mut Buffers,
    inlog: &mut [u8],
    outlog: &mut [u8],
) -> Result<(), WriteFailed>
    requires { Progress (loop_state drive.old served.old (Ok tt)) buffers.old.medium buffers.old.input inlog.old outlog.old }
    ensures { RoundMet (loop_state drive.old served.old (Ok tt)) (loop_state drive.new served.new result) buffers.new.medium buffers.new.input inlog.new outlog.new }
{
    let count = reader::next(
        stdin,
        drive,
        &mut served.intake,
        reader::MOST_FRAME,
        &mut buffers.medium,
        &mut buffers.input,
        &mut buffers.reply,
        &mut buffers.answers,
        inlog,
    );
    let answers = &buffers.answers[..count];
    let put = put_lines(&mut buffers.out, served.calls, answers);
    served.calls += count as u64;
    logged::write(stdout, &buffers.out[..put], outlog, &mut served.logged)
}

// Rounds until the input stops or the output can't be written.
// Kept, the new form is no plainer: `report` has such a loop too, but each over a state, buffers and a promise of its own, so
// one function for both would take a trait with all three as its ghost members, and this body is three lines.
fn serve(
    stdin: Stdin,
    stdout: Stdout,
    drive: &mut Drive,
    served: &mut Served,
    buffers: &mut Buffers,
    inlog: &mut [u8],
    outlog: &mut [u8],
) -> Result<(), WriteFailed>
    requires { (state_of drive.old buffers.old.medium ≡ formatted) × (served.old ≡ at_start) }
    ensures { ServeMet (loop_state drive.new served.new result) buffers.new.medium buffers.new.input inlog.new outlog.new }
{
    loop {
        round(stdin, stdout, drive, served, buffers, inlog, outlog)?;
        if served.intake.stopped.is_some() {
            return Ok(());
        }
    }
}

// Whether the input has ended behind a whole record. A failed read is no end of it: more may have been to come.
fn has_ended(t: Intake) -> bool
    ensures { result ≡ has_ended t }
{
    matches!(t.stopped, Some(Stop::Ended)) && t.from == t.to
}

// Writes the last line, `end` where the input has ended behind a whole record, else `cut`. `at` is how many bytes the log of
// the output has.
fn finish(
    stdout: Stdout,
    out: &mut [u8],
    ended: bool,
    calls: u64,
    outlog: &mut [u8],
    at: &mut usize,
) -> Result<(), WriteFailed>
    requires { line_size ≤ length out.old }
    ensures { Added outlog.old at.old (cond ended (program_ended calls) (cut calls)) outlog.new at.new }
{
    let last = if ended { Last::End } else { Last::Cut };
    let n = lines::put_last(out, 0, last, calls);
    logged::write(stdout, &out[..n], outlog, at)
}

// Document 01's program, from a freshly formatted drive: the rounds, and then the last line.
fn run(
    stdin: Stdin,
    stdout: Stdout,
    drive: &mut Drive,
    served: &mut Served,
    buffers: &mut Buffers,
    inlog: &mut [u8],
    outlog: &mut [u8],
) -> Result<(), WriteFailed>
    requires { (state_of drive.old buffers.old.medium ≡ formatted) × (served.old ≡ at_start) }
    ensures { RunMet (loop_state drive.new served.new result) buffers.new.medium inlog.new outlog.new }
{
    serve(stdin, stdout, drive, served, buffers, inlog, outlog)?;
    let ended = has_ended(served.intake);
    // That the last line could not be written changes nothing more.
    let _ = finish(
        stdout,
        &mut buffers.out,
        ended,
        served.calls,
        outlog,
        &mut served.logged,
    );
    Ok(())
}

fn main(rt: HostRuntime) {
    let no_answer = Answered {
        answer: Ok(0),
        partition: 0,
    };
    let mut buffers = Buffers {
        medium: [0; BUFFER_SIZE],
        input: reader::input_buffer(),
        reply: [0; BUFFER_SIZE],
        answers: [no_answer; ANSWERS],
        out: [0; BUFFER_SIZE],
    };
    let mut served = Served {
        intake: reader::start(),
        calls: 0,
        logged: 0,
    };
    let f = drive::format(&mut buffers.medium, 1, &[0u8; 32], &[1u8; 32]);
    let mut drive = f.drive;
    // Output that can't be written ends the program as the input's end does.
    let _ = run(
        rt.stdin(),
        rt.stdout(),
        &mut drive,
        &mut served,
        &mut buffers,
        &mut [],
        &mut [],
    );
}
