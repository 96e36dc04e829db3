// For bench/gate: puts each record of standard input to the gate of a freshly formatted drive, and prints at the end how
// many calls were granted and how many refused. The records are the program `gate`'s (mark 4C 49, clock, frame length,
// frame), one behind the other, but a frame may be as long as document 01 lets it. It stops where no whole record follows.
#![tactic(auto)]

use drive::Drive;
use reader::Answered;
use std::io;
use std::io::Stdin;

// Four quarters, each with room for an object of 1 MiB and fifteen of 1 KiB.
const MEDIUM_SIZE: usize = 4259840;

// The longest frame that it takes: a write of 1 MiB is shorter.
const MOST_FRAME: u64 = 1052658;

// Two of the longest records, each a head of 14 bytes and a frame: behind two writes of 1 MiB that a read brings little is
// left to be moved to the front.
const INPUT_SIZE: usize = 2105344;

// A reply with a result of 64 KiB, and its digest.
const REPLY_SIZE: usize = 65576;

// So many answers are taken at a time.
const ANSWERS: usize = 1024;

// A proved loop has to end, and nothing says that the input does: after so many rounds the program gives up.
const ROUND_LIMIT: u64 = 0x8000000000000000;

// The program's memory, but for the drive.
#[derive(Drop)]
struct Buffers {
    medium: [u8; MEDIUM_SIZE],
    input: [u8; INPUT_SIZE],
    reply: [u8; REPLY_SIZE],
    answers: [Answered; ANSWERS],
}

// The calls so far.
#[derive(Clone, Copy)]
struct Tally {
    granted: u64,
    refused: u64,
}

impl Tally {
    // These calls too.
    fn count(&mut self, answers: &[Answered]) {
        for answered in answers {
            if answered.answer.is_ok() {
                self.granted = self.granted.wrapping_add(1);
            } else {
                self.refused = self.refused.wrapping_add(1);
            }
        }
    }
}

// Rounds of the reader until the input stops.
fn run(stdin: Stdin, drive: &mut Drive, buffers: &mut Buffers) -> Tally {
    let mut intake = reader::start();
    let mut tally = Tally {
        granted: 0,
        refused: 0,
    };
    for _ in 0..ROUND_LIMIT {
        let count = reader::next(
            stdin,
            drive,
            &mut intake,
            MOST_FRAME,
            &mut buffers.medium,
            &mut buffers.input,
            &mut buffers.reply,
            &mut buffers.answers,
            &mut [],
        );
        if intake.stopped.is_some() {
            break;
        }
        tally.count(&buffers.answers[..count]);
    }
    tally
}

fn main(rt: HostRuntime) -> io::Result<()> {
    let no_answer = Answered {
        answer: Ok(0),
        partition: 0,
    };
    let mut buffers = Buffers {
        medium: [0; MEDIUM_SIZE],
        input: [0; INPUT_SIZE],
        reply: [0; REPLY_SIZE],
        answers: [no_answer; ANSWERS],
    };
    let f = drive::format(&mut buffers.medium, 1, &[0u8; 32], &[1u8; 32]);
    let mut drive = f.drive;
    let Tally { granted, refused } = run(rt.stdin(), &mut drive, &mut buffers);
    println!(rt; "{granted} granted, {refused} refused")
}
