// The records of standard input, put to the gate of a drive: the one loop under every program that reads records
// (document 01, "Client end"; document 02, change 1). A call of `next` is a round of it. What a program makes of the answers
// is its own.
#![tactic(auto)]

mod answers;
mod arrivals;
mod whole;

ghost use Rattle.std.specs.Prelude.{◌≡◌, ◌≤◌, length, replicate};
ghost use Rattle.reader.specs.Promises.{answered_length, answered_row, input_size, NextMet, nothing_read};

use drive::Drive;
use rules::Refusal;
use std::io::Stdin;

// Document 01's longest frame of a program's input record.
pub const MOST_FRAME: u64 = 65536;

// The input buffer of a program with such frames: the longest input record, and a whole read behind it.
pub const INPUT_SIZE: usize = 131086;

// Why the input stops: it has ended, what comes is no input record whatever follows, it can't be read on.
#[derive(Clone, Copy, Debug, PartialEq, Eq)]
pub enum Stop {
    Ended,
    Malformed,
    Unread,
}

// The bytes of the input buffer from `from` up to `to` have been read and not answered; so many bytes were read in all, so
// many of them the log has; and why the input stops, where it does.
#[derive(Clone, Copy)]
pub struct Intake {
    pub from: usize,
    pub to: usize,
    pub received: u64,
    pub logged: usize,
    pub stopped: Option<Stop>,
}

// The gate's answer to a call, its reply's length or the refusal; and the partition that its credential names.
#[derive(Clone, Copy)]
pub struct Answered {
    pub answer: Result<usize, Refusal>,
    pub partition: u8,
}

impl Answered {
    // Its row, 0 of a grant.
    pub fn row(self) -> u32
        ensures { result ≡ answered_row self }
    {
        rules::row_of(self.answer)
    }

    // Its reply's length, 0 where it is refused.
    pub fn length(self) -> usize
        ensures { result ≡ answered_length self }
    {
        self.answer.unwrap_or(0)
    }
}

// An input buffer of zeros.
pub fn input_buffer() -> [u8; INPUT_SIZE]
    ensures { result ≡ replicate input_size 0 }
{
    [0; INPUT_SIZE]
}

// Nothing has been read.
pub fn start() -> Intake
    ensures { result ≡ nothing_read }
{
    Intake {
        from: 0,
        to: 0,
        received: 0,
        logged: 0,
        stopped: None,
    }
}

// Puts the whole records that have been read to the gate, in order, as many as there is room for answers, and returns how
// many there were. It reads, once, only where no record is whole: so all that has arrived is answered before it waits. A
// frame of more than `most` bytes makes no record.
// Kept, the new form is no plainer: of a struct that holds the lent buffers each contract would have to say, buffer by
// buffer, that the struct still holds the same one (`b.new.input.ghost_name ≡ b.old.input.ghost_name`).
pub fn next(
    stdin: Stdin,
    drive: &mut Drive,
    intake: &mut Intake,
    most: u64,
    medium: &mut [u8],
    input: &mut [u8],
    reply: &mut [u8],
    answers: &mut [Answered],
    inlog: &mut [u8],
) -> usize
    ensures met { NextMet drive.old intake.old most medium.old input.old reply.old answers.old inlog.old (record { drive = drive.new; intake = intake.new; count = result }) medium.new input.new reply.new answers.new inlog.new }
    ensures room { result ≤ length answers.new }
{
    intake.fill(stdin, most, input, inlog);
    if intake.stopped.is_some() {
        return 0;
    }
    let pending = &input[intake.from..intake.to];
    let taken = answers::answer(drive, most, medium, pending, reply, answers);
    intake.from += taken.bytes;
    taken.calls
}
