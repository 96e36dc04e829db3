// The bytes of standard input as they arrive, in a buffer.
ghost use Rattle.std.specs.Prelude.{◌+◌, ◌^◌, ◌≤◌, ◌<◌, ◌≡◌, length};
ghost use Rattle.logged.specs.Log.{count_of};
ghost use Rattle.reader.specs.Promises.{input_limit, FillMet};
ghost use Rattle.reader.specs.Arrivals.{placed_in, Within, MakeRoomMet, stop_of, after_read, ReadMet};

use super::{Intake, Stop};
use logged::ReadFailed;
use record::Arrived;
use std::io::Stdin;

// The pending bytes move to the front of the input buffer where less than this is free behind them.
const READ_SIZE: usize = 65536;

// A read brings no more than this.
const MOST_READ: usize = 0x40000000;

// A proved loop has to end, and nothing says that the input does: after so many bytes no more is read.
const INPUT_LIMIT: u64 = 0x8000000000000000;

// Why the input stops after a read, where it does. A read that failed is no end of the input: more may have been to come.
fn stop_of(got: Result<usize, ReadFailed>) -> Option<Stop>
    ensures { result ≡ stop_of got }
{
    match got {
        Ok(0) => Some(Stop::Ended),
        Ok(_) => None,
        Err(ReadFailed) => Some(Stop::Unread),
    }
}

impl Intake {
    // The same pending bytes and the same log, by places within an input buffer of `size` bytes and a log of `room` bytes.
    fn place(&mut self, size: usize, room: usize)
        ensures { self.new ≡ placed_in size room self.old }
    {
        self.to = self.to.min(size);
        self.from = self.from.min(self.to);
        self.logged = self.logged.min(room);
        self.stopped = None;
    }

    // Makes room for a read: the pending bytes stay where READ_SIZE is free behind them, else they move to the front. Where
    // nothing is pending, the whole buffer is room.
    fn make_room(&mut self, input: &mut [u8])
        requires { Within self.old input.old }
        ensures { MakeRoomMet self.old input.old self.new input.new }
    {
        if (self.from < self.to) & (input.len() - self.to >= READ_SIZE) {
            return;
        }
        input.copy_within(self.from..self.to, 0);
        self.to -= self.from;
        self.from = 0;
        self.stopped = None;
    }

    // What a read brought is pending, behind what was.
    fn after_read(&mut self, got: Result<usize, ReadFailed>)
        requires { (self.old.to + count_of got < 2 ^ 64) × (self.old.received + count_of got < 2 ^ 64) }
        ensures { self.new ≡ after_read self.old got }
    {
        let count = got.unwrap_or(0);
        self.to += count;
        self.received += count as u64;
        self.stopped = stop_of(got);
    }

    // Makes room behind the pending bytes, and reads once into it. Where they fill the buffer, the input can't be read on.
    fn read_behind(&mut self, stdin: Stdin, input: &mut [u8], inlog: &mut [u8])
        requires { Within self.old input.old × (self.old.received < input_limit) × (self.old.logged ≤ length inlog.old) }
        ensures { ReadMet self.old input.old inlog.old self.new input.new inlog.new }
    {
        self.make_room(input);
        let at = self.to;
        let room = (input.len() - at).min(MOST_READ);
        if room == 0 {
            self.stopped = Some(Stop::Unread);
            return;
        }
        let got = logged::read(stdin, &mut input[at..at + room], inlog, &mut self.logged);
        self.after_read(got);
    }

    // Where no whole record is pending, reads once behind the pending bytes.
    pub fn fill(&mut self, stdin: Stdin, most: u64, input: &mut [u8], inlog: &mut [u8])
        ensures { FillMet most self.old input.old inlog.old self.new input.new inlog.new }
    {
        self.place(input.len(), inlog.len());
        match record::arrival(&input[self.from..self.to], most) {
            Arrived::Whole { .. } => {}
            Arrived::Malformed => self.stopped = Some(Stop::Malformed),
            Arrived::Short if self.received >= INPUT_LIMIT => self.stopped = Some(Stop::Unread),
            Arrived::Short => self.read_behind(stdin, input, inlog),
        }
    }
}
