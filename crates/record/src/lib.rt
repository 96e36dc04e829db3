// One input record of a program (document 01: mark 4C 49, clock, frame length, frame). most: the longest frame that the
// program takes, in bytes.
#![tactic(auto)]

ghost use Rattle.std.specs.Prelude.{◌≡◌};
ghost use Rattle.record.specs.Arrival.{malformed, facts_of, record_facts};

const MAGIC: u64 = 0x4c49;

// Where the clock, the frame's length and the frame start: a mark of two bytes, a clock of eight, a length of four.
const CLOCK_START: usize = 2;

const LENGTH_START: usize = CLOCK_START + 8;

pub const HEAD_SIZE: usize = LENGTH_START + 4;

// What is known of an input record from those of its bytes that have arrived.
#[derive(Clone, Copy, Debug, PartialEq, Eq)]
pub enum Arrived {
    // All of it: the frame is the size bytes after the head. Bytes of later input records may follow.
    Whole { clock: u64, size: usize },
    // It is none, whatever comes: another mark, or too long a frame.
    Malformed,
    // More of it must be read. Where the input has ended, it is cut off, or there is none.
    Short,
}

// Whether this is no input record, by the bytes that are there already.
pub fn is_malformed(input: &[u8], most: u64) -> bool
    ensures { result ≡ malformed most input.now }
{
    ((input.len() >= CLOCK_START) & (octets::number(input, 0, CLOCK_START) != MAGIC))
        | ((input.len() >= HEAD_SIZE) & (octets::number(input, LENGTH_START, 4) > most))
}

// The input record that starts where input does.
pub fn arrival(input: &[u8], most: u64) -> Arrived
    ensures { facts_of result ≡ record_facts most input.now }
{
    if is_malformed(input, most) {
        return Arrived::Malformed;
    }
    if input.len() < HEAD_SIZE {
        return Arrived::Short;
    }
    let size = octets::number(input, LENGTH_START, 4);
    if ((input.len() - HEAD_SIZE) as u64) < size {
        return Arrived::Short;
    }
    let clock = octets::number(input, CLOCK_START, 8);
    Arrived::Whole {
        clock,
        size: size as usize,
    }
}
