// The numbers that stay until a line sets them anew.
use crate::script::{self, Line};

// How many settings there are.
const COUNT: usize = 22;

// The words that set them, in the order in which a line goes on to the next one.
const NAMES: [&[u8]; COUNT] = [
    b"credential",
    b"slot",
    b"object",
    b"version",
    b"holder",
    b"rights",
    b"least",
    b"first",
    b"end",
    b"expiry",
    b"level",
    b"time",
    b"count",
    b"pace",
    b"clock",
    b"space",
    b"medium",
    b"sign",
    b"quiet",
    b"repeat",
    b"length",
    b"member",
];

// The place of the setting that a word sets.
pub fn place_of(word: &[u8]) -> Option<usize> {
    NAMES.iter().position(|name| *name == word)
}

// The credential's numbers, from the partition on, and the request's; the clock reading, the bytes of reply space and of the
// medium that are lent; under whose key a frame is built; whether answers are printed; how many times the next call is played;
// how many bytes of the last frame are put; the member that a group's request names.
#[derive(Clone, Copy, Default)]
pub struct Settings {
    pub partition: u64,
    pub slot: u64,
    pub object: u64,
    pub version: u64,
    pub holder: u64,
    pub rights: u64,
    pub least: u64,
    pub first: u64,
    pub end: u64,
    pub expiry: u64,
    pub level: u64,
    pub time: u64,
    pub count: u64,
    pub pace: u64,
    pub clock: u64,
    pub space: u64,
    pub medium: u64,
    pub sign: u64,
    pub quiet: u64,
    pub repeat: u64,
    pub length: u64,
    pub member: u64,
}

impl Settings {
    // Sets the number at a place.
    fn set(&mut self, place: usize, x: u64) {
        match place {
            0 => self.partition = x,
            1 => self.slot = x,
            2 => self.object = x,
            3 => self.version = x,
            4 => self.holder = x,
            5 => self.rights = x,
            6 => self.least = x,
            7 => self.first = x,
            8 => self.end = x,
            9 => self.expiry = x,
            10 => self.level = x,
            11 => self.time = x,
            12 => self.count = x,
            13 => self.pace = x,
            14 => self.clock = x,
            15 => self.space = x,
            16 => self.medium = x,
            17 => self.sign = x,
            18 => self.quiet = x,
            19 => self.repeat = x,
            20 => self.length = x,
            21 => self.member = x,
            _ => {}
        }
    }

    // Sets as many numbers as the line has, from a place on.
    pub fn set_from(&mut self, first: usize, line: Line) {
        for (place, word) in (first..COUNT).zip(line.words().take(script::LINE_NUMBERS)) {
            self.set(place, script::number(word));
        }
    }
}
