// Document 01's records and numbers, shared by the definitions in specs/ and by the code above.
#![tactic(auto)]

mod refusal;

pub use refusal::{Refusal, refuse, row_of};

// "M is at most 16,777,216"; "at most 16 a partition"; "64 at most".
pub const LARGEST_MEDIUM: usize = 16777216;

pub const MOST_OBJECTS: usize = 16;

pub const MOST_ENTRIES: usize = 64;

// How far, in milliseconds, a request's time may lie from the mark; and the last version that there is.
pub const TIME_WINDOW: u64 = 5000;

pub const LAST_VERSION: u32 = 4294967295;

// The step of extents ("areas" in the documents): "a new area now starts at a multiple of 16 from the quarter's start"
// (document 02, change 3).
pub const EXTENT_STEP: u32 = 16;

// The lengths of a key and of a digest.
pub const KEY_SIZE: usize = 32;

pub const DIGEST_SIZE: usize = 32;

// Credential, 36 bytes: one number for each field, in its order.
#[derive(Clone, Copy)]
pub struct Credential {
    pub magic: u16,
    pub partition: u8,
    pub slot: u8,
    pub object: u32,
    pub version: u32,
    pub rights: u16,
    pub least: u8,
    pub zero: u8,
    pub first: u32,
    pub end: u32,
    pub expiry: u64,
    pub holder: u32,
}

// Request, 28 bytes, or 32 with a group's member: one number for each field, in its order. `member` is 0 where a request has none.
#[derive(Clone, Copy)]
pub struct Request {
    pub magic: u16,
    pub operation: u8,
    pub level: u8,
    pub time: u64,
    pub count: u32,
    pub A: u32,
    pub B: u32,
    pub n: u32,
    pub member: u32,
}

// Where the parts of a frame start that stand behind its credential: request, data and digest.
#[derive(Clone, Copy)]
pub struct PartStarts {
    pub request: usize,
    pub payload: usize,
    pub digest: usize,
}

// An operation with its own arguments (document 01: "A parsed request holds its operation with that operation's own
// arguments").
#[derive(Clone, Copy)]
pub enum Operation {
    Read { offset: u32, length: u32 },
    Write { offset: u32, length: u32 },
    Look,
    Raise,
    Create { number: u32, size: u32 },
    Delete,
    SetKey { target: u32 },
    LoadTable,
}

// An object of a partition. Its extent ("area" in document 01) starts `start` bytes after its quarter's start.
#[derive(Clone, Copy)]
pub struct Object {
    pub number: u32,
    pub version: u32,
    pub size: u32,
    pub start: u32,
}

// What an operation needs (document 02, change 5: "a mask of required rights and a least level"): every right in the mask, and a
// level of at least `least`.
#[derive(Clone, Copy)]
pub struct Need {
    pub mask: u32,
    pub least: u32,
}

// An entry of a replay memory ("nonce memory" in document 01): document 01's four numbers and, since change 2 of document 02, the
// credential's object, 0 for the partition.
#[derive(Clone, Copy, PartialEq, Eq)]
pub struct Entry {
    pub slot: u32,
    pub holder: u32,
    pub time: u64,
    pub count: u32,
    pub object: u32,
}
