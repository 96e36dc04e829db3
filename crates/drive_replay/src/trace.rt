// The records of a trace on standard input; tests/model/src/bin/library.rs has their layouts.
ghost use Rattle.std.specs.Prelude.{◌≤◌, ◌+◌, ◌≡◌, ◌≢◌, IfOk};
ghost use Rattle.drive_replay.specs.Trace.{medium_size, buffer_size, key_limit, behind};

use rules::{Need, Object};
use std::io::Stdin;

// The largest frame, reply space and M, and the longest key.
pub const SIZE_LIMIT: usize = 70000;

const KEY_LIMIT: usize = 40;

// The bytes behind the medium that are filled and printed with it.
pub const BEHIND: usize = 8;

// A record's first part, which tells its kind; a format has a second part. Of a call its frame comes next.
const FIRST_PART: usize = 32;

const HEAD_SIZE: usize = 96;

// Where a format has its two keys.
const MASTER_AT: usize = 16;

const KEY_AT: usize = 56;

// The input goes on with what is no record, or with one that does not fit the buffers.
#[derive(Clone, Copy)]
pub struct Cut;

// M, the length of a medium.
#[derive(Clone, Copy)]
pub struct Size {
    pub bytes: usize,
    ghost fits: { bytes ≤ buffer_size },
}

// A format: what the medium and the bytes behind it are filled with, M, the first version, and the lengths of the master key
// and of the drive key.
#[derive(Clone, Copy)]
pub struct Format {
    pub fill: u8,
    pub size: Size,
    pub first: u32,
    pub master: usize,
    pub key: usize,
    ghost master_fits: { master ≤ key_limit },
    ghost key_fits: { key ≤ key_limit },
}

// A call: what the reply space is filled with, how many bytes of the medium are lent, the clock reading, and the lengths of
// frame and reply space.
#[derive(Clone, Copy)]
pub struct Call {
    pub fill: u8,
    pub lent: usize,
    pub clock: u64,
    pub frame: usize,
    pub space: usize,
    ghost lent_fits: { lent ≤ medium_size },
    ghost frame_fits: { frame ≤ buffer_size },
    ghost space_fits: { space ≤ buffer_size },
}

// A record; of an object the last version that its partition gave, too.
#[derive(Clone, Copy)]
pub enum Record {
    Format(Format),
    Call(Call),
    Object {
        partition: usize,
        object: Object,
        last: u32,
    },
    Need {
        partition: usize,
        operation: usize,
        need: Need,
    },
}

// The input, and the buffers that its records are read into.
#[derive(Drop)]
pub struct Trace {
    stdin: Stdin,
    head: [u8; HEAD_SIZE],
    frame: [u8; SIZE_LIMIT],
}

fn one(head: &[u8], at: usize) -> u8 {
    octets::number(head, at, 1) as u8
}

fn four(head: &[u8], at: usize) -> u32 {
    octets::number(head, at, 4) as u32
}

fn object_in(head: &[u8]) -> Record
    ensures { (c : Call) → result ≢ Record.Call c }
{
    Record::Object {
        partition: usize::from(one(head, 1)),
        object: Object {
            number: four(head, 4),
            version: four(head, 8),
            size: four(head, 12),
            start: four(head, 16),
        },
        last: four(head, 20),
    }
}

fn need_in(head: &[u8]) -> Record
    ensures { (c : Call) → result ≢ Record.Call c }
{
    Record::Need {
        partition: usize::from(one(head, 1)),
        operation: usize::from(one(head, 2)),
        need: Need {
            mask: four(head, 4),
            least: four(head, 8),
        },
    }
}

fn format_in(head: &[u8]) -> Result<Format, Cut> {
    let size = four(head, 4) as usize;
    let master = usize::from(one(head, 2));
    let key = usize::from(one(head, 3));
    if size > SIZE_LIMIT || master > KEY_LIMIT || key > KEY_LIMIT {
        return Err(Cut);
    }
    Ok(Format {
        fill: one(head, 1),
        size: Size { bytes: size },
        first: four(head, 8),
        master,
        key,
    })
}

// A call where M is `size`.
fn call_in(head: &[u8], size: Size) -> Result<Call, Cut>
    ensures { IfOk result (λ c. c.lent ≤ size.bytes + behind) }
{
    let lent = four(head, 4) as usize;
    let frame = four(head, 16) as usize;
    let space = four(head, 20) as usize;
    if lent > size.bytes + BEHIND || frame > SIZE_LIMIT || space > SIZE_LIMIT {
        return Err(Cut);
    }
    Ok(Call {
        fill: one(head, 1),
        lent,
        clock: octets::number(head, 8, 8),
        frame,
        space,
    })
}

// Reads as many bytes as there is space for.
fn read_all(stdin: Stdin, space: &mut [u8]) -> Result<(), Cut> {
    if logged::read_full(stdin, space) == space.len() {
        Ok(())
    } else {
        Err(Cut)
    }
}

impl Trace {
    pub fn new(stdin: Stdin) -> Trace {
        Trace {
            stdin,
            head: [0; HEAD_SIZE],
            frame: [0; SIZE_LIMIT],
        }
    }

    // The keys of the format that was read last, and the frame of the call.
    pub fn master(&self, format: Format) -> &[u8] {
        &self.head[MASTER_AT..MASTER_AT + format.master]
    }

    pub fn key(&self, format: Format) -> &[u8] {
        &self.head[KEY_AT..KEY_AT + format.key]
    }

    pub fn frame(&self, call: Call) -> &[u8] {
        &self.frame[..call.frame]
    }

    // Reads the next record; M is now `size`. None is at the end of the input.
    pub fn next(&mut self, size: Size) -> Result<Option<Record>, Cut>
        ensures { IfOk result (λ o. (c : Call) → o ≡ Some (Record.Call c) → c.lent ≤ size.bytes + behind) }
    {
        let stdin = self.stdin;
        let head = &mut self.head;
        let got = logged::read_full(stdin, &mut head[..FIRST_PART]);
        if got == 0 {
            return Ok(None);
        }
        if got != FIRST_PART {
            return Err(Cut);
        }
        let record = match head[0] {
            b'F' => {
                read_all(stdin, &mut head[FIRST_PART..])?;
                Record::Format(format_in(head)?)
            }
            b'C' => {
                let call = call_in(head, size)?;
                let frame = &mut self.frame[..];
                read_all(stdin, &mut frame[..call.frame])?;
                Record::Call(call)
            }
            b'O' => object_in(head),
            b'N' => need_in(head),
            _ => return Err(Cut),
        };
        Ok(Some(record))
    }
}
