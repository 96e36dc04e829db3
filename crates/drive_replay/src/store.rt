// The drive that the records are put to.
ghost use Rattle.std.specs.Prelude.{◌≤◌};
ghost use Rattle.drive_replay.specs.Trace.{buffer_size};

use crate::trace::{BEHIND, Call, Cut, Format, Record, SIZE_LIMIT, Size, Trace};
use drive::Drive;
use rules::{MOST_OBJECTS, Need, Object, Refusal};
use state::{LAST, LEASTS, MASKS, TABLE};

// The medium, and the bytes behind it.
const MEDIUM_SIZE: usize = SIZE_LIMIT + BEHIND;

// How many operations a partition has needs for, operation 1 being the first.
const NEEDS: usize = LEASTS - MASKS;

const PARTITIONS: usize = keyring::PARTITIONS;

// What a record left behind: how long its reply is or its refusal, and how many bytes of reply space it had.
#[derive(Clone, Copy)]
pub struct Outcome {
    pub answer: Result<usize, Refusal>,
    pub space: usize,
    ghost space_fits: { space ≤ buffer_size },
}

// That of a record that is no call, and is not refused.
const NOTHING: Outcome = Outcome {
    answer: Ok(0),
    space: 0,
};

// A drive, M, its medium with the bytes behind it, and the reply space.
#[derive(Drop)]
pub struct Store {
    drive: Drive,
    pub size: Size,
    medium: [u8; MEDIUM_SIZE],
    reply: [u8; SIZE_LIMIT],
}

impl Store {
    // Until the first record formats it, the drive is the one that a refused format leaves.
    pub fn new() -> Store {
        Store {
            drive: drive::format(&mut [], 0, &[], &[]).drive,
            size: Size { bytes: 0 },
            medium: [0; MEDIUM_SIZE],
            reply: [0; SIZE_LIMIT],
        }
    }

    // The medium with the bytes behind it, and the reply space of a record with this outcome.
    pub fn medium(&self) -> &[u8] {
        &self.medium[..self.size.bytes + BEHIND]
    }

    pub fn space(&self, outcome: Outcome) -> &[u8] {
        &self.reply[..outcome.space]
    }

    fn format(&mut self, format: Format, trace: &Trace) -> Outcome {
        let size = format.size.bytes;
        let medium = &mut self.medium[..];
        medium[..size + BEHIND].fill(format.fill);
        let formatted = drive::format(
            &mut medium[..size],
            format.first,
            trace.master(format),
            trace.key(format),
        );
        self.drive = formatted.drive;
        self.size = format.size;
        Outcome {
            answer: formatted.answer.map(|()| 0),
            space: 0,
        }
    }

    fn call(&mut self, call: Call, trace: &Trace) -> Outcome {
        let medium = &mut self.medium[..];
        let reply = &mut self.reply[..];
        reply[..call.space].fill(call.fill);
        let answer = drive::gate(
            &mut self.drive,
            &mut medium[..call.lent],
            trace.frame(call),
            call.clock,
            &mut reply[..call.space],
        );
        Outcome {
            answer,
            space: call.space,
        }
    }

    // Puts an object behind those that a partition has, and the last version given; one for which there is no place is no
    // record.
    fn put_object(&mut self, partition: usize, object: Object, last: u32) -> Result<Outcome, Cut> {
        if partition >= PARTITIONS {
            return Err(Cut);
        }
        let from = TABLE * partition;
        let tables = &mut self.drive.tables[..];
        let table = &mut tables[from..from + TABLE];
        if state::object_count(table) >= MOST_OBJECTS {
            return Err(Cut);
        }
        state::create(table, object);
        table[LAST] = last;
        Ok(NOTHING)
    }

    // Puts what an operation needs into a partition's table; a need that no partition has is no record.
    fn put_need(&mut self, partition: usize, operation: usize, need: Need) -> Result<Outcome, Cut> {
        if partition >= PARTITIONS || operation < 1 || operation > NEEDS {
            return Err(Cut);
        }
        let at = TABLE * partition + (operation - 1);
        self.drive.tables[at + MASKS] = need.mask;
        self.drive.tables[at + LEASTS] = need.least;
        Ok(NOTHING)
    }

    // Replays the record that the trace has read last.
    pub fn replay(&mut self, record: Record, trace: &Trace) -> Result<Outcome, Cut> {
        match record {
            Record::Format(format) => Ok(self.format(format, trace)),
            Record::Call(call) => Ok(self.call(call, trace)),
            Record::Object {
                partition,
                object,
                last,
            } => self.put_object(partition, object, last),
            Record::Need {
                partition,
                operation,
                need,
            } => self.put_need(partition, operation, need),
        }
    }
}
