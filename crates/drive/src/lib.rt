// The drive of document 01: its record, format and the gate.
#![tactic(auto)]

ghost use Rattle.std.specs.Prelude.{◌≡◌};
ghost use Rattle.rules.specs.Refusals.{answer_length, answer_row};
ghost use Rattle.drive.specs.Met.{call_of, FormatMet, GateMet};
ghost use Rattle.drive.specs.Lent.{answer_with, formatted_with};

use keyring::{KEYS, PARTITIONS};
use memory::{ENTRIES, MEMORIES, PLACES};
use rules::Refusal;
use state::TABLE;

mod admission;
mod formatting;
pub mod lent;
mod replay;
mod row1;

// The numbers of all partitions' tables.
pub const TABLES: usize = PARTITIONS * TABLE;

// A drive's record. Nothing is asked of one that is put to the gate: row 1 refuses one that is not sound.
// `size` is the medium's length M, `highwater` document 01's mark. Everything else is in arrays of numbers, which can be lent:
// the keys as `keyring` has them; the partitions' tables, one after the other, as `state` has them; and the five replay
// memories (0 to 3 are the partitions', 4 is that of slots 3 and 4): memory m has lengths[m] entries, in order of grant, from
// place 64 × m on, as `memory` has them: their numbers in `entries`, their times in `times`.
// Kept for the C interface: it lends these parts one by one (include/sievelast_store.h), so they are arrays beside one another.
#[derive(Drop)]
pub struct Drive {
    pub size: usize,
    pub highwater: u64,
    pub keys: [u8; KEYS],
    pub tables: [u32; TABLES],
    pub lengths: [usize; MEMORIES],
    pub entries: [u32; ENTRIES],
    pub times: [u64; PLACES],
}

// What format answers, and the drive: refused, one that has nothing.
#[derive(Drop)]
pub struct Formatted {
    pub answer: Result<(), Refusal>,
    pub drive: Drive,
}

// Makes a medium a drive's: every byte becomes 0. Refused, the medium stays as it is, and the drive returned has nothing.
pub fn format(medium: &mut [u8], first: u32, master: &[u8], key: &[u8]) -> Formatted
    ensures { FormatMet medium.old first master.now key.now
        (formatted_with (answer_row result.answer) result.drive) medium.new }
{
    let size = medium.len();
    if let Err(refusal) = formatting::format_answer(size, first, master.len(), key.len()) {
        let drive = formatting::new_drive(0, 0, [0; KEYS]);
        return Formatted {
            answer: Err(refusal),
            drive,
        };
    }
    extent::clear_all(medium);
    let keys = keyring::new_keys(master, key);
    let drive = formatting::new_drive(size, first, keys);
    Formatted {
        answer: Ok(()),
        drive,
    }
}

// Puts a frame to the drive at a clock reading, in place: a grant, its reply at the start of `reply`, whose length is the answer;
// or a refusal.
pub fn gate(
    drive: &mut Drive,
    medium: &mut [u8],
    frame: &[u8],
    clock: u64,
    reply: &mut [u8],
) -> Result<usize, Refusal>
    ensures { GateMet drive.old medium.old (call_of frame.now clock reply.old)
        (answer_with (answer_row result) (answer_length result) drive.new) medium.new reply.new }
{
    lent::gate(
        drive.size,
        &mut drive.highwater,
        &mut drive.keys,
        &mut drive.tables,
        &mut drive.lengths,
        &mut drive.entries,
        &mut drive.times,
        medium,
        frame,
        clock,
        reply,
    )
}
