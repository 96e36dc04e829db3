// The gate over a drive's record whose parts the caller lends and keeps: nothing of it is copied in or out.
ghost use Rattle.std.specs.Prelude.{◌≡◌};
ghost use Rattle.rules.specs.Refusals.{answer_row, answer_length};
ghost use Rattle.drive.specs.Met.{call_of, GateMet};
ghost use Rattle.drive.specs.Lent.{record_of, answer_with};

use super::{TABLES, admission, replay, row1};
use judge::ScopeFacts;
use keyring::KEYS;
use memory::{ENTRIES, MEMORIES, PLACES};
use rules::Refusal;
use state::TABLE;

// Puts a frame to the drive of these parts at a clock reading, in place: the reply's length, or the refusal. Whatever they hold, row 1
// refuses what is not sound and leaves it.
// Kept for the C interface: it lends the parts of a record one by one (include/sievelast_store.h), so they are parameters here.
pub fn gate(
    size: usize,
    highwater: &mut u64,
    keys: &mut [u8; KEYS],
    tables: &mut [u32; TABLES],
    lengths: &mut [usize; MEMORIES],
    entries: &mut [u32; ENTRIES],
    times: &mut [u64; PLACES],
    medium: &mut [u8],
    frame: &[u8],
    clock: u64,
    reply: &mut [u8],
) -> Result<usize, Refusal>
    ensures { GateMet
        (record_of size highwater.old keys.old tables.old lengths.old entries.old times.old)
        medium.old (call_of frame.now clock reply.old)
        (answer_with (answer_row result) (answer_length result)
        (record_of size highwater.new keys.new tables.new lengths.new entries.new times.new))
        medium.new reply.new }
{
    if !row1::passes_row1(size, tables, lengths, medium.len()) {
        return Err(Refusal::UnsoundDrive);
    }
    let mark = (*highwater).max(clock);
    *highwater = mark;
    replay::drop_outlived(lengths, entries, times, mark);
    let parsed = wire::parse(frame);
    let Ok(fields) = parsed else {
        return parsed.and(Ok(0));
    };
    let c = fields.credential;
    let k = admission::memory_of(c);
    let nonce = judge::entry_of(c, fields.request);
    let replayed = replay::is_replayed(lengths, entries, times, k, nonce);
    let held = lengths[k];
    let facts = ScopeFacts {
        size,
        highwater: mark,
        replayed,
        held,
    };
    let at = TABLE * c.partition as usize;
    let end = at + TABLE;
    let table = &tables[at..end];
    let given = admission::admit(facts, keys, table, medium, frame, reply, fields)?;
    admission::change_keys(keys, frame, given.key, fields);
    admission::change_table(&mut tables[at..end], frame, given, fields);
    replay::enter(lengths, entries, times, k, nonce);
    Ok(given.length)
}
