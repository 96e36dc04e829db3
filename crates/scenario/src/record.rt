// The drive's record, as the lines of a script see it and change it.
ghost use Rattle.std.specs.Prelude.{◌*◌, ◌≤◌};
ghost use Rattle.state.specs.Table.{table_size};

use crate::frames::saturated;
use crate::script::LINE_NUMBERS;
use drive::Drive;
use rules::KEY_SIZE;
use state::{COUNT, LAST, LEASTS, MASKS, NUMBERS, SIZES, STARTS, TABLE, VERSIONS};

// How many operations a partition's table has, from operation 1 on.
const OPERATIONS: u64 = (LEASTS - MASKS) as u64;

// Where the table of a partition starts among the tables; that of the last one where there is no such partition.
fn table_start(partition: u64) -> usize
    ensures { result ≤ 3 * table_size }
{
    TABLE * (partition as usize).min(3)
}

// What `record` prints: M, the mark; of partition 0 how many objects, the second one's numbers, how many entries.
pub fn summary(drive: &Drive) -> [u64; 8] {
    let t = &drive.tables;
    [
        drive.size as u64,
        drive.highwater,
        u64::from(t[COUNT]),
        u64::from(t[NUMBERS + 1]),
        u64::from(t[VERSIONS + 1]),
        u64::from(t[SIZES + 1]),
        u64::from(t[STARTS + 1]),
        drive.lengths[0] as u64,
    ]
}

// The last version that partition 0 gave, and how many objects it has.
pub fn objects(drive: &Drive) -> (u64, u64) {
    (
        u64::from(drive.tables[LAST]),
        u64::from(drive.tables[COUNT]),
    )
}

// Where the object of partition 0 starts that a number names.
pub fn start_of(drive: &Drive, number: u64) -> Option<u64> {
    let number = saturated(number, u32::MAX);
    let object = state::look_up(&drive.tables[..TABLE], number)?;
    Some(u64::from(object.start))
}

// The masks and the least levels of a partition's operation table.
pub fn needs(drive: &Drive, partition: u64) -> (&[u32], &[u32]) {
    let from = table_start(partition);
    let table = &drive.tables[from..from + TABLE];
    (&table[MASKS..LEASTS], &table[LEASTS..])
}

// The key that a partition has in a slot; zeros where none is.
pub fn key(drive: &Drive, partition: u64, slot: u64) -> [u8; KEY_SIZE] {
    let p = saturated(partition, u8::MAX);
    let (keys, _) = drive.keys.as_chunks::<KEY_SIZE>();
    keyring::key_index(saturated(slot, u8::MAX), usize::from(p))
        .and_then(|j| keys.get(j).copied())
        .unwrap_or([0; KEY_SIZE])
}

// Sets M, and of partition 0 how many objects, the second one, how many entries, as `damage` says.
pub fn damage(drive: &mut Drive, numbers: [u64; LINE_NUMBERS]) {
    let [size, count, number, version, length, start, entries, ..] = numbers;
    let t = &mut drive.tables;
    t[COUNT] = saturated(count, u32::MAX);
    t[NUMBERS + 1] = saturated(number, u32::MAX);
    t[VERSIONS + 1] = saturated(version, u32::MAX);
    t[SIZES + 1] = saturated(length, u32::MAX);
    t[STARTS + 1] = saturated(start, u32::MAX);
    drive.size = size as usize;
    drive.lengths[0] = entries as usize;
}

// Sets what an operation needs in a partition, as `need` says.
pub fn set_need(drive: &mut Drive, numbers: [u64; LINE_NUMBERS]) {
    let [partition, operation, mask, least, ..] = numbers;
    if operation < 1 || operation > OPERATIONS {
        return;
    }
    let from = table_start(partition);
    let i = (operation - 1) as usize;
    drive.tables[from + MASKS + i] = saturated(mask, u32::MAX);
    drive.tables[from + LEASTS + i] = saturated(least, u32::MAX);
}
