// Format: rows 24 to 26, and a drive in which nothing is.
ghost use Rattle.std.specs.Prelude.{◌≡◌, ◌||◌, [], ◌∷◌, map, ◌*◌, length, replicate};
ghost use Rattle.lemmas.specs.Tests.{◌over◌, ◌is◌, ◌isnt◌};
ghost use Rattle.lemmas.specs.RowTable.{line, first_row};
ghost use Rattle.rules.specs.Frame.{key_size};
ghost use Rattle.rules.specs.Refusals.{answer_row};
ghost use Rattle.rules.specs.Drive.{largest_medium, empty_partition, new_drive};
ghost use Rattle.keyring.specs.Keys.{partition_count, keys_in};
ghost use Rattle.state.specs.Table.{table_size, partition_view};
ghost use Rattle.drive.specs.View.{view, tables_in};

use super::{Drive, TABLES};
use keyring::{KEYS, PARTITIONS};
use memory::{ENTRIES, MEMORIES, PLACES};
use rules::{KEY_SIZE, LARGEST_MEDIUM, Refusal, refuse};
use state::TABLE;

// Rows 24 to 26: of the lengths of the medium and of the keys lent, and the first version.
pub fn format_answer(size: usize, first: u32, master: usize, key: usize) -> Result<(), Refusal>
    ensures { answer_row result
        ≡ first_row (line 24 (size over largest_medium) ∷ line 25 (first is 0) ∷ line 26 (master isnt key_size || key isnt key_size) ∷ []) }
{
    refuse(size > LARGEST_MEDIUM, Refusal::LargeMedium)?;
    refuse(first == 0, Refusal::ZeroVersion)?;
    refuse(
        (master != KEY_SIZE) | (key != KEY_SIZE),
        Refusal::WrongKeySize,
    )
}

// Makes each of four partitions' tables one of a partition that has nothing.
fn empty_each(tables: &mut [u32], first: u32)
    requires { length tables.old ≡ partition_count * table_size }
    ensures { map partition_view (tables_in partition_count tables.new) ≡ replicate partition_count (empty_partition first) }
{
    for i in 0..PARTITIONS {
        let at = TABLE * i;
        state::empty(&mut tables[at..at + TABLE], first);
    }
}

// The tables of four partitions that have nothing.
fn empty_tables(first: u32) -> [u32; TABLES]
    ensures { map partition_view (tables_in partition_count result) ≡ replicate partition_count (empty_partition first) }
{
    let mut r = [0u32; TABLES];
    empty_each(&mut r, first);
    r
}

// The drive of a medium of so many bytes with these keys: no object exists, each partition's version is the first, the mark
// is 0.
pub fn new_drive(size: usize, first: u32, keys: [u8; KEYS]) -> Drive
    ensures { view result ≡ new_drive size (record { high_water = 0; keys = keys_in keys; partitions = replicate partition_count (empty_partition first) }) }
{
    let tables = empty_tables(first);
    Drive {
        size,
        highwater: 0,
        keys,
        tables,
        lengths: [0; MEMORIES],
        entries: [0; ENTRIES],
        times: [0; PLACES],
    }
}
