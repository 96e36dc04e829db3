// Row 1.
ghost use Rattle.std.specs.Prelude.{◌≡◌, true, ◌&&◌, map, ◌*◌, leb, length};
ghost use Rattle.std.specs.List.{list_all};
ghost use Rattle.lemmas.specs.Lists.{every};
ghost use Rattle.lemmas.specs.Tests.{◌is◌};
ghost use Rattle.rules.specs.Drive.{largest_medium, quarter as quarter_of, sound_partition};
ghost use Rattle.keyring.specs.Keys.{partition_count};
ghost use Rattle.memory.specs.Memory.{memory_count};
ghost use Rattle.state.specs.Table.{table_size, partition_view};
ghost use Rattle.drive.specs.View.{tables_in, objects_fit, entries_fit};

use keyring::PARTITIONS;
use rules::{LARGEST_MEDIUM, MOST_ENTRIES};
use state::TABLE;

// Whether every partition is sound; and then no count passes its places.
fn sound_tables(tables: &[u32], quarter: u32) -> bool
    requires { length tables.now ≡ partition_count * table_size }
    ensures { (result ≡ every (sound_partition quarter) (map partition_view (tables_in partition_count tables.now)))
        × (result ≡ true → every objects_fit (tables_in partition_count tables.now) ≡ true) }
{
    let mut r = true;
    for i in 0..PARTITIONS {
        let at = TABLE * i;
        r = r & soundness::sound_table(&tables[at..at + TABLE], quarter);
    }
    r
}

// Whether no memory has over 64 entries.
fn short_memories(lengths: &[usize]) -> bool
    requires { length lengths.now ≡ memory_count }
    ensures { result ≡ list_all entries_fit lengths.now }
{
    lengths.iter().all(|n| *n <= MOST_ENTRIES)
}

// Whether row 1 does not apply: of M, the tables and the memories' lengths of a record, and a medium of n bytes.
pub fn passes_row1(size: usize, tables: &[u32], lengths: &[usize], n: usize) -> bool
    requires { (length tables.now ≡ partition_count * table_size) × (length lengths.now ≡ memory_count) }
    ensures { (result ≡ (leb size largest_medium && every (sound_partition (quarter_of size)) (map partition_view (tables_in partition_count tables.now))
        && every entries_fit lengths.now && n is size))
        × (result ≡ true → every objects_fit (tables_in partition_count tables.now) ≡ true) }
{
    if size > LARGEST_MEDIUM {
        return false;
    }
    let quarter = (size / 4) as u32;
    sound_tables(tables, quarter) & short_memories(lengths) & (n == size)
}
