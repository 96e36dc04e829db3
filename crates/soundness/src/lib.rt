// Row 1 of one partition's table: each object is sound, and every two are apart.
#![tactic(auto)]

ghost use Rattle.std.specs.Prelude.{◌≡◌, ◌+◌, ◌%◌, ◌^◌, ◌<◌, ◌≤◌, true, ◌&&◌, length, slice_index};
ghost use Rattle.lemmas.specs.Tests.{◌is◌};
ghost use Rattle.rules.specs.Drive.{most_objects, sound_partition};
ghost use Rattle.state.specs.Table.{count_at, table_size, partition_view};
ghost use Rattle.soundness.specs.Spans.{ends_of, narrow_at, sound_span, sound_at, clear_at, each};

use rules::MOST_OBJECTS;
use state::{COUNT, LAST, NUMBERS, TABLE};

// Up to so many objects are compared one pair after the other. Measured, that takes fewer instructions than loops over all
// sixteen places, and from nine objects on more.
const FEW_OBJECTS: usize = 8;

// A number from 1, a nonempty extent inside the quarter, a version not over the last given. An end that wrapped is not
// over its start.
fn is_sound(number: u32, start: u32, end: u32, version: u32, quarter: u32, last: u32) -> bool
    ensures { result ≡ sound_span quarter last number start end version }
{
    (1 <= number) & (start < end) & (end <= quarter) & (version <= last)
}

// Where an extent ends. The contract also says that the size has 32 bits, which is known of a parameter alone.
fn end_of(start: u32, size: u32) -> u32
    ensures { (result ≡ (start + size) % 2 ^ 32) × (size < 2 ^ 32) }
{
    start.wrapping_add(size)
}

// Where each extent ends; a sum may wrap, but not that of a sound object.
fn ends_of(starts: &[u32; MOST_OBJECTS], sizes: &[u32; MOST_OBJECTS]) -> [u32; MOST_OBJECTS]
    ensures { (result ≡ ends_of starts.now sizes.now)
        × (each (narrow_at sizes.now) most_objects ≡ true) }
{
    let mut ends = [0; MOST_OBJECTS];
    for i in 0..MOST_OBJECTS {
        ends[i] = end_of(starts[i], sizes[i]);
    }
    ends
}

// The objects of a table by their columns: numbers, versions, where extents start, and where they end. The first `count` places are
// in use.
#[derive(Clone, Copy)]
struct Columns<'a> {
    count: usize,
    numbers: &'a [u32; MOST_OBJECTS],
    versions: &'a [u32; MOST_OBJECTS],
    starts: &'a [u32; MOST_OBJECTS],
    ends: &'a [u32; MOST_OBJECTS],
    ghost few: { count ≤ most_objects },
}

impl Columns<'_> {
    // Whether each is sound.
    fn all_sound(self, quarter: u32, last: u32) -> bool
        ensures { result ≡ each (sound_at quarter last self.entry.numbers.now self.entry.starts.now self.entry.ends.now self.entry.versions.now) self.entry.count }
    {
        let mut sound = true;
        for i in 0..self.count {
            sound &= is_sound(
                self.numbers[i],
                self.starts[i],
                self.ends[i],
                self.versions[i],
                quarter,
                last,
            );
        }
        sound
    }

    // Whether object n shares neither a number nor a byte with one before it. The loop goes to `most`, and lets the places from n
    // on pass.
    fn is_clear(self, n: usize, most: usize) -> bool
        requires { (n < most_objects) × (n ≤ most) × (most ≤ most_objects) }
        ensures { result ≡ clear_at self.entry.numbers.now self.entry.starts.now self.entry.ends.now n }
    {
        let number = self.numbers[n];
        let start = self.starts[n];
        let end = self.ends[n];
        let mut hit = false;
        for i in 0..most {
            hit |= (i < n)
                & ((self.numbers[i] == number) | ((start < self.ends[i]) & (self.starts[i] < end)));
        }
        !hit
    }

    // Whether no two clash, by one pair after the other.
    fn few_clear(self) -> bool
        ensures { result ≡ each (clear_at self.entry.numbers.now self.entry.starts.now self.entry.ends.now) self.entry.count }
    {
        let mut free = true;
        for i in 0..self.count {
            free &= self.is_clear(i, i);
        }
        free
    }

    // The same, by loops over all sixteen places, in which one that is not in use counts as clear: of loops of fixed length without
    // a branch, a compiler makes code that tests four objects at a time. An object's place is read from an array: with the bare i
    // in that test, the code was measured to take three times as many instructions.
    fn many_clear(self) -> bool
        ensures { result ≡ each (clear_at self.entry.numbers.now self.entry.starts.now self.entry.ends.now) self.entry.count }
    {
        let places = [0u32, 1, 2, 3, 4, 5, 6, 7, 8, 9, 10, 11, 12, 13, 14, 15];
        let first = self.count as u32;
        let mut free = true;
        for i in 0..MOST_OBJECTS {
            free &= (first <= places[i]) | self.is_clear(i, MOST_OBJECTS);
        }
        free
    }

    // Whether no two clash.
    fn all_clear(self) -> bool
        ensures { result ≡ each (clear_at self.entry.numbers.now self.entry.starts.now self.entry.ends.now) self.entry.count }
    {
        if self.count <= FEW_OBJECTS {
            return self.few_clear();
        }
        self.many_clear()
    }
}

// Whether a list is a table, and its partition is sound.
pub fn sound_table(table: &[u32], quarter: u32) -> bool
    ensures { (result ≡ (length table.now is table_size && sound_partition quarter (partition_view table.now)))
        × (result ≡ true → slice_index table.now count_at ≤ most_objects) }
{
    if table.len() != TABLE {
        return false;
    }
    let n = (table[COUNT] as usize).min(MOST_OBJECTS);
    let columns = table[NUMBERS..].as_chunks::<MOST_OBJECTS>().0;
    let ends = ends_of(&columns[3], &columns[2]);
    let objects = Columns {
        count: n,
        numbers: &columns[0],
        versions: &columns[1],
        starts: &columns[3],
        ends: &ends,
    };
    (table[COUNT] <= MOST_OBJECTS as u32)
        & objects.all_sound(quarter, table[LAST])
        & objects.all_clear()
}
