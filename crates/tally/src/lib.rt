// Counts of calls by place and row (document 02, change 1), in a lent array of counters.
#![tactic(auto)]

ghost use Rattle.std.specs.Prelude.{◌≡◌};
ghost use Rattle.lines.specs.Text.{TextPut};
ghost use Rattle.rules.specs.Report.{place_of};
ghost use Rattle.tally.specs.Tally.{no_counter, Counted, counter_text, CountersPut};

// Partitions 0 to 3, and then none: the place of the calls that rows 1 to 4 refused.
const PLACES: usize = 5;

// Kept for what may not change: rules' report numbers the places and has 4 for none (Report: place_name, place_of).
const NONE: usize = 4;
// The rows of a place, from 0.
const ROWS: usize = 42;
// The counters: the one at i is of place i / 42 and row i % 42.
pub const COUNTERS: usize = PLACES * ROWS;

// Counts a call that got the row, under the place of the row and of its frame's partition byte. Returns false, and counts
// nothing, where there is no such counter, where the counter is full, or where the array has not COUNTERS counters.
pub fn count(counters: &mut [u64], partition: u8, row: u32) -> bool
    ensures { Counted counters.old (place_of row partition) row result counters.new }
{
    let place = place_of(row, partition);
    if no_counter(counters.len(), place, row as usize) {
        return false;
    }
    let i = place * ROWS + row as usize;
    let n = counters[i];
    if n == u64::MAX {
        return false;
    }
    counters[i] = n + 1;
    true
}

// Where a call counts that got the row.
fn place_of(row: u32, partition: u8) -> usize
    ensures { result ≡ place_of row partition }
{
    if (row > 0) & (row < 5) {
        NONE
    } else {
        partition as usize
    }
}

// Whether an array of len counters has none of the place and the row.
fn no_counter(len: usize, place: usize, row: usize) -> bool
    ensures { result ≡ no_counter len place row }
{
    (len != COUNTERS) | (place > NONE) | (row >= ROWS)
}

// Kept, the new form is no plainer: here and below a space and a place in it, as `lines` has them.
// Writes a line for each counter that is not 0, in order, into space from place `at` on, and returns the place after
// the last; a line that does not fit is left out.
pub fn put_counts(counters: &[u64], space: &mut [u8], at: usize) -> usize
    ensures { CountersPut counters.now space.old at result space.new }
{
    let mut end = at;
    for (i, n) in counters.iter().enumerate() {
        end = put_counter(space, end, i, *n);
    }
    end
}

// The same of the counter at i, which is n.
fn put_counter(space: &mut [u8], at: usize, i: usize, n: u64) -> usize
    ensures { TextPut space.old at (counter_text i n) result space.new }
{
    if n == 0 {
        return at;
    }
    lines::put_count(space, at, (i / ROWS) as u64, (i % ROWS) as u64, n)
}
