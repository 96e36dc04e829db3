// A replay memory (document 01's nonce memory) in two lent slices: `entries` has the numbers of its entries, ENTRY for each, one
// behind the other; `times` has their times, in a row of their own, so that a pass over all of them is quick. Everything is
// total: there are as many entries as both slices have whole.
// Kept for the C interface: the caller lends both rows as arrays of numbers (include/sievelast_store.h), so an entry is no struct there.
#![tactic(auto)]

ghost use Rattle.std.specs.Prelude.{◌≡◌, ℕ, ◌+◌, ◌-◌, ◌*◌, ◌<◌, ◌≤◌, true, false, length, take, nat_lt, slice_index_or, slice_set};
ghost use Rattle.std.specs.List.{list_any, zip};
ghost use Rattle.lemmas.specs.Lists.{some?, splice};
ghost use Rattle.rules.specs.Drive.{time_window, same_entry};
ghost use Rattle.memory.specs.Memory.{entry_size, numbers_of, no_entry, entries_in, entry_of, whole_entries, Purged, Entered};

use rules::{Entry, MOST_ENTRIES, TIME_WINDOW};

// How many memories a drive has, and how many places for entries all of them together.
pub const MEMORIES: usize = 5;

pub const PLACES: usize = MEMORIES * MOST_ENTRIES;

// How many numbers an entry has beside its time: slot, holder, count, object. And how many all places together.
pub const ENTRY: usize = 4;

pub const ENTRIES: usize = PLACES * ENTRY;

// How many entries there are, of so many numbers and so many times.
fn whole_entries(numbers: usize, times: usize) -> usize
    ensures { result ≡ whole_entries numbers times }
{
    (numbers / ENTRY).min(times)
}

// An entry of its numbers and its time.
fn entry_of(numbers: [u32; ENTRY], time: u64) -> Entry
    ensures { result ≡ entry_of numbers time }
{
    let [slot, holder, count, object] = numbers;
    Entry {
        slot,
        holder,
        time,
        count,
        object,
    }
}

// The entry at place i.
fn entry_at(entries: &[u32], times: &[u64], i: usize) -> Entry
    requires { (entry_size * i + entry_size ≤ length entries.now) × (i < length times.now) }
    ensures { result ≡ slice_index_or (entries_in entries.now times.now) i no_entry }
{
    let at = ENTRY * i;
    let numbers = [
        entries[at],
        entries[at + 1],
        entries[at + 2],
        entries[at + 3],
    ];
    entry_of(numbers, times[i])
}

// Puts an entry at place i.
fn put_entry(entries: &mut [u32], times: &mut [u64], i: usize, e: Entry)
    requires { (entry_size * i + entry_size ≤ length entries.old) × (i < length times.old) }
    ensures { (entries.new ≡ splice entries.old (entry_size * i) (numbers_of e))
        × (times.new ≡ slice_set times.old i e.time) }
{
    let at = ENTRY * i;
    entries[at] = e.slot;
    entries[at + 1] = e.holder;
    entries[at + 2] = e.count;
    entries[at + 3] = e.object;
    times[i] = e.time;
}

// The lowest time that is not outlived at a mark; T + 5,000 could pass 64 bits.
fn floor_of(mark: u64) -> u64
    ensures { result ≡ mark - time_window }
{
    mark.saturating_sub(TIME_WINDOW)
}

// A quick pass: if true, no time is below the floor; if false, nothing is known. It has no branch and no comparison, so that
// several times are taken at once. With a floor under 2^63 a time below it wraps to a difference of 2^63 or more, which the
// highest bit shows; that of a time far above the floor shows it too.
fn none_below(times: &[u64], floor: u64) -> bool
    ensures { result ≡ true → some? (λ (t : ℕ). nat_lt t floor) times.now ≡ false }
{
    let mut seen = floor;
    for time in times {
        seen |= time.wrapping_sub(floor);
    }
    seen < 0x8000000000000000
}

// Whether a time is below the floor.
fn any_below(times: &[u64], floor: u64) -> bool
    ensures { result ≡ list_any (λ (t : ℕ). nat_lt t floor) times.now }
{
    times.iter().any(|time| *time < floor)
}

// Whether a time is outlived. Mostly none is, which the quick pass finds out.
fn stale(times: &[u64], mark: u64) -> bool
    ensures { result ≡ some? (λ (t : ℕ). nat_lt t (mark - time_window)) times.now }
{
    let floor = floor_of(mark);
    !none_below(times, floor) && any_below(times, floor)
}

// Moves each of the n entries that live to the front, in their order, and counts them. The places behind them stay.
fn compact(entries: &mut [u32], times: &mut [u64], n: usize, mark: u64) -> usize
    requires { n ≡ whole_entries (length entries.old) (length times.old) }
    ensures { Purged mark entries.old times.old entries.new times.new result }
{
    let floor = floor_of(mark);
    let mut k = 0;
    for i in 0..n {
        let e = entry_at(&*entries, &*times, i);
        if floor <= e.time {
            put_entry(entries, times, k, e);
            k += 1;
        }
    }
    k
}

// Drops the outlived entries: those that live are at the front afterwards, in their order, and are counted. Where none is
// outlived nothing is written.
pub fn purge(entries: &mut [u32], times: &mut [u64], mark: u64) -> usize
    ensures { Purged mark entries.old times.old entries.new times.new result }
{
    let n = whole_entries(entries.len(), times.len());
    if !stale(&times[..n], mark) {
        return n;
    }
    compact(entries, times, n, mark)
}

// Whether two entries are the same nonce.
fn is_same(a: Entry, b: Entry) -> bool
    ensures { result ≡ same_entry a b }
{
    a == b
}

// Whether an entry of these numbers and times is the same nonce.
fn any_same(numbers: &[[u32; ENTRY]], times: &[u64], e: Entry) -> bool
    ensures { result ≡ list_any (λ p. same_entry e (entry_of p.0 p.1)) (zip numbers.now times.now) }
{
    numbers
        .iter()
        .zip(times)
        .any(|(numbers, time)| is_same(e, entry_of(*numbers, *time)))
}

// Whether a memory holds the nonce of an entry.
pub fn holds(entries: &[u32], times: &[u64], e: Entry) -> bool
    ensures { result ≡ some? (same_entry e) (entries_in entries.now times.now) }
{
    any_same(entries.as_chunks::<ENTRY>().0, times, e)
}

// Enters an entry at a place; where there is no such place nothing is written.
pub fn enter(entries: &mut [u32], times: &mut [u64], at: usize, e: Entry)
    ensures { Entered entries.old times.old at e entries.new times.new }
{
    let n = whole_entries(entries.len(), times.len());
    if at < n {
        put_entry(entries, times, at, e);
    }
}
