// The five replay memories in their arrays: the drive's lengths, entries and times.
// Kept, the proof did not close: a struct that borrows the three from the gate's parameters gets no generated proof, since the gate
// returns early while it stands (what it holds at that return differs at the parameter); so they are three parameters, and that they
// fit is required.
ghost use Rattle.std.specs.Prelude.{◌≡◌, List, [], ◌∷◌, ◌++◌, map, ◌<◌, get_or};
ghost use Rattle.lemmas.specs.Lists.{keep, some?, update};
ghost use Rattle.rules.specs.declared.Entry.{Entry};
ghost use Rattle.rules.specs.Drive.{lives, most_entries, same_entry};
ghost use Rattle.drive.specs.View.{memories_of, MemoriesFit};

use memory::{ENTRY, MEMORIES};
use rules::{Entry, MOST_ENTRIES};

// Drops the outlived entries of every memory.
pub fn drop_outlived(lengths: &mut [usize], entries: &mut [u32], times: &mut [u64], mark: u64)
    requires { MemoriesFit lengths.old entries.old times.old }
    ensures { (memories_of lengths.new entries.new times.new
        ≡ map (keep (lives mark)) (memories_of lengths.old entries.old times.old))
        × MemoriesFit lengths.new entries.new times.new }
{
    for m in 0..MEMORIES {
        let start = MOST_ENTRIES * m;
        let end = start + lengths[m];
        let first = ENTRY * start;
        let past = ENTRY * end;
        lengths[m] = memory::purge(&mut entries[first..past], &mut times[start..end], mark);
    }
}

// Whether memory k holds a nonce.
pub fn is_replayed(
    lengths: &[usize],
    entries: &[u32],
    times: &[u64],
    k: usize,
    nonce: Entry,
) -> bool
    requires { MemoriesFit lengths.now entries.now times.now × (k < 5) }
    ensures { result ≡ some? (same_entry nonce) (get_or (memories_of lengths.now entries.now times.now) k []) }
{
    let start = MOST_ENTRIES * k;
    let end = start + lengths[k];
    let first = ENTRY * start;
    let past = ENTRY * end;
    memory::holds(&entries[first..past], &times[start..end], nonce)
}

// Enters a nonce in memory k, which has room.
pub fn enter(lengths: &mut [usize], entries: &mut [u32], times: &mut [u64], k: usize, nonce: Entry)
    requires { MemoriesFit lengths.old entries.old times.old × (k < 5) × (get_or lengths.old k 0 < most_entries) }
    ensures { memories_of lengths.new entries.new times.new
        ≡ update k (λ (old : List Entry). old ++ (nonce ∷ [])) (memories_of lengths.old entries.old times.old) }
{
    let held = lengths[k];
    let at = MOST_ENTRIES * k + held;
    memory::enter(entries, times, at, nonce);
    lengths[k] = held + 1;
}
