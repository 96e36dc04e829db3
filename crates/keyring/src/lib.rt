// The drive's keys in one lent array of bytes: first the keys, one after the other, then a byte for each key that says, not
// 0, that it was set. The keys are the four partitions' working keys 0 (document 01's black), their working keys 1 (gold),
// their partition keys, the drive key and the master key.
#![tactic(auto)]

ghost use Rattle.std.specs.Prelude.{◌≡◌, ◌≤◌};
ghost use Rattle.std.specs.Option.{option_copied};
ghost use Rattle.keyring.specs.Keys.{partition_keys_from, place_of, is_set, set_key, index_among_four, key_index, target_index, key_stored, formatted_keys};

use rules::KEY_SIZE;

// Places of keys, as in specs/Keys.antt.
pub const PARTITIONS: usize = 4;

const WORKING0: usize = 0;

const WORKING1: usize = WORKING0 + PARTITIONS;

const PARTITION_KEYS: usize = WORKING1 + PARTITIONS;

const DRIVE_KEY: usize = PARTITION_KEYS + PARTITIONS;

const MASTER_KEY: usize = DRIVE_KEY + 1;

// How many keys there are.
pub const KEY_COUNT: usize = MASTER_KEY + 1;

// The first of the bytes that say which keys are set, and all bytes.
// Kept for the C interface: a byte for each key says that it was set, since the caller lends the keys as one array of bytes.
const FLAGS: usize = KEY_SIZE * KEY_COUNT;

pub const KEYS: usize = FLAGS + KEY_COUNT;

// Partition `p`'s key among the four from a place on, none past the four.
fn index_among_four(first: usize, p: usize) -> Option<usize>
    requires { first ≤ partition_keys_from }
    ensures { result ≡ place_of (index_among_four first p) }
{
    if p < PARTITIONS {
        Some(first + p)
    } else {
        None
    }
}

// The key that a slot names, as partition `p` has it.
#[tactic(auto, unfolding(crate::specs::Keys::key_index))]
pub fn key_index(slot: u8, p: usize) -> Option<usize>
    ensures { result ≡ place_of (key_index slot p) }
{
    match slot {
        0 => index_among_four(WORKING0, p),
        1 => index_among_four(WORKING1, p),
        2 => index_among_four(PARTITION_KEYS, p),
        3 => Some(DRIVE_KEY),
        4 => Some(MASTER_KEY),
        _ => None,
    }
}

// The key that operation 7 sets under a slot's key: slot 4 sets the drive key, slot 3 partition `a`'s, slot 2 working
// key `a` of partition `p`.
#[tactic(auto, unfolding(crate::specs::Keys::target_index))]
fn target_index(slot: u8, p: usize, a: usize) -> Option<usize>
    ensures { result ≡ place_of (target_index slot p a) }
{
    match slot {
        4 => Some(DRIVE_KEY),
        3 => index_among_four(PARTITION_KEYS, a),
        _ if a == 0 => index_among_four(WORKING0, p),
        _ => index_among_four(WORKING1, p),
    }
}

// Whether key `j` was ever set; false where there is none.
pub fn is_set(keys: &[u8], j: usize) -> bool
    ensures { result ≡ is_set keys.now j }
{
    keys.len() == KEYS && j < KEY_COUNT && keys[FLAGS + j] != 0
}

// Key `j`, if it was ever set.
pub fn key(keys: &[u8], j: usize) -> Option<&[u8]>
    ensures { option_copied result ≡ set_key keys.now j }
{
    if !is_set(keys, j) {
        return None;
    }
    Some(&keys[KEY_SIZE * j..KEY_SIZE * j + KEY_SIZE])
}

// Key `j` becomes `new`. Where there is none, or a length does not fit, nothing is written.
#[tactic(auto, unfolding(crate::specs::Keys::key_stored))]
fn store_at(keys: &mut [u8], j: usize, new: &[u8])
    ensures { keys.new ≡ key_stored j new.now keys.old }
{
    if j >= KEY_COUNT || keys.len() != KEYS || new.len() != KEY_SIZE {
        return;
    }
    keys[KEY_SIZE * j..KEY_SIZE * j + KEY_SIZE].copy_from_slice(new);
    keys[FLAGS + j] = 1;
}

// Operation 7 under a slot's key: the key that it sets becomes `new`.
#[tactic(auto, unfolding(crate::specs::Keys::key_stored))]
pub fn store_key(keys: &mut [u8], slot: u8, p: usize, a: usize, new: &[u8])
    ensures { keys.new ≡ key_stored (target_index slot p a) new.now keys.old }
{
    if let Some(j) = target_index(slot, p, a) {
        store_at(keys, j, new);
    }
}

// A fresh drive's keys: master key and drive key are set, no other is. Where either is not 32 bytes, none is.
#[tactic(auto, unfolding(crate::specs::Keys::formatted_keys))]
pub fn new_keys(master: &[u8], drive: &[u8]) -> [u8; KEYS]
    ensures { result ≡ formatted_keys master.now drive.now }
{
    let mut keys = [0u8; KEYS];
    if master.len() != KEY_SIZE || drive.len() != KEY_SIZE {
        return keys;
    }
    store_at(&mut keys, DRIVE_KEY, drive);
    store_at(&mut keys, MASTER_KEY, master);
    keys
}
