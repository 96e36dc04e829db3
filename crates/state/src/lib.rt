// A partition's table (document 01, "Drive state"): a lent list of numbers. Its version, the last version given, how many
// objects there are; then, sixteen of each, the objects' numbers, versions, sizes and starts, in order of creation; then, for
// operations 1 to 7, the masks and the least levels of its operation table (document 02, change 5).
// Everything is total: a list of another length holds no object and is never changed, and a count over sixteen is taken
// for sixteen.
// Kept for the C interface: the caller lends a table as an array of numbers (include/sievelast_store.h), so an object is four numbers
// in four columns there and no struct, and the loops below go over places.
#![tactic(auto)]

ghost use Rattle.std.specs.Prelude.{◌≡◌, ◌+◌, ◌≤◌, ◌<◌, length, map, get_or, slice_get, ◌==◌, position};
ghost use Rattle.lemmas.specs.Lists.{change, find};
ghost use Rattle.lemmas.specs.Options.{option_of};
ghost use Rattle.rules.specs.declared.Object.{Object};
ghost use Rattle.rules.specs.Drive.{most_objects};
ghost use Rattle.rules.specs.Needs.{default_needs, needs_at, needs_count};
ghost use Rattle.rules.specs.Operations.{no_object, with_version};
ghost use Rattle.state.specs.Table.{table_size, object_at, objects_in};
ghost use Rattle.state.specs.Columns.{front};
ghost use Rattle.state.specs.Changes.{HasContent, ChangedTo, content_with_front, content_with_object, raised_content, created_content, deleted_content, content_with_needs, content_with_need, emptied_content};

use needs::TABLE_OPERATIONS;
use rules::{MOST_OBJECTS, Need, Object};

// The places of a table's numbers, as in specs/Table.antt.
pub const VERSION: usize = 0;

pub const LAST: usize = 1;

pub const COUNT: usize = 2;

pub const NUMBERS: usize = 3;

pub const VERSIONS: usize = NUMBERS + MOST_OBJECTS;

pub const SIZES: usize = VERSIONS + MOST_OBJECTS;

pub const STARTS: usize = SIZES + MOST_OBJECTS;

pub const MASKS: usize = STARTS + MOST_OBJECTS;

pub const LEASTS: usize = MASKS + TABLE_OPERATIONS;

// How many numbers a table has.
pub const TABLE: usize = LEASTS + TABLE_OPERATIONS;

// How many objects there are.
pub fn object_count(table: &[u32]) -> usize
    ensures { (result ≡ length (objects_in table.now)) × (result ≤ most_objects) }
{
    if table.len() != TABLE {
        return 0;
    }
    (table[COUNT] as usize).min(MOST_OBJECTS)
}

// The numbers from a place on, one for each object in use.
fn front(table: &[u32], from: usize) -> &[u32]
    requires { from + most_objects ≤ table_size }
    ensures { result.now ≡ front table.now from }
{
    let n = object_count(table);
    if n == 0 {
        return &[];
    }
    &table[from..from + n]
}

// The objects' numbers, in order of creation.
#[tactic(auto, using(crate::specs::Columns::front_numbers))]
pub fn numbers(table: &[u32]) -> &[u32]
    ensures { result.now ≡ map Object.number (objects_in table.now) }
{
    front(table, NUMBERS)
}

// Their sizes.
#[tactic(auto, using(crate::specs::Columns::front_sizes))]
pub fn sizes(table: &[u32]) -> &[u32]
    ensures { result.now ≡ map Object.size (objects_in table.now) }
{
    front(table, SIZES)
}

// Where their extents start.
#[tactic(auto, using(crate::specs::Columns::front_starts))]
pub fn starts(table: &[u32]) -> &[u32]
    ensures { result.now ≡ map Object.start (objects_in table.now) }
{
    front(table, STARTS)
}

// The object at a place, in use or not.
#[tactic(auto, unfolding(crate::specs::Table::object_at))]
fn read(table: &[u32], i: usize) -> Object
    requires { (length table.now ≡ table_size) × (i < most_objects) }
    ensures { result ≡ object_at table.now i }
{
    Object {
        number: table[NUMBERS + i],
        version: table[VERSIONS + i],
        size: table[SIZES + i],
        start: table[STARTS + i],
    }
}

// The object at a place; none past the last.
pub fn object(table: &[u32], i: usize) -> Option<Object>
    ensures { result ≡ slice_get (objects_in table.now) i }
{
    if object_count(table) <= i {
        return None;
    }
    Some(read(table, i))
}

// The object at a place; past the last, all zeros.
// Kept for what may not change: a public function that cannot fail, whose clause has zeros past the last (no_object, rules).
pub fn object_at(table: &[u32], i: usize) -> Object
    ensures { result ≡ get_or (objects_in table.now) i no_object }
{
    object(table, i).unwrap_or(Object {
        number: 0,
        version: 0,
        size: 0,
        start: 0,
    })
}

// The place of the first object with a number.
fn place_of(table: &[u32], number: u32) -> Option<usize>
    ensures { result ≡ position (λ n. n == number) (map Object.number (objects_in table.now)) }
{
    numbers(table).iter().position(|n| *n == number)
}

// The object with a number.
pub fn look_up(table: &[u32], number: u32) -> Option<Object>
    ensures { option_of result ≡ find Object.number number (objects_in table.now) }
{
    object(table, place_of(table, number)?)
}

// Kept, the new form is no plainer: here and below a slice with its length required, and not an array of that length. A public function
// is lent a slice and looks at its length; to hand on an array it would take one out of the slice and say what became of it there.
// Stores an object at a place.
fn put(table: &mut [u32], i: usize, o: Object)
    requires { (length table.old ≡ table_size) × (i < most_objects) }
    ensures { HasContent table.old table.new (content_with_object i o table.old) }
{
    table[NUMBERS + i] = o.number;
    table[VERSIONS + i] = o.version;
    table[SIZES + i] = o.size;
    table[STARTS + i] = o.start;
}

// Gives each object of a number a version.
fn renew(table: &mut [u32], number: u32, version: u32)
    requires { length table.old ≡ table_size }
    ensures { HasContent table.old table.new
        (content_with_front (change Object.number number (with_version version) (objects_in table.old))
        table.old) }
{
    for i in 0..object_count(&*table) {
        if table[NUMBERS + i] == number {
            table[VERSIONS + i] = version;
        }
    }
}

// Operation 4: the object, or for number 0 the partition, has a new version, now the last given.
pub fn raise(table: &mut [u32], number: u32, version: u32)
    ensures { ChangedTo table.old table.new (raised_content number version table.old) }
{
    if table.len() != TABLE {
        return;
    }
    table[LAST] = version;
    if number == 0 {
        table[VERSION] = version;
        return;
    }
    renew(table, number, version);
}

// Operation 5: one object more, where there is room; its version is now the last given.
pub fn create(table: &mut [u32], o: Object)
    ensures { ChangedTo table.old table.new (created_content o table.old) }
{
    if table.len() != TABLE {
        return;
    }
    let n = table[COUNT] as usize;
    table[LAST] = o.version;
    if MOST_OBJECTS <= n {
        return;
    }
    put(table, n, o);
    table[COUNT] = (n + 1) as u32;
}

// Operation 6: the object goes. The others move to the front, in their order, and are counted; the places behind them
// stay as they are.
pub fn delete(table: &mut [u32], number: u32)
    ensures { ChangedTo table.old table.new (deleted_content number table.old) }
{
    if table.len() != TABLE {
        return;
    }
    let n = object_count(&*table);
    let mut left = 0;
    for i in 0..n {
        let o = read(&*table, i);
        if o.number != number {
            put(table, left, o);
            left += 1;
        }
    }
    table[COUNT] = left as u32;
}

// Stores what operation i + 1 needs.
fn put_need(table: &mut [u32], i: usize, n: Need)
    requires { (length table.old ≡ table_size) × (i < needs_count) }
    ensures { HasContent table.old table.new (content_with_need i n table.old) }
{
    table[MASKS + i] = n.mask;
    table[LEASTS + i] = n.least;
}

// Operation 8: the operation table is that of the data bytes.
pub fn load(table: &mut [u32], bytes: &[u8])
    ensures { ChangedTo table.old table.new
        (content_with_needs (needs_at bytes.now) table.old) }
{
    if table.len() != TABLE {
        return;
    }
    for i in 0..TABLE_OPERATIONS {
        put_need(table, i, needs::need_at(bytes, i + 1));
    }
}

// The operation table becomes document 01's rule.
fn put_defaults(table: &mut [u32])
    requires { length table.old ≡ table_size }
    ensures { HasContent table.old table.new (content_with_needs default_needs table.old) }
{
    for i in 0..TABLE_OPERATIONS {
        put_need(table, i, needs::default_need((i + 1) as u8));
    }
}

// Format: no object is in use, both versions are the first, and the operation table is document 01's rule.
pub fn empty(table: &mut [u32], first: u32)
    ensures { ChangedTo table.old table.new (emptied_content first table.old) }
{
    if table.len() != TABLE {
        return;
    }
    table[VERSION] = first;
    table[LAST] = first;
    table[COUNT] = 0;
    put_defaults(table);
}
