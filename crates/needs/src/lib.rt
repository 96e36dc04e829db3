// What operations need (document 02, change 5: "a mask of required rights and a least level"): document 01's rule, rows 7 and 13
// by a need, and the table that operation 8 brings as bytes.
#![tactic(auto)]

ghost use Rattle.std.specs.Prelude.{◌≡◌, ◌-◌, ◌<◌, ◌^◌, min, get_or};
ghost use Rattle.rules.specs.Needs.{default_need, good_need, good_needs, need_at, needs_at};
ghost use Rattle.rules.specs.Rows.{lacks_right, low_level};

// A table has needs for operations 1 to 7, "two of mask and one of level for each operation in order".
pub const TABLE_OPERATIONS: usize = 7;

const NEED_SIZE: usize = 3;

pub const NEEDS_SIZE: usize = TABLE_OPERATIONS * NEED_SIZE;

// The rights that there are, bits 0 to 6, and the highest level.
const ALL_RIGHTS: u32 = 127;

const HIGHEST_LEVEL: u32 = 2;

// Operation k's place in a table, which is its right's bit in document 01: one less; 0 for 0.
pub fn table_place(k: usize) -> usize
    ensures { result ≡ k - 1 }
{
    k.saturating_sub(1)
}

// The right that document 01 asks for: "Operation k needs rights bit k − 1", and 8 is treated as 7.
fn default_mask(k: u8) -> u32
    ensures { result ≡ 2 ^ (min k 7 - 1) }
{
    1 << table_place(usize::from(k).min(TABLE_OPERATIONS))
}

// Document 01's rule for operation k, operation 8 treated as 7.
pub fn default_need(k: u8) -> rules::Need
    ensures { result ≡ default_need k }
{
    rules::Need {
        mask: default_mask(k),
        least: if k < 7 { 0 } else { 1 },
    }
}

// Row 7, of an operation that needs n.
pub fn low_level(n: rules::Need, c: rules::Credential, r: rules::Request) -> bool
    ensures { result ≡ low_level n c r }
{
    (r.level < c.least) | (u32::from(r.level) < n.least)
}

// Row 13, of an operation that needs n: not every right of its mask is there.
pub fn lacks_right(n: rules::Need, c: rules::Credential) -> bool
    ensures { result ≡ lacks_right n c }
{
    n.mask & u32::from(c.rights) != n.mask
}

// Kept, the new form is no plainer: bytes and a place in them, since a table's bytes may be lacking.
// The byte at a place, 0 past the end.
fn byte_at(bytes: &[u8], at: usize) -> u8
    ensures { result ≡ get_or bytes.now at 0 }
{
    bytes.get(at).copied().unwrap_or(0)
}

// What operation k needs by a table's bytes; a byte past their end is 0.
pub fn need_at(bytes: &[u8], k: usize) -> rules::Need
    ensures { result ≡ need_at bytes.now k }
{
    let i = table_place(k);
    if i > bytes.len() / NEED_SIZE {
        return rules::Need { mask: 0, least: 0 };
    }
    let at = NEED_SIZE * i;
    let high = byte_at(bytes, at);
    let low = byte_at(bytes, at + 1);
    rules::Need {
        mask: u32::from(u16::from_be_bytes([high, low])),
        least: u32::from(byte_at(bytes, at + 2)),
    }
}

fn is_good_need(n: rules::Need) -> bool
    ensures { result ≡ good_need n }
{
    (1 <= n.mask) & (n.mask <= ALL_RIGHTS) & (n.least <= HIGHEST_LEVEL)
}

// Whether the table of these bytes is good; a byte past their end is 0.
pub fn is_good(bytes: &[u8]) -> bool
    ensures { result ≡ good_needs (needs_at bytes.now) }
{
    let mut good = true;
    for i in 0..TABLE_OPERATIONS {
        good &= is_good_need(need_at(bytes, i + 1));
    }
    good & (need_at(bytes, TABLE_OPERATIONS).least >= 1)
}
