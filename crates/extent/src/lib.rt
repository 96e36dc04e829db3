// The medium (document 01, operations 1, 2 and 5, and format): an extent is written, cleared and read. "A write lends
// on only the object's own part of the medium": what copies and clears is handed that part alone. Where the places
// named do not lie inside what is lent, nothing changes.
#![tactic(auto)]

ghost use Rattle.std.specs.Prelude.{◌≡◌, ◌&&◌, cond, ◌+◌, length, replicate, leb};
ghost use Rattle.lemmas.specs.Lists.{part, splice};

// Kept, the new form is no plainer: here and below places in the medium, as octets has them, since they may lie outside.
// Operation 2: the bytes replace those from the offset on of the extent of `size` bytes from `start` on.
pub fn write_extent(medium: &mut [u8], start: usize, size: usize, offset: usize, bytes: &[u8])
    ensures { medium.new ≡ cond
        (leb (start + size) (length medium.old) && leb (offset + length bytes.now) size)
        (splice medium.old (start + offset) bytes.now)
        medium.old }
{
    if !octets::fits(medium.len(), start, size) {
        return;
    }
    octets::copy_to(&mut medium[start..start + size], offset, bytes);
}

// Format: every byte becomes 0.
pub fn clear_all(medium: &mut [u8])
    ensures { medium.new ≡ replicate (length medium.old) 0 }
{
    medium.fill(0);
}

// Operation 5: the `size` bytes from `start` on become 0.
pub fn clear_extent(medium: &mut [u8], start: usize, size: usize)
    ensures { medium.new ≡ cond
        (leb (start + size) (length medium.old))
        (splice medium.old start (replicate size 0))
        medium.old }
{
    if octets::fits(medium.len(), start, size) {
        clear_all(&mut medium[start..start + size]);
    }
}

// Operation 1: the `count` bytes of the medium from `start` on go into the space from `at` on.
pub fn read_extent(medium: &[u8], start: usize, count: usize, space: &mut [u8], at: usize)
    ensures { space.new ≡ cond
        (leb (start + count) (length medium.now) && leb (at + count) (length space.old))
        (splice space.old at (part medium.now start count))
        space.old }
{
    if !octets::fits(medium.len(), start, count) {
        return;
    }
    octets::copy_to(space, at, &medium[start..start + count]);
}
