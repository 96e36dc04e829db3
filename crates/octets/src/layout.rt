// Fields one after the other in a lent slice, big-endian, read and written by the list of their widths: a layout.
ghost use Rattle.std.specs.Prelude.{◌≡◌};
ghost use Rattle.octets.specs.Fields.{fields_fit, fields_read, fields_written};

use crate::places;

// Kept, the new form is no plainer: here and below a slice and a place in it, as in lib.rt: the fields may not be all there.
// Whether `count` fields of these widths, each of eight bytes at most, lie within len from place at on. It counts down the
// bytes that are left: a sum could pass 64 bits.
fn fields_fit(len: usize, at: usize, widths: &[usize], count: usize) -> bool
    ensures { result ≡ fields_fit len at widths.now count }
{
    if at > len || count != widths.len() {
        return false;
    }
    let mut rest = len - at;
    for w in widths {
        if *w > 8 || *w > rest {
            return false;
        }
        rest -= *w;
    }
    true
}

// Reads the fields from place at on into numbers, one number for each width; where they are not all there, or numbers
// has another length than widths, or a width is over eight, numbers stays as it is.
pub fn read(s: &[u8], at: usize, widths: &[usize], numbers: &mut [u64])
    ensures { numbers.new ≡ fields_read s.now at widths.now numbers.old }
{
    if !fields_fit(s.len(), at, widths, numbers.len()) {
        return;
    }
    let mut place = at;
    for (i, w) in widths.iter().enumerate() {
        numbers[i] = places::number_at(s, place, *w);
        place += *w;
    }
}

// Writes numbers into the fields from place at on, each in as many bytes as its width says; where that does not fit as
// `read` has it, nothing is written.
pub fn write(s: &mut [u8], at: usize, widths: &[usize], numbers: &[u64])
    ensures { s.new ≡ fields_written s.old at widths.now numbers.now }
{
    if !fields_fit(s.len(), at, widths, numbers.len()) {
        return;
    }
    let mut place = at;
    for (w, x) in widths.iter().zip(numbers) {
        places::put_at(s, place, *w, *x);
        place += *w;
    }
}
