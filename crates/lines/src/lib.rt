// The lines that the programs print: one for each call and a last one (document 01), one for each count and a last one
// (document 02, change 1).
#![tactic(auto)]

mod buffer;
mod text;

ghost use Rattle.rules.specs.Program.{decimal, printed};
ghost use Rattle.rules.specs.Report.{count_line};
ghost use Rattle.lines.specs.Text.{TextPut, last_text};

use buffer::Text;

// A last line after n calls: of `gate`, where the input has ended behind a record; of `gate`, where it is cut off or goes on
// with what is no record; of `report`.
#[derive(Clone, Copy, Debug, PartialEq, Eq)]
pub enum Last {
    End,
    Cut,
    Calls,
}

// Kept, the new form is no plainer: a space and a place in it. A text that does not fit is left out and the place stays, and then the next
// text may fit: so a caller hands on the place, where of the rest of the space it could not say what is written.
// Each function here writes its text into space from place `at` on, and returns the place after it; where the text does
// not fit, nothing is written and `at` is returned.

// The number n in decimal.
pub fn put_decimal(space: &mut [u8], at: usize, n: u64) -> usize
    ensures { TextPut space.old at (decimal n) result space.new }
{
    Text::blank().decimal_before(n).put(space, at)
}

// The line of a call: its number, the row and the reply's length.
pub fn put_line(space: &mut [u8], at: usize, n: u64, row: u32, size: usize) -> usize
    ensures { TextPut space.old at (printed n row size) result space.new }
{
    Text::row_and(u64::from(row), size as u64)
        .decimal_before(n)
        .put(space, at)
}

// The last line after n calls.
pub fn put_last(space: &mut [u8], at: usize, last: Last, n: u64) -> usize
    ensures { TextPut space.old at (last_text last n) result space.new }
{
    let line = match last {
        Last::End => Text::last(b"end", n),
        Last::Cut => Text::last(b"cut", n),
        Last::Calls => Text::last(b"calls", n),
    };
    line.put(space, at)
}

// The line of a count: the place's name, the row and the count.
pub fn put_count(space: &mut [u8], at: usize, place: u64, row: u64, count: u64) -> usize
    ensures { TextPut space.old at (count_line (record { place = place; row = row; count = count })) result space.new }
{
    Text::row_and(row, count).name_before(place).put(space, at)
}
