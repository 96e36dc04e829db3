// The script: its lines, and the parts of a line. A line is a word, decimal numbers, for some words a text in quotes,
// and behind a colon the label that is printed.
ghost use Rattle.std.specs.Prelude.{◌<◌, ◌≤◌, length};
ghost use Rattle.std.specs.Iterator.{at_most};

// How many numbers of a line are read.
pub const LINE_NUMBERS: usize = 14;

// What stands before the first byte b, and what behind it; all and nothing where there is none.
fn split_once(s: &[u8], b: u8) -> (&[u8], &[u8])
    ensures { 0 < length s.now → length result.1.now < length s.now }
{
    match s.iter().position(|x| *x == b) {
        Some(at) => (&s[..at], &s[at + 1..]),
        None => (s, &[]),
    }
}

// Without the spaces that it begins with.
fn trimmed(s: &[u8]) -> &[u8]
    ensures { length result.now ≤ length s.now }
{
    match s.iter().position(|x| *x != b' ') {
        Some(at) => &s[at..],
        None => &[],
    }
}

fn digit(c: u8) -> Option<u8> {
    c.checked_sub(b'0').filter(|d| *d < 10)
}

// The number that the digits at the start spell, 0 where there are none; the largest number where that is too large.
pub fn number(word: &[u8]) -> u64 {
    let mut x = 0u64;
    for c in word {
        let Some(d) = digit(*c) else {
            break;
        };
        x = x.saturating_mul(10).saturating_add(u64::from(d));
    }
    x
}

// The words of a line that are left.
#[derive(Clone, Copy)]
pub struct Words<'a> {
    rest: &'a [u8],
}

impl<'a> Iterator for Words<'a> {
    type Item = &'a [u8];

    ghost remaining = { λ s. at_most (length s.rest.now) };

    fn next(&mut self) -> Option<&'a [u8]> {
        let rest = trimmed(self.rest);
        if rest.is_empty() {
            return None;
        }
        let (word, behind) = split_once(rest, b' ');
        self.rest = behind;
        Some(word)
    }
}

#[derive(Clone, Copy)]
pub struct Line<'a> {
    bytes: &'a [u8],
}

impl<'a> Line<'a> {
    pub fn empty() -> Line<'a> {
        Line { bytes: &[] }
    }

    pub fn bytes(self) -> &'a [u8] {
        self.bytes
    }

    // What comes before the colon.
    pub fn head(self) -> Line<'a> {
        Line {
            bytes: split_once(self.bytes, b':').0,
        }
    }

    // Its first word, empty where the line begins with a space.
    pub fn word(self) -> &'a [u8] {
        split_once(self.bytes, b' ').0
    }

    // The words behind the first one.
    pub fn words(self) -> Words<'a> {
        Words {
            rest: split_once(self.bytes, b' ').1,
        }
    }

    // The numbers behind the first word, and 0 for those that the line lacks.
    pub fn numbers(self) -> [u64; LINE_NUMBERS] {
        let mut numbers = [0; LINE_NUMBERS];
        for (x, word) in numbers.iter_mut().zip(self.words()) {
            *x = number(word);
        }
        numbers
    }

    // How many numbers a line has.
    pub fn number_count(self) -> usize
        ensures { result ≤ 14 }
    {
        self.head().words().take(LINE_NUMBERS).count()
    }

    // What is printed for a line: the text behind the colon, or the line's word where there is none.
    pub fn label(self) -> &'a [u8] {
        let text = trimmed(split_once(self.bytes, b':').1);
        if text.is_empty() { self.word() } else { text }
    }

    // The text between the quotes.
    pub fn text(self) -> &'a [u8] {
        let quoted = split_once(self.head().bytes, b'"').1;
        split_once(quoted, b'"').0
    }

    // Whether it opens the part that another line names.
    fn opens(self, by: Line) -> bool {
        self.word() == b"part".as_slice() && self.words().next() == by.words().next()
    }
}

// The lines of a script that are left.
#[derive(Clone, Copy)]
pub struct Lines<'a> {
    rest: &'a [u8],
}

impl<'a> Lines<'a> {
    pub fn of(script: &'a [u8]) -> Lines<'a> {
        Lines { rest: script }
    }

    pub fn end() -> Lines<'a> {
        Lines { rest: &[] }
    }

    // The lines of the part that a line names; none where there is no such part.
    pub fn part(self, by: Line) -> Lines<'a> {
        let mut lines = self;
        for line in &mut lines {
            if line.opens(by) {
                break;
            }
        }
        lines
    }
}

impl<'a> Iterator for Lines<'a> {
    type Item = Line<'a>;

    ghost remaining = { λ s. at_most (length s.rest.now) };

    fn next(&mut self) -> Option<Line<'a>> {
        if self.rest.is_empty() {
            return None;
        }
        let (bytes, behind) = split_once(self.rest, b'\n');
        self.rest = behind;
        Some(Line { bytes })
    }
}
