// What is put in front of a text, and where a text is written.
ghost use Rattle.std.specs.Prelude.{◌≡◌, [], ◌∷◌, ◌++◌, ◌+◌, ◌≤◌, ◌<◌, length};
ghost use Rattle.rules.specs.Program.{decimal};
ghost use Rattle.rules.specs.Report.{place_name};
ghost use Rattle.lines.specs.Text.{text_size, text_of, place_after, TextPut};

use super::buffer::{TEXT_SIZE, Text};

// The place of the calls that rows 1 to 4 refused.
// Kept for what may not change: rules' report numbers the places and has 4 for none (Report: place_name, place_of).
const NONE: u64 = 4;

impl Text {
    // No text yet.
    pub fn blank() -> Text
        ensures { (text_of result ≡ []) × (result.from ≡ text_size) }
    {
        Text {
            bytes: [0; TEXT_SIZE],
            from: TEXT_SIZE,
        }
    }

    // The word, and then the text.
    pub fn word_before(self, word: &[u8]) -> Text
        requires { length word.now ≤ self.from }
        ensures { (text_of result ≡ word.now ++ text_of self) × (result.from + length word.now ≡ self.from) }
    {
        let mut bytes = self.bytes;
        let from = self.from - word.len();
        bytes[from..self.from].copy_from_slice(word);
        Text { bytes, from }
    }

    // n in decimal, and then the text.
    pub fn decimal_before(self, n: u64) -> Text
        requires { 20 ≤ self.from }
        ensures { (text_of result ≡ decimal n ++ text_of self) × (self.from ≤ result.from + 20) × (result.from < self.from) }
    {
        let mut bytes = self.bytes;
        let mut i = self.from - 1;
        let mut rest = n;
        // Kept, the new form is no plainer: the loop goes over the digits of a number, and no slice or range has as many.
        while rest >= 10 {
            bytes[i] = digit(rest % 10);
            rest /= 10;
            i -= 1;
        }
        bytes[i] = digit(rest);
        Text { bytes, from: i }
    }

    // What a line has behind its first word: a row and a number.
    pub fn row_and(row: u64, n: u64) -> Text
        ensures { (text_of result ≡ 32 ∷ (decimal row ++ (32 ∷ (decimal n ++ (10 ∷ []))))) × (20 ≤ result.from) }
    {
        let behind = Text::blank()
            .word_before(b"\n")
            .decimal_before(n)
            .word_before(b" ");
        behind.decimal_before(row).word_before(b" ")
    }

    // A last line: a word and a number.
    pub fn last(word: &[u8], n: u64) -> Text
        requires { length word.now ≤ 20 }
        ensures { text_of result ≡ word.now ++ (32 ∷ (decimal n ++ (10 ∷ []))) }
    {
        let number = Text::blank().word_before(b"\n").decimal_before(n);
        number.word_before(b" ").word_before(word)
    }

    // A place's name, and then the text.
    pub fn name_before(self, place: u64) -> Text
        requires { 20 ≤ self.from }
        ensures { text_of result ≡ place_name place ++ text_of self }
    {
        if place == NONE {
            return self.word_before(b"none");
        }
        self.decimal_before(place)
    }

    // Writes the text into space from place `at` on, and returns the place after it; where it does not fit, nothing is
    // written and `at` is returned.
    pub fn put(self, space: &mut [u8], at: usize) -> usize
        ensures { TextPut space.old at (text_of self) result space.new }
    {
        let text = &self.bytes[self.from..];
        octets::copy_to(space, at, text);
        after(space.len(), at, text.len())
    }
}

fn digit(x: u64) -> u8
    requires { x < 10 }
    ensures { result ≡ 48 + x }
{
    b'0' + x as u8
}

// The place after n bytes from place `at` on, where they lie within len; else `at`.
fn after(len: usize, at: usize, n: usize) -> usize
    ensures { result ≡ place_after len at n }
{
    if octets::fits(len, at, n) {
        return at + n;
    }
    at
}
