// Where a script stands: the line that is played, and what stays from line to line.
use crate::script::{LINE_NUMBERS, Line, Lines};
use crate::settings::Settings;
use crate::words::Word;
use crate::{record, say};
use drive::Drive;
use rules::KEY_SIZE;
use std::io;
use std::io::Stdout;

// The key of a stranger.
const STRANGE_KEY: [u8; KEY_SIZE] = [9; KEY_SIZE];

// `rest` has the lines to play next, `back` those behind the `do` that led to this part; `numbers` are the line's, read once, but for a
// line that sets numbers; `word` is none where the line's is not one of a script; `kept` is the key that was kept.
#[derive(Drop)]
pub struct Player<'a> {
    script: Lines<'a>,
    rest: Lines<'a>,
    back: Option<Lines<'a>>,
    pub line: Line<'a>,
    pub numbers: [u64; LINE_NUMBERS],
    pub word: Option<Word>,
    pub settings: Settings,
    pub kept: [u8; KEY_SIZE],
}

impl<'a> Player<'a> {
    // Before the first line.
    pub fn new(script: &'a [u8]) -> Player<'a> {
        let lines = Lines::of(script);
        Player {
            script: lines,
            rest: lines,
            back: None,
            line: Line::empty(),
            numbers: [0; LINE_NUMBERS],
            word: None,
            settings: Settings::default(),
            kept: [0; KEY_SIZE],
        }
    }

    // Goes on to the next line, and to `stop` behind the last one. A call that is to be repeated is the next line once more.
    pub fn advance(&mut self) {
        if self.settings.repeat > 1 && self.word.is_some_and(Word::sends) {
            self.settings.repeat -= 1;
            return;
        }
        let Some(line) = self.rest.next() else {
            self.word = Some(Word::Stop);
            return;
        };
        let head = line.head();
        self.line = line;
        self.word = Word::spelled(head.word());
        match self.word {
            Some(Word::Set(first)) => self.settings.set_from(first, head),
            Some(Word::Do) => {
                self.back = Some(self.rest);
                self.rest = self.script.part(head);
            }
            Some(Word::Done) => self.rest = self.back.take().unwrap_or(Lines::end()),
            _ => self.numbers = head.numbers(),
        }
    }

    // Prints what the line asks to see of the drive, a title, or that its word is none.
    pub fn show(&self, out: Stdout, drive: &Drive) -> io::Result<()> {
        let line = self.line.bytes();
        let label = self.line.word();
        let [a, b, ..] = self.numbers;
        match self.word {
            None => say::error(out, line),
            Some(Word::Title) => say::line(out, line),
            Some(Word::Mark) => say::number(out, label, drive.highwater),
            Some(Word::Held) => say::number(out, label, drive.lengths[0] as u64),
            Some(Word::Size) => say::number(out, label, drive.size as u64),
            Some(Word::Objects) => {
                let (last, count) = record::objects(drive);
                say::number(out, b"last version given", last)?;
                say::number(out, b"objects", count)
            }
            Some(Word::Record) => say::numbers(out, label, &record::summary(drive)),
            Some(Word::Start) => match record::start_of(drive, a) {
                Some(start) => say::number(out, b"starts at", start),
                None => Ok(()),
            },
            Some(Word::Key) => say::bytes(out, label, &record::key(drive, a, b)),
            Some(Word::Table) => {
                let (masks, leasts) = record::needs(drive, a);
                say::needs(out, label, masks, leasts)
            }
            _ => Ok(()),
        }
    }

    // The key that a frame is built under: the one that the drive has in the credential's slot, the one that is kept, or a
    // stranger's.
    pub fn signing_key(&self, drive: &Drive) -> [u8; KEY_SIZE] {
        match self.settings.sign {
            0 => record::key(drive, self.settings.partition, self.settings.slot),
            1 => self.kept,
            _ => STRANGE_KEY,
        }
    }
}
