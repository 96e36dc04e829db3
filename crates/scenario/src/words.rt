// The words of a script.
use crate::settings;

// A call of the drive. The line's word names the operation, but for a list, which is a write of a group's numbers.
#[derive(Clone, Copy, PartialEq, Eq)]
pub enum Call {
    Read = 1,
    Write = 2,
    Look = 3,
    Raise = 4,
    Create = 5,
    Delete = 6,
    SetKey = 7,
    Load = 8,
    List = 9,
}

impl Call {
    // The number of the request's operation.
    pub fn operation(self) -> u8 {
        match self {
            Call::List => Call::Write as u8,
            call => call as u8,
        }
    }
}

// What a line does. `Set` has the place of the first setting that the line sets.
#[derive(Clone, Copy, PartialEq, Eq)]
pub enum Word {
    Call(Call),
    Again,
    Format,
    Damage,
    Need,
    Byte,
    Do,
    Done,
    Stop,
    Title,
    Comment,
    Keep,
    Mark,
    Held,
    Objects,
    Record,
    Start,
    Key,
    Size,
    Table,
    Set(usize),
}

impl Word {
    // The word that these bytes spell, if they spell one. An empty line is a comment.
    pub fn spelled(bytes: &[u8]) -> Option<Word> {
        Some(match bytes {
            b"read" => Word::Call(Call::Read),
            b"write" => Word::Call(Call::Write),
            b"look" => Word::Call(Call::Look),
            b"raise" => Word::Call(Call::Raise),
            b"create" => Word::Call(Call::Create),
            b"delete" => Word::Call(Call::Delete),
            b"setkey" => Word::Call(Call::SetKey),
            b"load" => Word::Call(Call::Load),
            b"list" => Word::Call(Call::List),
            b"again" => Word::Again,
            b"format" => Word::Format,
            b"damage" => Word::Damage,
            b"need" => Word::Need,
            b"byte" => Word::Byte,
            b"do" => Word::Do,
            b"done" => Word::Done,
            b"stop" => Word::Stop,
            b"#" => Word::Title,
            b"" | b";" => Word::Comment,
            b"keep" => Word::Keep,
            b"mark" => Word::Mark,
            b"held" => Word::Held,
            b"objects" => Word::Objects,
            b"record" => Word::Record,
            b"start" => Word::Start,
            b"key" => Word::Key,
            b"M" => Word::Size,
            b"table" => Word::Table,
            _ => Word::Set(settings::place_of(bytes)?),
        })
    }

    // Whether a word puts a frame to the gate.
    pub fn sends(self) -> bool {
        matches!(self, Word::Call(_) | Word::Again)
    }
}
