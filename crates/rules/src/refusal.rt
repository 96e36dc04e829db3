// The rows of the documents ("Why the drive says no", and rows 31 to 34 of document 02) as the errors of the code: what refuses a
// call. A variant's number is its row's.
ghost use Rattle.std.specs.Prelude.{◌≡◌};
ghost use Rattle.rules.specs.Refusals.{refusal_row, answer_row, refused_when};

#[derive(Clone, Copy, Debug, PartialEq, Eq)]
pub enum Refusal {
    UnsoundDrive = 1,
    ShortFrame = 2,
    WrongMark = 3,
    WrongField = 4,
    WrongLength = 5,
    Misfit = 6,
    LowLevel = 7,
    KeyNotSet = 8,
    WrongDigest = 9,
    Expired = 10,
    Untimely = 11,
    Replayed = 12,
    NoRight = 13,
    NoObject = 14,
    OtherVersion = 15,
    OutOfRange = 16,
    PastEnd = 17,
    NumberTaken = 18,
    AllObjects = 19,
    NoGap = 20,
    NoVersion = 21,
    MemoryFull = 22,
    ShortReplySpace = 23,
    LargeMedium = 24,
    ZeroVersion = 25,
    WrongKeySize = 26,
    TooLong = 27,
    WrongRecord = 28,
    ShortSpace = 29,
    WrongReply = 30,
    BadTable = 31,
    BadList = 32,
    NotListed = 33,
    NoMember = 34,
}

impl Refusal {
    // The row's number.
    pub fn row(self) -> u32
        ensures { result ≡ refusal_row self }
    {
        self as u32
    }
}

// Whether a row refuses: its refusal where its test applies.
pub fn refuse(applies: bool, refusal: Refusal) -> Result<(), Refusal>
    ensures { result ≡ refused_when applies refusal }
{
    if applies { Err(refusal) } else { Ok(()) }
}

// An answer's row, 0 where it is not refused.
pub fn row_of<T: Copy>(answer: Result<T, Refusal>) -> u32
    ensures { result ≡ answer_row answer }
{
    match answer {
        Ok(_) => 0,
        Err(refusal) => refusal.row(),
    }
}
