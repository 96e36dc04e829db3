// A frame is walked by a reader: the lent bytes, and a position in them. Its methods take it apart and call the functions that do
// the work on the slice and the position.
ghost use Rattle.std.specs.Prelude.{◌≡◌, ◌+◌, ◌≤◌, ◌<◌, ◌^◌, length};
ghost use Rattle.rules.specs.Frame.{credential_size, group_request_size, credential_at, request_at, request_start, frame_request};
ghost use Rattle.rules.specs.Rows.{least_frame};
ghost use Rattle.wire.specs.Parse.{answer_of, records_answer};

use crate::{Parsed, outcome};
use rules::Refusal;

// Kept for what may not change: document 01 asks for this form, a small struct with the slice and a cursor.
#[derive(Clone, Copy)]
pub struct Reader<'a> {
    pub src: &'a [u8],
    pub at: usize,
}

impl<'a> Reader<'a> {
    // A reader at the start of the bytes.
    pub fn new(src: &'a [u8]) -> Reader<'a>
        ensures { (result.src ≡ src.entry) × (result.at ≡ 0) }
    {
        Reader { src, at: 0 }
    }

    // The reader n bytes further on.
    fn skip(self, n: usize) -> Reader<'a>
        requires { self.at + n < 2 ^ 64 }
        ensures { (result.src ≡ self.entry.src) × (result.at ≡ self.entry.at + n) }
    {
        Reader {
            src: self.src,
            at: self.at + n,
        }
    }

    // The credential at the reader's position.
    fn credential(self) -> rules::Credential
        requires { self.at + credential_size ≤ length self.src.now }
        ensures { result ≡ credential_at self.entry.src.now self.entry.at }
    {
        fields::credential_in(self.src, self.at)
    }

    // The request at the reader's position, behind the credential c: the fields of both, or a row.
    fn request(self, c: rules::Credential) -> Result<Parsed, Refusal>
        requires { self.at + group_request_size ≤ length self.src.now }
        ensures { answer_of result ≡ records_answer c (request_at self.entry.src.now self.entry.at) self.entry.at (length self.entry.src.now) }
    {
        let r = fields::request_in(self.src, self.at);
        outcome::fields_or_row(c, r, self.at, self.src.len())
    }

    // From a frame, at whose start the reader stands, to its fields.
    pub fn walk(self) -> Result<Parsed, Refusal>
        requires { (self.at ≡ 0) × (least_frame ≤ length self.src.now) }
        ensures { let f = self.entry.src.now in answer_of result ≡ records_answer (credential_at f 0) (frame_request f) (request_start f) (length f) }
    {
        let c = self.credential();
        self.skip(fields::credential_length(c)).request(c)
    }
}
