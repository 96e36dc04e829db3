// The input record at the start of some bytes.
ghost use Rattle.reader.specs.Promises.{WholeRecordMet};

use record::Arrived;

// A whole input record: its clock and its frame.
#[derive(Clone, Copy)]
pub struct InputRecord<'a> {
    pub clock: u64,
    pub frame: &'a [u8],
}

// The input record at the start of input, where it is whole.
pub fn whole_record(input: &[u8], most: u64) -> Option<InputRecord<'_>>
    ensures { WholeRecordMet most input.now result }
{
    let Arrived::Whole { clock, size } = record::arrival(input, most) else {
        return None;
    };
    let frame = &input[record::HEAD_SIZE..record::HEAD_SIZE + size];
    Some(InputRecord { clock, frame })
}
