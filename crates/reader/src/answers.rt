// The whole records at the start of some input, put to the gate.
ghost use Rattle.reader.specs.Promises.{AnswerMet};
ghost use Rattle.rules.specs.Frame.{fields};
ghost use Rattle.std.specs.Prelude.{◌≡◌};

use super::Answered;
use super::whole::whole_record;
use drive::Drive;

// How many bytes of the input the calls took, how many calls there were.
#[derive(Clone, Copy)]
pub struct Taken {
    pub bytes: usize,
    pub calls: usize,
}

// The partition that a frame's credential names: its byte 2, 0 where the frame is shorter.
fn partition_of(frame: &[u8]) -> u8
    ensures { result ≡ (fields frame.now).cred.partition }
{
    frame.get(2).copied().unwrap_or(0)
}

// Puts the whole records at the start of input to the gate, in order, as many as there is room for answers.
pub fn answer(
    drive: &mut Drive,
    most: u64,
    medium: &mut [u8],
    input: &[u8],
    reply: &mut [u8],
    answers: &mut [Answered],
) -> Taken
    ensures { AnswerMet drive.old most medium.old input.now reply.old answers.old (record { drive = drive.new; taken = result.bytes; count = result.calls }) medium.new reply.new answers.new }
{
    let mut taken = Taken { bytes: 0, calls: 0 };
    for answered in answers.iter_mut() {
        let Some(record) = whole_record(&input[taken.bytes..], most) else {
            break;
        };
        *answered = Answered {
            answer: drive::gate(drive, medium, record.frame, record.clock, reply),
            partition: partition_of(record.frame),
        };
        taken.bytes += record::HEAD_SIZE + record.frame.len();
        taken.calls += 1;
    }
    taken
}
