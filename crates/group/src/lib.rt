// Document 02, change 6: whether a group object's bytes are a list of object numbers, and whether a member is in it.
#![tactic(auto)]

ghost use Rattle.std.specs.Prelude.{◌≡◌};
ghost use Rattle.rules.specs.Refusals.{answer_row};
ghost use Rattle.group.specs.GroupRow.{group_row};

use rules::{Refusal, refuse};

// The bytes of a number in the list.
const MEMBER_SIZE: usize = 4;

// Row 32 where the bytes are no list of four-byte object numbers from 1 in strictly rising order; row 33 where the member is not in
// the list. The list is walked to its end, whatever the member: row 32 speaks of every byte.
pub fn group_row(bytes: &[u8], member: u32) -> Result<(), Refusal>
    ensures { answer_row result ≡ group_row bytes.now member }
{
    let (places, rest) = bytes.as_chunks::<MEMBER_SIZE>();
    refuse(!rest.is_empty(), Refusal::BadList)?;
    let mut last = 0;
    let mut found = false;
    for place in places {
        let number = u32::from_be_bytes(*place);
        refuse(number <= last, Refusal::BadList)?;
        found |= number == member;
        last = number;
    }
    refuse(!found, Refusal::NotListed)
}
