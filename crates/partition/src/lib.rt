// What a granted operation does to its partition's table (operations 4 to 6 of document 01, operation 8 of document 02). Total.
#![tactic(auto)]

ghost use Rattle.rules.specs.Needs.{needs_at};
ghost use Rattle.state.specs.Changes.{ChangedTo};
ghost use Rattle.partition.specs.Partition.{content_after};

use rules::{Object, Operation};

// Does what an operation on the object of a number does to its partition's table, `version` being the new version, `start` a
// new extent's start and `bytes` the frame's data. Four operations leave it.
pub fn apply(table: &mut [u32], o: Operation, number: u32, version: u32, start: u32, bytes: &[u8])
    ensures { ChangedTo table.old table.new
        (content_after o number version start (needs_at bytes.now) table.old) }
{
    match o {
        Operation::Raise => state::raise(table, number, version),
        Operation::Create { number, size } => state::create(
            table,
            Object {
                number,
                version,
                size,
                start,
            },
        ),
        Operation::Delete => state::delete(table, number),
        Operation::LoadTable => state::load(table, bytes),
        _ => {}
    }
}
