// The result of a granted operation, in the reply. Where it does not fit, nothing is written.
#![tactic(auto)]

ghost use Rattle.std.specs.Prelude.{◌≡◌};
ghost use Rattle.result.specs.Result.{result_put};

use effect::GrantContext;
use rules::Operation;

// The result goes into the reply after its eight-byte head.
pub fn put_result(reply: &mut [u8], medium: &[u8], o: Operation, context: GrantContext)
    ensures { reply.new ≡ result_put o context medium.now reply.old }
{
    match o {
        Operation::Read { offset, length } => {
            let start = context.quarterstart as usize + context.start as usize;
            let from = start + offset as usize;
            extent::read_extent(medium, from, length as usize, reply, 8);
        }
        Operation::Look => {
            octets::put(reply, 8, 4, u64::from(context.looksize));
            octets::put(reply, 12, 4, u64::from(context.version));
        }
        Operation::Raise | Operation::Create { .. } => {
            octets::put(reply, 8, 4, u64::from(context.nextversion))
        }
        _ => {}
    }
}
