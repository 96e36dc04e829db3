// Operation 7: the drive's keys after it. The other operations leave them.
#![tactic(auto)]

ghost use Rattle.std.specs.Prelude.{◌≡◌};
ghost use Rattle.set_key.specs.Keys.{keys_after};

use digest::mac;
use rules::Operation;

// The keys after an operation under key `j`, which is the one in a slot as partition `p` has it; `signed` is the request and
// the seed. Where that key was never set, nothing is written.
pub fn apply(keys: &mut [u8], o: Operation, j: usize, slot: u8, p: usize, signed: &[u8])
    ensures { keys.new ≡ keys_after o j slot p signed.now keys.old }
{
    let Operation::SetKey { target } = o else {
        return;
    };
    let Some(key) = keyring::key(&*keys, j) else {
        return;
    };
    let new = mac::of(key, signed);
    keyring::store_key(keys, slot, p, target as usize, &new);
}
