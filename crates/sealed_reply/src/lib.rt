// The reply to a granted frame: its head, the result, and at level 2 its digest.
#![tactic(auto)]

ghost use Rattle.std.specs.Prelude.{◌≡◌};
ghost use Rattle.sealed_reply.specs.Reply.{seal_put, reply_put};

use digest::mac;
use digest::mac::Mac;
use effect::GrantContext;
use rules::{Operation, Request};

// Kept, the new form is no plainer: a reply and how many of its bytes are written. The digest goes behind them, so the call needs both.
// The digest of what `hash` took and the reply's first n bytes goes after these.
pub fn seal(reply: &mut [u8], hash: Mac, n: usize)
    ensures { reply.new ≡ seal_put hash n reply.old }
{
    if !octets::fits(reply.len(), n, 32) {
        return;
    }
    let digest = mac::finish(mac::absorb(hash, &reply[..n]));
    octets::copy_to(reply, n, &digest);
}

// The whole reply to the request of numbers `r`, whose result has n bytes: its head, the result, and at level 2 the digest of
// what `hash` took, the head and the result.
pub fn put_reply(
    reply: &mut [u8],
    medium: &[u8],
    hash: Mac,
    r: Request,
    n: u32,
    o: Operation,
    context: GrantContext,
)
    ensures { reply.new ≡ reply_put hash r n o context medium.now reply.old }
{
    let head = reply::reply_head(r, n);
    octets::copy_to(reply, 0, &head);
    result::put_result(reply, medium, o, context);
    if r.level == 2 {
        seal(reply, hash, 8 + n as usize);
    }
}
