// The client end of document 01: the check of a reply, rows 26, 28 and 30.
#![tactic(auto)]

ghost use Rattle.std.specs.Prelude.{◌≡◌, ◌+◌, length};
ghost use Rattle.lemmas.specs.RowTable.{first_row};
ghost use Rattle.rules.specs.Frame.{digest_size};
ghost use Rattle.rules.specs.Client.{check_rows};
ghost use Rattle.rules.specs.Refusals.{answer_row};
ghost use Rattle.reply_check.specs.Shape.{wrong_digest, wrong_reply, wrong_shape};
ghost use Rattle.reply_check.specs.Met.{CheckMet, part_of};

use digest::mac;
pub use reply::HEAD_SIZE;
use rules::{KEY_SIZE, Refusal, refuse};

// The longest result that a reply may be asked for.
const MOST_RESULT: u32 = 4194304;

// Whether a reply has not the head and the length that the request calls for.
fn wrong_shape(reply: &[u8], r: rules::Request) -> bool
    ensures { result ≡ wrong_shape reply.now r }
{
    if reply.len() as u64 != reply::reply_length(r) {
        return true;
    }
    let n = reply::result_length(r);
    let head = reply::reply_head(r, n);
    !octets::same(&reply[..HEAD_SIZE], &head)
}

// Kept, the new form is no plainer: a reply and a place in it; head and result before that place are digested, the digest behind it compared.
// Whether a reply's digest, after n bytes of head and result, is another than the one under the credential key.
fn wrong_digest(credential: &[u8], request: &[u8], key: &[u8], reply: &[u8], n: usize) -> bool
    requires { length reply.now ≡ n + digest_size }
    ensures { result ≡ wrong_digest credential.now request.now key.now reply.now n }
{
    let right = mac::of3(key, credential, request, &reply[..n]);
    !octets::same(&reply[n..], &right)
}

// Kept for the C interface: credential, request, key and reply one by one, as C passes them to the call below.
// Row 30: whether a reply is another than the request r calls for, by its head, its length or its digest.
fn wrong_reply(
    credential: &[u8],
    request: &[u8],
    key: &[u8],
    reply: &[u8],
    r: rules::Request,
) -> bool
    ensures { result ≡ wrong_reply credential.now request.now key.now reply.now r }
{
    if wrong_shape(reply, r) {
        return true;
    }
    if r.level != 2 {
        return false;
    }
    let n = HEAD_SIZE + reply::result_length(r) as usize;
    wrong_digest(credential, request, key, reply, n)
}

// Rows 26, 28 and 30, the first that refuses.
fn check_row(credential: &[u8], request: &[u8], key: &[u8], reply: &[u8]) -> Result<(), Refusal>
    ensures { answer_row result ≡ first_row (check_rows credential.now request.now key.now reply.now) }
{
    let r = fields::request_in(request, 0);
    let bad = record_rows::bad_records(credential, request)
        | (reply::result_length(r) > MOST_RESULT);
    refuse(key.len() != KEY_SIZE, Refusal::WrongKeySize)?;
    refuse(bad, Refusal::WrongRecord)?;
    refuse(
        wrong_reply(credential, request, key, reply, r),
        Refusal::WrongReply,
    )
}

// The result, as the part of `reply` after its head; or the row that refuses the reply.
pub fn check<'a>(
    credential: &[u8],
    request: &[u8],
    key: &[u8],
    reply: &'a [u8],
) -> Result<&'a [u8], Refusal>
    ensures { CheckMet credential.now request.now key.now reply.entry (answer_row result) (part_of reply.entry result) }
{
    check_row(credential, request, key, reply)?;
    let n = reply::result_length(fields::request_in(request, 0)) as usize;
    let end = HEAD_SIZE + n;
    Ok(&reply[HEAD_SIZE..end])
}
