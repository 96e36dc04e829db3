// Rows 7 to 23 and 31 to 34, and a grant, of what the frame can see of the drive.
ghost use Rattle.std.specs.Prelude.{◌≡◌, cond, List, ◌++◌, ℕ, ◌*◌, ◌+◌, ◌<◌, ◌≤◌, length, take};
ghost use Rattle.lemmas.specs.Lists.{part, same};
ghost use Rattle.lemmas.specs.Options.{option_of};
ghost use Rattle.lemmas.specs.Tests.{◌is◌};
ghost use Rattle.rules.specs.declared.Entry.{Entry};
ghost use Rattle.digest.specs.Hmac.{hmac};
ghost use Rattle.digest.specs.Keyed.{Keyed};
ghost use Rattle.rules.specs.Drive.{largest_medium, quarter as drive_quarter};
ghost use Rattle.rules.specs.Frame.{fields, covered, memory_index, target_of};
ghost use Rattle.rules.specs.Refusals.{answer_row};
ghost use Rattle.rules.specs.Rows.{row31};
ghost use Rattle.wire.specs.Parse.{numbers_of};
ghost use Rattle.judge.specs.Judge.{list_row};
ghost use Rattle.keyring.specs.Keys.{partition_count};
ghost use Rattle.state.specs.Table.{table_size, partition_in};
ghost use Rattle.set_key.specs.Keys.{keys_after};
ghost use Rattle.effect.specs.Effect.{medium_after};
ghost use Rattle.state.specs.Changes.{ChangedTo};
ghost use Rattle.partition.specs.Partition.{content_after};
ghost use Rattle.rules.specs.Needs.{needs_at};
ghost use Rattle.sealed_reply.specs.Reply.{reply_put};
ghost use Rattle.drive.specs.Admission.{scope_from, grant_context, StartsHold, AdmitRequires, ServeRequires, OutcomeMet, outcome_of};

use digest::mac;
use digest::mac::Mac;
use effect::GrantContext;
use judge::{FrameFacts, ScopeFacts};
use rules::{Credential, Need, Object, Operation, PartStarts, Refusal, Request};
use state::{LAST, VERSION};
use wire::Parsed;

// What a grant knows beside what it has written: the reply's length, the index of its slot's key, and what it puts into its
// partition's table: the next version, a new extent's start.
#[derive(Clone, Copy)]
pub struct Granted {
    pub length: usize,
    pub key: usize,
    pub next_version: u32,
    pub new_start: u32,
}

// What a frame can see of the drive beside the medium: facts of it and of the frame's memory, the keys, and the partition's table.
#[derive(Clone, Copy)]
struct ScopeParts<'a> {
    facts: ScopeFacts,
    keys: &'a [u8],
    table: &'a [u32],
}

// Which of the five memories: one for each partition (slots 0 to 2), a fifth for slots 3 and 4.
pub fn memory_of(c: Credential) -> usize
    ensures { result ≡ memory_index c }
{
    if c.slot < 3 { c.partition as usize } else { 4 }
}

// Kept, the new form is no plainer: here and below a frame and the places of its parts, with `StartsHold` required. Each function wants
// one or two of the parts, and a struct of both would be taken apart in each.
// The keyed hash that has taken credential and request under the credential key, made from the key in the slot.
fn records_mac(key: &[u8], frame: &[u8], starts: PartStarts) -> Mac
    requires { StartsHold frame.now starts }
    ensures { Keyed result (hmac key.now (take starts.request frame.now)) (take starts.payload frame.now) }
{
    let secret = mac::of(key, &frame[..starts.request]);
    mac::absorb(mac::start(&secret), &frame[..starts.payload])
}

// The digest that a frame must carry: over credential and request, and the data too from level 1.
fn frame_digest(hash: Mac, payload: &[u8], level: u8) -> [u8; 32]
    ensures { (k a b : List ℕ) → Keyed hash k (a ++ b) → result ≡ hmac k (covered level a b payload.now) }
{
    if level == 0 {
        return mac::finish(hash);
    }
    mac::finish(mac::absorb(hash, payload))
}

// Row 9: whether a frame carries the digest that it must.
fn is_signed(hash: Mac, frame: &[u8], starts: PartStarts, level: u8) -> bool
    requires { StartsHold frame.now starts }
    ensures { (k : List ℕ) → Keyed hash k ((fields frame.now).credential ++ (fields frame.now).request)
        → result ≡ same (fields frame.now).digest (hmac k (covered level (fields frame.now).credential
        (fields frame.now).request (fields frame.now).payload)) }
{
    let from = starts.payload;
    let end = starts.digest;
    let right = frame_digest(hash, &frame[from..end], level);
    octets::same(&frame[end..], &right)
}

// Rows 32 and 33, of the bytes of `found`, the object that the credential names, all zeros where there is none.
fn group_row(size: usize, medium: &[u8], p: Parsed, found: Object) -> Result<(), Refusal>
    requires { (size ≤ largest_medium) × (p.credential.partition < partition_count)
        × (p.credential.partition * drive_quarter size + found.start + found.size ≤ length medium.now) }
    ensures { answer_row result
        ≡ list_row (part medium.now (p.credential.partition * drive_quarter size + found.start) found.size) (numbers_of p.request) }
{
    let quarter = (size / 4) as u32;
    let base = u32::from(p.credential.partition) * quarter;
    let start = base as usize + found.start as usize;
    let end = start + found.size as usize;
    judge::list_row(&medium[start..end], p.request)
}

// The size that a look tells: object 0 means the partition.
fn look_size(number: u32, quarter: u32, size: u32) -> u32
    ensures { result ≡ cond (number is 0) quarter size }
{
    if number == 0 { quarter } else { size }
}

// Where a grant works: `target` is the object that the request reads, writes or looks at, `place` a new extent's.
fn grant_context(
    size: usize,
    table: &[u32],
    p: Parsed,
    target: Option<Object>,
    place: Option<u32>,
) -> GrantContext
    requires { (size ≤ largest_medium) × (p.credential.partition < partition_count) × (length table.now ≡ table_size) }
    ensures { result ≡ grant_context size (partition_in table.now) p.credential (target_of p.credential (numbers_of p.request))
        (option_of target) (option_of place) }
{
    let c = p.credential;
    let number = wire::target_of(c, p.request);
    let quarter = (size / 4) as u32;
    let o = judge::object_or_none(target);
    GrantContext {
        quarterstart: u32::from(c.partition) * quarter,
        start: o.start,
        size: o.size,
        newstart: place.unwrap_or(0),
        looksize: look_size(number, quarter, o.size),
        version: judge::present_version(table[VERSION], number, target),
        nextversion: effect::next_version(table[LAST]),
    }
}

// Kept, the new form is no plainer: a struct of hash, request, length, operation and context would be made once, in the next function, and
// taken apart once, here; and so one of what `admit` found of a frame.
// What a grant writes: the reply to the request of numbers `r`, whose result has n bytes; and the medium.
fn grant(
    hash: Mac,
    medium: &mut [u8],
    frame: &[u8],
    starts: PartStarts,
    reply: &mut [u8],
    r: Request,
    n: u32,
    o: Operation,
    context: GrantContext,
)
    requires { StartsHold frame.now starts }
    ensures { (medium.new ≡ medium_after o context (fields frame.now).payload medium.old)
        × (reply.new ≡ reply_put hash r n o context medium.old reply.old) }
{
    let from = starts.payload;
    let end = starts.digest;
    sealed_reply::put_reply(reply, medium, hash, r, n, o, context);
    effect::update_medium(medium, &frame[from..end], o, context);
}

// Rows 8 to 23 and 31 to 34, or the grant: the reply and the medium. `need` is what the operation needs, `bad` row 31's test, `r` the
// request's numbers. No digest is computed for a frame that row 8 refuses, and no group's list is read for one that row 9 refuses.
fn serve(
    scope: ScopeParts,
    need: Need,
    bad: bool,
    medium: &mut [u8],
    frame: &[u8],
    reply: &mut [u8],
    p: Parsed,
    r: Request,
) -> Result<Granted, Refusal>
    requires { (l : List Entry)
        × ServeRequires scope.facts need bad scope.keys.now scope.table.now l medium.old frame.now p.credential p.request r }
    ensures { (l : List Entry)
        → ServeRequires scope.entry.facts need bad scope.entry.keys.now scope.entry.table.now l medium.old frame.now p.credential p.request r
        → OutcomeMet (scope_from scope.entry.facts scope.entry.keys.now scope.entry.table.now l) medium.old frame.now reply.old
        p.request.operation (outcome_of result) medium.new reply.new }
{
    let facts = scope.facts;
    let keys = scope.keys;
    let table = scope.table;
    let c = p.credential;
    let request = p.request;
    let j = keyring::key_index(c.slot, c.partition as usize).ok_or(Refusal::KeyNotSet)?;
    let key = keyring::key(keys, j).ok_or(Refusal::KeyNotSet)?;
    let starts = request.starts;
    let hash = records_mac(key, frame, starts);
    if !is_signed(hash, frame, starts, request.level) {
        return Err(Refusal::WrongDigest);
    }
    let o = request.operation;
    let n = reply::result_length(r);
    let length = reply::length_with(r, n);
    let found = state::look_up(table, c.object);
    let named = judge::object_or_none(found);
    let target = judge::target_in(table, found, request);
    let listed = group_row(facts.size, &*medium, p, named);
    let place = judge::placement(table, (facts.size / 4) as u32, r);
    let known = FrameFacts {
        credential: c,
        request: r,
        need,
        badload: bad,
        found,
        listed,
        target,
        place,
        length,
    };
    judge::judge(facts, table, known, reply.len())?;
    let context = grant_context(facts.size, table, p, target, place);
    grant(hash, medium, frame, starts, reply, r, n, o, context);
    Ok(Granted {
        length: length as usize,
        key: j,
        next_version: context.nextversion,
        new_start: context.newstart,
    })
}

// Row 31: whether a frame would load a table that is not good.
fn loads_bad_table(frame: &[u8], starts: PartStarts, r: Request) -> bool
    requires { StartsHold frame.now starts }
    ensures { result ≡ row31 r (fields frame.now).payload }
{
    let table = starts.payload;
    let end = starts.digest;
    judge::is_bad_load(r, &frame[table..end])
}

// Rows 7 to 23 and 31 to 34, or the grant: the reply and the medium; keys, table and memory are left to the caller. No digest is
// computed for a frame that row 7 or 8 refuses.
pub fn admit(
    facts: ScopeFacts,
    keys: &[u8],
    table: &[u32],
    medium: &mut [u8],
    frame: &[u8],
    reply: &mut [u8],
    p: Parsed,
) -> Result<Granted, Refusal>
    requires { (l : List Entry) × AdmitRequires facts keys.now table.now l medium.old frame.now p.credential p.request }
    ensures { (l : List Entry) → AdmitRequires facts keys.now table.now l medium.old frame.now p.credential p.request
        → OutcomeMet (scope_from facts keys.now table.now l) medium.old frame.now reply.old
        p.request.operation (outcome_of result) medium.new reply.new }
{
    let c = p.credential;
    let r = wire::numbers(p.request);
    let need = judge::need_under(table, c.slot, r.operation);
    if needs::low_level(need, c, r) {
        return Err(Refusal::LowLevel);
    }
    let starts = p.request.starts;
    let bad = loads_bad_table(frame, starts, r);
    let scope = ScopeParts { facts, keys, table };
    serve(scope, need, bad, medium, frame, reply, p, r)
}

// The keys after a grant under key `j`.
pub fn change_keys(keys: &mut [u8], frame: &[u8], j: usize, p: Parsed)
    requires { StartsHold frame.now p.request.starts }
    ensures { keys.new ≡ keys_after p.request.operation j p.credential.slot p.credential.partition
        ((fields frame.now).request ++ (fields frame.now).payload) keys.old }
{
    let c = p.credential;
    let o = p.request.operation;
    let starts = p.request.starts;
    let from = starts.request;
    let end = starts.digest;
    set_key::apply(keys, o, j, c.slot, c.partition as usize, &frame[from..end]);
}

// A partition's table after a grant.
pub fn change_table(table: &mut [u32], frame: &[u8], given: Granted, p: Parsed)
    requires { StartsHold frame.now p.request.starts }
    ensures { ChangedTo table.old table.new
        (content_after p.request.operation p.credential.object given.next_version given.new_start
        (needs_at (fields frame.now).payload) table.old) }
{
    let o = p.request.operation;
    let starts = p.request.starts;
    let from = starts.payload;
    let end = starts.digest;
    partition::apply(
        table,
        o,
        p.credential.object,
        given.next_version,
        given.new_start,
        &frame[from..end],
    );
}
