// Rows 10 to 23, with rows 32 to 34 after 15 and 31 after 21, judged of one partition's table and of what is known of the rest that
// a frame can see: the first row that applies refuses the frame. And what a frame's operation needs, by which rows 7 and 13 go.
#![tactic(auto)]

ghost use Rattle.std.specs.Prelude.{◌≡◌, ◌&&◌, List, ℕ, get_or};
ghost use Rattle.lemmas.specs.Lists.{find};
ghost use Rattle.lemmas.specs.Options.{option_of};
ghost use Rattle.lemmas.specs.RowTable.{first_row};
ghost use Rattle.lemmas.specs.Tests.{◌under◌};
ghost use Rattle.rules.specs.declared.Credential.{Credential};
ghost use Rattle.rules.specs.declared.Object.{Object};
ghost use Rattle.rules.specs.Frame.{entry, is_group_request, target_of};
ghost use Rattle.rules.specs.Refusals.{answer_row};
ghost use Rattle.rules.specs.Scope.{Scope};
ghost use Rattle.rules.specs.Needs.{need_under};
ghost use Rattle.rules.specs.Rows.{untimely, is_transfer, gives_version, out_of_range, row31, scope_rows};
ghost use Rattle.state.specs.Table.{needs_in, objects_in, partition_in};
ghost use Rattle.wire.specs.Parse.{numbers_of};
ghost use Rattle.judge.specs.Judge.{placement_for, object_or_none, present_version_in, list_row, time_row, object_row, room_row, FactsHold};

use fields::GROUP_MAGIC;
use rules::{
    Credential, EXTENT_STEP, Entry, LAST_VERSION, MOST_ENTRIES, MOST_OBJECTS, Need, Object,
    Refusal, Request, TIME_WINDOW, refuse,
};
use state::{LAST, LEASTS, MASKS, VERSION};
use wire::ParsedRequest;

// What stands for an object where there is none.
// Kept for what may not change: `no_object` (rules, Operations), by which present versions and sizes go where there is no object.
pub const NO_OBJECT: Object = Object {
    number: 0,
    version: 0,
    size: 0,
    start: 0,
};

// What a frame can see of a drive beside the keys and its own partition's table: M, the mark, and of its own replay memory,
// from which outlived entries are gone, whether that holds the frame's nonce, and how many entries.
#[derive(Clone, Copy)]
pub struct ScopeFacts {
    pub size: usize,
    pub highwater: u64,
    pub replayed: bool,
    pub held: usize,
}

// What is worked out of a frame before its rows are judged: the numbers of credential and request, what the operation needs, whether
// it would load a table that is not good (row 31), the object that the credential names, what rows 32 and 33 say of that one's bytes,
// the object that the frame reaches, where a new extent starts, and how long the reply is.
#[derive(Clone, Copy)]
pub struct FrameFacts {
    pub credential: Credential,
    pub request: Request,
    pub need: Need,
    pub badload: bool,
    pub found: Option<Object>,
    pub listed: Result<(), Refusal>,
    pub target: Option<Object>,
    pub place: Option<u32>,
    pub length: u64,
}

// The nonce of a frame: what a grant enters.
pub fn entry_of(c: Credential, request: ParsedRequest) -> Entry
    ensures { result ≡ entry c (numbers_of request) }
{
    Entry {
        slot: u32::from(c.slot),
        holder: c.holder,
        time: request.time,
        count: request.count,
        object: c.object,
    }
}

// The object, all zeros where there is none.
pub fn object_or_none(o: Option<Object>) -> Object
    ensures { result ≡ object_or_none (option_of o) }
{
    o.unwrap_or(NO_OBJECT)
}

// Where a new object's extent starts; none where none is asked for.
pub fn placement(table: &[u32], quarter: u32, r: Request) -> Option<u32>
    ensures { option_of result ≡ placement_for quarter (objects_in table.now) r }
{
    if r.operation != 5 {
        return None;
    }
    placing::best_fit(EXTENT_STEP, quarter, r.B, table)
}

// Row 11.
fn is_untimely(mark: u64, time: u64) -> bool
    ensures { result ≡ untimely mark time }
{
    mark.abs_diff(time) > TIME_WINDOW
}

// Rows 10 to 13: expiry, time, nonce, rights.
fn time_row(facts: ScopeFacts, k: FrameFacts) -> Result<(), Refusal>
    ensures { answer_row result ≡ time_row facts k.need k.credential k.request 0 }
{
    let expiry = k.credential.expiry;
    refuse(expiry < facts.highwater, Refusal::Expired)?;
    refuse(
        is_untimely(facts.highwater, k.request.time),
        Refusal::Untimely,
    )?;
    refuse(facts.replayed, Refusal::Replayed)?;
    refuse(needs::lacks_right(k.need, k.credential), Refusal::NoRight)
}

// The present version: object 0 means the partition.
pub fn present_version(version: u32, number: u32, found: Option<Object>) -> u32
    ensures { result ≡ present_version_in version number (option_of found) }
{
    if number == 0 {
        version
    } else {
        object_or_none(found).version
    }
}

// A number of a table, 0 past its end.
fn number_at(table: &[u32], i: usize) -> u32
    ensures { result ≡ get_or table.now i 0 }
{
    table.get(i).copied().unwrap_or(0)
}

// Whether operation k under a slot goes by its partition's table.
fn goes_by_table(slot: u8, k: u8) -> bool
    ensures { result ≡ (slot under 3 && k under 8) }
{
    (slot < 3) & (k < 8)
}

// What operation k needs under a slot, by its partition's table where that holds.
pub fn need_under(table: &[u32], slot: u8, k: u8) -> Need
    ensures { result ≡ need_under (needs_in table.now) slot k }
{
    if !goes_by_table(slot, k) {
        return needs::default_need(k);
    }
    let i = needs::table_place(k as usize);
    let mask = number_at(table, MASKS + i);
    let least = number_at(table, LEASTS + i);
    Need { mask, least }
}

// Row 31: whether operation 8 would load, from its data bytes, a table that is not good.
pub fn is_bad_load(r: Request, bytes: &[u8]) -> bool
    ensures { result ≡ row31 r bytes.now }
{
    (r.operation == 8) && !needs::is_good(bytes)
}

// Rows 32 and 33, of the bytes of the object that the credential names: a request that names no member passes.
pub fn list_row(group: &[u8], request: ParsedRequest) -> Result<(), Refusal>
    ensures { answer_row result ≡ list_row group.now (numbers_of request) }
{
    match request.member {
        None => Ok(()),
        Some(number) => group::group_row(group, number),
    }
}

// The object that a request reads, writes or looks at: a group's member, or else `found`, the one that the credential names.
pub fn target_in(table: &[u32], found: Option<Object>, request: ParsedRequest) -> Option<Object>
    ensures { (c : Credential) → option_of found ≡ find Object.number c.object (objects_in table.now)
        → option_of result ≡ find Object.number (target_of c (numbers_of request)) (objects_in table.now) }
{
    match request.member {
        None => found,
        Some(number) => state::look_up(table, number),
    }
}

// Whether a request has a member.
fn is_group(r: Request) -> bool
    ensures { result ≡ is_group_request r }
{
    r.magic == GROUP_MAGIC
}

// Kept, the new form is no plainer: this and the next are two sets of operations, each under its own name in the rules.
// Whether an operation reads or writes an object's bytes.
fn is_transfer(r: Request) -> bool
    ensures { result ≡ is_transfer r }
{
    (r.operation == 1) | (r.operation == 2)
}

// Whether an operation gives a new version.
fn gives_version(r: Request) -> bool
    ensures { result ≡ gives_version r }
{
    (r.operation == 4) | (r.operation == 5)
}

// Row 16's test: not within the credential's range.
fn is_out_of_range(c: Credential, r: Request) -> bool
    ensures { result ≡ out_of_range c.first c.end r.A r.B }
{
    !((c.first <= r.A) & (u64::from(r.A) + u64::from(r.B) <= u64::from(c.end)))
}

// Rows 14 and 15, 32 to 34, 16 and 17: object, version, list, member, range, size; `version` is the present one.
fn object_row(k: FrameFacts, version: u32) -> Result<(), Refusal>
    ensures { answer_row result ≡ object_row k.credential k.request (option_of k.found) version (answer_row k.listed)
        (option_of k.target) 0 }
{
    let c = k.credential;
    let r = k.request;
    let transfer = is_transfer(r);
    let size = object_or_none(k.target).size;
    refuse((c.object != 0) & k.found.is_none(), Refusal::NoObject)?;
    refuse(
        (r.operation < 7) & (c.version != version),
        Refusal::OtherVersion,
    )?;
    k.listed?;
    refuse(is_group(r) & k.target.is_none(), Refusal::NoMember)?;
    refuse(transfer & is_out_of_range(c, r), Refusal::OutOfRange)?;
    refuse(
        transfer & (u64::from(size) < u64::from(r.A) + u64::from(r.B)),
        Refusal::PastEnd,
    )
}

// Rows 18 to 21, 31, 22 and 23: number, objects, place, versions, operation table, memory, reply space; `held` is how many entries
// the memory has, `space` the room lent for the reply.
fn room_row(table: &[u32], held: usize, k: FrameFacts, space: usize) -> Result<(), Refusal>
    ensures { answer_row result
        ≡ room_row (partition_in table.now) held k.badload k.request (option_of k.place) k.length space }
{
    let r = k.request;
    let creates = r.operation == 5;
    let taken = state::look_up(table, r.A);
    refuse(creates & taken.is_some(), Refusal::NumberTaken)?;
    refuse(
        creates & (state::object_count(table) == MOST_OBJECTS),
        Refusal::AllObjects,
    )?;
    refuse(creates & k.place.is_none(), Refusal::NoGap)?;
    refuse(
        gives_version(r) & (number_at(table, LAST) == LAST_VERSION),
        Refusal::NoVersion,
    )?;
    refuse(k.badload, Refusal::BadTable)?;
    refuse(held == MOST_ENTRIES, Refusal::MemoryFull)?;
    refuse((space as u64) < k.length, Refusal::ShortReplySpace)
}

// Refused by the first of rows 10 to 23, with 32 to 34 after 15 and 31 after 21, that applies; `space` is the room lent for the
// reply.
pub fn judge(facts: ScopeFacts, table: &[u32], k: FrameFacts, space: usize) -> Result<(), Refusal>
    ensures { (s : Scope Object) (payload group : List ℕ) → FactsHold s facts (partition_in table.now) k payload group
        → answer_row result ≡ first_row (scope_rows s k.credential k.request payload group space) }
{
    let version = number_at(table, VERSION);
    let present = present_version(version, k.credential.object, k.found);
    time_row(facts, k)?;
    object_row(k, present)?;
    room_row(table, facts.held, k, space)
}
