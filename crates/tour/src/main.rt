// A tour: a drive is made ready, a log's shape is written to it and read back, and the same frame is tried again.
#![tactic(auto)]

ghost use Rattle.std.specs.Prelude.{◌≡◌, length};

use digest::mac;
use drive::Drive;
use records::{CredentialFields, RequestFields};
use rules::{Credential, KEY_SIZE, Refusal};
use std::io;
use std::io::Stdout;

mod say;

// A clock reading, in milliseconds. Frames are stamped with it.
const NOW: u64 = 1000;

// The medium's size, and the most bytes of a frame and of a reply here.
const MEDIUM_SIZE: usize = 400;

const FRAME_SIZE: usize = 160;

const CREDENTIAL_SIZE: usize = 36;

const REQUEST_SIZE: usize = 28;

// The data of the calls that set keys, and the shape that is written.
const PARTITION_SEED: &[u8] = b"partition 0 seed";

const WORKING_SEED: &[u8] = b"working key seed";

const SHAPE: &[u8] = b"log 4711, 312 mm top";

// A drive with its medium.
#[derive(Drop)]
struct Store {
    drive: Drive,
    medium: [u8; MEDIUM_SIZE],
}

// A step of the tour: a request on an object of partition 0 in its version, under the key in a slot, with its data.
#[derive(Clone, Copy)]
struct Step<'a> {
    what: &'a [u8],
    key: &'a [u8],
    slot: u8,
    object: u32,
    version: u32,
    request: RequestFields,
    payload: &'a [u8],
}

impl<'a> Step<'a> {
    // Every right to the object, to holder 9, for a minute.
    fn credential(self) -> Credential {
        records::credential_from(CredentialFields {
            expiry: NOW + 60000,
            object: self.object,
            version: self.version,
            first: 0,
            end: 20,
            holder: 9,
            rights: 0x7f,
            partition: 0,
            slot: self.slot,
            least: 0,
        })
    }
}

// A request at level 2; requests of the same time differ in `count`.
fn request(operation: u8, count: u32, a: u32, b: u32, n: u32) -> RequestFields {
    RequestFields {
        time: NOW,
        count,
        a,
        b,
        n,
        operation,
        level: 2,
    }
}

// Operation 7 on key 0 of the next lower slot.
fn key_request(count: u32) -> RequestFields {
    request(7, count, 0, 0, 16)
}

fn request_bytes(request: RequestFields) -> [u8; REQUEST_SIZE]
    ensures { 28 ≡ length result }
{
    let mut bytes = [0; REQUEST_SIZE];
    records::encode_request(request, &mut bytes);
    bytes
}

// The key that operation 7 makes of the signing key, as the file manager works it out: HMAC over request and seed.
fn new_key(key: &[u8], count: u32, seed: &[u8]) -> [u8; KEY_SIZE] {
    mac::of3(key, &request_bytes(key_request(count)), seed, b"")
}

// One exchange, under the key of the credential's slot: the result in the reply, which is good.
fn exchange<'a>(
    store: &mut Store,
    step: Step,
    reply: &'a mut [u8; FRAME_SIZE],
) -> Result<&'a [u8], Refusal> {
    let request = request_bytes(step.request);
    let mut credential = [0; CREDENTIAL_SIZE];
    let mut frame = [0; FRAME_SIZE];
    // The README shows the lines from here on.
    let secret = client::issue(step.credential(), step.key, &mut credential)?;
    let n = client::build(&credential, &request, step.payload, &secret, &mut frame)?;
    let frame = &frame[..n.min(FRAME_SIZE)];
    let n = drive::gate(&mut store.drive, &mut store.medium, frame, NOW, reply)?;
    let reply = &reply[..n.min(FRAME_SIZE)];
    client::check(&credential, &request, &secret, reply)
}

// Makes one exchange, and prints what came of it.
fn send(out: Stdout, store: &mut Store, step: Step) -> io::Result<()> {
    let mut reply = [0; FRAME_SIZE];
    say::step(out, step.what, exchange(store, step, &mut reply))
}

// Makes the medium a drive's, with first version 1. Gives partition 0 a key, under the drive's, and working key 0, under
// that one.
fn make_ready(out: Stdout, top: &[u8], upper: &[u8]) -> io::Result<Store> {
    let mut medium = [0; MEDIUM_SIZE];
    let formatted = drive::format(&mut medium, 1, &[0; KEY_SIZE], top);
    say::format(out, formatted.answer)?;
    let drive = formatted.drive;
    let mut store = Store { drive, medium };
    let partition_key = Step {
        what: b"set the key of partition 0",
        key: top,
        slot: 3,
        object: 0,
        version: 0,
        request: key_request(1),
        payload: PARTITION_SEED,
    };
    send(out, &mut store, partition_key)?;
    let working_key = Step {
        what: b"set its working key 0",
        key: upper,
        slot: 2,
        object: 0,
        version: 0,
        request: key_request(2),
        payload: WORKING_SEED,
    };
    send(out, &mut store, working_key)?;
    Ok(store)
}

// Makes object 1, which gets version 2, and writes a shape into it.
fn write_shape(out: Stdout, store: &mut Store, key: &[u8]) -> io::Result<()> {
    let create = Step {
        what: b"create object 1 of 20 bytes",
        key,
        slot: 0,
        object: 0,
        version: 1,
        request: request(5, 3, 1, 20, 0),
        payload: b"",
    };
    send(out, store, create)?;
    let write = Step {
        what: b"write a shape into it",
        key,
        slot: 0,
        object: 1,
        version: 2,
        request: request(2, 4, 0, 20, 20),
        payload: SHAPE,
    };
    send(out, store, write)
}

// Reads object 1, twice. The same records under the same key make the same frame.
fn read_shape(out: Stdout, store: &mut Store, key: &[u8]) -> io::Result<()> {
    let read = Step {
        what: b"read it back",
        key,
        slot: 0,
        object: 1,
        version: 2,
        request: request(1, 5, 0, 20, 0),
        payload: b"",
    };
    send(out, store, read)?;
    let again = Step {
        what: b"the same frame again",
        ..read
    };
    send(out, store, again)
}

fn main(rt: HostRuntime) -> io::Result<()> {
    let out = rt.stdout();
    let top = [1; KEY_SIZE];
    let upper = new_key(&top, 1, PARTITION_SEED);
    let key = new_key(&upper, 2, WORKING_SEED);
    let mut store = make_ready(out, &top, &upper)?;
    write_shape(out, &mut store, &key)?;
    read_shape(out, &mut store, &key)
}
