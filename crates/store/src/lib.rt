// The drive for a store that is written in C: format, the gate and the issuer, over a record whose parts the caller lends and
// keeps. The crate `store_c` exports them.
#![tactic(auto)]

ghost use Rattle.std.specs.Prelude.{◌≡◌};
ghost use Rattle.drive.specs.Met.{call_of, FormatMet, GateMet};
ghost use Rattle.drive.specs.Lent.{record_of, answer_with, formatted_with};
ghost use Rattle.digest.specs.Digest.{digest_of, hmac_answer};
ghost use Rattle.rules.specs.Refusals.{answer_length, answer_row};
ghost use Rattle.records.specs.Coding.{credential_from};
ghost use Rattle.client.specs.Answers.{issued_of};
ghost use Rattle.client.specs.Met.{IssueMet};
ghost use Rattle.store.specs.Exported.{issued_with, digest_with};

use digest::TooLong;
use drive::TABLES;
use keyring::KEYS;
use memory::{ENTRIES, MEMORIES, PLACES};
use records::CredentialFields;
use rules::{DIGEST_SIZE, KEY_SIZE, Refusal, row_of};

// The gate's answer: row 0 and the reply's length, or the row and length 0.
// Kept for the C interface: this struct and the next two are what include/sievelast_store.h declares, where C has no Result.
#[repr(C)]
#[derive(Drop)]
pub struct FrameAnswered {
    pub row: u64,
    pub length: u64,
}

// The issuer's answer: row 0 and the credential key, or the row and 32 zero bytes.
#[repr(C)]
#[derive(Drop)]
pub struct CredentialIssued {
    pub row: u64,
    pub key: [u8; KEY_SIZE],
}

// A digest: row 0 and its bytes, or row 27 and zeros.
#[repr(C)]
#[derive(Drop)]
pub struct KeyedDigest {
    pub row: u64,
    pub bytes: [u8; DIGEST_SIZE],
}

impl From<Result<usize, Refusal>> for FrameAnswered {
    ghost from_gives = { λ reply answered. answered ≡ record { row = answer_row reply; length = answer_length reply } };

    fn from(reply: Result<usize, Refusal>) -> FrameAnswered {
        FrameAnswered {
            row: u64::from(row_of(reply)),
            length: reply.unwrap_or(0) as u64,
        }
    }
}

impl From<Result<[u8; KEY_SIZE], Refusal>> for CredentialIssued {
    ghost from_gives = { λ key issued. issued_with issued.row issued.key ≡ issued_of key };

    fn from(key: Result<[u8; KEY_SIZE], Refusal>) -> CredentialIssued {
        CredentialIssued {
            row: u64::from(row_of(key)),
            key: key.unwrap_or([0; KEY_SIZE]),
        }
    }
}

impl From<Result<[u8; DIGEST_SIZE], TooLong>> for KeyedDigest {
    ghost from_gives = { λ digest keyed. digest_with keyed.row keyed.bytes ≡ digest_of digest };

    fn from(digest: Result<[u8; DIGEST_SIZE], TooLong>) -> KeyedDigest {
        match digest {
            Ok(bytes) => KeyedDigest { row: 0, bytes },
            Err(_) => KeyedDigest {
                row: u64::from(Refusal::TooLong.row()),
                bytes: [0; DIGEST_SIZE],
            },
        }
    }
}

// Makes a medium a drive's, and these parts its record; refused, they are the record of a drive that has nothing.
// Kept for the C interface: here and in the gate the record's parts are lent one by one, as include/sievelast_store.h passes them.
pub fn sievelast_format_parts(
    size: &mut usize,
    highwater: &mut u64,
    keys: &mut [u8; KEYS],
    tables: &mut [u32; TABLES],
    lengths: &mut [usize; MEMORIES],
    entries: &mut [u32; ENTRIES],
    times: &mut [u64; PLACES],
    medium: &mut [u8],
    first: u32,
    master: &[u8],
    key: &[u8],
) -> u64
    ensures { FormatMet medium.old first master.now key.now
        (formatted_with result (record_of size.new highwater.new keys.new tables.new lengths.new entries.new times.new)) medium.new }
{
    let f = drive::format(medium, first, master, key);
    let d = f.drive;
    *size = d.size;
    *highwater = d.highwater;
    let k = d.keys;
    *keys = k;
    let t = d.tables;
    *tables = t;
    let l = d.lengths;
    *lengths = l;
    let e = d.entries;
    *entries = e;
    let at = d.times;
    *times = at;
    u64::from(row_of(f.answer))
}

// Puts a frame to the drive of these parts at a clock reading.
pub fn sievelast_gate_parts(
    size: usize,
    highwater: &mut u64,
    keys: &mut [u8; KEYS],
    tables: &mut [u32; TABLES],
    lengths: &mut [usize; MEMORIES],
    entries: &mut [u32; ENTRIES],
    times: &mut [u64; PLACES],
    medium: &mut [u8],
    frame: &[u8],
    clock: u64,
    reply: &mut [u8],
) -> FrameAnswered
    ensures { GateMet (record_of size highwater.old keys.old tables.old lengths.old entries.old times.old)
        medium.old (call_of frame.now clock reply.old)
        (answer_with result.row result.length (record_of size highwater.new keys.new tables.new lengths.new entries.new times.new))
        medium.new reply.new }
{
    FrameAnswered::from(drive::lent::gate(
        size, highwater, keys, tables, lengths, entries, times, medium, frame, clock, reply,
    ))
}

// Writes the 36 bytes of a credential at the start of `space` and returns its key.
pub fn sievelast_issue(fields: CredentialFields, key: &[u8], space: &mut [u8]) -> CredentialIssued
    ensures { IssueMet (credential_from fields) key.now space.old (issued_with result.row result.key) space.new }
{
    let c = records::credential_from(fields);
    CredentialIssued::from(client::issue(c, key, space))
}

// HMAC, for whoever sets keys: a new key is the HMAC of request and seed under the signing slot's key.
pub fn sievelast_hmac(key: &[u8], message: &[u8]) -> KeyedDigest
    ensures { digest_with result.row result.bytes ≡ hmac_answer key.now message.now }
{
    KeyedDigest::from(digest::hmac(key, message))
}
