// The drive for a store that is written in C, as a static library: the calls of the crate `store`. include/sievelast_store.h declares
// them, and the record as one struct.
#![tactic(auto)]

ghost use Rattle.std.specs.Prelude.{◌≡◌};
ghost use Rattle.drive.specs.Met.{call_of, FormatMet, GateMet};
ghost use Rattle.drive.specs.Lent.{record_of, answer_with, formatted_with};
ghost use Rattle.digest.specs.Digest.{hmac_answer};
ghost use Rattle.records.specs.Coding.{credential_from};
ghost use Rattle.client.specs.Met.{IssueMet};
ghost use Rattle.store.specs.Exported.{issued_with, digest_with};

use drive::TABLES;
use keyring::KEYS;
use memory::{ENTRIES, MEMORIES, PLACES};
use records::CredentialFields;
use store::{CredentialIssued, FrameAnswered, KeyedDigest};

// Kept for the C interface: the functions here hand on those of `store` under C's names, the record's parts one by one.
// Makes a medium a drive's, and these parts its record; refused, they are the record of a drive that has nothing.
#[unsafe(no_mangle)]
pub extern "C" fn sievelast_format_parts(
    size: &mut usize,
    highwater: &mut u64,
    keys: &mut [u8; KEYS],
    tables: &mut [u32; TABLES],
    lengths: &mut [usize; MEMORIES],
    entries: &mut [u32; ENTRIES],
    times: &mut [u64; PLACES],
    medium: &mut [u8],
    first: u32,
    master: &[u8],
    key: &[u8],
) -> u64
    ensures { FormatMet medium.old first master.now key.now
        (formatted_with result (record_of size.new highwater.new keys.new tables.new lengths.new entries.new times.new)) medium.new }
{
    store::sievelast_format_parts(
        size, highwater, keys, tables, lengths, entries, times, medium, first, master, key,
    )
}

// Puts a frame to the drive of these parts at a clock reading.
#[unsafe(no_mangle)]
pub extern "C" fn sievelast_gate_parts(
    size: usize,
    highwater: &mut u64,
    keys: &mut [u8; KEYS],
    tables: &mut [u32; TABLES],
    lengths: &mut [usize; MEMORIES],
    entries: &mut [u32; ENTRIES],
    times: &mut [u64; PLACES],
    medium: &mut [u8],
    frame: &[u8],
    clock: u64,
    reply: &mut [u8],
) -> FrameAnswered
    ensures { GateMet (record_of size highwater.old keys.old tables.old lengths.old entries.old times.old)
        medium.old (call_of frame.now clock reply.old)
        (answer_with result.row result.length (record_of size highwater.new keys.new tables.new lengths.new entries.new times.new))
        medium.new reply.new }
{
    store::sievelast_gate_parts(
        size, highwater, keys, tables, lengths, entries, times, medium, frame, clock, reply,
    )
}

// Writes the 36 bytes of a credential at the start of `space` and returns its key.
#[unsafe(no_mangle)]
pub extern "C" fn sievelast_issue(
    fields: CredentialFields,
    key: &[u8],
    space: &mut [u8],
) -> CredentialIssued
    ensures { IssueMet (credential_from fields) key.now space.old (issued_with result.row result.key) space.new }
{
    store::sievelast_issue(fields, key, space)
}

// HMAC, for whoever sets keys: a new key is the HMAC of request and seed under the signing slot's key.
#[unsafe(no_mangle)]
pub extern "C" fn sievelast_hmac(key: &[u8], message: &[u8]) -> KeyedDigest
    ensures { digest_with result.row result.bytes ≡ hmac_answer key.now message.now }
{
    store::sievelast_hmac(key, message)
}
