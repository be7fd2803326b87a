//! Reads the records before the first closed gate of a file's bytes.
ghost use Rattle.std.specs.Prelude.{◌≡◌, ◌<◌, ◌≤◌, ◌++◌, length, drop, None, IfOk, OnOk};
ghost use Rattle.std.specs.Option.{option_map};
ghost use Rattle.mega_journal.specs.Chain.{first_record as first_record_of, records_of, chain_of, AreShort};

use mega_base::{Bytes, NoMemory};
use std::alloc::Global;

/// The records of a file's bytes, and the place of the first gate that is not that of a record.
#[derive(Drop)]
pub struct Found {
    pub records: Vec<Bytes>,
    pub end: usize,
}

/// Reads the records before the first closed gate; one that does not lie whole within the bytes, with
/// the gate behind it, counts as closed.
pub fn parse(alloc: Global, bytes: &[u8]) -> Result<Found, NoMemory>
    ensures records { IfOk result (λ found. found.records.items ≡ records_of bytes.now) }
    ensures end { IfOk result (λ found. found.end ≡ length (chain_of (records_of bytes.now))) }
    ensures spelled { IfOk result (λ found. bytes.now ≡ chain_of (records_of bytes.now) ++ drop found.end bytes.now) }
    ensures closed { IfOk result (λ found. first_record_of (drop found.end bytes.now) ≡ None) }
    ensures short { OnOk result (AreShort (records_of bytes.now)) }
    ensures few { IfOk result (λ found. length found.records.items ≤ found.end) }
    ensures within { IfOk result (λ found. found.end ≤ length bytes.now) }
    ensures behind { 0 < length bytes.now → IfOk result (λ found. found.end < length bytes.now) }
{
    let mut records = Vec::new(alloc);
    let mut rest = bytes;
    while let Some((body, behind)) = first_record(rest) {
        records.push(Bytes::from_slice(alloc, body)?)?;
        rest = behind;
    }
    let end = bytes.len() - rest.len();
    Ok(Found { records, end })
}

/// The body of the record at the front, and what is behind it.
fn first_record(bytes: &[u8]) -> Option<(&[u8], &[u8])>
    ensures { option_map (λ found. (found.0.now, found.1.now)) result ≡ first_record_of bytes.now }
{
    let (gate, rest) = bytes.split_first()?;
    if *gate != 1 || rest.len() < 4 {
        return None;
    }
    let (size, rest) = rest.split_at(4);
    let size = u32::from_be_bytes([size[0], size[1], size[2], size[3]]) as usize;
    if rest.len() <= size {
        return None;
    }
    Some(rest.split_at(size))
}
