//! Each entry of a table, cut short at each byte and changed at each byte, is refused at the byte that a
//! reader written apart from this one names, or read as the entry whose text it is.
use crate::changes::check_changes;
use mega_base::{Copied, Same};
use mega_entry::{Entry, decode};
use std::alloc::Global;
use std::process::Abort;

/// A no-op, a put of one row, an entry with a row of several kinds, a send, an enter and a handle, and a
/// batch of two; before each the sum, over its bytes and three changes of each, of the offsets of
/// refusal, 1000 where the changed text is that of an entry.
const ENTRIES: &str = "1917 01000900000000000000000000000000000000
97148 010101000000010000000101000000010000000a0180000000000000650101020100000001020000000000000065020000000104000000044a6f686e000000000000000000000000
216531 0100020000000200000001010000000001010103020000000203000301050000000101fffffff6ff000000010500000001aa000000010000000901800000000000006500000003c3a96300000001ff000000010000000901800000000000006500000000000000020000000000000003c3a96300000001ff0000000100000009018000000000000065000000000000000200000000
82243 02010100000001000000010300000002000000010100000000010100000000010000000901800000000000006500000003c3a96300000001ff000000000000000000000002000000000100000000020000000100000001";

#[test]
fn changed_entries(rt: HostRuntime) {
    check_changes::<Entry>(&rt, rt.alloc(), ENTRIES);
}

/// The entry of this text.
fn entry(rt: &impl Abort, alloc: Global, text: &str) -> Entry {
    let bytes = hex::decode(alloc, text).expect(rt, "refused");
    decode(alloc, bytes.as_slice()).expect(rt, "refused")
}

/// Asserts that the entry of a row is its copy, and the empty one where it has the empty one's length.
fn check_copy(rt: &impl Abort, alloc: Global, empty: &Entry, row: &str) {
    let (_, text) = row.split_once(' ').expect(rt, "no sum");
    let entry = entry(rt, alloc, text);
    let copy = entry.copy(alloc).expect(rt, "refused");
    assert!(rt; copy.same_as(&entry), "{text}");
    assert!(rt; empty.same_as(&entry) == (text.len() == 38), "{text}");
}

#[test]
fn copies_are_equal(rt: HostRuntime) {
    let empty = entry(&rt, rt.alloc(), "01000900000000000000000000000000000000");
    for row in ENTRIES.lines() {
        check_copy(&rt, rt.alloc(), &empty, row);
    }
}
