//! Lines of transcripts are read and written back as they are, and lines of no item are refused where they differ.

use crate::lines;
use crate::written::written_back;
use mega_base::{Bytes, Text};
use mega_schema::{Schema, parse};
use mega_transcript_reader::ItemFault;
use std::alloc::Global;
use std::process::Abort;

/// Lines that are none of an item, each behind the offset at which that shows.
const NONE: &str = r#"0 refused 2 world 3
0 Start 1 1"#;

fn schema(rt: &impl Abort, alloc: Global, text: &str) -> Schema {
    let text = Text::from_str(alloc, text).expect(rt, "refused");
    parse(alloc, &text).expect(rt, "refused")
}

/// A line with its line feed.
fn fed(rt: &impl Abort, alloc: Global, line: &str) -> Bytes {
    let mut fed = Bytes::from_slice(alloc, line.as_bytes()).expect(rt, "refused");
    fed.push(b'\n').expect(rt, "refused");
    fed
}

/// Asserts that each line is written back as it is.
fn check(rt: &impl Abort, alloc: Global, declared: &str, rows: &str) {
    let schema = schema(rt, alloc, declared);
    for row in rows.lines() {
        let line = fed(rt, alloc, row);
        let Ok(made) = written_back(alloc, &schema, line.as_slice()) else {
            panic!(rt; "a line is none of an item: {row}");
        };
        assert_eq!(rt; made.as_slice(), line.as_slice(), "{row}");
    }
}

#[test]
fn lines_of_users_are_written_back(rt: HostRuntime) {
    check(&rt, rt.alloc(), lines::USERS_SCHEMA, lines::USERS);
}

#[test]
fn lines_of_accounts_are_written_back(rt: HostRuntime) {
    check(&rt, rt.alloc(), lines::BANK_SCHEMA, lines::BANK);
}

#[test]
fn lines_of_photos_are_written_back(rt: HostRuntime) {
    check(&rt, rt.alloc(), lines::PHOTOS_SCHEMA, lines::PHOTOS);
}

/// Where a line shows that it is none of an item.
fn fault_at(read: Result<Bytes, ItemFault>) -> Option<u64> {
    match read {
        Err(ItemFault::NotItem { at }) => Some(at),
        _ => None,
    }
}

#[test]
fn lines_of_no_item_are_refused(rt: HostRuntime) {
    let alloc = rt.alloc();
    let schema = schema(&rt, alloc, lines::USERS_SCHEMA);
    for row in NONE.lines() {
        let (wanted, line) = row.split_once(' ').expect(&rt, "no offset");
        let line = fed(&rt, alloc, line);
        let at = fault_at(written_back(alloc, &schema, line.as_slice())).expect(&rt, "it is taken");
        let told = format!(in alloc; "{at}").expect(&rt, "refused");
        assert_eq!(rt; told.as_str(), wanted, "{row}");
    }
}
