//! Files of runs that were changed at each place, or cut short: an opening finds what a plain reading of their bytes does.
use crate::asserted::same;
use crate::device::{bytes_of, device, group, key};
use crate::plain::{Held, Spelled, held_in};
use mega_base::{Cell, Cursor, Items, Position, Row, Text, Value, take_option};
use mega_disk::{MemDisk, StoreError};
use mega_runs::{Mark, Run, RunFile, Version, can_write};
use std::alloc::Global;
use std::process::Abort;

/// A row of a text and two numbers.
fn row_of(rt: &impl Abort, alloc: Global) -> Row {
    let text = Text::from_str(alloc, "aé").expect(rt, "refused");
    let mut cells = Items::new(alloc);
    let values = Items::from_vec(vec![in alloc; Value::Str(text)].expect(rt, "refused"));
    cells
        .push(Cell {
            property: 1,
            values,
        })
        .expect(rt, "refused");
    let mut values = Items::new(alloc);
    values.push(Value::Int32(7)).expect(rt, "refused");
    values.push(Value::Bool(true)).expect(rt, "refused");
    cells
        .push(Cell {
            property: 2,
            values,
        })
        .expect(rt, "refused");
    Row::new(alloc, cells).expect(rt, "refused")
}

/// Adds a run with a mark, a deletion of the key 1 and a row of this key.
fn add(rt: &impl Abort, alloc: Global, file: &mut RunFile<MemDisk>, is_base: bool, number: u64) {
    let mut marks = Items::new(alloc);
    let mark = Mark {
        group: group(rt, alloc),
        at: Position(number),
    };
    marks.push(mark).expect(rt, "refused");
    let mut versions = Items::new(alloc);
    let deletion = Version {
        key: key(rt, alloc, 1),
        at: Position(number),
        row: None,
    };
    versions.push(deletion).expect(rt, "refused");
    let version = Version {
        key: key(rt, alloc, number),
        at: Position(9),
        row: Some(row_of(rt, alloc)),
    };
    versions.push(version).expect(rt, "refused");
    let run = Run {
        is_base,
        marks,
        versions,
    };
    if !can_write(&run) {
        panic!(rt; "not a run");
    }
    file.add(alloc, run).expect(rt, "refused");
}

/// The bytes of a file with three runs, of which the second is a base.
fn three_runs(rt: &impl Abort, alloc: Global) -> Vec<u8> {
    match RunFile::open(alloc, MemDisk::new(alloc)) {
        Ok(opened) => {
            let mut file = opened;
            add(rt, alloc, &mut file, false, 2);
            add(rt, alloc, &mut file, true, 3);
            add(rt, alloc, &mut file, false, 3);
            bytes_of(rt, alloc, &mut file.close())
        }
        Err((error, _)) => panic!(rt; "refused: {error:?}"),
    }
}

/// The row, or none, that these bytes spell.
fn read_row(rt: &impl Abort, alloc: Global, bytes: &[u8]) -> Option<Row> {
    let mut cursor = Cursor::new(bytes);
    take_option(alloc, &mut cursor).expect(rt, "refused")
}

/// Whether the version is one of those that are spelled.
fn is_among(rt: &impl Abort, alloc: Global, version: &Version, all: &[Spelled]) -> bool {
    for spelled in all {
        if spelled.key == version.key && spelled.at == version.at.0 {
            return read_row(rt, alloc, spelled.row.as_slice()) == version.row;
        }
    }
    false
}

/// Asserts that an opened file holds what was read plainly.
fn check_held(rt: &impl Abort, alloc: Global, file: &mut RunFile<MemDisk>, held: &Held) {
    same(rt, file.mark(&group(rt, alloc)).0, held.mark);
    let found = file.versions(alloc).expect(rt, "refused");
    same(rt, found.len(), held.versions.len());
    for version in &found {
        let is_there = is_among(rt, alloc, version, held.versions.as_slice());
        same(rt, is_there, true);
    }
}

/// Opens a file beside a plain reading of it; whether it was opened.
fn check_opening(rt: &impl Abort, alloc: Global, bytes: &[u8]) -> bool {
    let plain = held_in(alloc, bytes).expect(rt, "refused");
    match (RunFile::open(alloc, device(rt, alloc, bytes)), plain) {
        (Ok(opened), Ok(held)) => {
            let mut file = opened;
            check_held(rt, alloc, &mut file, &held);
            true
        }
        (Err((StoreError::BadRecord { number }, _)), Err(wanted)) => {
            same(rt, number, wanted);
            false
        }
        _ => panic!(rt; "an opening and a plain reading differ"),
    }
}

/// Changes the byte at a place.
fn change(bytes: &mut Vec<u8>, place: usize, by: u8) {
    if let Some(byte) = bytes.as_mut_slice().get_mut(place) {
        *byte ^= by;
    }
}

/// Changes each byte of these places forty times; how many of the files are refused.
fn count_refused(rt: &impl Abort, alloc: Global, from: usize, to: usize) -> u64 {
    let mut bytes = three_runs(rt, alloc);
    let mut refused = 0u64;
    for place in from..to {
        for number in 1..=40u8 {
            let by = number.wrapping_mul(37);
            change(&mut bytes, place, by);
            if !check_opening(rt, alloc, bytes.as_slice()) {
                refused = refused.wrapping_add(1);
            }
            change(&mut bytes, place, by);
        }
    }
    refused
}

#[test]
fn a_file_with_a_change_in_its_first_run_opens_as_its_bytes_say(rt: HostRuntime) {
    let alloc = rt.alloc();
    assert!(rt; count_refused(&rt, alloc, 0, 100) > 500);
}

#[test]
fn a_file_with_a_change_in_its_base_opens_as_its_bytes_say(rt: HostRuntime) {
    let alloc = rt.alloc();
    assert!(rt; count_refused(&rt, alloc, 100, 200) > 500);
}

#[test]
fn a_file_with_a_change_in_its_last_run_opens_as_its_bytes_say(rt: HostRuntime) {
    let alloc = rt.alloc();
    let size = three_runs(&rt, alloc).len();
    assert!(rt; count_refused(&rt, alloc, 200, size) > 500);
}

#[test]
fn a_file_that_was_cut_opens_as_its_bytes_say(rt: HostRuntime) {
    let alloc = rt.alloc();
    let mut bytes = three_runs(&rt, alloc);
    for size in (0..bytes.len()).rev() {
        bytes.truncate(size);
        same(&rt, check_opening(&rt, alloc, bytes.as_slice()), true);
    }
}
