//! Lines at the limits of length, number and nesting, and each byte in each place of a line.

use super::{lines, reason, schema};
use mega_schedule::event;
use mega_schema::Schema;
use std::alloc::Global;
use std::process::Abort;

/// A line, this byte behind it up to this length.
fn padded(rt: &impl Abort, alloc: Global, line: &str, byte: u8, length: usize) -> Vec<u8> {
    let mut padded = Vec::from_slice(alloc, line.as_bytes()).expect(rt, "refused");
    for _ in line.len()..length {
        padded.push(byte).expect(rt, "refused");
    }
    padded
}

/// Asserts what is told of a line of this number.
fn check_line(
    rt: &impl Abort,
    alloc: Global,
    schema: &Schema,
    line: &[u8],
    number: u64,
    wanted: u8,
) {
    let told = reason(event(alloc, line, number, schema));
    assert_eq!(rt; told, wanted, "line {number} with {} bytes", line.len());
}

/// Asserts what is told of a line in the shortest and longest spelling, in the last place and behind it.
fn check_ends(rt: &impl Abort, alloc: Global, schema: &Schema, own: u8, line: &str) {
    let longest = padded(rt, alloc, line, b' ', 65_536);
    let longer = padded(rt, alloc, line, b'\r', 65_537);
    check_line(rt, alloc, schema, line.as_bytes(), 1, own);
    check_line(rt, alloc, schema, longest.as_slice(), 1_000_000, own);
    check_line(rt, alloc, schema, line.as_bytes(), 1_000_001, 8);
    check_line(rt, alloc, schema, longest.as_slice(), u64::MAX, 8);
    check_line(rt, alloc, schema, longer.as_slice(), 1, 7);
    check_line(rt, alloc, schema, longer.as_slice(), 1_000_001, 7);
}

/// The same of the line of a row, behind its reason.
fn check_row(rt: &impl Abort, alloc: Global, schema: &Schema, row: &str) {
    let (own, line) = row.split_once(' ').expect(rt, "no reason");
    let own = *own.as_bytes().first().expect(rt, "no digit");
    check_ends(rt, alloc, schema, own.wrapping_sub(b'0'), line);
}

#[test]
fn long_lines_and_late_lines_are_refused_first(rt: HostRuntime) {
    let schema = schema(&rt, rt.alloc());
    for row in lines::FAULTS.lines() {
        check_row(&rt, rt.alloc(), &schema, row);
    }
}

/// Asserts what is told of a line that is filled up to this length by ends of lines.
fn check_length(rt: &impl Abort, alloc: Global, length: usize, wanted: u8) {
    let schema = schema(rt, alloc);
    let line = padded(rt, alloc, r#"{"do":"drain","most":1}"#, b'\r', length);
    check_line(rt, alloc, &schema, line.as_slice(), 1, wanted);
}

#[test]
fn line_ends_count_to_the_length(rt: HostRuntime) {
    check_length(&rt, rt.alloc(), 23, 0);
    check_length(&rt, rt.alloc(), 24, 0);
    check_length(&rt, rt.alloc(), 65_536, 0);
    check_length(&rt, rt.alloc(), 65_537, 7);
}

/// Adds a text so often.
fn add_often(rt: &impl Abort, line: &mut Vec<u8>, text: &str, count: usize) {
    for _ in 0..count {
        line.extend_from_slice(text.as_bytes())
            .expect(rt, "refused");
    }
}

/// A line with a field too many, which holds so many lists or objects, one in the other.
fn nested(rt: &impl Abort, alloc: Global, open: &str, close: &str, depth: usize) -> Vec<u8> {
    let mut line = Vec::from_slice(alloc, br#"{"do":"drain","most":1,"more":"#).expect(
        rt, "refused",
    );
    add_often(rt, &mut line, open, depth);
    line.push(b'1').expect(rt, "refused");
    add_often(rt, &mut line, close, depth);
    line.push(b'}').expect(rt, "refused");
    line
}

/// Asserts what is told of a line that nests so deep.
fn check_depth(rt: &impl Abort, alloc: Global, ends: (&str, &str), depth: usize, wanted: u8) {
    let schema = schema(rt, alloc);
    let line = nested(rt, alloc, ends.0, ends.1, depth);
    check_line(rt, alloc, &schema, line.as_slice(), 1, wanted);
}

/// Asserts to which depth a line is JSON.
fn check_depths(rt: &impl Abort, alloc: Global, ends: (&str, &str)) {
    check_depth(rt, alloc, ends, 1, 6);
    check_depth(rt, alloc, ends, 126, 6);
    check_depth(rt, alloc, ends, 127, 1);
    check_depth(rt, alloc, ends, 128, 1);
    check_depth(rt, alloc, ends, 10_000, 1);
}

#[test]
fn what_nests_deeper_than_127_is_no_json(rt: HostRuntime) {
    check_depths(&rt, rt.alloc(), ("[", "]"));
    check_depths(&rt, rt.alloc(), (r#"{"a":"#, "}"));
}

/// Asserts what is told of a line with this byte between two texts.
fn check_byte(
    rt: &impl Abort,
    alloc: Global,
    schema: &Schema,
    around: (&str, &str),
    byte: u8,
    wanted: u8,
) {
    let mut line = Vec::from_slice(alloc, around.0.as_bytes()).expect(rt, "refused");
    line.push(byte).expect(rt, "refused");
    line.extend_from_slice(around.1.as_bytes())
        .expect(rt, "refused");
    let told = reason(event(alloc, line.as_slice(), 1, schema));
    assert_eq!(rt; told, wanted, "the byte {byte} behind {around:?}");
}

/// The bytes that stand for themselves in a text; no byte above them is a character of UTF-8 by itself.
fn stands_for_itself(byte: u8) -> bool {
    byte >= 32 && byte < 128 && byte != b'"' && byte != b'\\'
}

fn is_white(byte: u8) -> bool {
    byte == b' ' || byte == b'\t' || byte == b'\n' || byte == b'\r'
}

const IN_A_NAME: (&str, &str) = (r#"{"do":"drain","most":1,""#, r#"":0}"#);

const IN_A_TEXT: (&str, &str) = (r#"{"do":"find","node":1,"index":""#, r#"","values":[1]}"#);

const BETWEEN: (&str, &str) = (r#"{"do":"drain","#, r#""most":1}"#);

const BEHIND: (&str, &str) = (r#"{"do":"drain","most":1}"#, "");

/// Asserts what is told of lines with this byte in their texts.
fn check_in_texts(rt: &impl Abort, alloc: Global, schema: &Schema, byte: u8) {
    let stands = stands_for_itself(byte);
    let (name, text) = if stands { (6, 0) } else { (1, 1) };
    check_byte(rt, alloc, schema, IN_A_NAME, byte, name);
    check_byte(rt, alloc, schema, IN_A_TEXT, byte, text);
}

/// Asserts what is told of lines with this byte outside of texts.
fn check_elsewhere(rt: &impl Abort, alloc: Global, schema: &Schema, byte: u8) {
    let wanted = if is_white(byte) { 0 } else { 1 };
    check_byte(rt, alloc, schema, BETWEEN, byte, wanted);
    check_byte(rt, alloc, schema, BEHIND, byte, wanted);
}

#[test]
fn each_byte_has_its_places(rt: HostRuntime) {
    let schema = schema(&rt, rt.alloc());
    for byte in 0..=255 {
        check_in_texts(&rt, rt.alloc(), &schema, byte);
        check_elsewhere(&rt, rt.alloc(), &schema, byte);
    }
}
