//! Lines of schedules are told by their reasons: those that are taken, and those that are refused.

mod begins;
mod edges;
mod lines;
mod numbers;
mod requests;
mod world;

use mega_base::Text;
use mega_schedule::{LineFault, WorldEvent, event};
use mega_schema::{Schema, parse};
use std::alloc::Global;
use std::process::Abort;

const SCHEMA: &str = "CREATE SCHEMA S;
CREATE TABLE A {
  required int32 id;
  optional int64 n;
  optional bytes raw;
  optional bool b;
  optional string s;
  repeated int32 many;
} PRIMARY KEY(id), ENTITY GROUP ROOT;
CREATE TABLE B {
  required int32 id;
  required bytes raw;
} PRIMARY KEY(id, raw), ENTITY GROUP KEY(id) REFERENCES A;
CREATE LOCAL INDEX Own ON A(n, raw);
CREATE GLOBAL INDEX All ON A(s);
";

fn schema(rt: &impl Abort, alloc: Global) -> Schema {
    let text = Text::from_str(alloc, SCHEMA).expect(rt, "refused");
    parse(alloc, &text).expect(rt, "refused")
}

/// The reason of a refusal; 0 for an event, 255 where memory ran out.
fn reason(answer: Result<WorldEvent, LineFault>) -> u8 {
    match answer {
        Ok(_event) => 0,
        Err(LineFault::Refused { reason }) => reason,
        Err(LineFault::NoMemory) => 255,
    }
}

/// Asserts for which reason a line is refused.
fn tells(rt: &impl Abort, alloc: Global, schema: &Schema, wanted: &str, line: &str) {
    let told = reason(event(alloc, line.as_bytes(), 1, schema));
    let told = format!(in alloc; "{told}").expect(rt, "refused");
    assert_eq!(rt; told.as_str(), wanted, "{line}");
}

/// Asserts of a row, which is a reason and a line, that the line is refused for the reason.
fn check_row(rt: &impl Abort, alloc: Global, schema: &Schema, row: &str) {
    let (wanted, line) = row.split_once(' ').expect(rt, "no reason");
    tells(rt, alloc, schema, wanted, line);
}

/// Each row is a reason and a line.
fn check(rt: &impl Abort, alloc: Global, rows: &str) {
    let schema = schema(rt, alloc);
    for row in rows.lines() {
        check_row(rt, alloc, &schema, row);
    }
}

#[test]
fn words_are_told(rt: HostRuntime) {
    check(&rt, rt.alloc(), lines::WORDS);
}

#[test]
fn lines_of_the_world_are_told(rt: HostRuntime) {
    check(&rt, rt.alloc(), lines::WORLD);
}

#[test]
fn transactions_are_told(rt: HostRuntime) {
    check(&rt, rt.alloc(), lines::TRANSACTIONS);
}

#[test]
fn requests_are_told(rt: HostRuntime) {
    check(&rt, rt.alloc(), lines::REQUESTS);
}

#[test]
fn the_first_of_two_faults_is_told(rt: HostRuntime) {
    check(&rt, rt.alloc(), lines::TWO);
}

#[test]
fn texts_are_those_of_json(rt: HostRuntime) {
    check(&rt, rt.alloc(), lines::TEXTS);
}

#[test]
fn of_equal_names_the_last_counts(rt: HostRuntime) {
    check(&rt, rt.alloc(), lines::TWICE);
}
