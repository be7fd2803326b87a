//! Numbers at the ends of their ranges, just outside of them and far away, in every place that holds one.

use super::{schema, tells};
use mega_schema::Schema;
use std::alloc::Global;
use std::process::Abort;

/// Numbers of no range here and what is no whole number, each behind the reason for which a line with it is refused.
const OTHERS: &str = r#"5 -9223372036854775808
4 -9223372036854775809
5 9223372036854775807
5 9223372036854775808
5 18446744073709551615
4 18446744073709551616
4 1.0
4 -0
4 1e0
4 true
4 null
4 "1"
4 [1]
4 {}
1 01
1 +1
1 1.
1 .1
1 -
1 1e999
1 NaN"#;

/// Lines with the mark `#` in the place of a node's number.
const NODES: &str = r#"{"do":"tick","node":#,"now":0}
{"do":"crash","node":#}
{"do":"start","node":#}
{"do":"fuse","node":#,"calls":0,"image":0}
{"do":"fuse","node":#,"calls":0,"image":0,"device":"data"}
{"do":"txn","node":#,"group":["A",[1]],"checks":[],"reads":[],"writes":[],"sends":[]}
{"do":"batch","node":#,"group":["A",[1]],"txns":[{"checks":[],"reads":[],"writes":[],"sends":[]}]}
{"do":"read","node":#,"mode":"current","group":["A",[1]],"rows":[]}
{"do":"find","node":#,"index":"All","values":[1]}
{"do":"pump","node":#,"what":"enter"}
{"do":"refresh","node":#}"#;

/// Lines with the mark `#` in the place of a message's number.
const MESSAGES: &str = r#"{"do":"deliver","message":#}
{"do":"drop","message":#}"#;

/// Lines with the mark `#` in the place of an int64.
const VALUES: &str =
    r#"{"do":"txn","node":1,"group":["A",[#]],"checks":[],"reads":[],"writes":[],"sends":[]}
{"do":"txn","node":1,"group":["A",[1]],"checks":[{"there":"A","key":[#]}],"reads":[],"writes":[],"sends":[]}
{"do":"txn","node":1,"group":["A",[1]],"checks":[{"is":"A","key":[1],"property":"n","values":[1,#]}],"reads":[],"writes":[],"sends":[]}
{"do":"txn","node":1,"group":["A",[1]],"checks":[],"reads":[{"row":"A","key":[1,#]}],"writes":[],"sends":[]}
{"do":"txn","node":1,"group":["A",[1]],"checks":[],"reads":[],"writes":[{"put":"A","row":{"id":#}}],"sends":[]}
{"do":"txn","node":1,"group":["A",[1]],"checks":[],"reads":[],"writes":[{"put":"A","row":{"many":[#,1]}}],"sends":[]}
{"do":"txn","node":1,"group":["A",[1]],"checks":[],"reads":[],"writes":[{"delete":"A","key":[#]}],"sends":[]}
{"do":"txn","node":1,"group":["A",[1]],"checks":[],"reads":[],"writes":[{"add":"A","key":[1],"property":"n","by":#}],"sends":[]}
{"do":"txn","node":1,"group":["A",[1]],"checks":[],"reads":[],"writes":[],"sends":[{"to":["A",[#]],"queue":"q","payload":""}]}
{"do":"batch","node":1,"group":["A",[1]],"txns":[{"checks":[],"reads":[],"writes":[{"put":"A","row":{"n":#}}],"sends":[]}]}
{"do":"read","node":1,"mode":"snapshot","group":["A",[1]],"rows":[{"row":"A","key":[#]}]}
{"do":"find","node":1,"index":"All","values":[#]}"#;

/// Int64s at the ends of their range and beyond, and what is no whole number.
const INT64: &str = r#"4 -9223372036854775809
0 -9223372036854775808
0 -1
0 0
0 9223372036854775807
5 9223372036854775808
5 18446744073709551615
4 18446744073709551616
4 0.0
4 -0
4 1E3
4 null
4 {}
1 00
1 -01
1 0x1
1 1e309
1 -Infinity"#;

/// Asserts what is told of a line with a number in its middle; a row is a reason and a number.
fn check_number(rt: &impl Abort, alloc: Global, schema: &Schema, row: &str, around: (&str, &str)) {
    let (front, back) = around;
    let (wanted, number) = row.split_once(' ').expect(rt, "no reason");
    let line = format!(in alloc; "{front}{number}{back}").expect(rt, "refused");
    tells(rt, alloc, schema, wanted, line.as_str());
}

/// Asserts what is told of a line with each of the numbers in the place of its mark.
fn check_line(rt: &impl Abort, alloc: Global, schema: &Schema, numbers: &str, line: &str) {
    let around = line.split_once('#').expect(rt, "no mark");
    for row in numbers.lines() {
        check_number(rt, alloc, schema, row, around);
    }
}

/// Asserts what is told of each line with each of the numbers in the place of its mark.
fn check(rt: &impl Abort, alloc: Global, numbers: &str, lines: &str) {
    let schema = schema(rt, alloc);
    for line in lines.lines() {
        check_line(rt, alloc, &schema, numbers, line);
    }
}

#[test]
fn nodes_are_1_to_9(rt: HostRuntime) {
    check(&rt, rt.alloc(), "5 0\n0 1\n0 9\n5 10\n5 256\n5 257", NODES);
    check(&rt, rt.alloc(), OTHERS, NODES);
}

#[test]
fn messages_are_at_most_a_million_million(rt: HostRuntime) {
    let alloc = rt.alloc();
    let ends = "5 0\n0 1\n0 999999999999\n0 1000000000000\n5 1000000000001";
    check(&rt, alloc, ends, MESSAGES);
    check(&rt, alloc, OTHERS, MESSAGES);
}

#[test]
fn moments_are_at_most_a_million_million(rt: HostRuntime) {
    let alloc = rt.alloc();
    let moments = r#"{"do":"tick","node":1,"now":#}"#;
    let ends = "5 -1\n0 0\n0 1\n0 999999999999\n0 1000000000000\n5 1000000000001";
    check(&rt, alloc, ends, moments);
    check(&rt, alloc, OTHERS, moments);
}

#[test]
fn deliveries_are_at_most_a_million(rt: HostRuntime) {
    let alloc = rt.alloc();
    let drains = r#"{"do":"drain","most":#}"#;
    check(&rt, alloc, "5 0\n0 1\n0 1000000\n5 1000001", drains);
    check(&rt, alloc, OTHERS, drains);
}

#[test]
fn calls_are_at_most_a_million(rt: HostRuntime) {
    let alloc = rt.alloc();
    let calls = r#"{"do":"fuse","node":1,"calls":#,"image":0}"#;
    check(&rt, alloc, "5 -1\n0 0\n0 1000000\n5 1000001", calls);
    check(&rt, alloc, OTHERS, calls);
}

#[test]
fn images_are_at_most_two(rt: HostRuntime) {
    let alloc = rt.alloc();
    let images = r#"{"do":"fuse","node":1,"calls":0,"image":#,"device":"log"}"#;
    check(&rt, alloc, "5 -1\n0 0\n0 1\n0 2\n5 3\n5 256", images);
    check(&rt, alloc, OTHERS, images);
}

#[test]
fn values_are_int64s(rt: HostRuntime) {
    check(&rt, rt.alloc(), INT64, VALUES);
}
