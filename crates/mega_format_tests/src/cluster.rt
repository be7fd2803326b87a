//! Headers that are read, with their defaults and without, and headers that break each rule.
use crate::asserted::same;
use crate::changes::check_told;
use mega_base::{NodeKind, Text};
use mega_cluster::{Cluster, HeaderFault, read};
use std::alloc::Global;
use std::process::Abort;

const SCHEMA: &str =
    "schema = \"CREATE SCHEMA S; CREATE TABLE User { required int64 user_id; required string name; } PRIMARY KEY(user_id), ENTITY GROUP ROOT;\"";

const LOOSE: &str =
    "schema = \"CREATE SCHEMA S; CREATE TABLE A { optional int64 x; } PRIMARY KEY(x), ENTITY GROUP ROOT;\"";

const ONE: &str = "nodes = [\"full\"]";

const THREE: &str = "nodes = [\"full\", \"witness\", \"read\"]";

/// Headers, each behind the rule that it breaks; words in capitals stand for the lines above.
const FAULTS: &str = r#"1 nodes = 
7 ONE & SCHEMA & colour = 1
3 SCHEMA
3 nodes = [] & SCHEMA
3 nodes = ["full", "half"] & SCHEMA
4 nodes = ["witness"] & SCHEMA
5 THREE & SCHEMA & cells = 2
5 ONE & SCHEMA & cells = 3
6 ONE & SCHEMA & lease = 0
6 ONE & SCHEMA & retry = 1.5
6 ONE & SCHEMA & apply = 1001
2 ONE
2 ONE & schema = 5
2 ONE & LOOSE
7 colour = 1 & nodes = []
3 nodes = [] & cells = 2
4 nodes = ["read"] & cells = 2
5 ONE & cells = 2 & lease = 0
6 ONE & LOOSE & margin = -1"#;

/// The line that a word stands for.
fn spelled(line: &str) -> &str {
    match line {
        "SCHEMA" => SCHEMA,
        "LOOSE" => LOOSE,
        "ONE" => ONE,
        "THREE" => THREE,
        _ => line,
    }
}

/// The header of these lines.
fn header(rt: &impl Abort, alloc: Global, lines: &str) -> Text {
    let mut text = Text::new(alloc);
    for line in lines.split(" & ") {
        text.push_str(spelled(line)).expect(rt, "refused");
        text.push_str("\r\n").expect(rt, "refused");
    }
    text
}

/// The rule that a header breaks, 0 for none.
fn rule_of(header: Result<Cluster, HeaderFault>) -> u8 {
    match header {
        Err(HeaderFault::Rule { rule }) => rule,
        _ => 0,
    }
}

/// The cluster that these lines tell.
fn cluster(rt: &impl Abort, alloc: Global, lines: &str, addresses: u8) -> Cluster {
    let text = header(rt, alloc, lines);
    read(alloc, text.as_bytes(), addresses).expect(rt, "refused")
}

/// The numbers of a cluster.
fn numbers(cluster: &Cluster) -> [u64; 7] {
    [
        u64::from(cluster.cells),
        cluster.lease,
        cluster.patience,
        cluster.retry,
        cluster.margin,
        u64::from(cluster.apply),
        cluster.limit.0,
    ]
}

#[test]
fn a_header_has_defaults(rt: HostRuntime) {
    let cluster = cluster(&rt, rt.alloc(), "THREE & SCHEMA & addresses = 5", 3);
    let kinds = [NodeKind::Full, NodeKind::Witness, NodeKind::Read];
    same(&rt, cluster.nodes.as_slice(), kinds.as_slice());
    same(
        &rt,
        numbers(&cluster),
        [3, 100, 1000, 50, 20, 64, 1_000_000],
    );
    same(&rt, cluster.addresses.len(), 0);
    same(&rt, cluster.schema.tables.len(), 1);
}

#[test]
fn a_header_tells_what_it_gives(rt: HostRuntime) {
    let given =
        "ONE & SCHEMA & cells = 1 & lease = 7 & margin = 0 & apply = 1000 & limit = 2 & addresses = [\"a\", \"b\"]";
    let cluster = cluster(&rt, rt.alloc(), given, 0);
    same(&rt, numbers(&cluster), [1, 7, 1000, 50, 0, 1000, 2]);
    same(&rt, cluster.addresses.len(), 2);
}

/// Asserts of a row, which is a rule and a header, that the header breaks the rule.
fn check(rt: &impl Abort, alloc: Global, row: &str) {
    let (wanted, lines) = row.split_once(' ').expect(rt, "no rule");
    let text = header(rt, alloc, lines);
    let rule = rule_of(read(alloc, text.as_bytes(), 0));
    check_told(rt, alloc, u64::from(rule), wanted, lines);
}

#[test]
fn each_rule_is_told_in_order(rt: HostRuntime) {
    for row in FAULTS.lines() {
        check(&rt, rt.alloc(), row);
    }
}

#[test]
fn few_nodes_and_long_texts_are_refused(rt: HostRuntime) {
    let alloc = rt.alloc();
    let text = header(&rt, alloc, "ONE & SCHEMA");
    same(&rt, rule_of(read(alloc, text.as_bytes(), 2)), 3);
    let long = vec![in alloc; b' '; 262_145].expect(&rt, "refused");
    same(&rt, rule_of(read(alloc, long.as_slice(), 0)), 6);
}
