//! Texts that are generated, whole and over a sink that fails.
ghost use Rattle.std.specs.Prelude.{◌≤◌};

use crate::asserted::same;
use mega_gen::generate;
use mega_io::{MemSink, SinkError};
use std::alloc::Global;
use std::process::Abort;

/// A hash of bytes, by which a long text is told.
fn hash(bytes: &[u8]) -> u64 {
    let mut hash: u64 = 0xcbf2_9ce4_8422_2325;
    for byte in bytes {
        hash = (hash ^ u64::from(*byte)).wrapping_mul(0x100_0000_01b3);
    }
    hash
}

/// Asserts the length and the hash of the text for so many nodes.
fn check(rt: &impl Abort, alloc: Global, nodes: u8, length: usize, wanted: u64)
    requires first { 1 ≤ nodes }
    requires last { nodes ≤ 9 }
{
    let mut sink = MemSink::new(alloc, Vec::new(alloc));
    let done = generate(alloc, 7, 60, nodes, &mut sink);
    same(rt, done.is_ok(), true);
    same(rt, sink.bytes().len(), length);
    same(rt, hash(sink.bytes()), wanted);
}

#[test]
fn texts_are_those_of_the_definition(rt: HostRuntime) {
    check(&rt, rt.alloc(), 1, 6283, 11_611_511_675_008_445_046);
    check(&rt, rt.alloc(), 2, 6098, 7_767_090_949_848_640_553);
    check(&rt, rt.alloc(), 5, 5472, 6_577_941_740_588_405_126);
    check(&rt, rt.alloc(), 9, 4339, 1_733_593_003_599_861_702);
}

#[test]
fn a_text_is_written_whole(rt: HostRuntime) {
    let alloc = rt.alloc();
    let mut sink = MemSink::new(alloc, Vec::new(alloc));
    same(&rt, generate(alloc, 7, 3, 2, &mut sink).is_ok(), true);
    same(&rt, sink.bytes(), TEXT.as_bytes());
}

#[test]
fn a_text_ends_where_its_sink_fails(rt: HostRuntime) {
    let alloc = rt.alloc();
    let fails = vec![in alloc; 2].expect(&rt, "refused");
    let mut failing = MemSink::new(alloc, fails);
    let done = generate(alloc, 7, 3, 2, &mut failing);
    same(&rt, done.err(), Some(SinkError::Failed));
}

const TEXT: &str = "nodes = [\"full\", \"full\"]
cells = 1
schema = \"CREATE SCHEMA Bank; CREATE TABLE Account { required int64 id; required int64 balance; } PRIMARY KEY(id), ENTITY GROUP ROOT;\"
---
{\"do\":\"tick\",\"node\":1,\"now\":1}
{\"do\":\"tick\",\"node\":2,\"now\":1}
{\"do\":\"read\",\"group\":[\"Account\",[2]],\"mode\":\"snapshot\",\"node\":2,\"rows\":[]}
";
