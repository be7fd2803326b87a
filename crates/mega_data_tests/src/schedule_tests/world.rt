//! Events of the world itself.

use super::schema;
use mega_disk::Device;
use mega_schedule::{WorldEvent, event};
use mega_schema::Schema;
use std::alloc::Global;
use std::process::Abort;

/// Lines, and behind an arrow the numbers of their events; the device `data` is shown as 1.
const EVENTS: &str = r#"{"do":"tick","node":9,"now":1000000000000} => tick [9, 1000000000000, 0, 0]
{"now":0,"node":1,"do":"tick"} => tick [1, 0, 0, 0]
 { "do" : "tick" , "node" : 2 , "now" : 2147483648 }  => tick [2, 2147483648, 0, 0]
{"do":"deliver","message":7} => deliver [7, 0, 0, 0]
{"message":1000000000000,"do":"deliver"} => deliver [1000000000000, 0, 0, 0]
{"do":"deliver","message":7,"message":8} => deliver [8, 0, 0, 0]
{"do":"drop","message":8} => drop [8, 0, 0, 0]
{"do":"drop","message":1} => drop [1, 0, 0, 0]
{"message":4294967296,"do":"drop"} => drop [4294967296, 0, 0, 0]
{"do":"drain","most":3} => drain [3, 0, 0, 0]
{"do":"drain","most":1000000} => drain [1000000, 0, 0, 0]
{"\u0064o":"dr\u0061in","mos\u0074":1} => drain [1, 0, 0, 0]
{"do":"crash","node":4} => crash [4, 0, 0, 0]
{"node":1,"do":"crash"} => crash [1, 0, 0, 0]
{"do":"crash","node":9} => crash [9, 0, 0, 0]
{"do":"start","node":5} => start [5, 0, 0, 0]
{"node":1,"do":"start"} => start [1, 0, 0, 0]
{"do":"start","node":9} => start [9, 0, 0, 0]
{"do":"fuse","node":2,"calls":3,"image":1} => fuse [2, 3, 1, 0]
{"do":"fuse","node":2,"calls":4,"image":2,"device":"log"} => fuse [2, 4, 2, 0]
{"do":"fuse","node":2,"calls":5,"image":0,"device":"data"} => fuse [2, 5, 0, 1]
{"image":2,"device":"data","calls":1000000,"node":9,"do":"fuse"} => fuse [9, 1000000, 2, 1]"#;

fn shown(event: &WorldEvent) -> (&'static str, [u64; 4]) {
    match event {
        WorldEvent::Tick { node, now } => ("tick", [u64::from(node.0), *now, 0, 0]),
        WorldEvent::Deliver { message } => ("deliver", [*message, 0, 0, 0]),
        WorldEvent::Drop { message } => ("drop", [*message, 0, 0, 0]),
        WorldEvent::Drain { most } => ("drain", [*most, 0, 0, 0]),
        WorldEvent::Crash { node } => ("crash", [u64::from(node.0), 0, 0, 0]),
        WorldEvent::Start { node } => ("start", [u64::from(node.0), 0, 0, 0]),
        WorldEvent::Fuse {
            node,
            calls,
            image,
            device,
        } => (
            "fuse",
            [
                u64::from(node.0),
                *calls,
                u64::from(*image),
                u64::from(*device == Device::Data),
            ],
        ),
        WorldEvent::Begin {
            node,
            request: _,
            text: _,
        } => ("begin", [u64::from(node.0), 0, 0, 0]),
    }
}

/// Asserts of a row, which is a line and the numbers of an event, that the line tells them.
fn check_event(rt: &impl Abort, alloc: Global, schema: &Schema, row: &str) {
    let (line, wanted) = row.split_once(" => ").expect(rt, "no arrow");
    let event = event(alloc, line.as_bytes(), 1, schema).expect(rt, "refused");
    let (word, numbers) = shown(&event);
    let told = format!(in alloc; "{word} {numbers:?}").expect(rt, "refused");
    assert_eq!(rt; told.as_str(), wanted);
}

#[test]
fn numbers_and_words_are_those_of_the_line(rt: HostRuntime) {
    let schema = schema(&rt, rt.alloc());
    for row in EVENTS.lines() {
        check_event(&rt, rt.alloc(), &schema, row);
    }
}
