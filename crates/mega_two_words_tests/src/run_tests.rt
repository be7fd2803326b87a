//! How runs end, by their input and by the replies that come.

use crate::samples;
use mega_base::{Bytes, NodeId, Text};
use mega_io::{MemSink, MemSource};
use mega_link::{MemClock, MemLink, Peer};
use mega_two_words::run_two;
use mega_well_formed::is_message;
use mega_wire::{Body, Message, encode};
use std::alloc::Global;
use std::process::Abort;

/// A source of texts, one behind the other.
fn source(rt: &impl Abort, alloc: Global, texts: &[&str]) -> MemSource {
    let mut bytes = Vec::new(alloc);
    for text in texts {
        bytes
            .extend_from_slice(text.as_bytes())
            .expect(rt, "refused");
    }
    MemSource::new(bytes, Vec::new(alloc))
}

/// The reply of node 1 to the first request.
fn reply(rt: &impl Abort, alloc: Global, text: &str) -> Bytes {
    let text = Bytes::from_slice(alloc, text.as_bytes()).expect(rt, "refused");
    let message = Message {
        from: 1,
        to: 0,
        body: Body::Reply { token: 1, text },
    };
    assert!(rt; is_message(&message));
    let mut bytes = Bytes::new(alloc);
    encode(&message, &mut bytes).expect(rt, "refused");
    bytes
}

/// Asserts the status and the output of a run of three turns, to which a reply comes.
fn check(
    rt: &impl Abort,
    alloc: Global,
    texts: &[&str],
    recover: Option<&Text>,
    told: &str,
    wanted: (u8, &str),
) {
    let mut input = source(rt, alloc, texts);
    let mut out = MemSink::new(alloc, Vec::new(alloc));
    let reply = reply(rt, alloc, told);
    let mut link = MemLink::new(
        alloc,
        vec![in alloc; Some((Peer::Node(NodeId(1)), reply))].expect(rt, "refused"),
    );
    let mut clock = MemClock::new(Vec::new(alloc));
    let status = run_two(
        alloc, 1, 3, recover, &mut input, &mut out, &mut link, &mut clock,
    );
    assert_eq!(rt; status, wanted.0);
    assert_eq!(rt; out.bytes(), wanted.1.as_bytes());
}

#[test]
fn a_change_ends_by_the_reply_that_comes(rt: HostRuntime) {
    let alloc = rt.alloc();
    let texts = [samples::HEADER, samples::ADDRESSES, "---\n", samples::LINE];
    check(
        &rt,
        alloc,
        &texts,
        None,
        "turned check 0",
        (0, "two t1 used\n"),
    );
    check(
        &rt,
        alloc,
        &texts,
        None,
        "committed 1 []",
        (0, "two t1 open\n"),
    );
    let header = [samples::HEADER, samples::ADDRESSES];
    let name = Text::from_str(alloc, "t2").expect(&rt, "refused");
    check(
        &rt,
        alloc,
        &header,
        Some(&name),
        "read 1 [null]",
        (0, "two t2 open\n"),
    );
}

#[test]
fn inputs_are_refused(rt: HostRuntime) {
    let alloc = rt.alloc();
    let bare = [samples::HEADER, "---\n", samples::LINE];
    check(&rt, alloc, &bare, None, "", (3, "header 8\n"));
    let unmarked = [samples::HEADER, samples::ADDRESSES];
    check(&rt, alloc, &unmarked, None, "", (3, "header 9\n"));
    let none = [samples::HEADER, samples::ADDRESSES, "---\n"];
    check(&rt, alloc, &none, None, "", (4, "refused 1 schedule 1\n"));
}
