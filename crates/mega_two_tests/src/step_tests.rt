//! What a change asks next, by what it is told.

use crate::driven::{is_at, schema};
use crate::samples;
use mega_base::{Bytes, Text};
use mega_two_driver::Two;
use std::alloc::Global;
use std::process::Abort;

/// Tells a change a reply, or that its request was lost.
fn tell(rt: &impl Abort, alloc: Global, two: &mut Two, reply: &str) {
    if reply == "lost" {
        two.lost().expect(rt, "refused");
    } else {
        two.take(alloc, reply.as_bytes()).expect(rt, "refused");
    }
}

/// Follows a history: whether each reply leads to the request that it names.
fn follow(rt: &impl Abort, alloc: Global, two: &mut Two, history: &str) {
    for step in history.split(';') {
        let (reply, wanted) = step.split_once('>').expect(rt, "no step");
        tell(rt, alloc, two, reply);
        assert!(rt; is_at(two, wanted), "{history}: {step}");
    }
}

fn begun(rt: &impl Abort, alloc: Global) -> Two {
    let schema = schema(rt, alloc);
    let begun = Two::begin(alloc, &schema, samples::TRANSFER.as_bytes()).ok();
    begun.expect(rt, "not begun")
}

#[test]
fn each_reply_leads_to_its_request(rt: HostRuntime) {
    for history in samples::HISTORIES.lines() {
        let mut two = begun(&rt, rt.alloc());
        assert!(rt; is_at(&two, "0"));
        follow(&rt, rt.alloc(), &mut two, history);
    }
}

/// The reply that shows the plan of the samples in a state.
fn plan_reply(rt: &impl Abort, alloc: Global, state: &str) -> Bytes {
    let digits = hex::encode(alloc, samples::TRANSFER.as_bytes()).expect(rt, "refused");
    let mut reply = Bytes::new(alloc);
    reply
        .extend_from_slice(br#"read 2 [["TwoPlan",{"gid":"t1","plan":""#)
        .expect(rt, "refused");
    reply
        .extend_from_slice(digits.as_bytes())
        .expect(rt, "refused");
    reply
        .extend_from_slice(br#"","state":"#)
        .expect(rt, "refused");
    reply
        .extend_from_slice(state.as_bytes())
        .expect(rt, "refused");
    reply.extend_from_slice(b"}]]").expect(rt, "refused");
    reply
}

fn recovered(rt: &impl Abort, alloc: Global, name: &str) -> Two {
    let schema = schema(rt, alloc);
    let name = Text::from_str(alloc, name).expect(rt, "refused");
    let recovered = Two::recover(alloc, &schema, &name).ok();
    recovered.expect(rt, "not recovered")
}

#[test]
fn a_recovered_change_goes_on_by_its_plan(rt: HostRuntime) {
    for row in "0 2\n1 commit1\n2 abort1".lines() {
        let (state, wanted) = row.split_once(' ').expect(&rt, "no state");
        let mut two = recovered(&rt, rt.alloc(), "t1");
        assert!(rt; is_at(&two, "look"));
        let reply = plan_reply(&rt, rt.alloc(), state);
        two.take(rt.alloc(), reply.as_slice())
            .expect(&rt, "refused");
        assert!(rt; is_at(&two, wanted), "{state}");
    }
}

#[test]
fn a_plan_of_another_change_is_left(rt: HostRuntime) {
    let reply = plan_reply(&rt, rt.alloc(), "0");
    let mut two = recovered(&rt, rt.alloc(), "t2");
    two.take(rt.alloc(), reply.as_slice())
        .expect(&rt, "refused");
    assert!(rt; is_at(&two, "open"));
    let mut none = recovered(&rt, rt.alloc(), "t2");
    none.take(rt.alloc(), b"read 0 [null]")
        .expect(&rt, "refused");
    assert!(rt; is_at(&none, "open"));
}
