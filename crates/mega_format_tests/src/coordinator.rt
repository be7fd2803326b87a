//! Epochs of a coordinator, and the groups that are valid in them.
use crate::asserted::same;
use mega_base::{Bytes, Epoch, GroupId, Position};
use mega_coordinator::{Coordinator, Counted, NotValid};
use std::alloc::Global;
use std::process::Abort;

const LEASE: u64 = 100;

fn epoch(count: u32) -> Epoch {
    Epoch { start: 1, count }
}

fn group(rt: &impl Abort, alloc: Global) -> GroupId {
    let key = Bytes::from_slice(alloc, b"\x01\x80\x00\x00\x00\x00\x00\x00\x65").expect(
        rt, "refused",
    );
    GroupId::new(alloc, key).expect(rt, "refused")
}

/// Lets the first two cells of three grant an epoch, and asserts that the second grant makes it serve.
fn serve(rt: &impl Abort, node: &mut Coordinator, epoch: Epoch, now: u64) {
    let until = now.saturating_add(LEASE);
    same(rt, node.granted(1, epoch, until, now), Counted::Yes);
    same(rt, node.granted(2, epoch, until, now), Counted::Serving);
}

/// Loses the first epoch at 110, when two of three grants end.
fn lose(rt: &impl Abort, node: &mut Coordinator) {
    let ticked = node.tick(110);
    same(rt, ticked.forgot, [true, true, false, false, false]);
    same(rt, ticked.lost, Some(epoch(0)));
}

#[test]
fn a_lock_regained_is_in_a_new_epoch(rt: HostRuntime) {
    let group = group(&rt, rt.alloc());
    let mut node = Coordinator::new(rt.alloc(), 1, 3);
    node.tick(10);
    serve(&rt, &mut node, epoch(0), 10);
    let third = node.granted(3, epoch(0), 10 + LEASE, 10);
    same(&rt, third, Counted::No);
    same(&rt, node.validate(&group, Position(1), epoch(0)), Ok(()));
    same(&rt, node.is_valid(&group), true);
    lose(&rt, &mut node);
    serve(&rt, &mut node, epoch(1), 110);
    same(&rt, node.state(), Some(epoch(1)));
    same(&rt, node.is_valid(&group), false);
}

#[test]
fn validates_are_refused_in_order(rt: HostRuntime) {
    let group = group(&rt, rt.alloc());
    let mut node = Coordinator::new(rt.alloc(), 1, 1);
    let position = Position(5);
    let early = node.validate(&group, position, epoch(0));
    same(&rt, early, Err(NotValid::NotServing));
    node.granted(1, epoch(0), LEASE, 0);
    node.invalidate(&group, position).expect(&rt, "refused");
    let beaten = node.validate(&group, Position(4), epoch(0));
    same(&rt, beaten, Err(NotValid::Beaten { position }));
    let now = epoch(0);
    let other = node.validate(&group, position, epoch(1));
    same(&rt, other, Err(NotValid::OtherEpoch { now }));
    same(&rt, node.validate(&group, position, epoch(0)), Ok(()));
}

#[test]
fn a_past_ends_an_epoch_that_does_not_serve(rt: HostRuntime) {
    let mut node = Coordinator::new(rt.alloc(), 1, 5);
    node.granted(5, epoch(0), 30, 20);
    same(
        &rt,
        [node.past(epoch(1)), node.past(epoch(0))],
        [false, true],
    );
    same(&rt, node.counted(), [false; 5]);
    same(&rt, node.epoch(), Some(epoch(1)));
}
