//! What a lock cell grants, and when its grants lapse.
use crate::asserted::same;
use mega_base::{Epoch, NodeId};
use mega_locks::{Asked, Cell};
use std::process::Abort;

const KEEP: u64 = 120;

fn epoch(count: u32) -> Epoch {
    Epoch { start: 1, count }
}

/// Asserts what the third node loses at this time.
fn check_lapsed(rt: &impl Abort, cell: &mut Cell, now: u64, want: Option<Epoch>) {
    let lapsed = cell.lapse_due(now, KEEP);
    same(rt, lapsed[2], want);
}

#[test]
fn what_was_granted_before_the_first_tick_counts_from_it(rt: HostRuntime) {
    let mut cell = Cell::new();
    let asked = cell.ask(NodeId(3), epoch(0), 0, KEEP);
    same(&rt, asked, Asked::Granted);
    check_lapsed(&rt, &mut cell, 120, None);
    check_lapsed(&rt, &mut cell, 239, None);
    check_lapsed(&rt, &mut cell, 240, Some(epoch(0)));
}

/// Asserts what the third node is told that asks for this epoch at 121.
fn check_asked(rt: &impl Abort, cell: &mut Cell, count: u32, want: Asked) {
    same(rt, cell.ask(NodeId(3), epoch(count), 121, KEEP), want);
}

#[test]
fn a_lapsed_epoch_is_never_granted_again(rt: HostRuntime) {
    let mut cell = Cell::new();
    same(&rt, cell.lapse_due(0, KEEP), [None; 9]);
    let asked = cell.ask(NodeId(3), epoch(0), 0, KEEP);
    same(&rt, asked, Asked::Granted);
    check_lapsed(&rt, &mut cell, 119, None);
    check_lapsed(&rt, &mut cell, 120, Some(epoch(0)));
    check_asked(&rt, &mut cell, 0, Asked::Over { epoch: epoch(0) });
    check_asked(&rt, &mut cell, 1, Asked::Granted);
    check_asked(&rt, &mut cell, 1, Asked::Renewed);
    check_asked(&rt, &mut cell, 0, Asked::GreaterHeld { epoch: epoch(1) });
}

#[test]
fn a_cell_reopens_as_the_log_tells(rt: HostRuntime) {
    let mut cell = Cell::new();
    cell.reopen(NodeId(1), epoch(2), true);
    cell.reopen(NodeId(9), epoch(0), false);
    same(&rt, cell.held(NodeId(1)), Some(epoch(2)));
    same(&rt, cell.held(NodeId(9)), None);
}
