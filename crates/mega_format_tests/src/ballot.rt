//! Ballots in order, and a quorum of three.
use crate::asserted::same;
use mega_ballot::{Ballot, Quorum, next_above};
use mega_base::{NodeId, OpId};

const OP: OpId = OpId {
    node: NodeId(2),
    start: 1,
    number: 1,
};

fn ballot(round: u32) -> Ballot {
    Ballot { round, op: OP }
}

#[test]
fn ballots_have_an_order(rt: HostRuntime) {
    same(&rt, next_above(Ballot::ZERO, OP), Some(ballot(1)));
    same(&rt, next_above(ballot(u32::MAX), OP), None);
    assert!(rt; Ballot::ZERO.is_below(ballot(1)));
    assert!(rt; Ballot::ZERO < ballot(0));
}

#[test]
fn two_of_three_are_a_quorum(rt: HostRuntime) {
    let mut quorum = Quorum::new(0b111);
    let votes = [
        quorum.vote(NodeId(1)),
        quorum.vote(NodeId(1)),
        quorum.vote(NodeId(4)),
        quorum.reached(),
        quorum.vote(NodeId(3)),
        quorum.reached(),
    ];
    same(&rt, votes, [true, false, false, false, true, true]);
}
