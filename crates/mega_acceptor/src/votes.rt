//! Votes of a voter, and the order of their ballots.
ghost use Rattle.std.specs.Prelude.{◌≡◌, IfOk};
ghost use Rattle.mega_acceptor.specs.Slots.{voted_ballot};
ghost use Rattle.mega_acceptor.specs.Votes.{greater_ballot, greater_vote, is_ballot_below, is_same_ballot};

use mega_ballot::Ballot;
use mega_base::{Copied, NoMemory};
use mega_entry::Entry;
use std::alloc::Global;

/// Whether a ballot is below another.
pub fn is_below(ballot: Ballot, other: Ballot) -> bool
    ensures { result ≡ is_ballot_below ballot other }
{
    let (one, two) = (ballot.op, other.op);
    ballot.round < other.round
        || (ballot.round == other.round
            && (one.node.0 < two.node.0
                || (one.node.0 == two.node.0
                    && (one.start < two.start
                        || (one.start == two.start && one.number < two.number)))))
}

/// Whether two ballots are one.
pub fn is_same(ballot: Ballot, other: Ballot) -> bool
    ensures { result ≡ is_same_ballot ballot other }
{
    ballot.round == other.round
        && ballot.op.node.0 == other.op.node.0
        && ballot.op.start == other.op.start
        && ballot.op.number == other.op.number
}

/// The greater one of two ballots.
pub fn greater(ballot: Ballot, other: Ballot) -> Ballot
    ensures { result ≡ greater_ballot ballot other }
{
    if is_below(ballot, other) {
        other
    } else {
        ballot
    }
}

/// A vote on the same content.
pub fn copy_vote(
    alloc: Global,
    vote: &Option<(Ballot, Entry)>,
) -> Result<Option<(Ballot, Entry)>, NoMemory>
    ensures { IfOk result (λ made. made ≡ vote.now) }
{
    match vote {
        Some((ballot, entry)) => {
            let entry = entry.copy(alloc)?;
            Ok(Some((*ballot, entry)))
        }
        None => Ok(None),
    }
}

/// Of two votes the one of the greater ballot, of equal ballots the second.
pub fn greater_vote(
    vote: Option<(Ballot, Entry)>,
    ballot: Ballot,
    entry: Entry,
) -> Option<(Ballot, Entry)>
    ensures { result ≡ greater_vote vote ballot entry }
{
    match vote {
        Some((before, accepted)) => {
            if is_below(ballot, before) {
                Some((before, accepted))
            } else {
                Some((ballot, entry))
            }
        }
        None => Some((ballot, entry)),
    }
}

/// The ballot that a vote shows, zero for none.
pub fn voted_ballot(vote: &Option<(Ballot, Entry)>) -> Ballot
    ensures { result ≡ voted_ballot vote.now }
{
    match vote {
        Some((ballot, _)) => *ballot,
        None => Ballot::ZERO,
    }
}
