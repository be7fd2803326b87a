//! How a voter answers a prepare and an accept, by what it showed and voted (Lamport 2001).
ghost use Rattle.std.specs.Prelude.{◌≡◌, IfOk, if◌then◌else◌, option_copied};
ghost use Rattle.mega_ballot.specs.Order.{zero_ballot};
ghost use Rattle.mega_wal.specs.declared.answers.Promised.TheVariants.{Shown as PromiseShown, Yes as PromiseYes};
ghost use Rattle.mega_wal.specs.declared.answers.Voted.TheVariants.{Shown as VoteShown, Yes as VoteYes};
ghost use Rattle.mega_wal.specs.Acceptor.{answer_beside, is_ballot_below, is_same_ballot};
ghost use Rattle.mega_rules.specs.Replies.{fetched};
ghost use Rattle.mega_rules.specs.Voting.{promise_body, vote_body};

use mega_ballot::Ballot;
use mega_base::{Copied, GroupId, NoMemory, OpId, Position};
use mega_entry::{Entry, is_same_entry};
use mega_wal::mega_acceptor::is_below;
use mega_wal::{Promised, Voted};
use mega_wire::Body;
use std::alloc::Global;

/// Whether a ballot is the one that all operations share.
fn is_zero(ballot: Ballot) -> bool
    ensures { result ≡ is_same_ballot ballot zero_ballot }
{
    ballot.round == 0 && ballot.op.node.0 == 0 && ballot.op.start == 0 && ballot.op.number == 0
}

/// A copy of a vote.
fn copied_vote(
    alloc: Global,
    vote: Option<&(Ballot, Entry)>,
) -> Result<Option<(Ballot, Entry)>, NoMemory>
    ensures { IfOk result (λ made. made ≡ option_copied vote.entry) }
{
    match vote {
        Some((ballot, entry)) => {
            let entry = entry.copy(alloc)?;
            Ok(Some((*ballot, entry)))
        }
        None => Ok(None),
    }
}

/// How a voter that showed this ballot, and whose best vote is this, answers a prepare.
pub(crate) fn promised(
    alloc: Global,
    shown: Ballot,
    best: Option<&(Ballot, Entry)>,
    ballot: Ballot,
) -> Result<Promised, NoMemory>
    ensures { IfOk result (λ answer. answer ≡ (if is_ballot_below ballot shown then PromiseShown shown else PromiseYes (option_copied best.entry))) }
{
    if is_below(ballot, shown) {
        return Ok(Promised::Shown(shown));
    }
    let report = copied_vote(alloc, best)?;
    Ok(Promised::Yes(report))
}

/// How a voter whose best vote is this answers an accept of an entry at the ballot that all share.
fn beside(alloc: Global, best: Option<&(Ballot, Entry)>, entry: &Entry) -> Result<Voted, NoMemory>
    ensures { IfOk result (λ answer. answer ≡ answer_beside (option_copied best.entry) entry.now) }
{
    match best {
        Some((_, accepted)) => {
            if is_same_entry(accepted, entry) {
                Ok(Voted::Yes)
            } else {
                Ok(Voted::Other(accepted.copy(alloc)?))
            }
        }
        None => Ok(Voted::Yes),
    }
}

/// How a voter that showed this ballot, and whose best vote is this, answers an accept.
pub(crate) fn voted(
    alloc: Global,
    shown: Ballot,
    best: Option<&(Ballot, Entry)>,
    ballot: Ballot,
    entry: &Entry,
) -> Result<Voted, NoMemory>
    ensures { IfOk result (λ answer. answer ≡ (if is_ballot_below ballot shown then VoteShown shown else (if is_same_ballot ballot zero_ballot then answer_beside (option_copied best.entry) entry.now else VoteYes))) }
{
    if is_below(ballot, shown) {
        return Ok(Voted::Shown(shown));
    }
    if is_zero(ballot) {
        return beside(alloc, best, entry);
    }
    Ok(Voted::Yes)
}

/// The reply to a prepare.
pub(crate) fn promise_body(
    op: OpId,
    group: GroupId,
    position: Position,
    ballot: Ballot,
    answer: Promised,
) -> Body
    ensures { result ≡ promise_body op group position ballot answer }
{
    match answer {
        Promised::Yes(accepted) => Body::Promise {
            op,
            group,
            position,
            ballot,
            accepted,
        },
        Promised::Shown(shown) => Body::Refused {
            op,
            group,
            position,
            asked: ballot,
            shown,
            entry: None,
        },
    }
}

/// The reply to an accept.
pub(crate) fn vote_body(
    op: OpId,
    group: GroupId,
    position: Position,
    ballot: Ballot,
    entry: Entry,
    answer: Voted,
) -> Body
    ensures { result ≡ vote_body op group position ballot entry answer }
{
    match answer {
        Voted::Yes => Body::Accepted {
            op,
            group,
            position,
            ballot,
            entry,
        },
        Voted::Shown(shown) => Body::Refused {
            op,
            group,
            position,
            asked: ballot,
            shown,
            entry: None,
        },
        Voted::Other(other) => Body::Refused {
            op,
            group,
            position,
            asked: Ballot::ZERO,
            shown: Ballot::ZERO,
            entry: Some(other),
        },
    }
}

/// The reply to a fetch.
pub(crate) fn fetched(
    alloc: Global,
    op: OpId,
    group: GroupId,
    position: Position,
    decided: Option<&Entry>,
) -> Result<Body, NoMemory>
    ensures { IfOk result (λ body. body ≡ fetched op group position (option_copied decided.entry)) }
{
    match decided {
        Some(entry) => {
            let entry = entry.copy(alloc)?;
            Ok(Body::Have {
                op,
                group,
                position,
                entry,
            })
        }
        None => Ok(Body::HaveNot {
            op,
            group,
            position,
        }),
    }
}
