//! The entry to propose: that of the greatest vote reported, or the operation's own.
ghost use Rattle.std.specs.Prelude.{◌≡◌, IfOk, Option, option_copied};
ghost use Rattle.mega_propose.specs.Rounds.{greater_vote, greatest_vote, is_sent, picked, vote_round};
ghost use Rattle.mega_wal.specs.Acceptor.{is_ballot_below};

use crate::round::Report;
use mega_ballot::Ballot;
use mega_base::{Copied, NoMemory};
use mega_entry::{Entry, is_same_entry};
use mega_wal::mega_acceptor::{is_below, is_same};
use std::alloc::Global;

/// Whether an answer shows the entry that was sent at the present ballot.
pub(crate) fn is_sent(ballot: Ballot, entry: &Entry, shown: Ballot, accepted: &Entry) -> bool
    ensures { result ≡ is_sent ballot entry.now shown accepted.now }
{
    is_same(ballot, shown) && is_same_entry(entry, accepted)
}

/// Of two votes that of the greater ballot, of equal ballots the first.
fn greater_vote<'a>(
    vote: Option<&'a (Ballot, Entry)>,
    other: Option<&'a (Ballot, Entry)>,
) -> Option<&'a (Ballot, Entry)>
    ensures { option_copied result ≡ greater_vote (option_copied vote.entry) (option_copied other.entry) }
{
    match (vote, other) {
        (None, other) => other,
        (Some(vote), None) => Some(vote),
        (Some(vote), Some(other)) => {
            if is_below(vote.0, other.0) {
                Some(other)
            } else {
                Some(vote)
            }
        }
    }
}

/// The vote of greatest ballot among the reports, of equal ballots the first.
fn greatest_vote(reports: &[Report]) -> Option<&(Ballot, Entry)>
    ensures { option_copied result ≡ greatest_vote reports.now }
{
    match reports {
        [] => None,
        [report, rest @ ..] => greater_vote(report.vote.as_ref(), greatest_vote(rest)),
    }
}

/// The entry to propose: that of the greatest vote reported, or the operation's own.
pub(crate) fn picked(alloc: Global, own: &Entry, reports: &[Report]) -> Result<Entry, NoMemory>
    ensures { IfOk result (λ entry. entry ≡ picked own.now (greatest_vote reports.now)) }
{
    match greatest_vote(reports) {
        Some(vote) => vote.1.copy(alloc),
        None => own.copy(alloc),
    }
}

/// The round of a vote, 0 for none.
pub(crate) fn vote_round(vote: &Option<(Ballot, Entry)>) -> u32
    ensures { result ≡ vote_round vote.now }
{
    match vote {
        Some((ballot, _)) => ballot.round,
        None => 0,
    }
}

/// The same vote, or none.
pub(crate) fn copy_vote(
    alloc: Global,
    vote: &Option<(Ballot, Entry)>,
) -> Result<Option<(Ballot, Entry)>, NoMemory>
    ensures { IfOk result (λ made. made ≡ vote.now) }
{
    match vote {
        Some((ballot, entry)) => {
            let entry = entry.copy(alloc)?;
            Ok(Some((*ballot, entry)))
        }
        None => Ok(None),
    }
}
