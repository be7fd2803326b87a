//! Rounds that ask voters to promise a ballot, and pick the entry to propose.
ghost use Rattle.std.specs.Prelude.{◌≡◌, ◌==◌, ◌&&◌, not, IfOk};
ghost use Rattle.std.specs.List.{list_any};
ghost use Rattle.mega_propose.specs.Members.{has};
ghost use Rattle.mega_propose.specs.Rounds.{promised, proposes, refused, same_ballot};
ghost use Rattle.mega_propose.specs.declared.round.Round.TheVariants.{Waiting};

use crate::members::{has, is_majority};
use crate::moves::stays;
use crate::round::{Move, Proposal, Report, Round, Site};
use crate::votes::{copy_vote, picked};
use mega_ballot::Ballot;
use mega_base::{Copied, Items, NoMemory};
use mega_entry::Entry;
use mega_wal::mega_acceptor::is_same;
use std::alloc::Global;

/// Whether a voter's promise is among the reports.
fn has_reported(voter: u8, reports: &[Report]) -> bool
    ensures { result ≡ list_any (λ report. report.voter == voter) reports.now }
{
    reports.iter().any(|report| report.voter == voter)
}

impl Site {
    /// Whether a promise counts: it is the voter's first one of the present ballot.
    fn counts(&self, from: u8, present: Ballot, ballot: Ballot, reports: &[Report]) -> bool
        ensures { result ≡ (same_ballot present ballot && has from self.now.voters && not (list_any (λ report. report.voter == from) reports.now)) }
    {
        is_same(present, ballot)
            && has(from, self.voters.as_slice())
            && !has_reported(from, reports)
    }

    /// The round after these promises: a majority of them leads to accepting.
    fn proposes(
        &self,
        alloc: Global,
        own: Entry,
        seen: u32,
        ballot: Ballot,
        reports: Items<Report>,
        sent: u64,
        now: u64,
    ) -> Result<Move, NoMemory>
        ensures { IfOk result (λ made. made ≡ proposes self.now (record { own = own; seen = seen; round = Waiting }) ballot reports sent now) }
    {
        if !is_majority(self.voters.len(), reports.len()) {
            let round = Round::Preparing {
                ballot,
                reports,
                sent,
            };
            return Ok(stays(alloc, own, seen, round));
        }
        let entry = picked(alloc, &own, reports.as_slice())?;
        let sends = self.accepts_to(alloc, ballot, &entry, self.voters.as_slice())?;
        let round = Round::Accepting {
            ballot,
            entry,
            voted: Items::new(alloc),
            sent: now,
        };
        Ok(Move {
            proposal: Proposal { own, seen, round },
            sends,
        })
    }
}

impl Proposal {
    /// The leader refused: the operation prepares. Elsewhere a refusal is only remembered.
    pub(crate) fn refused(self, alloc: Global, site: &Site, now: u64) -> Result<Move, NoMemory>
        ensures { IfOk result (λ made. made ≡ refused site.now self now) }
    {
        let Proposal { own, seen, round } = self;
        match round {
            Round::Asking { .. } => site.prepares(alloc, own, seen, now),
            round => Ok(stays(alloc, own, seen, round)),
        }
    }

    /// A voter promised: its first promise of the ballot counts.
    pub(crate) fn promised(
        self,
        alloc: Global,
        site: &Site,
        from: u8,
        now: u64,
        ballot: Ballot,
        vote: &Option<(Ballot, Entry)>,
    ) -> Result<Move, NoMemory>
        ensures { IfOk result (λ made. made ≡ promised site.now self from now ballot vote.now) }
    {
        let Proposal { own, seen, round } = self;
        match round {
            Round::Preparing {
                ballot: present,
                reports,
                sent,
            } => {
                if !site.counts(from, present, ballot, reports.as_slice()) {
                    let round = Round::Preparing {
                        ballot: present,
                        reports,
                        sent,
                    };
                    return Ok(stays(alloc, own, seen, round));
                }
                let vote = copy_vote(alloc, vote)?;
                let mut reports = reports;
                reports.push(Report { voter: from, vote })?;
                site.proposes(alloc, own, seen, present, reports, sent, now)
            }
            round => Ok(stays(alloc, own, seen, round)),
        }
    }
}
