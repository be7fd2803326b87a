//! What a voter keeps of one position: its promise, its vote and what is decided.
ghost use Rattle.std.specs.Prelude.{◌≡◌, IfOk};
ghost use Rattle.mega_acceptor.specs.Slots.{accepted_slot, decided_slot, empty_slot, first_of, promised_slot, voted_ballot};
ghost use Rattle.mega_acceptor.specs.Votes.{is_ballot_below};

use crate::votes::{copy_vote, greater, greater_vote, is_below, voted_ballot};
use mega_ballot::Ballot;
use mega_base::{Copied, NoMemory};
use mega_entry::Entry;
use std::alloc::Global;

/// What a voter keeps of one place: the greatest ballot that it showed there, its vote of greatest ballot, and the
/// entry that is decided.
#[derive(Drop)]
pub struct Slot {
    pub promised: Ballot,
    pub accepted: Option<(Ballot, Entry)>,
    pub decided: Option<Entry>,
}

/// The same entry, or none.
fn copy_entry(alloc: Global, entry: &Option<Entry>) -> Result<Option<Entry>, NoMemory>
    ensures { IfOk result (λ made. made ≡ entry.now) }
{
    match entry {
        Some(entry) => Ok(Some(entry.copy(alloc)?)),
        None => Ok(None),
    }
}

/// The first of two entries, if there is one.
fn first_of(first: Option<Entry>, entry: Entry) -> Option<Entry>
    ensures { result ≡ first_of first entry }
{
    match first {
        Some(decided) => Some(decided),
        None => Some(entry),
    }
}

impl Slot {
    /// A place at which nothing happened.
    pub fn empty() -> Slot
        ensures { result ≡ empty_slot }
    {
        Slot {
            promised: Ballot::ZERO,
            accepted: None,
            decided: None,
        }
    }

    /// The slot after a promise.
    pub fn promised(self, ballot: Ballot) -> Slot
        ensures { result ≡ promised_slot self ballot }
    {
        Slot {
            promised: greater(self.promised, ballot),
            accepted: self.accepted,
            decided: self.decided,
        }
    }

    /// The slot after a vote: the voter shows its ballot too.
    pub fn accepted(self, ballot: Ballot, entry: Entry) -> Slot
        ensures { result ≡ accepted_slot self ballot entry }
    {
        let slot = self.promised(ballot);
        Slot {
            promised: slot.promised,
            accepted: greater_vote(slot.accepted, ballot, entry),
            decided: slot.decided,
        }
    }

    /// The slot after a decision: the first one stays.
    pub fn decided(self, entry: Entry) -> Slot
        ensures { result ≡ decided_slot self entry }
    {
        Slot {
            promised: self.promised,
            accepted: self.accepted,
            decided: first_of(self.decided, entry),
        }
    }

    /// Whether the promise is above the vote, so that the vote alone does not say it.
    pub fn is_promise_above_vote(&self) -> bool
        ensures { result ≡ is_ballot_below (voted_ballot self.now.accepted) self.now.promised }
    {
        is_below(voted_ballot(&self.accepted), self.promised)
    }
}

impl Copied for Slot {
    fn copy(&self, alloc: Global) -> Result<Slot, NoMemory> {
        let accepted = copy_vote(alloc, &self.accepted)?;
        let decided = copy_entry(alloc, &self.decided)?;
        Ok(Slot {
            promised: self.promised,
            accepted,
            decided,
        })
    }
}
