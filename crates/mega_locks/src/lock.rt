//! The lock that a cell keeps for one node, and the term for which it is kept.
ghost use Rattle.std.specs.Prelude.{◌≡◌};
ghost use Rattle.mega_locks.specs.Rule.{answer, asked, held_epoch, is_above, is_over, is_same, lapse, opened, reopened, ticked};

use crate::asked::Asked;
use mega_base::Epoch;

/// How long an epoch is kept: for `keep`, counted from the clock reading `from`.
#[derive(Clone, Copy, PartialEq, Eq, Debug)]
pub struct Term {
    pub from: u64,
    pub keep: u64,
}

impl Term {
    /// Whether the end of the term is reached at this clock reading.
    pub fn is_over(&self, now: u64) -> bool
        ensures { result ≡ is_over self.now now }
    {
        now >= self.from && now - self.from >= self.keep
    }
}

/// What a cell keeps for one node. A held epoch without a renewal counts from the first tick.
#[derive(Clone, Copy, PartialEq, Eq, Debug)]
pub enum Lock {
    Free,
    Held { epoch: Epoch, renewed: Option<Term> },
    Ended { epoch: Epoch },
}

/// Whether an epoch is above another, by start and then by count.
pub fn is_above(epoch: Epoch, other: Epoch) -> bool
    ensures { result ≡ is_above epoch other }
{
    epoch.start > other.start || (epoch.start == other.start && epoch.count > other.count)
}

/// Whether two epochs are one.
pub fn is_same(epoch: Epoch, other: Epoch) -> bool
    ensures { result ≡ is_same epoch other }
{
    epoch.start == other.start && epoch.count == other.count
}

/// The lock of a node whose greatest epoch is read from the log.
fn opened(epoch: Epoch, held: bool) -> Lock
    ensures { result ≡ opened epoch held }
{
    if held {
        Lock::Held {
            epoch,
            renewed: None,
        }
    } else {
        Lock::Ended { epoch }
    }
}

impl Lock {
    /// The epoch that is held, if one is.
    pub fn held_epoch(&self) -> Option<Epoch>
        ensures { result ≡ held_epoch self.now }
    {
        match self {
            Lock::Held { epoch, .. } => Some(*epoch),
            _ => None,
        }
    }

    /// The answer to a node that asks for this epoch.
    pub fn answer(&self, epoch: Epoch) -> Asked
        ensures { result ≡ answer self.now epoch }
    {
        match *self {
            Lock::Free => Asked::Granted,
            Lock::Held { epoch: held, .. } => {
                if is_above(epoch, held) {
                    Asked::Granted
                } else if is_same(epoch, held) {
                    Asked::Renewed
                } else {
                    Asked::GreaterHeld { epoch: held }
                }
            }
            Lock::Ended { epoch: ended } => {
                if is_above(epoch, ended) {
                    Asked::Granted
                } else {
                    Asked::Over { epoch: ended }
                }
            }
        }
    }

    /// The lock after this epoch was asked for, where a grant or renewal counts by `renewed`.
    pub fn asked(self, epoch: Epoch, renewed: Option<Term>) -> Lock
        ensures { result ≡ asked self epoch renewed }
    {
        match self.answer(epoch) {
            Asked::Granted | Asked::Renewed => Lock::Held { epoch, renewed },
            _ => self,
        }
    }

    /// The lock after the log told of this epoch.
    pub fn reopened(self, epoch: Epoch, held: bool) -> Lock
        ensures { result ≡ reopened self epoch held }
    {
        match self {
            Lock::Free => opened(epoch, held),
            Lock::Held {
                epoch: greatest,
                ..
            } => {
                if is_above(epoch, greatest) {
                    opened(epoch, held)
                } else if is_same(epoch, greatest) && !held {
                    Lock::Ended { epoch }
                } else {
                    self
                }
            }
            Lock::Ended { epoch: greatest } => {
                if is_above(epoch, greatest) {
                    opened(epoch, held)
                } else {
                    self
                }
            }
        }
    }

    /// The epoch that lapses at this clock reading, if one does.
    pub fn lapse(&self, first: Term, now: u64) -> Option<Epoch>
        ensures { result ≡ lapse first now self.now }
    {
        match self {
            Lock::Held { epoch, renewed } if renewed.unwrap_or(first).is_over(now) => Some(*epoch),
            _ => None,
        }
    }

    /// The lock after a tick at this clock reading.
    pub fn ticked(self, first: Term, now: u64) -> Lock
        ensures { result ≡ ticked first now self }
    {
        match self.lapse(first, now) {
            Some(epoch) => Lock::Ended { epoch },
            None => self,
        }
    }
}
