//! The lock cell of a node: it grants, renews and lets lapse an epoch for each node.
ghost use Rattle.std.specs.Prelude.{◌≡◌, ◌∷◌, [], ◌≤◌, List, map, option_map};
ghost use Rattle.mega_locks.specs.Rule.{answer, lapse, ticked};
ghost use Rattle.mega_locks.specs.History.{Call, Reopens, Asks, Ticks, Represents, lock_of, held_for, lapse_for, nodes, term};

use crate::asked::Asked;
use crate::lock::{Lock, Term};
use mega_base::{Epoch, NodeId};

/// The lock cell of a node, from one start of the node to its end.
#[derive(Drop)]
pub struct Cell {
    locks: [Lock; 9],
    first: Option<Term>,
}

/// The epochs that lapse at this clock reading, by node.
#[tactic(auto, using(mega_base::proofs::Mapped::so_far_more, mega_base::proofs::Mapped::so_far_all))]
fn lapses_of(locks: &[Lock; 9], first: Term, now: u64) -> [Option<Epoch>; 9]
    ensures { result ≡ map (lapse first now) locks.now }
{
    let mut lapsed = [None; 9];
    for (index, lock) in locks.iter().enumerate() {
        lapsed[index] = lock.lapse(first, now);
    }
    lapsed
}

/// The locks after a tick at this clock reading.
#[tactic(auto, using(mega_base::proofs::Mapped::so_far_more, mega_base::proofs::Mapped::so_far_all))]
fn ticked_locks(locks: &[Lock; 9], first: Term, now: u64) -> [Lock; 9]
    ensures { result ≡ map (ticked first now) locks.now }
{
    let mut after = *locks;
    for (index, lock) in locks.iter().enumerate() {
        after[index] = lock.ticked(first, now);
    }
    after
}

impl Cell {
    /// A cell that has granted nothing, before the first tick of this start.
    pub fn new() -> Cell
        ensures { Represents result [] }
    {
        Cell {
            locks: [Lock::Free; 9],
            first: None,
        }
    }

    /// Tells the cell what the log has of a node: the greatest epoch granted to it, and whether it is
    /// held. Of several epochs the greatest counts, and one that ended stays so.
    pub fn reopen(&mut self, node: NodeId, epoch: Epoch, held: bool)
        requires least { 1 ≤ node.0 }
        requires most { node.0 ≤ 9 }
        ensures { (calls : List Call) → Represents self.old calls → Represents self.new (Reopens node.0 epoch held ∷ calls) }
    {
        let index = usize::from(node.0) - 1;
        self.locks[index] = self.locks[index].reopened(epoch, held);
    }

    /// What a grant or a renewal at this clock reading counts by: before the first tick nothing yet.
    fn renewal(&self, now: u64, keep: u64) -> Option<Term>
        ensures { result ≡ option_map (λ _. term now keep) self.now.first }
    {
        match self.first {
            Some(_) => Some(Term { from: now, keep }),
            None => None,
        }
    }

    /// A node asks for an epoch at the clock reading `now`. A grant or a renewal is kept until
    /// `now + keep`, and one before the first tick from that tick on.
    pub fn ask(&mut self, node: NodeId, epoch: Epoch, now: u64, keep: u64) -> Asked
        requires least { 1 ≤ node.0 }
        requires most { node.0 ≤ 9 }
        ensures exact { (calls : List Call) → Represents self.old calls → result ≡ answer (lock_of calls node.0) epoch }
        ensures state { (calls : List Call) → Represents self.old calls → Represents self.new (Asks node.0 epoch now keep ∷ calls) }
    {
        let index = usize::from(node.0) - 1;
        let renewed = self.renewal(now, keep);
        let answer = self.locks[index].answer(epoch);
        self.locks[index] = self.locks[index].asked(epoch, renewed);
        answer
    }

    /// A tick of the cell's node: the epochs that lapse at it, by node from 1. The first tick keeps each
    /// held epoch until `now + keep`; a later one ends those whose time is reached.
    pub fn lapse_due(&mut self, now: u64, keep: u64) -> [Option<Epoch>; 9]
        ensures exact { (calls : List Call) → Represents self.old calls → result ≡ map (lapse_for calls now keep) nodes }
        ensures state { (calls : List Call) → Represents self.old calls → Represents self.new (Ticks now keep ∷ calls) }
    {
        let first = self.first.unwrap_or(Term { from: now, keep });
        let lapsed = lapses_of(&self.locks, first, now);
        self.first = Some(first);
        self.locks = ticked_locks(&self.locks, first, now);
        lapsed
    }

    /// The epoch that is held for a node.
    pub fn held(&self, node: NodeId) -> Option<Epoch>
        requires least { 1 ≤ node.0 }
        requires most { node.0 ≤ 9 }
        ensures { (calls : List Call) → Represents self.now calls → result ≡ held_for calls node.0 }
    {
        self.locks[usize::from(node.0) - 1].held_epoch()
    }
}
