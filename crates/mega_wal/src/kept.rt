//! What the logs of a voter keep in memory: starts, groups and grants.
ghost use Rattle.std.specs.Prelude.{◌≡◌, ◌∷◌, [], ℕ, List, IfOk, OnOk, OnErr, None, ◌+◌, ◌==◌, if◌then◌else◌};
ghost use Rattle.std.specs.Ordering.{nat_cmp};
ghost use Rattle.std.specs.BTreeMap.{get};
ghost use Rattle.mega_wal.specs.History.{after_grant, after_lapse, is_epoch_below, is_same_epoch, starts_at_most};
ghost use Rattle.mega_wal.specs.Kept.{Holds, Represents};

use crate::groups::{self, Groups};
use crate::item::JournalItem;
use mega_acceptor::mega_ballot::Ballot;
use mega_acceptor::mega_entry::{Entry, is_same_entry};
use mega_base::{Copied, Epoch, GroupId, NoMemory, Position};
use std::alloc::Global;
use std::collections::BTreeMap;

/// The greatest epoch granted to each node, and whether it is held.
pub type Grants = BTreeMap<u8, (Epoch, bool)>;

/// What the logs keep in memory.
#[derive(Drop)]
pub struct Kept {
    pub groups: Groups,
    pub granted: Grants,
    pub starts: u32,
}

/// Whether an epoch is below another, by start and then by count.
fn is_below(epoch: Epoch, other: Epoch) -> bool
    ensures { result ≡ is_epoch_below epoch other }
{
    epoch.start < other.start || (epoch.start == other.start && epoch.count < other.count)
}

/// Whether two epochs are one.
fn is_same(epoch: Epoch, other: Epoch) -> bool
    ensures { result ≡ is_same_epoch epoch other }
{
    epoch.start == other.start && epoch.count == other.count
}

/// What is kept of a node after a grant.
fn after_grant(before: Option<(Epoch, bool)>, epoch: Epoch) -> Option<(Epoch, bool)>
    ensures { result ≡ after_grant before epoch }
{
    match before {
        Some((greatest, held)) => {
            if is_below(greatest, epoch) {
                Some((epoch, true))
            } else {
                Some((greatest, held))
            }
        }
        None => Some((epoch, true)),
    }
}

/// What is kept of a node after a lapse.
fn after_lapse(before: Option<(Epoch, bool)>, epoch: Epoch) -> Option<(Epoch, bool)>
    ensures { result ≡ after_lapse before epoch }
{
    match before {
        Some((greatest, held)) => {
            if is_same(greatest, epoch) {
                Some((greatest, false))
            } else {
                Some((greatest, held))
            }
        }
        None => None,
    }
}

/// What was granted to a node.
pub fn granted(grants: &Grants, node: u8) -> Option<(Epoch, bool)>
    ensures { result ≡ get nat_cmp grants.now node }
{
    match grants.get(&node) {
        Some(granted) => Some(*granted),
        None => None,
    }
}

/// Keeps what was granted to a node, if anything.
fn keep(grants: &mut Grants, node: u8, granted: Option<(Epoch, bool)>) -> Result<(), NoMemory>
    requires { granted ≡ None → get nat_cmp grants.old node ≡ None }
    ensures ok { OnOk result ((other : ℕ) → get nat_cmp grants.new other ≡ (if node == other then granted else get nat_cmp grants.old other)) }
    ensures err { OnErr result (grants.new.entries ≡ grants.old.entries) }
{
    if let Some(granted) = granted {
        grants.insert(node, granted)?;
    }
    Ok(())
}

/// Notes a grant.
fn note_grant(grants: &mut Grants, node: u8, epoch: Epoch) -> Result<(), NoMemory>
    ensures ok { OnOk result ((other : ℕ) → get nat_cmp grants.new other ≡ (if node == other then after_grant (get nat_cmp grants.old node) epoch else get nat_cmp grants.old other)) }
    ensures err { OnErr result (grants.new.entries ≡ grants.old.entries) }
{
    let granted = after_grant(granted(grants, node), epoch);
    keep(grants, node, granted)
}

/// Notes a lapse.
fn note_lapse(grants: &mut Grants, node: u8, epoch: Epoch) -> Result<(), NoMemory>
    ensures ok { OnOk result ((other : ℕ) → get nat_cmp grants.new other ≡ (if node == other then after_lapse (get nat_cmp grants.old node) epoch else get nat_cmp grants.old other)) }
    ensures err { OnErr result (grants.new.entries ≡ grants.old.entries) }
{
    let granted = after_lapse(granted(grants, node), epoch);
    keep(grants, node, granted)
}

/// Notes a promise.
#[tactic(auto, using(crate::proofs::Steps::promise_holds, crate::proofs::Steps::same_holds))]
fn note_promise(
    alloc: Global,
    groups: &mut Groups,
    group: &GroupId,
    position: Position,
    ballot: Ballot,
) -> Result<(), NoMemory>
    ensures ok { OnOk result ((items : List JournalItem) → Holds groups.old items → Holds groups.new (JournalItem.Promise group.now position ballot ∷ items)) }
    ensures err { OnErr result ((items : List JournalItem) → Holds groups.old items → Holds groups.new items) }
{
    let slot = groups::slot(alloc, groups, group, position.0)?;
    let marks = groups::marks_of(groups, group);
    groups::put(
        alloc,
        groups,
        group,
        position.0,
        slot.promised(ballot),
        marks,
    )
}

/// Notes a vote.
#[tactic(auto, using(crate::proofs::Steps::accept_holds, crate::proofs::Steps::same_holds))]
fn note_accept(
    alloc: Global,
    groups: &mut Groups,
    group: &GroupId,
    position: Position,
    ballot: Ballot,
    entry: Entry,
) -> Result<(), NoMemory>
    ensures ok { OnOk result ((items : List JournalItem) → Holds groups.old items → Holds groups.new (JournalItem.Accept group.now position ballot entry ∷ items)) }
    ensures err { OnErr result ((items : List JournalItem) → Holds groups.old items → Holds groups.new items) }
{
    let slot = groups::slot(alloc, groups, group, position.0)?;
    let marks = groups::marks_of(groups, group).accepted(position.0);
    groups::put(
        alloc,
        groups,
        group,
        position.0,
        slot.accepted(ballot, entry),
        marks,
    )
}

/// An entry that is decided, held once with a vote for the same one.
fn held_once(alloc: Global, vote: &Option<(Ballot, Entry)>, entry: Entry) -> Result<Entry, NoMemory>
    ensures { IfOk result (λ held. held ≡ entry) }
{
    match vote {
        Some((_, accepted)) => {
            if is_same_entry(accepted, &entry) {
                return accepted.copy(alloc);
            }
            Ok(entry)
        }
        None => Ok(entry),
    }
}

/// Notes a decision.
#[tactic(auto, using(crate::proofs::Steps::decide_holds, crate::proofs::Steps::same_holds))]
fn note_decide(
    alloc: Global,
    groups: &mut Groups,
    group: &GroupId,
    position: Position,
    entry: Entry,
) -> Result<(), NoMemory>
    ensures ok { OnOk result ((items : List JournalItem) → Holds groups.old items → Holds groups.new (JournalItem.Decide group.now position entry ∷ items)) }
    ensures err { OnErr result ((items : List JournalItem) → Holds groups.old items → Holds groups.new items) }
{
    let slot = groups::slot(alloc, groups, group, position.0)?;
    let marks = groups::decided_marks(groups, group, position.0);
    let entry = held_once(alloc, &slot.accepted, entry)?;
    groups::put(alloc, groups, group, position.0, slot.decided(entry), marks)
}

/// A count of starts raised by some more; it stays at its last value.
fn more_starts(starts: u32, more: u32) -> u32
    ensures { result ≡ starts_at_most (starts + more) }
{
    starts.saturating_add(more)
}

impl Kept {
    /// Nothing.
    pub fn new(alloc: Global) -> Kept
        ensures { Represents result [] }
    {
        Kept {
            groups: BTreeMap::new(alloc),
            granted: BTreeMap::new(alloc),
            starts: 0,
        }
    }

    /// Notes an item of the journal. After a refusal all is as it was.
    pub fn note(&mut self, alloc: Global, item: &JournalItem) -> Result<(), NoMemory>
        ensures ok { OnOk result ((items : List JournalItem) → Represents self.old items → Represents self.new (item.now ∷ items)) }
        ensures err { OnErr result ((items : List JournalItem) → Represents self.old items → Represents self.new items) }
    {
        match item {
            JournalItem::Start => {
                self.starts = more_starts(self.starts, 1);
                Ok(())
            }
            JournalItem::Starts { starts } => {
                self.starts = more_starts(self.starts, *starts);
                Ok(())
            }
            JournalItem::Promise {
                group,
                position,
                ballot,
            } => note_promise(alloc, &mut self.groups, group, *position, *ballot),
            JournalItem::Accept {
                group,
                position,
                ballot,
                entry,
            } => {
                let entry = entry.copy(alloc)?;
                note_accept(alloc, &mut self.groups, group, *position, *ballot, entry)
            }
            JournalItem::Decide {
                group,
                position,
                entry,
            } => {
                let entry = entry.copy(alloc)?;
                note_decide(alloc, &mut self.groups, group, *position, entry)
            }
            JournalItem::Grant { node, epoch } => note_grant(&mut self.granted, node.0, *epoch),
            JournalItem::Lapse { node, epoch } => note_lapse(&mut self.granted, node.0, *epoch),
        }
    }
}
