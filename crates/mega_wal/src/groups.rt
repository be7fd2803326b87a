//! The places of each group by position, and the marks of what is accepted and decided.
ghost use Rattle.std.specs.Prelude.{◌≡◌, ℕ, ◌+◌, ◌<◌, ◌^◌, ◌==◌, IfOk, OnOk, OnErr, IsSome, None, Some, is_some, option_copied, if◌then◌else◌};
ghost use Rattle.std.specs.Ordering.{nat_cmp};
ghost use Rattle.std.specs.BTreeMap.{get};
ghost use Rattle.std.specs.List.Sorted.{IsStrictlySortedBy};
ghost use Rattle.std.specs.Map.{keys_of};
ghost use Rattle.mega_wal.specs.Acceptor.{answer_beside};
ghost use Rattle.mega_base.specs.Climbing.{climb};
ghost use Rattle.mega_wal.specs.History.{group_cmp};
ghost use Rattle.mega_wal.specs.Kept.{Puts, Same, accepted_marks, decided_groups, decided_marks, empty_slot, is_decided_with, marks_at, slot_at};

use crate::answers::Voted;
use crate::beside::answer_beside;
use mega_acceptor::mega_ballot::Ballot;
use mega_acceptor::mega_entry::Entry;
use mega_acceptor::{Slot, copy_vote};
use mega_base::{Copied, GroupId, NoMemory};
use std::alloc::Global;
use std::collections::BTreeMap;

/// What is kept of a group: the greatest position that is accepted or decided, the greatest that is decided, and the
/// last through which all are decided.
#[derive(Clone, Copy, Drop)]
pub struct Marks {
    pub top: u64,
    pub newest: u64,
    pub prefix: u64,
}

impl Marks {
    /// The marks after a vote at a position.
    pub fn accepted(self, at: u64) -> Marks
        ensures { result ≡ accepted_marks self at }
    {
        Marks {
            top: self.top.max(at),
            newest: self.newest,
            prefix: self.prefix,
        }
    }
}

/// The places of a group, by position.
#[derive(Drop)]
pub struct Log {
    pub slots: BTreeMap<u64, Slot>,
    pub marks: Marks,
}

/// All groups.
pub type Groups = BTreeMap<GroupId, Log>;

/// What is kept of a group.
pub fn marks_of(groups: &Groups, group: &GroupId) -> Marks
    ensures { result ≡ marks_at groups.now group.now }
{
    match groups.get(group) {
        Some(log) => log.marks,
        None => Marks {
            top: 0,
            newest: 0,
            prefix: 0,
        },
    }
}

/// What is kept of a place, if anything.
fn found<'a>(groups: &'a Groups, group: &GroupId, at: u64) -> Option<&'a Slot>
    ensures some { (slot : _) → option_copied result ≡ Some slot → slot_at groups.now group.now at ≡ slot }
    ensures none { option_copied result ≡ None → slot_at groups.now group.now at ≡ empty_slot }
{
    match groups.get(group) {
        Some(log) => log.slots.get(&at),
        None => None,
    }
}

/// A copy of what is kept of a place.
pub fn slot(alloc: Global, groups: &Groups, group: &GroupId, at: u64) -> Result<Slot, NoMemory>
    ensures { IfOk result (λ slot. slot ≡ slot_at groups.now group.now at) }
{
    match found(groups, group, at) {
        Some(slot) => slot.copy(alloc),
        None => Ok(Slot::empty()),
    }
}

/// The greatest ballot that was shown at a place.
pub fn promised(groups: &Groups, group: &GroupId, at: u64) -> Ballot
    ensures { result ≡ (slot_at groups.now group.now at).promised }
{
    match found(groups, group, at) {
        Some(slot) => slot.promised,
        None => Ballot::ZERO,
    }
}

/// The vote of greatest ballot at a place.
pub fn accepted<'a>(groups: &'a Groups, group: &GroupId, at: u64) -> Option<&'a (Ballot, Entry)>
    ensures { option_copied result ≡ (slot_at groups.now group.now at).accepted }
{
    match found(groups, group, at) {
        Some(slot) => slot.accepted.as_ref(),
        None => None,
    }
}

/// A copy of the vote of greatest ballot at a place.
pub fn report(
    alloc: Global,
    groups: &Groups,
    group: &GroupId,
    at: u64,
) -> Result<Option<(Ballot, Entry)>, NoMemory>
    ensures { IfOk result (λ vote. vote ≡ (slot_at groups.now group.now at).accepted) }
{
    match found(groups, group, at) {
        Some(slot) => copy_vote(alloc, &slot.accepted),
        None => Ok(None),
    }
}

/// How a voter answers an accept of this entry at ballot zero, where it showed no greater one.
pub fn answer_at_zero(
    alloc: Global,
    groups: &Groups,
    group: &GroupId,
    at: u64,
    entry: &Entry,
) -> Result<Voted, NoMemory>
    ensures { IfOk result (λ answer. answer ≡ answer_beside (slot_at groups.now group.now at).accepted entry.now) }
{
    match found(groups, group, at) {
        Some(slot) => answer_beside(alloc, &slot.accepted, entry),
        None => Ok(Voted::Yes),
    }
}

/// The entry that is decided at a place.
pub fn decided<'a>(groups: &'a Groups, group: &GroupId, at: u64) -> Option<&'a Entry>
    ensures { option_copied result ≡ (slot_at groups.now group.now at).decided }
{
    match found(groups, group, at) {
        Some(slot) => slot.decided.as_ref(),
        None => None,
    }
}

/// Whether a position is decided, or is this one.
fn is_decided_with(groups: &Groups, group: &GroupId, at: u64, position: u64) -> bool
    ensures { result ≡ is_decided_with groups.now group.now at position }
{
    at == position || decided(groups, group, position).is_some()
}

/// How far all positions are decided, where `at` is too: from one that is reached, in at most so many steps.
#[tactic(auto, using(mega_base::proofs::Climbs::climb_on, mega_base::proofs::Climbs::climb_stop, mega_base::proofs::Climbs::climb_end))]
fn reached(groups: &Groups, group: &GroupId, at: u64, from: u64, steps: u64) -> u64
    requires { from + steps < 2 ^ 64 }
    ensures { result ≡ climb (is_decided_with groups.now group.now at) steps from }
{
    let mut prefix = from;
    for _step in 0..steps {
        if !is_decided_with(groups, group, at, prefix + 1) {
            return prefix;
        }
        prefix += 1;
    }
    prefix
}

/// What the marks of a group become where a position is decided.
pub fn decided_marks(groups: &Groups, group: &GroupId, at: u64) -> Marks
    ensures { result ≡ decided_marks groups.now group.now (marks_at groups.now group.now) at }
{
    let Marks {
        top,
        newest,
        prefix,
    } = marks_of(groups, group);
    let newest = newest.max(at);
    Marks {
        top: top.max(at),
        newest,
        prefix: reached(groups, group, at, prefix, newest.saturating_sub(prefix)),
    }
}

impl Log {
    /// Sets a slot and the marks.
    fn set(&mut self, at: u64, slot: Slot, marks: Marks) -> Result<(), NoMemory>
        ensures ok { OnOk result ((m : ℕ) → get nat_cmp self.new.slots m ≡ (if at == m then Some slot else get nat_cmp self.old.slots m)) }
        ensures marks { OnOk result (self.new.marks ≡ marks) }
        ensures err { OnErr result (self.new.slots.entries ≡ self.old.slots.entries) }
        ensures kept { OnErr result (self.new.marks ≡ self.old.marks) }
    {
        self.slots.insert(at, slot)?;
        self.marks = marks;
        Ok(())
    }
}

/// Sets a slot and the marks of a group that is there.
fn put_there(
    groups: &mut Groups,
    group: &GroupId,
    at: u64,
    slot: Slot,
    marks: Marks,
) -> Result<(), NoMemory>
    requires { IsSome (get group_cmp groups.old group.now) }
    ensures ok { OnOk result (Puts groups.old groups.new group.now at slot marks) }
    ensures err { OnErr result (Same groups.old groups.new) }
{
    match groups.get_mut(group) {
        Some(log) => {
            log.set(at, slot, marks)?;
            Ok(())
        }
        None => Ok(()),
    }
}

/// Sets the first slot and the marks of a group that is not there.
fn put_new(
    alloc: Global,
    groups: &mut Groups,
    group: &GroupId,
    at: u64,
    slot: Slot,
    marks: Marks,
) -> Result<(), NoMemory>
    requires { get group_cmp groups.old group.now ≡ None }
    ensures ok { OnOk result (Puts groups.old groups.new group.now at slot marks) }
    ensures err { OnErr result (Same groups.old groups.new) }
{
    let mut log = Log {
        slots: BTreeMap::new(alloc),
        marks,
    };
    log.set(at, slot, marks)?;
    let own = group.copy(alloc)?;
    groups.insert(own, log)?;
    Ok(())
}

/// Sets a slot and the marks of its group.
pub fn put(
    alloc: Global,
    groups: &mut Groups,
    group: &GroupId,
    at: u64,
    slot: Slot,
    marks: Marks,
) -> Result<(), NoMemory>
    ensures ok { OnOk result (Puts groups.old groups.new group.now at slot marks) }
    ensures err { OnErr result (Same groups.old groups.new) }
{
    if groups.contains_key(group) {
        put_there(groups, group, at, slot, marks)
    } else {
        put_new(alloc, groups, group, at, slot, marks)
    }
}

/// Copies of the groups with a decided position, in order.
pub fn decided_groups(alloc: Global, groups: &Groups) -> Result<Vec<GroupId>, NoMemory>
    ensures found { IfOk result (λ found. found.items ≡ decided_groups groups.now) }
    ensures ordered { OnOk result (IsStrictlySortedBy group_cmp (keys_of groups.now.entries)) }
{
    let mut found = Vec::new(alloc);
    for (group, log) in groups {
        if log.marks.newest > 0 {
            let own = group.copy(alloc)?;
            found.push(own)?;
        }
    }
    Ok(found)
}
