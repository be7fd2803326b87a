//! Rows that are full are spilled, with the applied positions of the groups as marks: the node stays the same node of the rules.
ghost use Rattle.std.specs.Prelude.{◌≡◌, ℕ, List, [], Err, IfErr, IfOk, IsOk, OnOk, map, true, false};
ghost use Rattle.std.specs.Result.{result_err};
ghost use Rattle.mega_disk.specs.Images.{LeavesOnly};
ghost use Rattle.mega_disk.specs.VersionMaps.{SameVersions};
ghost use Rattle.mega_rules.specs.Logs.{groups_of};
ghost use Rattle.mega_rules.specs.Met.{Met};
ghost use Rattle.mega_voter.specs.Telling.{Tells};
ghost use Rattle.mega_core.specs.of_node_events.declared.fault.StepFault.TheVariants.{BadRecord, Full as StepFull};
ghost use Rattle.mega_durable.specs.declared.fault.UpFault.TheVariants.{Step as Failed};
ghost use Rattle.mega_durable.specs.Compacting.{AtEachUp};
ghost use Rattle.mega_durable.specs.Cut.{failed_by};
ghost use Rattle.mega_durable.specs.Spilling.{AreSpilled, AtEachKept, IsNotSpilled, MaySpill, SpillUsed, mark_at, marks_of, rows_in, step_fault_of};
ghost use Rattle.mega_durable.specs.Standing.{IsUp};

use crate::fault::UpFault;
use crate::up::Up;
use mega_base::{GroupId, Items, NoMemory, Position};
use mega_core::StepFault;
use mega_core::mega_step_parts::is_to_spill;
use mega_disk::{Records, StoreError, Versions};
use mega_replica::StoredRows;
use mega_voter::Voter;
use std::alloc::Global;

/// A group with its applied position.
fn mark_at<R: Records, V: Versions>(
    voter: &Voter<R>,
    rows: &StoredRows<V>,
    group: GroupId,
) -> (GroupId, Position)
    ensures { AtEachKept V.version voter.now.logs.kept rows.now (λ met stored. result ≡ mark_at met stored group) }
{
    let position = rows.applied(&group, &voter.logs);
    (group, position)
}

/// These groups, each with its applied position.
fn marks_among<R: Records, V: Versions>(
    alloc: Global,
    voter: &Voter<R>,
    rows: &StoredRows<V>,
    groups: Items<GroupId>,
) -> Result<Items<(GroupId, Position)>, NoMemory>
    ensures { IfOk result (λ marks. AtEachKept V.version voter.now.logs.kept rows.now (λ met stored. marks ≡ map (mark_at met stored) groups)) }
{
    let mut marks = Items::new(alloc);
    for group in groups.into_vec() {
        marks.push(mark_at(voter, rows, group))?;
    }
    Ok(marks)
}

/// The groups with a decided position, in order.
fn all_groups<R: Records>(alloc: Global, voter: &Voter<R>) -> Result<Items<GroupId>, NoMemory>
    ensures { IfOk result (λ groups. (met : List Met) → Tells voter.now.logs.kept met → groups ≡ groups_of met) }
{
    let groups = voter.groups(alloc)?;
    Ok(Items::from_vec(groups))
}

/// The groups with a decided position, each with its applied position.
fn marks_of<R: Records, V: Versions>(
    alloc: Global,
    voter: &Voter<R>,
    rows: &StoredRows<V>,
) -> Result<Items<(GroupId, Position)>, NoMemory>
    ensures { IfOk result (λ marks. AtEachKept V.version voter.now.logs.kept rows.now (λ met stored. marks ≡ marks_of met stored)) }
{
    let groups = all_groups(alloc, voter)?;
    marks_among(alloc, voter, rows, groups)
}

/// Spills rows, with the applied positions of their groups as marks.
fn spill_all<R: Records, V: Versions>(
    alloc: Global,
    voter: &Voter<R>,
    rows: &mut StoredRows<V>,
) -> Result<(), StoreError>
    ensures same { V.is_told ≡ true → V.cleaned rows.old.rows ≡ [] → SameVersions (V.version rows.old.rows) (V.version rows.new.rows) }
    ensures progress { rows.new.progress ≡ rows.old.progress }
    ensures cleaned { V.cleaned rows.new.rows ≡ V.cleaned rows.old.rows }
    ensures room { OnOk result (V.is_full rows.new.rows ≡ false) }
    ensures spilled { OnOk result (AtEachKept V.version voter.now.logs.kept rows.old (λ met stored. AreSpilled V.Versions (marks_of met stored) rows.old.rows rows.new.rows)) }
    ensures cut { V.is_told ≡ true → AtEachKept V.version voter.now.logs.kept rows.old (λ met stored. LeavesOnly V.moment V.opened_since rows.old.rows rows.new.rows (MaySpill V.Versions rows.old.rows (marks_of met stored))) }
    ensures full { (n : ℕ) → result ≡ Err (StoreError.Full n) → AtEachKept V.version voter.now.logs.kept rows.old (λ met stored. n ≡ V.length_spilled rows.old.rows (marks_of met stored)) }
    ensures bad { (n : ℕ) → result ≡ Err (StoreError.BadRecord n) → V.is_bad rows.old.rows n }
    ensures used { SpillUsed V.Versions (result_err result) rows.old.rows rows.new.rows }
{
    let marks = match marks_of(alloc, voter, rows) {
        Ok(marks) => marks,
        Err(_) => return Err(StoreError::NoMemory),
    };
    match rows.rows.spill(alloc, marks.as_slice()) {
        Ok(()) => Ok(()),
        Err(error) => Err(error),
    }
}

/// Spills rows where they are full, with the applied positions of their groups as marks.
pub(crate) fn spilled<R: Records, V: Versions>(
    alloc: Global,
    voter: &Voter<R>,
    rows: &mut StoredRows<V>,
) -> Result<(), StoreError>
    ensures same { V.is_told ≡ true → V.cleaned rows.old.rows ≡ [] → SameVersions (V.version rows.old.rows) (V.version rows.new.rows) }
    ensures progress { rows.new.progress ≡ rows.old.progress }
    ensures cleaned { V.cleaned rows.new.rows ≡ V.cleaned rows.old.rows }
    ensures room { OnOk result (V.is_full rows.new.rows ≡ false) }
    ensures spilled { V.is_full rows.old.rows ≡ true → OnOk result (AtEachKept V.version voter.now.logs.kept rows.old (λ met stored. AreSpilled V.Versions (marks_of met stored) rows.old.rows rows.new.rows)) }
    ensures idle { V.is_full rows.old.rows ≡ false → IsOk result × (rows.new ≡ rows.old) }
    ensures cut { V.is_told ≡ true → AtEachKept V.version voter.now.logs.kept rows.old (λ met stored. LeavesOnly V.moment V.opened_since rows.old.rows rows.new.rows (MaySpill V.Versions rows.old.rows (marks_of met stored))) }
    ensures full { (n : ℕ) → result ≡ Err (StoreError.Full n) → AtEachKept V.version voter.now.logs.kept rows.old (λ met stored. n ≡ V.length_spilled rows.old.rows (marks_of met stored)) }
    ensures bad { (n : ℕ) → result ≡ Err (StoreError.BadRecord n) → V.is_bad rows.old.rows n }
    ensures used { SpillUsed V.Versions (result_err result) rows.old.rows rows.new.rows }
{
    if !is_to_spill(rows) {
        return Ok(());
    }
    match spill_all(alloc, voter, rows) {
        Ok(()) => Ok(()),
        Err(error) => Err(error),
    }
}

/// Why rows were not spilled, as the fault of a step.
fn step_fault(error: StoreError) -> StepFault
    ensures { result ≡ step_fault_of error }
{
    match error {
        StoreError::DiskFault => StepFault::DiskFault,
        StoreError::Full { length } => StepFault::Full { length },
        StoreError::BadRecord { number } => StepFault::BadRecord { number },
        StoreError::NoMemory => StepFault::NoMemory,
    }
}

impl<R: Records, V: Versions> Up<R, V> {
    /// Spills the rows of a node where they are full, with the applied positions of its groups as marks. After a fault the node is
    /// used no more but to be crashed, and the next start owes nothing to a step.
    pub fn spill(&mut self, alloc: Global) -> Result<(), UpFault>
        // The node is the same node of the rules then, also after a fault, where nothing was cleaned.
        ensures state { V.is_told ≡ true → V.cleaned (rows_in self.old.node) ≡ [] → AtEachUp R.Records V.version self.old.node (λ h node. IsUp R.Records V.version h self.new.node node) }
        ensures room { OnOk result (V.is_full (rows_in self.new.node) ≡ false) }
        ensures spilled { V.is_full (rows_in self.old.node) ≡ true → OnOk result (AtEachUp R.Records V.version self.old.node (λ h node. AreSpilled V.Versions (marks_of node.met node.stored) (rows_in self.old.node) (rows_in self.new.node))) }
        ensures idle { V.is_full (rows_in self.old.node) ≡ false → IsOk result × (self.new.node ≡ self.old.node) }

        // A crash at any moment leaves the rows that it might have left before, or these with the marks.
        ensures cut { V.is_told ≡ true → AtEachUp R.Records V.version self.old.node (λ h node. LeavesOnly V.moment V.opened_since (rows_in self.old.node) (rows_in self.new.node) (MaySpill V.Versions (rows_in self.old.node) (marks_of node.met node.stored))) }

        // Why the rows were not spilled.
        ensures only { IfErr result IsNotSpilled }
        ensures full { (n : ℕ) → result ≡ Err (Failed (StepFull n)) → AtEachUp R.Records V.version self.old.node (λ h node. n ≡ V.length_spilled (rows_in self.old.node) (marks_of node.met node.stored)) }
        ensures bad { (n : ℕ) → result ≡ Err (Failed (BadRecord n)) → V.is_bad (rows_in self.old.node) n }
        ensures used { SpillUsed V.Versions (failed_by result) (rows_in self.old.node) (rows_in self.new.node) }

        // Nothing of the node changes but the store of its rows.
        ensures progress { self.new.node.replica.rows.progress ≡ self.old.node.replica.rows.progress }
        ensures cleaned { V.cleaned (rows_in self.new.node) ≡ V.cleaned (rows_in self.old.node) }
        ensures voter { self.new.node.replica.voter ≡ self.old.node.replica.voter }
        ensures leases { self.new.node.replica.leases ≡ self.old.node.replica.leases }
        ensures indexed { self.new.node.replica.indexed ≡ self.old.node.replica.indexed }
        ensures members { self.new.node.replica.members ≡ self.old.node.replica.members }
        ensures me { self.new.node.replica.me ≡ self.old.node.replica.me }
        ensures open { self.new.node.open ≡ self.old.node.open }
        ensures begun { self.new.node.begun ≡ self.old.node.begun }
    {
        match spilled(alloc, &self.node.replica.voter, &mut self.node.replica.rows) {
            Ok(()) => Ok(()),
            Err(error) => Err(UpFault::Step(step_fault(error))),
        }
    }
}
