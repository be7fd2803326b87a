//! Portions that are stored: of the group of a decision, and of each group at a tick.
ghost use Rattle.std.specs.Prelude.{◌≡◌, ◌<◌, ℕ, List, None, Some, false, OnOk, Err};
ghost use Rattle.mega_base.specs.declared.names.GroupId.{GroupId as Group};
ghost use Rattle.mega_rules.specs.Logs.{log_of};
ghost use Rattle.mega_rules.specs.Members.{has_rows};
ghost use Rattle.mega_rules.specs.Met.{Met};
ghost use Rattle.mega_rules.specs.Operations.{Setting};
ghost use Rattle.mega_rules.specs.Steps.{stored_after, portion_of};
ghost use Rattle.mega_replica.specs.Used.{StoreUsed};
ghost use Rattle.mega_replica.specs.Following.{Follows, progress_at};
ghost use Rattle.mega_step_work.specs.of_voter.Telling.{Tells};
ghost use Rattle.mega_replica.specs.Applying.{after_portion};
ghost use Rattle.mega_replica.specs.Stored.{stored_with};
ghost use Rattle.mega_step_parts.specs.Touching.{behind};

use crate::deciding::Chosen;
use mega_base::{GroupId, Items, NoMemory};
use mega_disk::{Records, Versions};
use mega_replica::StoredRows;
use mega_step_work::mega_voter::Voter;
use std::alloc::Global;

/// Stores a portion of the group of a decision, at a node that keeps rows.
#[tactic(auto, using(mega_replica::proofs::Using::used_by_puts, mega_replica::proofs::Using::used_here))]
pub fn stores<R: Records, V: Versions>(
    alloc: Global,
    voter: &Voter<R>,
    rows: &mut StoredRows<V>,
    keeps: bool,
    most: u64,
    found: &Option<Chosen>,
) -> Result<(), NoMemory>
    ensures follows { OnOk result ((s : Setting) (met : List Met) (stored : Group → ℕ) → keeps ≡ has_rows s.cluster s.me → (keeps ≡ false → (group : Group) → stored group ≡ 0) → s.cluster.apply ≡ most → Tells voter.now.logs.kept met →
        Follows (V.version rows.old.rows) (progress_at rows.old.progress) (log_of met) stored →
        Follows (V.version rows.new.rows) (progress_at rows.new.progress) (log_of met) (stored_after s met stored found.now)) }
    ensures used { StoreUsed V.Versions None rows.old.rows rows.new.rows }
{
    if !keeps {
        return Ok(());
    }
    match found {
        Some(found) => match rows.apply_some(alloc, &found.group, &voter.logs, most) {
            Ok(()) => Ok(()),
            Err(_) => Err(NoMemory),
        },
        None => Ok(()),
    }
}

/// Stores a portion of a group.
#[tactic(auto, using(mega_replica::proofs::Using::used_by_puts))]
fn store_portion<R: Records, V: Versions>(
    alloc: Global,
    voter: &Voter<R>,
    rows: &mut StoredRows<V>,
    most: u64,
    group: &GroupId,
) -> Result<(), NoMemory>
    ensures follows { OnOk result ((met : List Met) (stored : Group → ℕ) → Tells voter.now.logs.kept met →
        Follows (V.version rows.old.rows) (progress_at rows.old.progress) (log_of met) stored →
        Follows (V.version rows.new.rows) (progress_at rows.new.progress) (log_of met) (stored_with stored group.now (after_portion most (log_of met group.now) (stored group.now)))) }
    ensures used { StoreUsed V.Versions None rows.old.rows rows.new.rows }
{
    match rows.apply_some(alloc, group, &voter.logs, most) {
        Ok(()) => Ok(()),
        Err(_) => Err(NoMemory),
    }
}

/// Stores a portion of each of these groups, at a node that keeps rows: of all others all is stored.
#[tactic(auto, using(mega_replica::proofs::Using::used_here, mega_replica::proofs::Using::used_then))]
pub fn store_portions<R: Records, V: Versions>(
    alloc: Global,
    voter: &Voter<R>,
    rows: &mut StoredRows<V>,
    keeps: bool,
    most: u64,
    groups: Items<GroupId>,
) -> Result<(), NoMemory>
    ensures follows { OnOk result ((s : Setting) (met : List Met) (stored : Group → ℕ) → keeps ≡ has_rows s.cluster s.me → (keeps ≡ false → (group : Group) → stored group ≡ 0) → s.cluster.apply ≡ most → groups ≡ behind keeps met stored → Tells voter.now.logs.kept met →
        Follows (V.version rows.old.rows) (progress_at rows.old.progress) (log_of met) stored →
        Follows (V.version rows.new.rows) (progress_at rows.new.progress) (log_of met) (portion_of s met stored)) }
    ensures used { StoreUsed V.Versions None rows.old.rows rows.new.rows }
{
    if !keeps {
        return Ok(());
    }
    for group in groups.into_vec() {
        store_portion(alloc, voter, rows, most, &group)?;
    }
    Ok(())
}
