//! The groups of which a step may apply more, at a node that keeps rows.
ghost use Rattle.std.specs.Prelude.{◌≡◌, if◌then◌else◌, ℕ, List, [], map, IfOk};
ghost use Rattle.mega_base.specs.declared.names.GroupId.{GroupId as Group};
ghost use Rattle.mega_rules.specs.Members.{has_rows};
ghost use Rattle.mega_rules.specs.Met.{Met};
ghost use Rattle.mega_replica.specs.Following.{progress_at};
ghost use Rattle.mega_step_parts.specs.Behind.{Keeps};
ghost use Rattle.mega_step_parts.specs.Positions.{before_at};
ghost use Rattle.mega_step_parts.specs.Touching.{behind};
ghost use Rattle.mega_lag.specs.Lagging.{KnowsLagging};

use crate::lagging::copies;
use mega_actions::Replica;
use mega_base::{GroupId, Items, NoMemory};
use mega_disk::{Records, Versions};
use mega_step_parts::{Before, behind_among, has_rows, positions};
use std::alloc::Global;
use std::collections::BTreeSet;

/// The applied positions of the groups of which a step may apply more: none at a node that keeps no rows.
pub fn watched<R: Records, V: Versions>(
    alloc: Global,
    replica: &Replica<R, V>,
    groups: Items<GroupId>,
) -> Result<Items<Before>, NoMemory>
    ensures { IfOk result (λ before. (met : List Met) (stored : Group → ℕ) →
        Keeps replica.now.voter.logs.kept (V.version replica.now.rows.rows) (progress_at replica.now.rows.progress) met stored →
        before ≡ (if has_rows replica.now.members replica.now.me then map (before_at met stored) groups else [])) }
{
    if has_rows(replica.members.cluster(), replica.me) {
        return positions(alloc, &replica.voter, &replica.rows, groups);
    }
    Ok(Items::new(alloc))
}

/// The groups of which not all is applied that is decided, in order, at a node that keeps rows: of those that lag.
pub fn behind<R: Records, V: Versions>(
    alloc: Global,
    replica: &Replica<R, V>,
    lagging: &BTreeSet<GroupId>,
) -> Result<Items<GroupId>, NoMemory>
    ensures { IfOk result (λ groups. (met : List Met) (stored : Group → ℕ) →
        Keeps replica.now.voter.logs.kept (V.version replica.now.rows.rows) (progress_at replica.now.rows.progress) met stored →
        KnowsLagging replica.now.members replica.now.me lagging.now met stored →
        groups ≡ behind (has_rows replica.now.members replica.now.me) met stored) }
{
    if has_rows(replica.members.cluster(), replica.me) {
        let groups = copies(alloc, lagging)?;
        let found = behind_among(alloc, &replica.voter, &replica.rows, groups.into_vec())?;
        return Ok(found);
    }
    Ok(Items::new(alloc))
}
