//! How far a group is applied, and whether that is behind what is decided.
ghost use Rattle.std.specs.Prelude.{◌≡◌, ℕ, List};
ghost use Rattle.mega_base.specs.declared.names.GroupId.{GroupId as Group};
ghost use Rattle.mega_voter.specs.of_rules.Met.{Met};
ghost use Rattle.mega_voter.specs.of_rules.Steps.{applied_at};
ghost use Rattle.mega_replica.specs.Following.{progress_at};
ghost use Rattle.mega_step_choices.specs.Behind.{Keeps, is_behind};

use mega_base::GroupId;
use mega_disk::{Records, Versions};
use mega_replica::StoredRows;
use mega_voter::Voter;

/// The applied position of a group.
pub fn applied_at<R: Records, V: Versions>(
    voter: &Voter<R>,
    rows: &StoredRows<V>,
    group: &GroupId,
) -> u64
    ensures { (met : List Met) (stored : Group → ℕ) →
        Keeps voter.now.logs.kept (V.version rows.now.rows) (progress_at rows.now.progress) met stored →
        result ≡ applied_at met stored group.now }
{
    rows.applied(group, &voter.logs).0
}

/// Whether not all of a group is applied that is decided.
pub fn is_behind<R: Records, V: Versions>(
    voter: &Voter<R>,
    rows: &StoredRows<V>,
    group: &GroupId,
) -> bool
    ensures { (met : List Met) (stored : Group → ℕ) →
        Keeps voter.now.logs.kept (V.version rows.now.rows) (progress_at rows.now.progress) met stored → result ≡ is_behind met stored group.now }
{
    applied_at(voter, rows, group) < voter.prefix(group).0
}
