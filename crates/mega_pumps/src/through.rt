//! How far each group's log is noted.
ghost use Rattle.std.specs.Prelude.{◌≡◌, OnOk, if◌then◌else◌};
ghost use Rattle.mega_base.specs.declared.names.GroupId.{GroupId as Group};
ghost use Rattle.mega_wal.specs.Kept.{is_group};
ghost use Rattle.mega_pumps.specs.Reach.{through_at};

use mega_base::{Copied, GroupId, NoMemory};
use std::alloc::Global;
use std::collections::BTreeMap;

/// How many first entries of each group's log are noted; of a group that is not there none are.
pub type Through = BTreeMap<GroupId, u64>;

/// How many first entries of a group's log are noted.
pub fn through_of(all: &Through, group: &GroupId) -> u64
    ensures { result ≡ through_at all.now group.now }
{
    match all.get(group) {
        Some(through) => *through,
        None => 0,
    }
}

/// So many entries of a group's log are noted.
pub fn set(alloc: Global, all: &mut Through, group: &GroupId, through: u64) -> Result<(), NoMemory>
    ensures { OnOk result ((other : Group) → through_at all.new other ≡ (if is_group group.now other then through else through_at all.old other)) }
{
    let own = group.copy(alloc)?;
    all.insert(own, through)?;
    Ok(())
}
