//! Marks: made of groups and positions, and looked up by group.
ghost use Rattle.std.specs.Prelude.{◌≡◌, map, IfOk};
ghost use Rattle.mega_disk.specs.VersionMaps.{mark_of};
ghost use Rattle.mega_runs.specs.Reads.{mark_in};
ghost use Rattle.mega_runs.specs.Stores.{mark_of_pair};

use crate::body::Mark;
use mega_base::{Copied, GroupId, Items, NoMemory, Position};
use std::alloc::Global;

/// The marks of groups.
pub(crate) fn marks_of(
    alloc: Global,
    marks: &[(GroupId, Position)],
) -> Result<Items<Mark>, NoMemory>
    ensures { IfOk result (λ made. made ≡ map mark_of_pair marks.now) }
{
    let mut made = Items::new(alloc);
    for mark in marks {
        made.push(copy_of(alloc, mark)?)?;
    }
    Ok(made)
}

fn copy_of(alloc: Global, mark: &(GroupId, Position)) -> Result<Mark, NoMemory>
    ensures { IfOk result (λ made. made ≡ mark_of_pair mark.now) }
{
    let group = mark.0.copy(alloc)?;
    Ok(Mark { group, at: mark.1 })
}

/// The position of the first mark of the group, 0 where it has none.
pub(crate) fn mark_of_group(marks: &[Mark], group: &GroupId) -> Position
    ensures { result.0 ≡ mark_of group.now (map mark_in marks.now) }
{
    let mut rest = marks;
    while let Some((mark, behind)) = rest.split_first() {
        if group.key == mark.group.key {
            return mark.at;
        }
        rest = behind;
    }
    Position(0)
}
