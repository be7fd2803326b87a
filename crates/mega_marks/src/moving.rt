//! Marks that move on.
ghost use Rattle.std.specs.Prelude.{◌≡◌, ◌++◌, ◌≤◌, ◌∷◌, [], List, IfOk, OnOk};
ghost use Rattle.mega_outcome.specs.declared.answer.Mark.{Mark as MarkSeen};
ghost use Rattle.mega_replica.specs.Following.{Follows, progress_at};
ghost use Rattle.mega_rules.specs.Acting.{applied_marks};
ghost use Rattle.mega_rules.specs.Finding.{mark_at};
ghost use Rattle.mega_rules.specs.Logs.{log_of, prefix_of};
ghost use Rattle.mega_rules.specs.Met.{Met};
ghost use Rattle.mega_rules.specs.Operations.{Now};
ghost use Rattle.mega_voter.specs.Telling.{Tells};
ghost use Rattle.mega_marks.specs.AreMarked.{AreAt, GoOn, MayMove};
ghost use Rattle.mega_marks.specs.Marked.{AllAfter, AllBefore, AreWithin, Ascend, lead_to};

use crate::entries::entries_between;
use mega_base::{GroupId, Items, NoMemory, Position};
use mega_disk::{Records, Versions};
use mega_index::GlobalIndex;
use mega_outcome::Mark;
use mega_propose::is_same_group;
use mega_replica::StoredRows;
use mega_schema::Schema;
use mega_voter::Voter;
use std::alloc::Global;

/// Adds the mark of a group at a position from 1 on.
fn add(marks: &mut Items<Mark>, group: GroupId, position: u64) -> Result<(), NoMemory>
    ensures { OnOk result (marks.new ≡ marks.old ++ mark_at group position) }
{
    if position > 0 {
        let position = Position(position);
        marks.push(Mark { group, position })?;
        return Ok(());
    }
    Ok(())
}

/// The positions through which each group is applied, in order of group, those of 0 left out.
pub fn applied_marks<R: Records, V: Versions>(
    alloc: Global,
    voter: &Voter<R>,
    rows: &StoredRows<V>,
) -> Result<Items<Mark>, NoMemory>
    ensures { IfOk result (λ marks. (now : Now) → Tells voter.now.logs.kept now.met → Follows (V.version rows.now.rows) (progress_at rows.now.progress) (log_of now.met) now.stored →
        marks ≡ applied_marks now) }
{
    let mut marks = Items::new(alloc);
    let groups = voter.groups(alloc)?;
    for group in groups {
        let position = rows.applied(&group, &voter.logs).0;
        add(&mut marks, group, position)?;
    }
    Ok(marks)
}

/// Whether these marks may move on to those: each group is among them, in the same order, at its position or a later one.
pub(crate) fn lead_to(marks: &[Mark], ends: &[Mark]) -> bool
    ensures { result ≡ lead_to marks.now ends.now }
{
    let mut left = marks;
    for last in ends {
        match left {
            [] => return true,
            [mark, rest @ ..] => {
                if is_same_group(&last.group, &mark.group) {
                    if mark.position.0 > last.position.0 {
                        return false;
                    }
                    left = rest;
                }
            }
        }
    }
    match left {
        [] => true,
        [_, ..] => false,
    }
}

/// Moves the mark of a group on to a position that is applied.
fn moves<R: Records>(
    alloc: Global,
    schema: &Schema,
    voter: &Voter<R>,
    index: &mut GlobalIndex,
    mark: &Mark,
) -> Result<(), NoMemory>
    ensures { OnOk result ((met : List Met) (done left : List MarkSeen) → Tells voter.now.logs.kept met → (mark.now.position).0 ≤ prefix_of met mark.now.group →
        AllBefore mark.now.group done → AllAfter mark.now.group left →
        GoOn schema.now index.old met done (mark.now ∷ left) → GoOn schema.now index.new met (done ++ mark.now ∷ []) left) }
{
    let from = index.mark(&mark.group).0;
    let entries = entries_between(alloc, voter, &mark.group, from, mark.position.0)?;
    match index.refresh(alloc, schema, &mark.group, entries.as_slice()) {
        Ok(()) => Ok(()),
        Err(_) => Err(NoMemory),
    }
}

/// Moves all groups on to these marks.
pub(crate) fn all_move<R: Records>(
    alloc: Global,
    schema: &Schema,
    voter: &Voter<R>,
    index: &mut GlobalIndex,
    marks: &[Mark],
) -> Result<(), NoMemory>
    ensures { OnOk result ((met : List Met) → Tells voter.now.logs.kept met → Ascend marks.now → AreWithin met marks.now →
        MayMove schema.now index.old met marks.now → AreAt schema.now index.new met marks.now) }
{
    for mark in marks {
        moves(alloc, schema, voter, index, mark)?;
    }
    Ok(())
}
