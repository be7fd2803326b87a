//! The answers of finds, with their marks.
ghost use Rattle.std.specs.Prelude.{◌≡◌, IfOk};
ghost use Rattle.mega_outcome.specs.declared.answer.Answer.TheVariants.{Turned};
ghost use Rattle.mega_outcome.specs.declared.answer.Turn.TheVariants.{BadRow};
ghost use Rattle.mega_rules.specs.Finding.{find_answer, mark_at};

use mega_base::{Copied, GroupId, Items, NoMemory, Position};
use mega_index::Found;
use mega_outcome::{Answer, Mark, Turn};
use std::alloc::Global;

/// The mark of a group at a position from 1 on.
pub fn mark_at(alloc: Global, group: &GroupId, position: u64) -> Result<Items<Mark>, NoMemory>
    ensures { IfOk result (λ marks. marks ≡ mark_at group.now position) }
{
    let mut marks = Items::new(alloc);
    if position > 0 {
        let group = group.copy(alloc)?;
        let position = Position(position);
        marks.push(Mark { group, position })?;
        return Ok(marks);
    }
    Ok(marks)
}

/// Copies of marks.
pub(crate) fn copied(alloc: Global, marks: &[Mark]) -> Result<Items<Mark>, NoMemory>
    ensures { IfOk result (λ made. made ≡ marks.now) }
{
    let mut made = Items::new(alloc);
    for mark in marks {
        let group = mark.group.copy(alloc)?;
        let position = mark.position;
        made.push(Mark { group, position })?;
    }
    Ok(made)
}

/// The answer of a find whose value at this place does not fit.
fn turned(place: u64) -> Result<Answer, NoMemory>
    ensures { IfOk result (λ answer. answer ≡ Turned (BadRow place)) }
{
    match u32::try_from(place) {
        Ok(item) => Ok(Answer::Turned(Turn::BadRow { item })),
        Err(_) => Err(NoMemory),
    }
}

/// The answer of a find, at these marks: what is found, or that a value does not fit.
pub fn find_answer(marks: Items<Mark>, found: Result<Items<Found>, u64>) -> Result<Answer, NoMemory>
    ensures { IfOk result (λ answer. answer ≡ find_answer marks found) }
{
    match found {
        Ok(rows) => Ok(Answer::Found { marks, rows }),
        Err(place) => {
            drop(marks);
            turned(place)
        }
    }
}
