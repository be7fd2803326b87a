//! Marks are read from JSON as they are shown. Those that do not stand as marks do are read as none.
ghost use Rattle.std.specs.Prelude.{◌≡◌, IfOk, None};
ghost use Rattle.std.specs.Option.{option_copied};
ghost use Rattle.serde_json.specs.View.{view};
ghost use Rattle.mega_transcript.specs.PlainRows.{follows, are_marks, is_alone};
ghost use Rattle.mega_transcript_reader.specs.ReadingRows.{mark_of, mark_in, marks_in, find_marks_in};

use crate::reading_values::{FromJson, bytes_of, each_of, list_of, number_of, pair_of};
use mega_base::{Bytes, GroupId, Items, NoMemory, Position};
use mega_outcome::Mark;
use mega_schema::Schema;
use serde_json::Value as Json;
use std::alloc::Global;

/// Whether the mark has a position of at least 1, and its group is above that of the mark before.
fn follows(before: Option<&Mark>, mark: &Mark) -> bool
    ensures { result ≡ follows (option_copied before.entry) mark.now }
{
    match before {
        Some(before) => 0 < mark.position.0 && before.group.key < mark.group.key,
        None => 0 < mark.position.0,
    }
}

/// Whether the marks stand in ascending order of group, with positions of at least 1.
fn are_marks(marks: &[Mark]) -> bool
    ensures { result ≡ are_marks marks.now }
{
    let mut before = None;
    for mark in marks {
        if !follows(before, mark) {
            return false;
        }
        before = Some(mark);
    }
    true
}

/// Whether one mark stands alone, as that of a local find.
fn is_alone(marks: &[Mark]) -> bool
    ensures { result ≡ is_alone marks.now }
{
    marks.len() == 1
}

fn no_mark(alloc: Global) -> Result<Mark, NoMemory>
    ensures { IfOk result (λ mark. mark ≡ mark_of None) }
{
    let group = GroupId::new(alloc, Bytes::new(alloc))?;
    Ok(Mark {
        group,
        position: Position(0),
    })
}

impl FromJson for Mark {
    ghost told = { λ schema d. mark_in d };

    fn read(alloc: Global, _schema: &Schema, value: &Json) -> Result<Mark, NoMemory> {
        match pair_of(list_of(value)) {
            Some((group, position)) => {
                let key = bytes_of(alloc, group)?;
                let group = GroupId::new(alloc, key)?;
                Ok(Mark {
                    group,
                    position: Position(number_of(u64::MAX, position)),
                })
            }
            None => no_mark(alloc),
        }
    }
}

/// Marks that stand in order, or none.
pub(crate) fn marks_of(
    alloc: Global,
    schema: &Schema,
    value: &Json,
) -> Result<Items<Mark>, NoMemory>
    ensures { IfOk result (λ made. made ≡ marks_in (view value.now)) }
{
    let marks: Items<Mark> = each_of(alloc, schema, value)?;
    if are_marks(marks.as_slice()) {
        Ok(marks)
    } else {
        Ok(Items::new(alloc))
    }
}

/// The marks of a find: in order, or one alone.
pub(crate) fn find_marks_of(
    alloc: Global,
    schema: &Schema,
    value: &Json,
) -> Result<Items<Mark>, NoMemory>
    ensures { IfOk result (λ made. made ≡ find_marks_in (view value.now)) }
{
    let marks: Items<Mark> = each_of(alloc, schema, value)?;
    if are_marks(marks.as_slice()) || is_alone(marks.as_slice()) {
        Ok(marks)
    } else {
        Ok(Items::new(alloc))
    }
}
