//! Reads the answers of operations from the words of a line.
ghost use Rattle.std.specs.Prelude.{◌≡◌};
ghost use Rattle.mega_transcript_reader.specs.Taking.{Takes};
ghost use Rattle.mega_transcript_reader.specs.ReadingAnswers.{fixed_answer, other_at, conflict_at, turn_of, turn_at, turned_at, logfull_at, committed_at, rows_at, found_at, refreshed_at, nothing_at, nohandler_at, place_of, place_field, batch_at, of_answer_kind, answer_at};

use crate::answer_kinds::{AnswerKind, answer_kind_of};
use crate::fault::Refusal;
use crate::kinds::is;
use crate::reading::{Words, number_of};
use crate::reading_finds::finds_of;
use crate::reading_json::json;
use crate::reading_marks::{find_marks_of, marks_of};
use crate::reading_values::{each_of, text_of};
use mega_base::{NodeKind, OpId, Position, Text};
use mega_outcome::{Answer, Turn};
use mega_schema::Schema;
use std::alloc::Global;

/// The answer whose words are fixed and are these, with the line feed.
fn fixed_answer(left: &[u8]) -> Option<Answer>
    ensures { result ≡ fixed_answer left.now }
{
    if is(left, b"unknown\n") {
        Some(Answer::Unknown)
    } else if is(left, b"timedout\n") {
        Some(Answer::TimedOut)
    } else if is(left, b"worn\n") {
        Some(Answer::Worn)
    } else if is(left, b"busy 64\n") {
        Some(Answer::Busy { count: 64 })
    } else if is(left, b"nothere witness\n") {
        Some(Answer::NotHere {
            kind: NodeKind::Witness,
        })
    } else if is(left, b"nothere read\n") {
        Some(Answer::NotHere {
            kind: NodeKind::Read,
        })
    } else {
        None
    }
}

#[tactic(auto, unfolding(crate::specs::ReadingAnswers::other_at))]
fn other(words: &mut Words<'_>) -> Result<Option<OpId>, Refusal>
    ensures { Takes result words.new (other_at words.old) }
{
    if is(words.rest(), b"none\n") {
        words.pass_all();
        return Ok(None);
    }
    let op = words.op(b'\n')?;
    Ok(Some(op))
}

#[tactic(auto, unfolding(crate::specs::ReadingAnswers::conflict_at))]
fn conflict(words: &mut Words<'_>) -> Result<Answer, Refusal>
    ensures { Takes result words.new (conflict_at words.old) }
{
    let position = words.position(b' ')?;
    let other = other(words)?;
    Ok(Answer::Conflict { position, other })
}

/// An item's number, for the turn that it makes.
fn turn_of(word: &[u8], left: u64, words: &mut Words<'_>) -> Result<Turn, Refusal>
    ensures { Takes result words.new (turn_of word.now left words.old) }
{
    if is(word, b"othergroup") {
        let item = words.u32(b'\n')?;
        return Ok(Turn::OtherGroup { item });
    }
    if is(word, b"badrow") {
        let item = words.u32(b'\n')?;
        return Ok(Turn::BadRow { item });
    }
    if is(word, b"check") {
        let item = words.u32(b'\n')?;
        return Ok(Turn::CheckFailed { item });
    }
    if is(word, b"norow") {
        let item = words.u32(b'\n')?;
        return Ok(Turn::NoRow { item });
    }
    if is(word, b"overflow") {
        let item = words.u32(b'\n')?;
        return Ok(Turn::Overflow { item });
    }
    if is(word, b"toolarge") {
        let bytes = words.u64(b'\n')?;
        return Ok(Turn::TooLarge { bytes });
    }
    Err(Refusal::Word { left })
}

#[tactic(auto, unfolding(crate::specs::ReadingAnswers::turn_at))]
fn turn(words: &mut Words<'_>) -> Result<Turn, Refusal>
    ensures { Takes result words.new (turn_at words.old) }
{
    let left = words.len();
    let word = words.word(b' ')?;
    turn_of(word, left, words)
}

#[tactic(auto, unfolding(crate::specs::ReadingAnswers::turned_at))]
fn turned(words: &mut Words<'_>) -> Result<Answer, Refusal>
    ensures { Takes result words.new (turned_at words.old) }
{
    let turn = turn(words)?;
    Ok(Answer::Turned(turn))
}

#[tactic(auto, unfolding(crate::specs::ReadingAnswers::logfull_at))]
fn logfull(words: &mut Words<'_>) -> Result<Answer, Refusal>
    ensures { Takes result words.new (logfull_at words.old) }
{
    let position = words.position(b'\n')?;
    Ok(Answer::LogFull { position })
}

#[tactic(auto, unfolding(crate::specs::ReadingAnswers::committed_at))]
fn committed(alloc: Global, schema: &Schema, words: &mut Words<'_>) -> Result<Answer, Refusal>
    ensures { Takes result words.new (committed_at schema.now words.old) }
{
    let position = words.position(b' ')?;
    let value = json(alloc, words, b'\n')?;
    let replies = each_of(alloc, schema, &value)?;
    Ok(Answer::Committed { position, replies })
}

#[tactic(auto, unfolding(crate::specs::ReadingAnswers::rows_at))]
fn rows(alloc: Global, schema: &Schema, words: &mut Words<'_>) -> Result<Answer, Refusal>
    ensures { Takes result words.new (rows_at schema.now words.old) }
{
    let position = words.position(b' ')?;
    let value = json(alloc, words, b'\n')?;
    let rows = each_of(alloc, schema, &value)?;
    Ok(Answer::Read { position, rows })
}

#[tactic(auto, unfolding(crate::specs::ReadingAnswers::found_at))]
fn found(alloc: Global, schema: &Schema, words: &mut Words<'_>) -> Result<Answer, Refusal>
    ensures { Takes result words.new (found_at schema.now words.old) }
{
    let marks = json(alloc, words, b' ')?;
    let finds = json(alloc, words, b'\n')?;
    let marks = find_marks_of(alloc, schema, &marks)?;
    let rows = finds_of(alloc, schema, &finds)?;
    Ok(Answer::Found { marks, rows })
}

#[tactic(auto, unfolding(crate::specs::ReadingAnswers::refreshed_at))]
fn refreshed(alloc: Global, schema: &Schema, words: &mut Words<'_>) -> Result<Answer, Refusal>
    ensures { Takes result words.new (refreshed_at words.old) }
{
    let value = json(alloc, words, b'\n')?;
    let marks = marks_of(alloc, schema, &value)?;
    Ok(Answer::Refreshed { marks })
}

#[tactic(auto, unfolding(crate::specs::ReadingAnswers::nothing_at))]
fn nothing(alloc: Global, schema: &Schema, words: &mut Words<'_>) -> Result<Answer, Refusal>
    ensures { Takes result words.new (nothing_at words.old) }
{
    let value = json(alloc, words, b'\n')?;
    let marks = marks_of(alloc, schema, &value)?;
    Ok(Answer::NothingToDo { marks })
}

#[tactic(auto, unfolding(crate::specs::ReadingAnswers::nohandler_at))]
fn nohandler(alloc: Global, words: &mut Words<'_>) -> Result<Answer, Refusal>
    ensures { Takes result words.new (nohandler_at words.old) }
{
    let value = json(alloc, words, b'\n')?;
    let queue = Text::from_str(alloc, text_of(&value))?;
    Ok(Answer::NoHandler { queue })
}

/// The position of a batch's entry, or none.
fn place_of(word: &[u8]) -> Option<Option<Position>>
    ensures { result ≡ place_of word.now }
{
    if is(word, b"none") {
        return Some(None);
    }
    match number_of(u64::MAX, word) {
        Some(number) => Some(Some(Position(number))),
        None => None,
    }
}

#[tactic(auto, unfolding(crate::specs::ReadingAnswers::place_field))]
fn place(words: &mut Words<'_>) -> Result<Option<Position>, Refusal>
    ensures { Takes result words.new (place_field 32 words.old) }
{
    let left = words.len();
    let word = words.word(b' ')?;
    match place_of(word) {
        Some(place) => Ok(place),
        None => Err(Refusal::Word { left }),
    }
}

#[tactic(auto, unfolding(crate::specs::ReadingAnswers::batch_at))]
fn batch(alloc: Global, schema: &Schema, words: &mut Words<'_>) -> Result<Answer, Refusal>
    ensures { Takes result words.new (batch_at schema.now words.old) }
{
    let place = place(words)?;
    let value = json(alloc, words, b'\n')?;
    let results = each_of(alloc, schema, &value)?;
    match place {
        Some(position) => Ok(Answer::Batched { position, results }),
        None => Ok(Answer::AllTurned { results }),
    }
}

fn of_kind(
    alloc: Global,
    schema: &Schema,
    kind: AnswerKind,
    words: &mut Words<'_>,
) -> Result<Answer, Refusal>
    ensures { Takes result words.new (of_answer_kind schema.now kind words.old) }
{
    match kind {
        AnswerKind::Committed => committed(alloc, schema, words),
        AnswerKind::Conflict => conflict(words),
        AnswerKind::Turned => turned(words),
        AnswerKind::Read => rows(alloc, schema, words),
        AnswerKind::Found => found(alloc, schema, words),
        AnswerKind::Refreshed => refreshed(alloc, schema, words),
        AnswerKind::LogFull => logfull(words),
        AnswerKind::Nothing => nothing(alloc, schema, words),
        AnswerKind::NoHandler => nohandler(alloc, words),
        AnswerKind::Batch => batch(alloc, schema, words),
    }
}

/// The words of an answer.
#[tactic(auto, unfolding(crate::specs::ReadingAnswers::answer_at))]
pub(crate) fn answer(
    alloc: Global,
    schema: &Schema,
    words: &mut Words<'_>,
) -> Result<Answer, Refusal>
    ensures { Takes result words.new (answer_at schema.now words.old) }
{
    if let Some(answer) = fixed_answer(words.rest()) {
        words.pass_all();
        return Ok(answer);
    }
    let left = words.len();
    let word = words.word(b' ')?;
    match answer_kind_of(word) {
        Some(kind) => of_kind(alloc, schema, kind, words),
        None => Err(Refusal::Word { left }),
    }
}
