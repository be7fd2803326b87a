//! Writes the words of an answer.
ghost use Rattle.std.specs.Prelude.{◌≡◌, ◌++◌, ◌∷◌, [], length, map, take, codes, decimal, OnOk, OnErr};
ghost use Rattle.serde_json.specs.Data.{string, array};
ghost use Rattle.serde_json.specs.View.{items_of};
ghost use Rattle.serde_json.specs.Written.{compact_text};
ghost use Rattle.mega_transcript.specs.Words.{spaced, position_word};
ghost use Rattle.mega_transcript.specs.Rows.{marks_data, finds_data};
ghost use Rattle.mega_transcript.specs.Answers.{turn_word, turn_number, other_word, kind_word, answer_words};

use crate::showing::{Show, list, put_json};
use crate::words::{put_end, put_number, put_op, put_position, put_word};
use mega_base::{Bytes, NoMemory, NodeKind, OpId, Position, Text};
use mega_outcome::mega_index::Found;
use mega_outcome::{Answer, Mark, Turn};
use mega_schema::Schema;
use serde_json::Value as Json;
use std::alloc::Global;

/// Why a transaction was turned away, in a word. The faults of a device are no words of answers.
pub(crate) fn turn_word(turn: Turn) -> &'static str
    ensures { result.now ≡ turn_word turn }
{
    match turn {
        Turn::OtherGroup { .. } => "othergroup",
        Turn::BadRow { .. } => "badrow",
        Turn::CheckFailed { .. } => "check",
        Turn::NoRow { .. } => "norow",
        Turn::Overflow { .. } => "overflow",
        Turn::TooLarge { .. } => "toolarge",
        Turn::DiskFault => "fault",
        Turn::Full { .. } => "full",
        Turn::BadRecord { .. } => "badrecord",
        Turn::NoMemory => "nomemory",
    }
}

/// The number that goes with it: of an item, or of bytes.
pub(crate) fn turn_number(turn: Turn) -> u64
    ensures { result ≡ turn_number turn }
{
    match turn {
        Turn::OtherGroup { item }
        | Turn::BadRow { item }
        | Turn::CheckFailed { item }
        | Turn::NoRow { item }
        | Turn::Overflow { item } => u64::from(item),
        Turn::TooLarge { bytes } => bytes,
        Turn::Full { length } => length,
        Turn::BadRecord { number } => number,
        Turn::DiskFault | Turn::NoMemory => 0,
    }
}

fn kind_word(kind: NodeKind) -> &'static [u8]
    ensures { result.now ≡ kind_word kind }
{
    match kind {
        NodeKind::Full => b"full",
        NodeKind::Witness => b"witness",
        NodeKind::Read => b"read",
    }
}

/// Appends a space and a list as compact JSON.
#[tactic(auto, using(crate::specs::NoFloats::mapped))]
fn put_list<T: Show>(
    alloc: Global,
    schema: &Schema,
    items: &[T],
    out: &mut Bytes,
) -> Result<(), NoMemory>
    ensures ok { OnOk result (out.new ≡ out.old ++ 32 ∷ compact_text (array (items_of (map (T.shows schema.now) items.now)))) }
    ensures err { OnErr result (take (length out.old) out.new ≡ out.old) }
{
    let value = list(alloc, schema, items)?;
    put_json(alloc, &value, out)
}

/// Appends the words of an answer, each after a space, and ends the line. A refusal may leave a part
/// of it in `out`.
pub(crate) fn put_answer(
    alloc: Global,
    schema: &Schema,
    answer: &Answer,
    out: &mut Bytes,
) -> Result<(), NoMemory>
    ensures ok { OnOk result (out.new ≡ out.old ++ spaced (answer_words schema.now answer.now)) }
    ensures err { OnErr result (take (length out.old) out.new ≡ out.old) }
{
    match answer {
        Answer::Committed { position, replies } => {
            put_rows(
                alloc,
                schema,
                b"committed",
                *position,
                replies.as_slice(),
                out,
            )
        }
        Answer::Conflict { position, other } => put_conflict(*position, *other, out),
        Answer::Turned(turn) => put_turned(*turn, out),
        Answer::Unknown => put_alone(b"unknown", out),
        Answer::TimedOut => put_alone(b"timedout", out),
        Answer::Read { position, rows } => {
            put_rows(alloc, schema, b"read", *position, rows.as_slice(), out)
        }
        Answer::Found { marks, rows } => {
            put_found(alloc, schema, marks.as_slice(), rows.as_slice(), out)
        }
        Answer::Refreshed { marks } => {
            put_marks(alloc, schema, b"refreshed", marks.as_slice(), out)
        }
        Answer::LogFull { position } => put_counted(b"logfull", position.0, out),
        Answer::Busy { count } => put_counted(b"busy", *count, out),
        Answer::Worn => put_alone(b"worn", out),
        Answer::NotHere { kind } => put_nothere(*kind, out),
        Answer::NothingToDo { marks } => {
            put_marks(alloc, schema, b"nothing", marks.as_slice(), out)
        }
        Answer::NoHandler { queue } => put_nohandler(alloc, queue, out),
        Answer::Batched { position, results } => {
            put_rows(alloc, schema, b"batch", *position, results.as_slice(), out)
        }
        Answer::AllTurned { results } => {
            put_listed(alloc, schema, b"batch", b"none", results.as_slice(), out)
        }
    }
}

#[tactic(auto, using(mega_base::proofs::Keeps::keeps_front))]
fn put_alone(word: &[u8], out: &mut Bytes) -> Result<(), NoMemory>
    ensures ok { OnOk result (out.new ≡ out.old ++ spaced (word.now ∷ [])) }
    ensures err { OnErr result (take (length out.old) out.new ≡ out.old) }
{
    put_word(out, word)?;
    put_end(out)
}

#[tactic(auto, using(mega_base::proofs::Keeps::keeps_front))]
fn put_counted(word: &[u8], number: u64, out: &mut Bytes) -> Result<(), NoMemory>
    ensures ok { OnOk result (out.new ≡ out.old ++ spaced (word.now ∷ decimal number ∷ [])) }
    ensures err { OnErr result (take (length out.old) out.new ≡ out.old) }
{
    put_word(out, word)?;
    put_number(out, number)?;
    put_end(out)
}

/// A position and a list.
#[tactic(auto, using(mega_base::proofs::Keeps::keeps_front))]
fn put_rows<T: Show>(
    alloc: Global,
    schema: &Schema,
    word: &[u8],
    position: Position,
    rows: &[T],
    out: &mut Bytes,
) -> Result<(), NoMemory>
    ensures ok { OnOk result (out.new ≡ out.old ++ spaced (word.now ∷ position_word position ∷ compact_text (array (items_of (map (T.shows schema.now) rows.now))) ∷ [])) }
    ensures err { OnErr result (take (length out.old) out.new ≡ out.old) }
{
    put_word(out, word)?;
    put_position(out, position)?;
    put_list(alloc, schema, rows, out)?;
    put_end(out)
}

#[tactic(auto, using(mega_base::proofs::Keeps::keeps_front))]
fn put_marks(
    alloc: Global,
    schema: &Schema,
    word: &[u8],
    marks: &[Mark],
    out: &mut Bytes,
) -> Result<(), NoMemory>
    ensures ok { OnOk result (out.new ≡ out.old ++ spaced (word.now ∷ compact_text (marks_data marks.now) ∷ [])) }
    ensures err { OnErr result (take (length out.old) out.new ≡ out.old) }
{
    put_word(out, word)?;
    put_list(alloc, schema, marks, out)?;
    put_end(out)
}

#[tactic(auto, using(mega_base::proofs::Keeps::keeps_front))]
fn put_found(
    alloc: Global,
    schema: &Schema,
    marks: &[Mark],
    rows: &[Found],
    out: &mut Bytes,
) -> Result<(), NoMemory>
    ensures ok { OnOk result (out.new ≡ out.old ++ spaced (codes "found" ∷ compact_text (marks_data marks.now) ∷ compact_text (finds_data schema.now rows.now) ∷ [])) }
    ensures err { OnErr result (take (length out.old) out.new ≡ out.old) }
{
    put_word(out, b"found")?;
    put_list(alloc, schema, marks, out)?;
    put_list(alloc, schema, rows, out)?;
    put_end(out)
}

/// The operation whose entry stands at the position, or `none` for a no-op.
#[tactic(auto, using(mega_base::proofs::Keeps::keeps_front))]
fn put_conflict(position: Position, other: Option<OpId>, out: &mut Bytes) -> Result<(), NoMemory>
    ensures ok { OnOk result (out.new ≡ out.old ++ spaced (codes "conflict" ∷ position_word position ∷ other_word other ∷ [])) }
    ensures err { OnErr result (take (length out.old) out.new ≡ out.old) }
{
    put_word(out, b"conflict")?;
    put_position(out, position)?;
    put_other(other, out)?;
    put_end(out)
}

fn put_other(other: Option<OpId>, out: &mut Bytes) -> Result<(), NoMemory>
    ensures ok { OnOk result (out.new ≡ out.old ++ 32 ∷ other_word other) }
    ensures err { OnErr result (take (length out.old) out.new ≡ out.old) }
{
    match other {
        Some(op) => put_op(out, op),
        None => put_word(out, b"none"),
    }
}

#[tactic(auto, using(mega_base::proofs::Keeps::keeps_front))]
fn put_turned(turn: Turn, out: &mut Bytes) -> Result<(), NoMemory>
    ensures ok { OnOk result (out.new ≡ out.old ++ spaced (codes "turned" ∷ turn_word turn ∷ decimal (turn_number turn) ∷ [])) }
    ensures err { OnErr result (take (length out.old) out.new ≡ out.old) }
{
    put_word(out, b"turned")?;
    put_word(out, turn_word(turn).as_bytes())?;
    put_number(out, turn_number(turn))?;
    put_end(out)
}

#[tactic(auto, using(mega_base::proofs::Keeps::keeps_front))]
fn put_nothere(kind: NodeKind, out: &mut Bytes) -> Result<(), NoMemory>
    ensures ok { OnOk result (out.new ≡ out.old ++ spaced (codes "nothere" ∷ kind_word kind ∷ [])) }
    ensures err { OnErr result (take (length out.old) out.new ≡ out.old) }
{
    put_word(out, b"nothere")?;
    put_word(out, kind_word(kind))?;
    put_end(out)
}

/// The queue's name as a JSON string.
#[tactic(auto, using(mega_base::proofs::Keeps::keeps_front))]
fn put_nohandler(alloc: Global, queue: &Text, out: &mut Bytes) -> Result<(), NoMemory>
    ensures ok { OnOk result (out.new ≡ out.old ++ spaced (codes "nohandler" ∷ compact_text (string queue.now) ∷ [])) }
    ensures err { OnErr result (take (length out.old) out.new ≡ out.old) }
{
    let name = Json::try_from_str(alloc, queue.as_str())?;
    put_word(out, b"nohandler")?;
    put_json(alloc, &name, out)?;
    put_end(out)
}

/// Two words and a list.
#[tactic(auto, using(mega_base::proofs::Keeps::keeps_front))]
fn put_listed<T: Show>(
    alloc: Global,
    schema: &Schema,
    first: &[u8],
    second: &[u8],
    items: &[T],
    out: &mut Bytes,
) -> Result<(), NoMemory>
    ensures ok { OnOk result (out.new ≡ out.old ++ spaced (first.now ∷ second.now ∷ compact_text (array (items_of (map (T.shows schema.now) items.now))) ∷ [])) }
    ensures err { OnErr result (take (length out.old) out.new ≡ out.old) }
{
    put_word(out, first)?;
    put_word(out, second)?;
    put_list(alloc, schema, items, out)?;
    put_end(out)
}
