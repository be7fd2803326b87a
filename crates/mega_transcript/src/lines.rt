//! Writes the line of an item, with the names of the schema.
ghost use Rattle.std.specs.Prelude.{◌≡◌, ◌++◌, ◌∷◌, [], length, take, codes, decimal, OnOk, OnErr};
ghost use Rattle.hex.specs.Hex.{encode_lower};
ghost use Rattle.mega_entry.specs.Entries.{IsEntry, entry_text};
ghost use Rattle.mega_wire.specs.Messages.{IsMessage};
ghost use Rattle.mega_transcript.specs.Words.{spaced, node_word, position_word, epoch_word, op_word, group_word};
ghost use Rattle.mega_transcript.specs.Answers.{answer_words};
ghost use Rattle.mega_transcript.specs.Lines.{kind_name, message_words, line, HasLine};

use crate::answers::put_answer;
use crate::item::Item;
use crate::words::{
    put_end, put_epoch, put_first, put_group, put_hex, put_node, put_number, put_op, put_position,
    put_word,
};
use mega_base::{Bytes, Epoch, GroupId, NoMemory, NodeId, OpId, Position, Text};
use mega_entry::Entry;
use mega_outcome::Answer;
use mega_schema::Schema;
use mega_wire::{Body, Message};
use std::alloc::Global;

/// How many bytes few messages and entries exceed.
const USUAL_BYTES: usize = 128;

/// Appends the line of an item, with the names of the schema, and its line feed. Cells of rows that
/// do not fit the schema are left out. A refusal leaves `out`.
pub fn text(alloc: Global, schema: &Schema, item: &Item, out: &mut Bytes) -> Result<(), NoMemory>
    requires { HasLine item.now }
    ensures ok { OnOk result (out.new ≡ out.old ++ line schema.now item.now) }
    ensures err { OnErr result (out.new ≡ out.old) }
{
    let before = out.len();
    if let Err(refused) = put_line(alloc, schema, item, out) {
        out.truncate(before);
        return Err(refused);
    }
    Ok(())
}

/// Appends the line of an item. A refusal may leave a part of it in `out`.
fn put_line(alloc: Global, schema: &Schema, item: &Item, out: &mut Bytes) -> Result<(), NoMemory>
    requires { HasLine item.now }
    ensures ok { OnOk result (out.new ≡ out.old ++ line schema.now item.now) }
    ensures err { OnErr result (take (length out.old) out.new ≡ out.old) }
{
    match item {
        Item::Start { node, start } => put_count_at(out, b"start", *node, u64::from(*start)),
        Item::Unsent { node, message } => put_unsent(alloc, out, *node, message),
        Item::Tick { node, now } => put_count_at(out, b"tick", *node, *now),
        Item::Begin { op, text } => put_begin(out, *op, text),
        Item::Taken { number } => put_numbered(out, b"taken", *number),
        Item::Dropped { number } => put_numbered(out, b"dropped", *number),
        Item::Sent { number, message } => put_sent(alloc, out, *number, message),
        Item::Grant { cell, node, epoch } => put_of_cell(out, b"grant", *cell, *node, *epoch),
        Item::Lapse { cell, node, epoch } => put_of_cell(out, b"lapse", *cell, *node, *epoch),
        Item::Counts { node, cell, epoch } => put_of_node(out, b"counts", *node, *cell, *epoch),
        Item::Forgets { node, cell, epoch } => put_of_node(out, b"forgets", *node, *cell, *epoch),
        Item::Serving { node, epoch } => put_epoch_at(out, b"serving", *node, *epoch),
        Item::Lost { node, epoch } => put_epoch_at(out, b"lost", *node, *epoch),
        Item::Valid {
            node,
            group,
            position,
        } => put_place(alloc, out, b"valid", *node, group, *position),
        Item::Invalid {
            node,
            group,
            position,
        } => put_place(alloc, out, b"invalid", *node, group, *position),
        Item::Decide {
            node,
            group,
            position,
            entry,
        } => put_decide(alloc, out, *node, group, *position, entry),
        Item::Apply {
            node,
            group,
            position,
        } => put_place(alloc, out, b"apply", *node, group, *position),
        Item::Answer { op, answer } => put_answered(alloc, schema, *op, answer, out),
        Item::Crash { node } => put_numbered(out, b"crash", u64::from(node.0)),
        Item::Cut => put_alone(out, b"cut"),
        Item::Unsafe => put_alone(out, b"unsafe"),
    }
}

/// A line of one word.
#[tactic(auto, using(mega_base::proofs::Keeps::keeps_front))]
fn put_alone(out: &mut Bytes, word: &[u8]) -> Result<(), NoMemory>
    ensures ok { OnOk result (out.new ≡ out.old ++ (word.now ++ spaced [])) }
    ensures err { OnErr result (take (length out.old) out.new ≡ out.old) }
{
    put_first(out, word)?;
    put_end(out)
}

/// A line with a number.
#[tactic(auto, using(mega_base::proofs::Keeps::keeps_front))]
fn put_numbered(out: &mut Bytes, word: &[u8], number: u64) -> Result<(), NoMemory>
    ensures ok { OnOk result (out.new ≡ out.old ++ (word.now ++ spaced (decimal number ∷ []))) }
    ensures err { OnErr result (take (length out.old) out.new ≡ out.old) }
{
    put_first(out, word)?;
    put_number(out, number)?;
    put_end(out)
}

/// A line of a node, with a number.
#[tactic(auto, using(mega_base::proofs::Keeps::keeps_front))]
fn put_count_at(out: &mut Bytes, word: &[u8], node: NodeId, number: u64) -> Result<(), NoMemory>
    ensures ok { OnOk result (out.new ≡ out.old ++ (word.now ++ spaced (node_word node ∷ decimal number ∷ []))) }
    ensures err { OnErr result (take (length out.old) out.new ≡ out.old) }
{
    put_first(out, word)?;
    put_node(out, node)?;
    put_number(out, number)?;
    put_end(out)
}

/// The line of an operation that began.
#[tactic(auto, using(mega_base::proofs::Keeps::keeps_front))]
fn put_begin(out: &mut Bytes, op: OpId, text: &Text) -> Result<(), NoMemory>
    ensures ok { OnOk result (out.new ≡ out.old ++ (codes "begin" ++ spaced (op_word op ∷ text.now ∷ []))) }
    ensures err { OnErr result (take (length out.old) out.new ≡ out.old) }
{
    put_first(out, b"begin")?;
    put_op(out, op)?;
    put_word(out, text.as_bytes())?;
    put_end(out)
}

/// The line of an operation that ended.
#[tactic(auto, using(mega_base::proofs::Keeps::keeps_front))]
fn put_answered(
    alloc: Global,
    schema: &Schema,
    op: OpId,
    answer: &Answer,
    out: &mut Bytes,
) -> Result<(), NoMemory>
    ensures ok { OnOk result (out.new ≡ out.old ++ (codes "answer" ++ spaced (op_word op ∷ answer_words schema.now answer.now))) }
    ensures err { OnErr result (take (length out.old) out.new ≡ out.old) }
{
    put_first(out, b"answer")?;
    put_op(out, op)?;
    put_answer(alloc, schema, answer, out)
}

/// A line of a lock cell, for a node and an epoch.
#[tactic(auto, using(mega_base::proofs::Keeps::keeps_front))]
fn put_of_cell(
    out: &mut Bytes,
    word: &[u8],
    cell: u8,
    node: NodeId,
    epoch: Epoch,
) -> Result<(), NoMemory>
    ensures ok { OnOk result (out.new ≡ out.old ++ (word.now ++ spaced (decimal cell ∷ node_word node ∷ epoch_word epoch ∷ []))) }
    ensures err { OnErr result (take (length out.old) out.new ≡ out.old) }
{
    put_first(out, word)?;
    put_number(out, u64::from(cell))?;
    put_node(out, node)?;
    put_epoch(out, epoch)?;
    put_end(out)
}

/// A line of a node, for a lock cell and an epoch.
#[tactic(auto, using(mega_base::proofs::Keeps::keeps_front))]
fn put_of_node(
    out: &mut Bytes,
    word: &[u8],
    node: NodeId,
    cell: u8,
    epoch: Epoch,
) -> Result<(), NoMemory>
    ensures ok { OnOk result (out.new ≡ out.old ++ (word.now ++ spaced (node_word node ∷ decimal cell ∷ epoch_word epoch ∷ []))) }
    ensures err { OnErr result (take (length out.old) out.new ≡ out.old) }
{
    put_first(out, word)?;
    put_node(out, node)?;
    put_number(out, u64::from(cell))?;
    put_epoch(out, epoch)?;
    put_end(out)
}

/// A line of a node, for an epoch.
#[tactic(auto, using(mega_base::proofs::Keeps::keeps_front))]
fn put_epoch_at(out: &mut Bytes, word: &[u8], node: NodeId, epoch: Epoch) -> Result<(), NoMemory>
    ensures ok { OnOk result (out.new ≡ out.old ++ (word.now ++ spaced (node_word node ∷ epoch_word epoch ∷ []))) }
    ensures err { OnErr result (take (length out.old) out.new ≡ out.old) }
{
    put_first(out, word)?;
    put_node(out, node)?;
    put_epoch(out, epoch)?;
    put_end(out)
}

/// Appends the first word, a node, a group and a position.
#[tactic(auto, using(mega_base::proofs::Keeps::keeps_front))]
fn put_place_words(
    alloc: Global,
    out: &mut Bytes,
    word: &[u8],
    node: NodeId,
    group: &GroupId,
    position: Position,
) -> Result<(), NoMemory>
    ensures ok { OnOk result (out.new ≡ out.old ++ (word.now ++ ((32 ∷ node_word node) ++ ((32 ∷ group_word group.now) ++ (32 ∷ position_word position))))) }
    ensures err { OnErr result (take (length out.old) out.new ≡ out.old) }
{
    put_first(out, word)?;
    put_node(out, node)?;
    put_group(alloc, out, group)?;
    put_position(out, position)
}

/// A line of a node, for a position of a group.
#[tactic(auto, using(mega_base::proofs::Keeps::keeps_front))]
fn put_place(
    alloc: Global,
    out: &mut Bytes,
    word: &[u8],
    node: NodeId,
    group: &GroupId,
    position: Position,
) -> Result<(), NoMemory>
    ensures ok { OnOk result (out.new ≡ out.old ++ (word.now ++ spaced (node_word node ∷ group_word group.now ∷ position_word position ∷ []))) }
    ensures err { OnErr result (take (length out.old) out.new ≡ out.old) }
{
    put_place_words(alloc, out, word, node, group, position)?;
    put_end(out)
}

/// The line of a decided entry.
#[tactic(auto, using(mega_base::proofs::Keeps::keeps_front))]
fn put_decide(
    alloc: Global,
    out: &mut Bytes,
    node: NodeId,
    group: &GroupId,
    position: Position,
    entry: &Entry,
) -> Result<(), NoMemory>
    requires { IsEntry entry.now }
    ensures ok { OnOk result (out.new ≡ out.old ++ (codes "decide" ++ spaced (node_word node ∷ group_word group.now ∷ position_word position ∷ encode_lower (entry_text entry.now) ∷ []))) }
    ensures err { OnErr result (take (length out.old) out.new ≡ out.old) }
{
    put_place_words(alloc, out, b"decide", node, group, position)?;
    put_entry(alloc, out, entry)?;
    put_end(out)
}

fn put_entry(alloc: Global, out: &mut Bytes, entry: &Entry) -> Result<(), NoMemory>
    requires { IsEntry entry.now }
    ensures ok { OnOk result (out.new ≡ out.old ++ 32 ∷ encode_lower (entry_text entry.now)) }
    ensures err { OnErr result (take (length out.old) out.new ≡ out.old) }
{
    let mut bytes = Bytes::from_vec(Vec::with_capacity(alloc, USUAL_BYTES)?);
    mega_entry::encode(entry, &mut bytes)?;
    put_hex(alloc, out, bytes.as_slice())
}

/// Appends the name of a message's kind and the message in hex, and ends the line.
#[tactic(auto, using(mega_base::proofs::Keeps::keeps_front))]
fn put_message(alloc: Global, out: &mut Bytes, message: &Message) -> Result<(), NoMemory>
    requires { IsMessage message.now }
    ensures ok { OnOk result (out.new ≡ out.old ++ spaced (message_words message.now)) }
    ensures err { OnErr result (take (length out.old) out.new ≡ out.old) }
{
    let mut bytes = Bytes::from_vec(Vec::with_capacity(alloc, USUAL_BYTES)?);
    mega_wire::encode(message, &mut bytes)?;
    put_word(out, kind_name(&message.body))?;
    put_hex(alloc, out, bytes.as_slice())?;
    put_end(out)
}

/// The line of a message that was made and not sent.
#[tactic(auto, using(mega_base::proofs::Keeps::keeps_front))]
fn put_unsent(
    alloc: Global,
    out: &mut Bytes,
    node: NodeId,
    message: &Message,
) -> Result<(), NoMemory>
    requires { IsMessage message.now }
    ensures ok { OnOk result (out.new ≡ out.old ++ (codes "unsent" ++ spaced (node_word node ∷ message_words message.now))) }
    ensures err { OnErr result (take (length out.old) out.new ≡ out.old) }
{
    put_first(out, b"unsent")?;
    put_node(out, node)?;
    put_message(alloc, out, message)
}

/// The line of a message that was sent.
#[tactic(auto, using(mega_base::proofs::Keeps::keeps_front))]
fn put_sent(alloc: Global, out: &mut Bytes, number: u64, message: &Message) -> Result<(), NoMemory>
    requires { IsMessage message.now }
    ensures ok { OnOk result (out.new ≡ out.old ++ (codes "sent" ++ spaced (decimal number ∷ decimal message.now.from ∷ decimal message.now.to ∷ message_words message.now))) }
    ensures err { OnErr result (take (length out.old) out.new ≡ out.old) }
{
    put_first(out, b"sent")?;
    put_number(out, number)?;
    put_number(out, u64::from(message.from))?;
    put_number(out, u64::from(message.to))?;
    put_message(alloc, out, message)
}

/// The name of the kind of a message.
fn kind_name(body: &Body) -> &'static [u8]
    ensures { result.now ≡ kind_name body.now }
{
    match body {
        Body::Where { .. } => b"where",
        Body::Top { .. } => b"top",
        Body::Accept { .. } => b"accept",
        Body::Accepted { .. } => b"accepted",
        Body::Refused { .. } => b"refused",
        Body::Prepare { .. } => b"prepare",
        Body::Promise { .. } => b"promise",
        Body::Invalidate { .. } => b"invalidate",
        Body::Invalidated { .. } => b"invalidated",
        Body::Dead { .. } => b"dead",
        Body::Held { .. } => b"held",
        Body::Unheld { .. } => b"unheld",
        Body::Decide { .. } => b"decide",
        Body::Fetch { .. } => b"fetch",
        Body::Have { .. } => b"have",
        Body::HaveNot { .. } => b"havenot",
        Body::Acquire { .. } => b"acquire",
        Body::Granted { .. } => b"granted",
        Body::Past { .. } => b"past",
        Body::Request { .. } => b"request",
        Body::Reply { .. } => b"reply",
    }
}
