//! What stands beside the marks of items.
ghost use Rattle.std.specs.Prelude.{◌≡◌, ◌++◌, OnOk, decimal};
ghost use Rattle.mega_picture.specs.Groups.{number_in};
ghost use Rattle.mega_picture.specs.Labels.{until_quote, value_behind, op_label, begin_label, answer_label, number_label, epoch_label, cell_label, place_label, unsent_label, cut_label, unsafe_label, label_of};

use crate::groups::Groups;
use crate::kinds::{kind_name, kind_of};
use mega_base::{Bytes, Epoch, GroupId, NoMemory, NodeId, OpId, Position};
use mega_transcript::Item;
use mega_wire::Message;
use std::alloc::Global;

/// What stands before the word that says what an operation does, in the text of its request.
const DOES: &[u8] = b"\"do\":\"";

/// What stands before the mode of a read.
const MODE: &[u8] = b"\"mode\":\"";

/// How many bytes stand before the words of an answer.
const ANSWER: usize = 7;

/// The bytes before the first quote.
#[tactic(auto, using(crate::proofs::Quoting::quote_on, crate::proofs::Quoting::quote_here, crate::proofs::Quoting::quote_end))]
fn until_quote(text: &[u8]) -> &[u8]
    ensures { result.now ≡ until_quote text.now }
{
    for (index, byte) in text.iter().enumerate() {
        if *byte == b'"' {
            let (front, _) = text.split_at(index);
            return front;
        }
    }
    text
}

/// The bytes behind a mark where it first stands, up to the next quote; none where it does not stand.
#[tactic(auto, using(crate::proofs::Quoting::value_on, crate::proofs::Quoting::value_here, crate::proofs::Quoting::value_end))]
fn value_behind<'a>(text: &'a [u8], mark: &[u8]) -> &'a [u8]
    ensures { result.now ≡ value_behind mark.now text.now }
{
    for index in 0..text.len() {
        let (_, rest) = text.split_at(index);
        if rest.starts_with(mark) {
            let (_, value) = rest.split_at(mark.len());
            return until_quote(value);
        }
    }
    &[]
}

/// Appends an operation and a blank.
fn put_op(alloc: Global, out: &mut Bytes, op: OpId) -> Result<(), NoMemory>
    ensures { OnOk result (out.new ≡ out.old ++ op_label op) }
{
    let node = op.node.0;
    let start = op.start;
    let number = op.number;
    let text = format!(in alloc; "{node}.{start}.{number} ")?;
    out.extend_from_slice(text.as_bytes())
}

/// Appends an operation that begins, what it does, and the mode of a read.
fn put_begin(alloc: Global, out: &mut Bytes, op: OpId, text: &[u8]) -> Result<(), NoMemory>
    ensures { OnOk result (out.new ≡ out.old ++ begin_label op text.now) }
{
    put_op(alloc, out, op)?;
    out.extend_from_slice(value_behind(text, DOES))?;
    out.extend_from_slice(b" ")?;
    out.extend_from_slice(value_behind(text, MODE))
}

/// Appends the words of an answer, with its operation.
fn put_answer(out: &mut Bytes, line: &[u8]) -> Result<(), NoMemory>
    ensures { OnOk result (out.new ≡ out.old ++ answer_label line.now) }
{
    if line.len() < ANSWER {
        return Ok(());
    }
    let (_, words) = line.split_at(ANSWER);
    out.extend_from_slice(words)
}

/// Appends a word and a number.
fn put_number(alloc: Global, out: &mut Bytes, name: &str, number: u64) -> Result<(), NoMemory>
    ensures { OnOk result (out.new ≡ out.old ++ number_label name.now number) }
{
    let text = format!(in alloc; "{name} {number}")?;
    out.extend_from_slice(text.as_bytes())
}

/// Appends a number alone.
fn put_plain(alloc: Global, out: &mut Bytes, number: u64) -> Result<(), NoMemory>
    ensures { OnOk result (out.new ≡ out.old ++ decimal number) }
{
    let text = format!(in alloc; "{number}")?;
    out.extend_from_slice(text.as_bytes())
}

/// Appends a word and an epoch.
fn put_epoch(alloc: Global, out: &mut Bytes, name: &str, epoch: Epoch) -> Result<(), NoMemory>
    ensures { OnOk result (out.new ≡ out.old ++ epoch_label name.now epoch) }
{
    let start = epoch.start;
    let count = epoch.count;
    let text = format!(in alloc; "{name} {start}.{count}")?;
    out.extend_from_slice(text.as_bytes())
}

/// Appends an epoch, and the node that it is of or goes to.
fn put_cell(
    alloc: Global,
    out: &mut Bytes,
    name: &str,
    epoch: Epoch,
    to: &str,
    node: NodeId,
) -> Result<(), NoMemory>
    ensures { OnOk result (out.new ≡ out.old ++ cell_label name.now epoch to.now node.0) }
{
    put_epoch(alloc, out, name, epoch)?;
    let node = node.0;
    let text = format!(in alloc; " {to} {node}")?;
    out.extend_from_slice(text.as_bytes())
}

/// Appends a group's number and a position.
fn put_place(
    alloc: Global,
    out: &mut Bytes,
    name: &str,
    groups: &Groups,
    group: &GroupId,
    position: Position,
) -> Result<(), NoMemory>
    ensures { OnOk result (out.new ≡ out.old ++ place_label name.now (number_in groups.now group.now.key) position.0) }
{
    let number = groups.number(group);
    let position = position.0;
    let text = format!(in alloc; "{name} g{number} {position}")?;
    out.extend_from_slice(text.as_bytes())
}

/// Appends that a message was not sent, its kind, and its receiver.
fn put_unsent(alloc: Global, out: &mut Bytes, message: &Message) -> Result<(), NoMemory>
    ensures { OnOk result (out.new ≡ out.old ++ unsent_label message.now) }
{
    let kind = kind_name(kind_of(&message.body));
    let to = message.to;
    let text = format!(in alloc; "unsent {kind} to {to}")?;
    out.extend_from_slice(text.as_bytes())
}

/// Appends that a drain was cut.
#[tactic(auto, unfolding(crate::specs::Labels::cut_label))]
fn put_cut_label(out: &mut Bytes) -> Result<(), NoMemory>
    ensures { OnOk result (out.new ≡ out.old ++ cut_label) }
{
    out.extend_from_slice(b"cut: the drain ends, and a message waits")
}

/// Appends that leases are not safe.
#[tactic(auto, unfolding(crate::specs::Labels::unsafe_label))]
fn put_unsafe_label(out: &mut Bytes) -> Result<(), NoMemory>
    ensures { OnOk result (out.new ≡ out.old ++ unsafe_label) }
{
    out.extend_from_slice(b"unsafe: leases are not safe from the line before on")
}

/// Appends what stands beside the mark of an item; its line is given for the words of an answer.
pub fn put_label(
    alloc: Global,
    out: &mut Bytes,
    groups: &Groups,
    item: &Item,
    line: &[u8],
) -> Result<(), NoMemory>
    ensures { OnOk result (out.new ≡ out.old ++ label_of groups.now line.now item.now) }
{
    match item {
        Item::Start { start, .. } => put_number(alloc, out, "start", u64::from(*start)),
        Item::Unsent { message, .. } => put_unsent(alloc, out, message),
        Item::Tick { now, .. } => put_number(alloc, out, "tick", *now),
        Item::Begin { op, text } => put_begin(alloc, out, *op, text.as_bytes()),
        Item::Taken { number } => put_plain(alloc, out, *number),
        Item::Dropped { number } => put_number(alloc, out, "dropped", *number),
        Item::Sent { .. } => Ok(()),
        Item::Grant { node, epoch, .. } => put_cell(alloc, out, "grant", *epoch, "to", *node),
        Item::Lapse { node, epoch, .. } => put_cell(alloc, out, "lapse", *epoch, "of", *node),
        Item::Counts { cell, .. } => put_number(alloc, out, "counts", u64::from(*cell)),
        Item::Forgets { cell, .. } => put_number(alloc, out, "forgets", u64::from(*cell)),
        Item::Serving { epoch, .. } => put_epoch(alloc, out, "serving", *epoch),
        Item::Lost { epoch, .. } => put_epoch(alloc, out, "lost", *epoch),
        Item::Valid {
            group,
            position,
            ..
        } => put_place(alloc, out, "valid", groups, group, *position),
        Item::Invalid {
            group,
            position,
            ..
        } => put_place(alloc, out, "invalid", groups, group, *position),
        Item::Decide {
            group,
            position,
            ..
        } => put_place(alloc, out, "decide", groups, group, *position),
        Item::Apply {
            group,
            position,
            ..
        } => put_place(alloc, out, "apply", groups, group, *position),
        Item::Answer { .. } => put_answer(out, line),
        Item::Crash { .. } => out.extend_from_slice(b"crash"),
        Item::Cut => put_cut_label(out),
        Item::Unsafe => put_unsafe_label(out),
    }
}
