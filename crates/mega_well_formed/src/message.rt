//! Whether a message may be written: each field is of its format.
ghost use Rattle.std.specs.Prelude.{◌≡◌, ◌↔◌, IsTrue};
ghost use Rattle.mega_base.specs.Codec.{IsBetween, IsNested, IsOption};
ghost use Rattle.mega_base.specs.Pairs.{IsPair};
ghost use Rattle.mega_base.specs.Names.{IsEpoch, IsGroup, IsNode, IsOp, IsPositionIn, IsString, IsU64};
ghost use Rattle.mega_ballot.specs.Ballots.{IsBallot};
ghost use Rattle.mega_entry.specs.Entries.{IsEntry, entry_text};
ghost use Rattle.mega_wire.specs.Messages.{IsBody, IsMessage, greatest_from, greatest_to, kind_of, least_from, least_to};

use crate::item::{LAST_POSITION, LONGEST, is_ballot, is_entry, is_place};
use mega_ballot::Ballot;
use mega_base::{Bytes, Epoch, GroupId, NodeId, OpId, Position};
use mega_entry::Entry;
use mega_wire::{Body, Message};

/// The latest reading of a clock.
const LATEST: u64 = 1_000_000_000_000;

/// Whether a message may name an operation: it always may.
fn is_op(op: OpId) -> bool
    ensures { IsTrue result ↔ IsOp op }
{
    let _op = op;
    true
}

/// Whether a message may name an operation and a group.
fn is_asked(op: OpId, group: &GroupId) -> bool
    ensures { IsTrue result ↔ (IsOp op × IsGroup group.now) }
{
    is_op(op) && group.key.len() <= LONGEST
}

/// Whether a message may name an operation, a group and the greatest position there, 0 for none.
fn is_top(op: OpId, group: &GroupId, position: Position) -> bool
    ensures { IsTrue result ↔ (IsOp op × (IsGroup group.now × IsPositionIn 0 1000000 position)) }
{
    is_op(op) && group.key.len() <= LONGEST && position.0 <= LAST_POSITION
}

/// Whether a message may name an operation, a group and a position.
fn is_asked_at(op: OpId, group: &GroupId, position: Position) -> bool
    ensures { IsTrue result ↔ (IsOp op × (IsGroup group.now × IsPositionIn 1 1000000 position)) }
{
    is_op(op) && is_place(group, position)
}

/// Whether a message may bring an entry under a ballot.
fn is_vote(op: OpId, group: &GroupId, position: Position, ballot: Ballot, entry: &Entry) -> bool
    ensures { IsTrue result ↔ (IsOp op × (IsGroup group.now × (IsPositionIn 1 1000000 position × (IsBallot ballot × IsNested 65536 entry_text IsEntry entry.now)))) }
{
    is_op(op) && is_place(group, position) && is_ballot(ballot) && is_entry(entry)
}

/// Whether a message may name a ballot for a position.
fn is_prepare(op: OpId, group: &GroupId, position: Position, ballot: Ballot) -> bool
    ensures { IsTrue result ↔ (IsOp op × (IsGroup group.now × (IsPositionIn 1 1000000 position × IsBallot ballot))) }
{
    is_op(op) && is_place(group, position) && is_ballot(ballot)
}

/// Whether an entry, if there is one, may be written.
fn is_other(entry: &Option<Entry>) -> bool
    ensures { IsTrue result ↔ IsOption (IsNested 65536 entry_text IsEntry) entry.now }
{
    match entry {
        Some(entry) => is_entry(entry),
        None => true,
    }
}

/// Whether a message may refuse a ballot.
fn is_refusal(
    op: OpId,
    group: &GroupId,
    position: Position,
    asked: Ballot,
    shown: Ballot,
    entry: &Option<Entry>,
) -> bool
    ensures { IsTrue result ↔ (IsOp op × (IsGroup group.now × (IsPositionIn 1 1000000 position × (IsBallot asked × (IsBallot shown × IsOption (IsNested 65536 entry_text IsEntry) entry.now))))) }
{
    is_prepare(op, group, position, asked) && is_ballot(shown) && is_other(entry)
}

/// Whether an entry that was accepted under a ballot, if one was, may be written.
fn is_accepted(accepted: &Option<(Ballot, Entry)>) -> bool
    ensures { IsTrue result ↔ IsOption (IsPair IsBallot (IsNested 65536 entry_text IsEntry)) accepted.now }
{
    match accepted {
        Some((ballot, entry)) => is_ballot(*ballot) && is_entry(entry),
        None => true,
    }
}

/// Whether a message may promise a ballot.
fn is_promise(
    op: OpId,
    group: &GroupId,
    position: Position,
    ballot: Ballot,
    accepted: &Option<(Ballot, Entry)>,
) -> bool
    ensures { IsTrue result ↔ (IsOp op × (IsGroup group.now × (IsPositionIn 1 1000000 position × (IsBallot ballot × IsOption (IsPair IsBallot (IsNested 65536 entry_text IsEntry)) accepted.now)))) }
{
    is_prepare(op, group, position, ballot) && is_accepted(accepted)
}

/// Whether a message may ask a cell about a node.
fn is_lock(op: OpId, cell: u8, node: NodeId) -> bool
    ensures { IsTrue result ↔ (IsOp op × (IsBetween 1 5 cell × IsNode node)) }
{
    is_op(op) && 1 <= cell && cell <= 5 && 1 <= node.0 && node.0 <= 9
}

/// Whether a message may tell of a decision.
fn is_decision(group: &GroupId, position: Position, entry: &Entry) -> bool
    ensures { IsTrue result ↔ (IsGroup group.now × (IsPositionIn 1 1000000 position × IsNested 65536 entry_text IsEntry entry.now)) }
{
    is_place(group, position) && is_entry(entry)
}

/// Whether a message may bring the entry of a position.
fn is_have(op: OpId, group: &GroupId, position: Position, entry: &Entry) -> bool
    ensures { IsTrue result ↔ (IsOp op × (IsGroup group.now × (IsPositionIn 1 1000000 position × IsNested 65536 entry_text IsEntry entry.now))) }
{
    is_op(op) && is_decision(group, position, entry)
}

/// Whether an epoch may be written: it always may.
fn is_epoch(epoch: Epoch) -> bool
    ensures { IsTrue result ↔ IsEpoch epoch }
{
    let _start = epoch.start;
    let _count = epoch.count;
    true
}

/// Whether a message may ask a cell for its lock, or grant it.
fn is_acquire(cell: u8, epoch: Epoch, clock: u64) -> bool
    ensures { IsTrue result ↔ (IsBetween 1 5 cell × (IsEpoch epoch × IsBetween 0 1000000000000 clock)) }
{
    1 <= cell && cell <= 5 && is_epoch(epoch) && clock <= LATEST
}

/// Whether a message may tell which epoch a cell granted.
fn is_past(cell: u8, asked: Epoch, greatest: Epoch) -> bool
    ensures { IsTrue result ↔ (IsBetween 1 5 cell × (IsEpoch asked × IsEpoch greatest)) }
{
    1 <= cell && cell <= 5 && is_epoch(asked) && is_epoch(greatest)
}

/// Whether a client's message may be written.
fn is_client(token: u64, text: &Bytes) -> bool
    ensures { IsTrue result ↔ (IsU64 token × IsString text.now) }
{
    let _token = token;
    text.len() <= LONGEST
}

/// Whether the fields of a message may be written.
fn is_body(body: &Body) -> bool
    ensures { IsTrue result ↔ IsBody body.now }
{
    match body {
        Body::Where { op, group } => is_asked(*op, group),
        Body::Top {
            op,
            group,
            position,
        } => is_top(*op, group, *position),
        Body::Accept {
            op,
            group,
            position,
            ballot,
            entry,
        } => is_vote(*op, group, *position, *ballot, entry),
        Body::Accepted {
            op,
            group,
            position,
            ballot,
            entry,
        } => is_vote(*op, group, *position, *ballot, entry),
        Body::Refused {
            op,
            group,
            position,
            asked,
            shown,
            entry,
        } => is_refusal(*op, group, *position, *asked, *shown, entry),
        Body::Prepare {
            op,
            group,
            position,
            ballot,
        } => is_prepare(*op, group, *position, *ballot),
        Body::Promise {
            op,
            group,
            position,
            ballot,
            accepted,
        } => is_promise(*op, group, *position, *ballot, accepted),
        Body::Invalidate {
            op,
            group,
            position,
        } => is_asked_at(*op, group, *position),
        Body::Invalidated {
            op,
            group,
            position,
        } => is_asked_at(*op, group, *position),
        Body::Dead { op, cell, node } => is_lock(*op, *cell, *node),
        Body::Held { op, cell, node } => is_lock(*op, *cell, *node),
        Body::Unheld { op, cell, node } => is_lock(*op, *cell, *node),
        Body::Decide {
            group,
            position,
            entry,
        } => is_decision(group, *position, entry),
        Body::Fetch {
            op,
            group,
            position,
        } => is_asked_at(*op, group, *position),
        Body::Have {
            op,
            group,
            position,
            entry,
        } => is_have(*op, group, *position, entry),
        Body::HaveNot {
            op,
            group,
            position,
        } => is_asked_at(*op, group, *position),
        Body::Acquire { cell, epoch, clock } => is_acquire(*cell, *epoch, *clock),
        Body::Granted { cell, epoch, clock } => is_acquire(*cell, *epoch, *clock),
        Body::Past {
            cell,
            asked,
            greatest,
        } => is_past(*cell, *asked, *greatest),
        Body::Request { token, json } => is_client(*token, json),
        Body::Reply { token, text } => is_client(*token, text),
    }
}

/// Whether a message may have this sender and this receiver: only a request comes from a client, numbered 0, and only a reply goes to one.
fn is_addressed(body: &Body, from: u8, to: u8) -> bool
    ensures { IsTrue result ↔ (IsBetween (least_from (kind_of body.now)) (greatest_from (kind_of body.now)) from × IsBetween (least_to (kind_of body.now)) (greatest_to (kind_of body.now)) to) }
{
    match body {
        Body::Request { .. } => from == 0 && 1 <= to && to <= 9,
        Body::Reply { .. } => 1 <= from && from <= 9 && to == 0,
        _ => 1 <= from && from <= 9 && 1 <= to && to <= 9,
    }
}

/// Whether a message may be written.
pub fn is_message(message: &Message) -> bool
    ensures { IsTrue result ↔ IsMessage message.now }
{
    is_addressed(&message.body, message.from, message.to) && is_body(&message.body)
}
