//! The entry by which an operation handles a queue message.
ghost use Rattle.std.specs.Prelude.{◌≡◌, ◌∷◌, [], nat_lt, length, IfOk};
ghost use Rattle.mega_base.specs.declared.names.OpId.{OpId as Op};
ghost use Rattle.mega_entry.specs.Entries.{entry_text};
ghost use Rattle.mega_index.specs.Fitted.{most_bytes};
ghost use Rattle.mega_handler.specs.Effects.{entry_handling, handle_entry, handled};
ghost use Rattle.mega_handler.specs.Named.{Meanings, effect_by, meaning};
ghost use Rattle.mega_meanings.specs.Means.{Means};
ghost use Rattle.mega_handler_entries.specs.Made.{made_by};

use crate::keeping::fitted_writes;
use crate::sending::fitted_sends;
use mega_base::{Bytes, Copied, GroupId, Items, NoMemory, OpId, Row};
use mega_entry::{Content, Enter, Name, Send, Write};
use mega_meanings::QueueHandlers;
use mega_outcome::lengths::{sends_length, sum, writes_length};
use mega_schema::Schema;
use std::alloc::Global;

/// The most bytes that an entry may have.
pub const MOST_BYTES: u64 = 32768;

/// The length of a group's key.
fn key_length(group: &GroupId) -> u64
    ensures { result ≡ length group.now.key }
{
    group.key.len() as u64
}

/// The length of the entry of an operation that handles a message with these.
fn entry_length(name: &Name, writes: &[Write], sends: &[Send]) -> Result<u64, NoMemory>
    ensures { IfOk result (λ n. (op : Op) → n ≡ length (entry_text (entry_handling op name.now (writes.now, sends.now)))) }
{
    let marked = sum(44, key_length(&name.group))?;
    let written = writes_length(writes)?;
    let sent = sends_length(sends)?;
    let made = sum(written, sent)?;
    let all = sum(marked, made)?;
    Ok(all)
}

/// Whether that entry would be too long.
fn is_long(name: &Name, writes: &[Write], sends: &[Send]) -> Result<bool, NoMemory>
    ensures { IfOk result (λ long. (op : Op) → long ≡ nat_lt most_bytes (length (entry_text (entry_handling op name.now (writes.now, sends.now))))) }
{
    Ok(MOST_BYTES < entry_length(name, writes, sends)?)
}

/// The mark of a message that is handled.
fn mark_of(alloc: Global, name: &Name) -> Result<Items<Name>, NoMemory>
    ensures { IfOk result (λ marks. marks ≡ name.now ∷ []) }
{
    let mut marks = Items::new(alloc);
    marks.push(name.copy(alloc)?)?;
    Ok(marks)
}

/// The entry of an operation with these writes, sends and handle marks.
fn entry_of(
    alloc: Global,
    op: OpId,
    handles: Items<Name>,
    writes: Vec<Write>,
    sends: Vec<Send>,
) -> Content
    ensures { (name : _) → handles ≡ name ∷ [] → result ≡ entry_handling op name (writes.items, sends.items) }
{
    Content {
        id: Some(op),
        leader: op.node,
        writes: Items::from_vec(writes),
        sends: Items::from_vec(sends),
        enters: Items::new(alloc),
        handles,
        cuts: Items::new(alloc),
    }
}

/// The entry by which an operation handles a message with these; the handle mark alone where that would be too long.
fn handle_entry(
    alloc: Global,
    op: OpId,
    name: &Name,
    writes: Vec<Write>,
    sends: Vec<Send>,
) -> Result<Content, NoMemory>
    ensures { IfOk result (λ entry. entry ≡ handle_entry op name.now (writes.items, sends.items)) }
{
    let marks = match mark_of(alloc, name) {
        Ok(marks) => marks,
        Err(refused) => {
            drop(writes);
            drop(sends);
            return Err(refused);
        }
    };
    match is_long(name, writes.as_slice(), sends.as_slice()) {
        Ok(true) => {
            drop(writes);
            drop(sends);
            Ok(entry_of(alloc, op, marks, Vec::new(alloc), Vec::new(alloc)))
        }
        Ok(false) => Ok(entry_of(alloc, op, marks, writes, sends)),
        Err(refused) => {
            drop(marks);
            drop(writes);
            drop(sends);
            Err(refused)
        }
    }
}

/// What of an effect is done.
fn handled(
    alloc: Global,
    schema: &Schema,
    group: &GroupId,
    rows: &[(Bytes, Row)],
    writes: Vec<Write>,
    sends: Vec<Send>,
) -> Result<(Vec<Write>, Vec<Send>), NoMemory>
    ensures { IfOk result (λ done. (done.0.items, done.1.items) ≡ handled schema.now group.now rows.now (writes.items, sends.items)) }
{
    let own = group.key.as_slice();
    let writes = match fitted_writes(alloc, schema, own, rows, writes) {
        Ok(writes) => writes,
        Err(refused) => {
            drop(sends);
            return Err(refused);
        }
    };
    match fitted_sends(alloc, schema, own, sends) {
        Ok(sends) => Ok((writes, sends)),
        Err(refused) => {
            drop(writes);
            Err(refused)
        }
    }
}

/// The entry by which an operation handles a message of this name with an effect over the rows of its group's tables.
fn entry_by(
    alloc: Global,
    schema: &Schema,
    op: OpId,
    group: &GroupId,
    name: &Name,
    rows: &[(Bytes, Row)],
    writes: Vec<Write>,
    sends: Vec<Send>,
) -> Result<Content, NoMemory>
    ensures { IfOk result (λ entry. entry ≡ handle_entry op name.now (handled schema.now group.now rows.now (writes.items, sends.items))) }
{
    let (writes, sends) = handled(alloc, schema, group, rows, writes, sends)?;
    let entry = handle_entry(alloc, op, name, writes, sends)?;
    Ok(entry)
}

/// What the handler of a message's queue makes of it, nothing where it has none.
fn effect_of<H: QueueHandlers>(
    alloc: Global,
    handlers: &mut H,
    message: &Enter,
    rows: &[(Bytes, Row)],
) -> Result<(Vec<Write>, Vec<Send>), NoMemory>
    ensures exact { IfOk result (λ made. (h : Meanings) → Means (H.meant handlers.old) h → (made.0.items, made.1.items) ≡ effect_by (meaning h message.now.queue) message.now rows.now) }
    ensures handlers { H.meant handlers.new ≡ H.meant handlers.old }
{
    match handlers.handle(alloc, message, rows)? {
        Some(made) => Ok(made),
        None => Ok((Vec::new(alloc), Vec::new(alloc))),
    }
}

/// The entry by which an operation handles a message of its group, over the rows of the group's tables, in order of key.
pub fn handling<H: QueueHandlers>(
    alloc: Global,
    schema: &Schema,
    handlers: &mut H,
    op: OpId,
    group: &GroupId,
    message: &Enter,
    rows: &[(Bytes, Row)],
) -> Result<Content, NoMemory>
    ensures exact { IfOk result (λ entry. (h : Meanings) → Means (H.meant handlers.old) h → entry ≡ made_by schema.now h op group.now message.now rows.now) }
    ensures handlers { H.meant handlers.new ≡ H.meant handlers.old }
{
    let (writes, sends) = effect_of(alloc, handlers, message, rows)?;
    let entry = entry_by(alloc, schema, op, group, &message.name, rows, writes, sends)?;
    Ok(entry)
}
