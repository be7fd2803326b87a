//! The entry of an operation, and its answer once an entry is decided at its position.
ghost use Rattle.std.specs.Prelude.{◌≡◌, [], IfOk, Some};
ghost use Rattle.mega_operations.specs.Phases.{promised_of};
ghost use Rattle.mega_rules.specs.Acting.{committed, verdict};
ghost use Rattle.mega_wal.specs.Same.{same_op, same_option};

use mega_base::{Items, NoMemory, OpId, Position};
use mega_entry::{Content, Cut, Entry, Send, Write};
use mega_operations::Promised;
use mega_outcome::Answer;
use mega_propose::is_same_op;
use std::alloc::Global;

/// The entry of an operation that writes and sends.
pub fn own_entry(
    alloc: Global,
    op: OpId,
    writes: Items<Write>,
    sends: Items<Send>,
    cuts: Items<Cut>,
) -> Result<Entry, NoMemory>
    ensures { IfOk result (λ entry. entry ≡ record { id = Some op; leader = op.node; writes = writes; sends = sends; enters = []; handles = []; cuts = cuts }) }
{
    let content = Content {
        id: Some(op),
        leader: op.node,
        writes,
        sends,
        enters: Items::new(alloc),
        handles: Items::new(alloc),
        cuts,
    };
    Entry::new(alloc, content)
}

/// Whether this is the id of the operation.
fn is_own(id: Option<OpId>, op: OpId) -> bool
    ensures { result ≡ same_option same_op id (Some op) }
{
    match id {
        Some(id) => is_same_op(id, op),
        None => false,
    }
}

/// The answer of an operation whose own entry is decided at a position.
fn committed(position: u64, promised: Promised) -> Answer
    ensures { result ≡ committed position (promised_of promised) }
{
    let position = Position(position);
    match promised {
        Promised::Replies(replies) => Answer::Committed { position, replies },
        Promised::Results(results) => Answer::Batched { position, results },
    }
}

/// The answer of an operation at whose position an entry is decided: committed where that is its own.
pub fn verdict(op: OpId, position: u64, promised: Promised, entry: &Entry) -> Answer
    ensures { result ≡ verdict op position (promised_of promised) entry.now }
{
    let other = entry.content().id;
    if is_own(other, op) {
        return committed(position, promised);
    }
    Answer::Conflict {
        position: Position(position),
        other,
    }
}
