//! The entry that enters a message.
ghost use Rattle.std.specs.Prelude.{◌≡◌, IfOk};
ghost use Rattle.mega_rules.specs.Queues.{enter_entry};

use mega_base::{Copied, Items, NoMemory, OpId};
use mega_entry::{Content, Enter};
use std::alloc::Global;

/// The entry by which an operation enters a message.
pub fn enter_entry(alloc: Global, op: OpId, message: &Enter) -> Result<Content, NoMemory>
    ensures { IfOk result (λ made. made ≡ enter_entry op message.now) }
{
    let message = message.copy(alloc)?;
    let mut enters = Vec::new(alloc);
    enters.push(message)?;
    Ok(Content {
        id: Some(op),
        leader: op.node,
        writes: Items::new(alloc),
        sends: Items::new(alloc),
        enters: Items::from_vec(enters),
        handles: Items::new(alloc),
        cuts: Items::new(alloc),
    })
}
