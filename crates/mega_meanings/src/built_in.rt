//! The handlers that the store brings, under the names of the queues that they serve.
ghost use Rattle.std.specs.Prelude.{◌≡◌};
ghost use Rattle.mega_handler.specs.Named.{meaning};
ghost use Rattle.mega_meanings.specs.BuiltIn.{built_in};

use crate::queue_handlers::QueueHandlers;
use mega_base::{Bytes, NoMemory, Row, Text};
use mega_entry::{Enter, Send, Write};
use mega_handler::{Copy, Credit, Handler};
use std::alloc::Global;

/// The property of `credit` that it never changes: the first, which is the key of a root row.
const KEY_PROPERTY: u8 = 1;

/// The handlers that the store brings: `credit` serves the queue `credit`, and `copy` the queue `copy`.
#[derive(Debug, Drop)]
pub struct BuiltIn {
    credit: Credit,
    copy: Copy,
}

impl BuiltIn {
    /// Handlers that have handled no message.
    pub fn new() -> BuiltIn
        ensures { ⟦<BuiltIn as QueueHandlers>⟧.meant result ≡ meaning built_in }
    {
        BuiltIn {
            credit: Credit::new(KEY_PROPERTY),
            copy: Copy::new(),
        }
    }
}

impl QueueHandlers for BuiltIn {
    ghost use Rattle.mega_handler.specs.Named.{meaning};
    ghost use Rattle.mega_meanings.specs.BuiltIn.{served_by};

    ghost meant = { λ handlers. meaning (served_by (⟦<Credit as Handler>⟧.effect handlers.credit) (⟦<Copy as Handler>⟧.effect handlers.copy)) };

    fn has(&self, queue: &Text) -> bool {
        "credit" == queue.as_str() || "copy" == queue.as_str()
    }

    fn handle(
        &mut self,
        alloc: Global,
        message: &Enter,
        rows: &[(Bytes, Row)],
    ) -> Result<Option<(Vec<Write>, Vec<Send>)>, NoMemory> {
        if "credit" == message.queue.as_str() {
            let made = self.credit.handle(alloc, message, rows)?;
            return Ok(Some(made));
        }
        if "copy" == message.queue.as_str() {
            let made = self.copy.handle(alloc, message, rows)?;
            return Ok(Some(made));
        }
        Ok(None)
    }
}
