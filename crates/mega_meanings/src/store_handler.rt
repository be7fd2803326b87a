//! The handlers that the store brings, as one type.
use mega_base::{Bytes, NoMemory, Row};
use mega_entry::{Enter, Send, Write};
use mega_handler::{Copy, Credit, Handler};
use std::alloc::Global;

/// One of the handlers that the store brings.
#[derive(Debug, Drop)]
pub enum StoreHandler {
    /// Adds the amount in a payload to a property of a row.
    Credit(Credit),
    /// Makes the one write that a payload spells.
    Copy(Copy),
}

impl Handler for StoreHandler {
    ghost use Rattle.mega_meanings.specs.Stores.{by_kind};

    ghost effect = { by_kind ⟦<Credit as Handler>⟧.effect ⟦<Copy as Handler>⟧.effect };

    ghost count = { by_kind ⟦<Credit as Handler>⟧.count ⟦<Copy as Handler>⟧.count };

    fn handle(
        &mut self,
        alloc: Global,
        message: &Enter,
        rows: &[(Bytes, Row)],
    ) -> Result<(Vec<Write>, Vec<Send>), NoMemory> {
        match self {
            StoreHandler::Credit(handler) => handler.handle(alloc, message, rows),
            StoreHandler::Copy(handler) => handler.handle(alloc, message, rows),
        }
    }

    fn served(&self) -> u64 {
        match self {
            StoreHandler::Credit(handler) => handler.served(),
            StoreHandler::Copy(handler) => handler.served(),
        }
    }
}
