//! What serves the messages of a node's queues.
ghost use Rattle.std.specs.Prelude.{◌≡◌, ℕ, IfOk, List, Option, is_some, option_map};
ghost use Rattle.mega_handler.specs.Named.{Meaning};

use mega_base::{Bytes, NoMemory, Row, Text};
use mega_entry::{Enter, Send, Write};
use std::alloc::Global;

/// What serves the messages of a node's queues, by the queues' names.
pub trait QueueHandlers {
    /// What the handler of a queue makes of messages and the rows of their groups; none where it has no handler.
    ghost meant: { Self → List ℕ → Option Meaning };

    /// Whether the queue has a handler.
    fn has(&self, queue: &Text) -> bool
        ensures { result ≡ is_some (meant self.now queue.now) };

    /// What the handler of the message's queue makes of it over the rows of its group's tables, which are in
    /// order of key; none where the queue has no handler.
    fn handle(
        &mut self,
        alloc: Global,
        message: &Enter,
        rows: &[(Bytes, Row)],
    ) -> Result<Option<(Vec<Write>, Vec<Send>)>, NoMemory>
        ensures exact { IfOk result (λ made. option_map (λ m. (m.0.items, m.1.items)) made ≡ option_map (λ makes. makes message.now rows.now) (meant self.old message.now.queue)) }
        ensures same { meant self.new ≡ meant self.old };
}
