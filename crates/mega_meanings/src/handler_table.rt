//! Handlers of one type under the names of their queues: registered, replaced and removed at run time.
ghost use Rattle.std.specs.Prelude.{◌≡◌, ◌≢◌, [], is_some, ok_or, option_map, true, false, OnOk, OnErr, IfOk, Some, None, Ok, Err};
ghost use Rattle.std.specs.Ordering.{nat_cmp};
ghost use Rattle.std.specs.declared.cmp.Ordering.TheVariants.{Equal};
ghost use Rattle.std.specs.Cmp.Lexicographic.{slice_cmp};
ghost use Rattle.std.specs.BTreeMap.{get, Updates, IsUnchanged};
ghost use Rattle.mega_meanings.specs.Means.{Means};
ghost use Rattle.mega_meanings.specs.Tables.{made_in, spelled};

use crate::queue_handlers::QueueHandlers;
use mega_base::{Bytes, NoMemory, Row, Text};
use mega_entry::{Enter, Send, Write};
use mega_handler::Handler;
use std::alloc::Global;
use std::collections::BTreeMap;
use std::mem;

/// Why a handler was not registered; it comes back as it was.
#[derive(Debug, Drop)]
pub enum TableFault<B> {
    /// The queue has a handler.
    Present(B),
    /// An allocation was refused.
    NoMemory(B),
}

/// Handlers of one type under the names of their queues.
#[derive(Drop)]
pub struct HandlerTable<B> {
    /// The handler of each queue that has one.
    pub named: BTreeMap<Text, B>,
}

impl<B: Handler> HandlerTable<B> {
    /// No handlers.
    pub fn new(alloc: Global) -> HandlerTable<B>
        ensures { result.named.entries ≡ [] }
    {
        HandlerTable {
            named: BTreeMap::new(alloc),
        }
    }

    /// Gives a queue that has no handler this one.
    pub fn register(&mut self, queue: Text, handler: B) -> Result<(), TableFault<B>>
        ensures ok { OnOk result (Updates (slice_cmp nat_cmp) self.old.named self.new.named queue (Some handler)) }
        ensures present { is_some (get (slice_cmp nat_cmp) self.old.named queue) ≡ true → result ≡ Err (TableFault.Present handler) }
        ensures memory { is_some (get (slice_cmp nat_cmp) self.old.named queue) ≡ false → OnErr result (result ≡ Err (TableFault.NoMemory handler)) }
        ensures left { OnErr result (IsUnchanged self.old.named self.new.named) }
    {
        if self.named.contains_key(&queue) {
            return Err(TableFault::Present(handler));
        }
        match self.named.insert(queue, handler) {
            Ok(_) => Ok(()),
            Err(refused) => {
                let (_, handler) = refused.value;
                Err(TableFault::NoMemory(handler))
            }
        }
    }

    /// Gives a queue another handler, and hands back the one that it had; where it had none, this one comes back.
    pub fn replace(&mut self, queue: &Text, handler: B) -> Result<B, B>
        ensures handed_back { result ≡ ok_or (get (slice_cmp nat_cmp) self.old.named queue.now) handler }
        ensures ok { OnOk result (Updates (slice_cmp nat_cmp) self.old.named self.new.named queue.now (Some handler)) }
        ensures left { OnErr result (IsUnchanged self.old.named self.new.named) }
    {
        match self.named.get_mut(queue) {
            Some(slot) => Ok(mem::replace(slot, handler)),
            None => Err(handler),
        }
    }

    /// Takes a queue's handler away, and hands it back.
    pub fn remove(&mut self, queue: &Text) -> Option<B>
        ensures handed_back { result ≡ get (slice_cmp nat_cmp) self.old.named queue.now }
        ensures gone { Updates (slice_cmp nat_cmp) self.old.named self.new.named queue.now None }
    {
        self.named.remove(queue)
    }

    /// How many messages the queue's handler has handled.
    pub fn served(&self, queue: &Text) -> Option<u64>
        ensures { result ≡ option_map B.count (get (slice_cmp nat_cmp) self.now.named queue.now) }
    {
        match self.named.get(queue) {
            Some(handler) => Some(handler.served()),
            None => None,
        }
    }

    /// What the handler of the message's queue makes of it over the rows of its group's tables, which are in
    /// order of key; none where the queue has no handler. No other queue changes.
    fn handle_in(
        &mut self,
        alloc: Global,
        message: &Enter,
        rows: &[(Bytes, Row)],
    ) -> Result<Option<(Vec<Write>, Vec<Send>)>, NoMemory>
        ensures exact { IfOk result (λ made. option_map (λ m. (m.0.items, m.1.items)) made ≡ option_map (λ handler. B.effect handler message.now rows.now) (get (slice_cmp nat_cmp) self.old.named message.now.queue)) }
        ensures same { option_map B.effect (get (slice_cmp nat_cmp) self.new.named message.now.queue) ≡ option_map B.effect (get (slice_cmp nat_cmp) self.old.named message.now.queue) }
        ensures others { (queue : _) → slice_cmp nat_cmp message.now.queue queue ≢ Equal → get (slice_cmp nat_cmp) self.new.named queue ≡ get (slice_cmp nat_cmp) self.old.named queue }
    {
        match self.named.get_mut(&message.queue) {
            Some(handler) => Ok(Some(handler.handle(alloc, message, rows)?)),
            None => Ok(None),
        }
    }
}

impl<B: Handler> QueueHandlers for HandlerTable<B> {
    ghost use Rattle.mega_meanings.specs.Tables.{made_in};

    ghost meant = { λ table queue. made_in B.effect table.named queue };

    fn has(&self, queue: &Text) -> bool {
        self.named.contains_key(queue)
    }

    fn handle(
        &mut self,
        alloc: Global,
        message: &Enter,
        rows: &[(Bytes, Row)],
    ) -> Result<Option<(Vec<Write>, Vec<Send>)>, NoMemory> {
        self.handle_in(alloc, message, rows)
    }
}

/// What a table of handlers makes of messages is what it spells: there always is a list of meanings that it has.
#[tactic(auto, using(crate::proofs::Tabled::spelled_means))]
pub fn tables_mean_what_they_spell<B: Handler>(table: &HandlerTable<B>)
    ensures { Means (made_in B.effect table.now.named) (spelled B.effect table.now.named) }
{
    let _table = table;
}
