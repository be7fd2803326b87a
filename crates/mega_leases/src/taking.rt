//! A message is taken by the lock cell or the coordinator: what is noted and replied.
ghost use Rattle.std.specs.Prelude.{◌≡◌, ◌≢◌, true, false, ◌+◌, ◌≤◌, ◌^◌, ◌==◌, ◌&&◌, nat_le, ℕ, List, [], ◌∷◌, map, IfOk, OnOk, Err, None, if◌then◌else◌};
ghost use Rattle.mega_rules.specs.Met.{Invalidates, Met, Takes};
ghost use Rattle.mega_rules.specs.Members.{is_cell};
ghost use Rattle.mega_rules.specs.Locks.{held_answer, lock_answer};
ghost use Rattle.mega_rules.specs.Replies.{answer_to, where_served};
ghost use Rattle.mega_rules.specs.Steps.{onto, told_notes};
ghost use Rattle.mega_rules.specs.Operations.{Setting};
ghost use Rattle.mega_leases.specs.Notes.{met_of};
ghost use Rattle.mega_leases.specs.Taking.{IsByStranger, IsLate, IsNoNode, reply_of};
ghost use Rattle.mega_leases.specs.Tells.{Tells, TellsTaken};

use crate::fault::TakeFault;
use crate::leases::Leases;
use crate::note::LeaseNote;
use crate::noting::{counts_notes, grant_note, is_marked};
use mega_base::{Copied, Epoch, GroupId, Items, NoMemory, NodeId, OpId, Position};
use mega_locks::Asked;
use mega_wire::{Body, Message};
use std::alloc::Global;

/// What a message leads to: what the node notes, in order, and the reply where it asks the cell or the
/// coordinator.
#[derive(Debug, Drop)]
pub struct Reaction {
    pub notes: Items<LeaseNote>,
    pub reply: Option<Body>,
}

impl Reaction {
    /// Nothing is noted or replied.
    fn nothing(alloc: Global) -> Reaction
        ensures notes { result.notes ≡ [] }
        ensures reply { result.reply ≡ None }
    {
        Reaction {
            notes: Items::new(alloc),
            reply: None,
        }
    }
}

/// Whether no cluster has a node of this number.
fn is_no_node(node: u8) -> bool
    ensures no { result ≡ true → IsNoNode node }
    ensures least { result ≡ false → 1 ≤ node }
    ensures most { result ≡ false → node ≤ 9 }
{
    node < 1 || node > 9
}

/// The reply to a node that asked a cell for its lock.
fn lock_answer(cell: u8, epoch: Epoch, clock: u64, answer: Asked) -> Body
    ensures { result ≡ lock_answer cell epoch clock answer }
{
    match answer {
        Asked::Granted | Asked::Renewed => Body::Granted { cell, epoch, clock },
        Asked::GreaterHeld { epoch: greatest } | Asked::Over { epoch: greatest } => Body::Past {
            cell,
            asked: epoch,
            greatest,
        },
    }
}

/// The reply to a question whether a node holds its lock at a cell.
fn held_answer(op: OpId, cell: u8, node: NodeId, held: Option<Epoch>) -> Body
    ensures { result ≡ held_answer op cell node held }
{
    match held {
        Some(_) => Body::Held { op, cell, node },
        None => Body::Unheld { op, cell, node },
    }
}

impl Leases {
    /// Whether this is the cell that lives in the node.
    fn is_own(&self, cell: u8) -> bool
        ensures cell { (c me : _) (met : List Met) → Tells c me self.now met → result ≡ (cell == me && is_cell c me) }
        ensures noted { (c me : _) (met : List Met) → Tells c me self.now met → result ≡ (cell == me && nat_le me c.cells) }
    {
        cell == self.numbers.me && self.numbers.me <= self.numbers.cells
    }

    /// A node asks the cell for its lock.
    fn acquired(
        &mut self,
        alloc: Global,
        from: u8,
        cell: u8,
        epoch: Epoch,
        clock: u64,
    ) -> Result<Reaction, TakeFault>
        ensures notes { IfOk result (λ made. (s : Setting) (met : List Met) → Tells s.cluster s.me self.old met → map met_of made.notes ≡ told_notes s met from (Body.Acquire cell epoch clock)) }
        ensures reply { IfOk result (λ made. (c me : _) (met : List Met) → Tells c me self.old met → made.reply ≡ answer_to c me met from (Body.Acquire cell epoch clock)) }
        ensures state { OnOk result ((c me : _) (met : List Met) → Tells c me self.old met → TellsTaken c me self.new from (Body.Acquire cell epoch clock) met) }
        ensures stranger { result ≡ Err TakeFault.Stranger → IsNoNode from × (self.new ≡ self.old) }
        ensures timely { result ≢ Err TakeFault.Late }
    {
        if !self.is_own(cell) {
            return Ok(Reaction::nothing(alloc));
        }
        if is_no_node(from) {
            return Err(TakeFault::Stranger);
        }
        let node = NodeId(from);
        let answer = self.cell.ask(node, epoch, self.clock, self.numbers.keep);
        let notes = grant_note(alloc, node, epoch, answer)?;
        let reply = Some(lock_answer(cell, epoch, clock, answer));
        Ok(Reaction { notes, reply })
    }

    /// The cell is asked whether a node holds its lock there.
    fn asked(&self, alloc: Global, op: OpId, cell: u8, node: NodeId) -> Result<Reaction, TakeFault>
        ensures notes { IfOk result (λ made. made.notes ≡ []) }
        ensures reply { IfOk result (λ made. (c me : _) (met : List Met) (from : ℕ) → Tells c me self.now met → made.reply ≡ answer_to c me met from (Body.Dead op cell node)) }
        ensures stranger { result ≡ Err TakeFault.Stranger → IsNoNode node.0 }
        ensures timely { result ≢ Err TakeFault.Late }
    {
        if !self.is_own(cell) {
            return Ok(Reaction::nothing(alloc));
        }
        if is_no_node(node.0) {
            return Err(TakeFault::Stranger);
        }
        let held = self.cell.held(node);
        Ok(Reaction {
            notes: Items::new(alloc),
            reply: Some(held_answer(op, cell, node, held)),
        })
    }

    /// A cell granted this epoch to the node.
    fn granted(
        &mut self,
        alloc: Global,
        cell: u8,
        epoch: Epoch,
        clock: u64,
    ) -> Result<Reaction, TakeFault>
        ensures notes { IfOk result (λ made. (s : Setting) (met : List Met) (from : ℕ) → Tells s.cluster s.me self.old met → map met_of made.notes ≡ told_notes s met from (Body.Granted cell epoch clock)) }
        ensures reply { IfOk result (λ made. made.reply ≡ None) }
        ensures state { OnOk result ((c me : _) (met : List Met) (from : ℕ) → Tells c me self.old met → TellsTaken c me self.new from (Body.Granted cell epoch clock) met) }
        ensures late { result ≡ Err TakeFault.Late → ((c me : _) (met : List Met) → Tells c me self.old met → 2 ^ 64 ≤ clock + c.lease) × (self.new ≡ self.old) }
        ensures known { result ≢ Err TakeFault.Stranger }
    {
        if cell > self.numbers.cells {
            return Ok(Reaction::nothing(alloc));
        }
        let Some(until) = clock.checked_add(self.numbers.lease) else {
            return Err(TakeFault::Late);
        };
        let was_counted = is_marked(&self.coordinator.counted(), cell);
        let counted = self.coordinator.granted(cell, epoch, until, self.clock);
        if !self.numbers.full {
            return Ok(Reaction::nothing(alloc));
        }
        let notes = counts_notes(alloc, cell, epoch, was_counted, counted)?;
        Ok(Reaction { notes, reply: None })
    }

    /// A cell answered that this epoch is past.
    fn past(&mut self, cell: u8, epoch: Epoch)
        ensures { (c me : _) (met : List Met) (from : ℕ) (greatest : Epoch) → Tells c me self.old met → TellsTaken c me self.new from (Body.Past cell epoch greatest) met }
    {
        if cell > self.numbers.cells {
            return;
        }
        self.coordinator.past(epoch);
    }

    /// What a node notes and replies where its coordinator is told to make a group invalid.
    fn invalidation(
        &self,
        alloc: Global,
        op: OpId,
        group: &GroupId,
        position: Position,
    ) -> Result<Reaction, NoMemory>
        ensures notes { IfOk result (λ made. map met_of made.notes ≡ (if self.now.numbers.full then Invalidates group.now position.0 ∷ [] else [])) }
        ensures reply { IfOk result (λ made. made.reply ≡ where_served self.now.numbers.full (Body.Invalidated op group.now position)) }
    {
        if !self.numbers.full {
            return Ok(Reaction::nothing(alloc));
        }
        let mut notes = Items::new(alloc);
        let noted = group.copy(alloc)?;
        notes.push(LeaseNote::Invalidates {
            group: noted,
            position,
        })?;
        let group = group.copy(alloc)?;
        let reply = Some(Body::Invalidated {
            op,
            group,
            position,
        });
        Ok(Reaction { notes, reply })
    }

    /// The coordinator is told to make a group invalid.
    fn invalidated(
        &mut self,
        alloc: Global,
        op: OpId,
        group: &GroupId,
        position: Position,
    ) -> Result<Reaction, TakeFault>
        ensures notes { IfOk result (λ made. (s : Setting) (met : List Met) (from : ℕ) → Tells s.cluster s.me self.old met → map met_of made.notes ≡ told_notes s met from (Body.Invalidate op group.now position)) }
        ensures reply { IfOk result (λ made. (c me : _) (met : List Met) (from : ℕ) → Tells c me self.old met → made.reply ≡ answer_to c me met from (Body.Invalidate op group.now position)) }
        ensures state { OnOk result ((c me : _) (met : List Met) (from : ℕ) → Tells c me self.old met → TellsTaken c me self.new from (Body.Invalidate op group.now position) met) }
        ensures known { result ≢ Err TakeFault.Stranger }
        ensures timely { result ≢ Err TakeFault.Late }
    {
        let told = self.invalidation(alloc, op, group, position)?;
        self.coordinator.invalidate(group, position)?;
        Ok(told)
    }

    /// The node takes a message: what it notes of its cell and its coordinator, in order, and their reply.
    pub fn takes(&mut self, alloc: Global, message: &Message) -> Result<Reaction, TakeFault>
        ensures notes { IfOk result (λ made. (s : Setting) (met : List Met) → Tells s.cluster s.me self.old met → map met_of made.notes ≡ told_notes s met message.now.from message.now.body) }
        ensures reply { IfOk result (λ made. (c me : _) (met : List Met) → Tells c me self.old met → made.reply ≡ reply_of c me met message.now.from message.now.body) }
        ensures state { OnOk result ((s : Setting) (met : List Met) → Tells s.cluster s.me self.old met → Tells s.cluster s.me self.new (onto (told_notes s met message.now.from message.now.body) (Takes message.now ∷ met))) }
        ensures stranger { result ≡ Err TakeFault.Stranger → IsByStranger message.now.from message.now.body × (self.new ≡ self.old) }
        ensures late { result ≡ Err TakeFault.Late → ((c me : _) (met : List Met) → Tells c me self.old met → IsLate c message.now.body) × (self.new ≡ self.old) }
    {
        match &message.body {
            Body::Acquire { cell, epoch, clock } => {
                self.acquired(alloc, message.from, *cell, *epoch, *clock)
            }
            Body::Dead { op, cell, node } => self.asked(alloc, *op, *cell, *node),
            Body::Granted { cell, epoch, clock } => self.granted(alloc, *cell, *epoch, *clock),
            Body::Past { cell, asked, .. } => {
                self.past(*cell, *asked);
                Ok(Reaction::nothing(alloc))
            }
            Body::Invalidate {
                op,
                group,
                position,
            } => self.invalidated(alloc, *op, group, *position),
            _ => Ok(Reaction::nothing(alloc)),
        }
    }
}
