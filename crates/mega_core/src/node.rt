//! A node of a cluster, and the step of each event.
ghost use Rattle.std.specs.Prelude.{◌≡◌, ◌≢◌, List, map, true, false, IfOk, OnOk, Err};
ghost use Rattle.mega_handler.specs.Named.{Meanings};
ghost use Rattle.mega_step_parts.specs.of_leases.Taking.{IsByStranger, IsLate};
ghost use Rattle.mega_rules.specs.Met.{Met};
ghost use Rattle.mega_rules.specs.Operations.{Node as RuleNode};
ghost use Rattle.mega_rules.specs.Steps.{Begin, Take, Tick, step};
ghost use Rattle.mega_replica.specs.Used.{StoreUsed};
ghost use Rattle.mega_actions.specs.of_step_work.Servable.{is_served};
ghost use Rattle.mega_actions.specs.IsAt.{setting_of};
ghost use Rattle.mega_node_events.specs.declared.fault.StepFault.TheVariants.{Late, Stranger, Unserved};
ghost use Rattle.mega_node_events.specs.Faults.{failed_by};
ghost use Rattle.mega_step_parts.specs.Notes.{met_of};
ghost use Rattle.mega_step_parts.specs.Staging.{Stages};
ghost use Rattle.mega_core.specs.Standing.{StandsFor};
ghost use Rattle.mega_core.specs.Stepping.{AtEach, IsStrange, IsTooLate, IsUnserved};
ghost use Rattle.mega_step_parts.specs.Events.{event_of};

use mega_actions::Replica;
use mega_base::{Copied, GroupId, Items, Text};
use mega_disk::{Records, Versions};
use mega_lag::{behind, watched};
use mega_meanings::QueueHandlers;
use mega_node_events::{Arrival, StepFault, Ticked, acts, acts_ticked, takes, ticks};
use mega_outcome::Request;
use mega_step_parts::mega_operations::Operation;
use mega_step_parts::{Event, Step, all_hear, begun_groups, touched};
use mega_wire::Message;
use std::alloc::Global;
use std::collections::BTreeSet;
use std::mem;

/// A node of a cluster, of any kind, from a start of it on: what it keeps, its open operations in order of begin, and the groups
/// of which it may not have applied all that is decided.
#[derive(Drop)]
pub struct Node<R: Records, V: Versions> {
    pub replica: Replica<R, V>,
    pub open: Items<Operation>,
    pub begun: u32,
    pub lagging: BTreeSet<GroupId>,
}

impl<R: Records, V: Versions> Node<R, V> {
    /// The node takes a message.
    fn take<H: QueueHandlers>(
        &mut self,
        alloc: Global,
        handlers: &mut H,
        message: &Message,
    ) -> Result<Step, StepFault>
        ensures notes { V.is_told ≡ true → IfOk result (λ made. AtEach V.version (H.meant handlers.old) self.old (Take message.now) (λ h s node. map met_of made.notes ≡ (step s node (Take message.now)).notes)) }
        ensures sends { V.is_told ≡ true → IfOk result (λ made. AtEach V.version (H.meant handlers.old) self.old (Take message.now) (λ h s node. made.sends ≡ (step s node (Take message.now)).sends)) }
        ensures state { V.is_told ≡ true → OnOk result (AtEach V.version (H.meant handlers.old) self.old (Take message.now) (λ h s node. StandsFor V.version h self.new (step s node (Take message.now)).node)) }
        ensures staged { V.is_told ≡ true → OnOk result (AtEach V.version (H.meant handlers.old) self.old (Take message.now) (λ h s node. (before : List Met) → Stages self.old.replica.voter.logs.staged.items before node.met → Stages self.new.replica.voter.logs.staged.items before (step s node (Take message.now)).node.met)) }
        ensures records { self.new.replica.voter.logs.records ≡ self.old.replica.voter.logs.records }
        ensures handlers { H.meant handlers.new ≡ H.meant handlers.old }
        ensures members { self.new.replica.members ≡ self.old.replica.members }
        ensures me { self.new.replica.me ≡ self.old.replica.me }
        ensures built { result ≡ Err Unserved → (h : Meanings) (node : RuleNode) → StandsFor V.version h self.old node → ⊥ }
        ensures stranger { result ≡ Err Stranger → IsByStranger message.now.from message.now.body }
        ensures late { result ≡ Err Late → (h : Meanings) (node : RuleNode) → StandsFor V.version h self.old node → IsLate self.old.replica.members message.now.body }
        ensures used { StoreUsed V.Versions (failed_by result) self.old.replica.rows.rows self.new.replica.rows.rows }
    {
        let clock = self.replica.leases.now();
        let opened = mem::replace(&mut self.open, Items::new(alloc));
        let heard = all_hear(alloc, &self.replica.members, clock, message, opened)?;
        let voter = &self.replica.voter;
        let groups = touched(alloc, voter, &message.body, &heard)?;
        let before = watched(alloc, &self.replica, groups)?;
        let taken = takes(alloc, &mut self.replica, heard, message)?;
        let Arrival {
            notes,
            sends,
            heard,
        } = taken;
        let work = acts(alloc, handlers, &mut self.replica, heard)?;
        let step = self.ends(alloc, before, notes, work, sends, Items::new(alloc))?;
        Ok(step)
    }

    /// An operation begins at the node; the text is its request.
    fn begin<H: QueueHandlers>(
        &mut self,
        alloc: Global,
        handlers: &mut H,
        request: Request,
        text: &Text,
    ) -> Result<Step, StepFault>
        ensures notes { V.is_told ≡ true → IfOk result (λ made. AtEach V.version (H.meant handlers.old) self.old (Begin request text.now) (λ h s node. map met_of made.notes ≡ (step s node (Begin request text.now)).notes)) }
        ensures sends { V.is_told ≡ true → IfOk result (λ made. AtEach V.version (H.meant handlers.old) self.old (Begin request text.now) (λ h s node. made.sends ≡ (step s node (Begin request text.now)).sends)) }
        ensures state { V.is_told ≡ true → OnOk result (AtEach V.version (H.meant handlers.old) self.old (Begin request text.now) (λ h s node. StandsFor V.version h self.new (step s node (Begin request text.now)).node)) }
        ensures staged { V.is_told ≡ true → OnOk result (AtEach V.version (H.meant handlers.old) self.old (Begin request text.now) (λ h s node. (before : List Met) → Stages self.old.replica.voter.logs.staged.items before node.met → Stages self.new.replica.voter.logs.staged.items before (step s node (Begin request text.now)).node.met)) }
        ensures records { self.new.replica.voter.logs.records ≡ self.old.replica.voter.logs.records }
        ensures handlers { H.meant handlers.new ≡ H.meant handlers.old }
        ensures members { self.new.replica.members ≡ self.old.replica.members }
        ensures me { self.new.replica.me ≡ self.old.replica.me }
        ensures unserved { result ≡ Err Unserved → is_served request ≡ false }
        ensures stranger { result ≢ Err Stranger }
        ensures late { result ≢ Err Late }
        ensures used { StoreUsed V.Versions (failed_by result) self.old.replica.rows.rows self.new.replica.rows.rows }
    {
        let groups = begun_groups(alloc, &self.replica.voter, &request)?;
        let before = watched(alloc, &self.replica, groups)?;
        let work = self.begins(alloc, handlers, request)?;
        let none = Items::new(alloc);
        let step = self.ends(
            alloc,
            before,
            none,
            work,
            Items::new(alloc),
            Items::new(alloc),
        )?;
        Ok(step)
    }

    /// The node's clock shows `now`, in milliseconds.
    fn tick<H: QueueHandlers>(
        &mut self,
        alloc: Global,
        handlers: &mut H,
        now: u64,
    ) -> Result<Step, StepFault>
        ensures notes { V.is_told ≡ true → IfOk result (λ made. AtEach V.version (H.meant handlers.old) self.old (Tick now) (λ h s node. map met_of made.notes ≡ (step s node (Tick now)).notes)) }
        ensures sends { V.is_told ≡ true → IfOk result (λ made. AtEach V.version (H.meant handlers.old) self.old (Tick now) (λ h s node. made.sends ≡ (step s node (Tick now)).sends)) }
        ensures state { V.is_told ≡ true → OnOk result (AtEach V.version (H.meant handlers.old) self.old (Tick now) (λ h s node. StandsFor V.version h self.new (step s node (Tick now)).node)) }
        ensures staged { V.is_told ≡ true → OnOk result (AtEach V.version (H.meant handlers.old) self.old (Tick now) (λ h s node. (before : List Met) → Stages self.old.replica.voter.logs.staged.items before node.met → Stages self.new.replica.voter.logs.staged.items before (step s node (Tick now)).node.met)) }
        ensures records { self.new.replica.voter.logs.records ≡ self.old.replica.voter.logs.records }
        ensures handlers { H.meant handlers.new ≡ H.meant handlers.old }
        ensures members { self.new.replica.members ≡ self.old.replica.members }
        ensures me { self.new.replica.me ≡ self.old.replica.me }
        ensures built { result ≡ Err Unserved → (h : Meanings) (node : RuleNode) → StandsFor V.version h self.old node → ⊥ }
        ensures stranger { result ≢ Err Stranger }
        ensures late { result ≢ Err Late }
        ensures used { StoreUsed V.Versions (failed_by result) self.old.replica.rows.rows self.new.replica.rows.rows }
    {
        let groups = behind(alloc, &self.replica, &self.lagging)?;
        let copied = groups.copy(alloc)?;
        let before = watched(alloc, &self.replica, copied)?;
        let made = ticks(alloc, &mut self.replica, now, groups)?;
        let Ticked {
            notes,
            opening,
            closing,
        } = made;
        let opened = mem::replace(&mut self.open, Items::new(alloc));
        let work = acts_ticked(alloc, handlers, &mut self.replica, now, opened)?;
        let step = self.ends(alloc, before, notes, work, opening, closing)?;
        Ok(step)
    }

    /// The node makes the step of an event (Lamport 2001; CIDR 2011). `Stranger` and `Late` are of a message that it takes, `Unserved` of a
    /// request that begins; after any fault the node is not used again.
    pub fn step<H: QueueHandlers>(
        &mut self,
        alloc: Global,
        handlers: &mut H,
        event: Event<'_>,
    ) -> Result<Step, StepFault>
        ensures notes { V.is_told ≡ true → IfOk result (λ made. AtEach V.version (H.meant handlers.old) self.old (event_of event.entry) (λ h s node. map met_of made.notes ≡ (step s node (event_of event.entry)).notes)) }
        ensures sends { V.is_told ≡ true → IfOk result (λ made. AtEach V.version (H.meant handlers.old) self.old (event_of event.entry) (λ h s node. made.sends ≡ (step s node (event_of event.entry)).sends)) }
        ensures state { V.is_told ≡ true → OnOk result (AtEach V.version (H.meant handlers.old) self.old (event_of event.entry) (λ h s node. StandsFor V.version h self.new (step s node (event_of event.entry)).node)) }
        ensures staged { V.is_told ≡ true → OnOk result (AtEach V.version (H.meant handlers.old) self.old (event_of event.entry) (λ h s node. (before : List Met) → Stages self.old.replica.voter.logs.staged.items before node.met → Stages self.new.replica.voter.logs.staged.items before (step s node (event_of event.entry)).node.met)) }
        ensures records { self.new.replica.voter.logs.records ≡ self.old.replica.voter.logs.records }
        ensures handlers { H.meant handlers.new ≡ H.meant handlers.old }
        ensures members { self.new.replica.members ≡ self.old.replica.members }
        ensures me { self.new.replica.me ≡ self.old.replica.me }
        ensures unserved { result ≡ Err Unserved → IsUnserved (λ h node. StandsFor V.version h self.old node) (event_of event.entry) }
        ensures stranger { result ≡ Err Stranger → IsStrange (event_of event.entry) }
        ensures late { result ≡ Err Late → IsTooLate (λ h node. StandsFor V.version h self.old node) self.old.replica.members (event_of event.entry) }
        ensures used { StoreUsed V.Versions (failed_by result) self.old.replica.rows.rows self.new.replica.rows.rows }
    {
        match event {
            Event::Take(message) => self.take(alloc, handlers, message),
            Event::Begin(request, text) => self.begin(alloc, handlers, request, text),
            Event::Tick(now) => self.tick(alloc, handlers, now),
        }
    }
}
