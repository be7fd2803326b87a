//! An operation begins, or is refused at once.
ghost use Rattle.std.specs.Prelude.{◌≡◌, ℕ, List, true, false, None, IfOk, OnOk, Err};
ghost use Rattle.mega_handler.specs.Named.{Meanings};
ghost use Rattle.mega_meanings.specs.Means.{Means};
ghost use Rattle.mega_actions.specs.of_node_laws.Acted.{acted_on};
ghost use Rattle.mega_actions.specs.of_node_laws.Own.{HasOwnRows};
ghost use Rattle.mega_rules.specs.Logs.{log_of};
ghost use Rattle.mega_rules.specs.Operations.{Node as RuleNode};
ghost use Rattle.mega_rules.specs.Members.{kind_of};
ghost use Rattle.mega_rules.specs.Steps.{Begin, at_open, begins, missing_kind, refusal, unless_refused};
ghost use Rattle.mega_actions.specs.of_answers.declared.fault.ActFault.TheVariants.{Unserved};
ghost use Rattle.mega_actions.specs.of_step_work.Servable.{is_served};
ghost use Rattle.mega_actions.specs.of_answers.Faults.{failed_by};
ghost use Rattle.mega_actions.specs.IsAt.{setting_of};
ghost use Rattle.mega_actions.specs.Leaves.{LeavesRest};
ghost use Rattle.mega_core.specs.Acted.{ActedAt};
ghost use Rattle.mega_node_events.specs.Beginning.{has_begun};
ghost use Rattle.mega_node_events.specs.Standing.{StandsWith};

use crate::node::Node;
use mega_actions::mega_answers::ActFault;
use mega_actions::mega_step_work::{Work, is_served};
use mega_base::Items;
use mega_disk::{Records, Versions};
use mega_meanings::QueueHandlers;
use mega_node_events::{at_open, next_op, refusal, unless_refused};
use mega_outcome::Request;
use mega_step_parts::{kind_of, missing_kind};
use std::alloc::Global;
use std::mem;

impl<R: Records, V: Versions> Node<R, V> {
    /// An operation begins: what the step has come to then.
    pub(crate) fn begins<H: QueueHandlers>(
        &mut self,
        alloc: Global,
        handlers: &mut H,
        request: Request,
    ) -> Result<Work, ActFault>
        ensures acted { V.is_told ≡ true → IfOk result (λ work. (h : Meanings) (node : RuleNode) (text : List ℕ) → Means (H.meant handlers.old) h →
            StandsWith V.version h self.old.replica self.old.open self.old.begun node →
            HasOwnRows self.old.replica.members.schema (log_of (acted_on (setting_of self.old.replica h) node (Begin request text))) →
            ActedAt V.version h self.new.replica self.new.begun work
            (acted_on (setting_of self.old.replica h) node (Begin request text)) (has_begun (setting_of self.old.replica h) node request text)) }
        ensures handlers { H.meant handlers.new ≡ H.meant handlers.old }
        ensures leaves { LeavesRest V.Versions (failed_by result) self.old.replica self.new.replica }
        ensures unserved { result ≡ Err Unserved → is_served request ≡ false }
        ensures built { OnOk result ((h : Meanings) (node : RuleNode) →
            StandsWith V.version h self.old.replica self.old.open self.old.begun node →
            refusal (setting_of self.old.replica h) node request ≡ None → is_served request ≡ true) }
        ensures lagging { self.new.lagging ≡ self.old.lagging }
    {
        let op = next_op(&self.replica.voter, self.replica.me, self.begun);
        let kind = kind_of(self.replica.members.cluster(), self.replica.me);
        let missing = missing_kind(&request, kind);
        let refusal = refusal(self.begun, missing, self.open.as_slice());
        self.begun = op.number;
        let open = mem::replace(&mut self.open, Items::new(alloc));
        let mut work = at_open(alloc, open);
        unless_refused(
            alloc,
            handlers,
            &mut self.replica,
            &mut work,
            op,
            request,
            refusal,
        )?;
        Ok(work)
    }
}
