//! A step ends: its notes and messages in their order, and what is sent told to the voter.
ghost use Rattle.std.specs.Prelude.{◌≡◌, ◌++◌, ◌∷◌, List, map, flat_map, IfOk, OnOk};
ghost use Rattle.mega_handler.specs.Named.{Meanings};
ghost use Rattle.mega_rules.specs.Met.{Met};
ghost use Rattle.mega_rules.specs.Operations.{Node as RuleNode, Now};
ghost use Rattle.mega_rules.specs.Steps.{apply_notes, onto};
ghost use Rattle.mega_actions.specs.of_node_laws.Sending.{MaySend};
ghost use Rattle.mega_actions.specs.IsAt.{setting_of};
ghost use Rattle.mega_core.specs.Acted.{ActedAt, ended};
ghost use Rattle.mega_lag.specs.Lagging.{KnowsLagging, KnowsOthers};
ghost use Rattle.mega_core.specs.Made.{MadeAt};
ghost use Rattle.mega_step_parts.specs.Notes.{met_of};
ghost use Rattle.mega_step_parts.specs.Positions.{note_since};
ghost use Rattle.mega_step_parts.specs.Staging.{Stages};

use crate::node::Node;
use mega_actions::mega_step_work::Work;
use mega_base::{Items, NoMemory};
use mega_disk::{Records, Versions};
use mega_lag::notes_watched;
use mega_step_parts::{Before, Note, Step, add_sends, joined, tell_all_sent};
use mega_wire::Message;
use std::alloc::Global;

/// What is sent in a step: what it opens with, what the operations send, and what it closes with.
fn all_sends(
    opening: Items<Message>,
    sends: Items<Message>,
    closing: Items<Message>,
) -> Result<Items<Message>, NoMemory>
    ensures { IfOk result (λ all. all ≡ (opening ++ sends) ++ closing) }
{
    let mut all = opening;
    add_sends(&mut all, sends)?;
    add_sends(&mut all, closing)?;
    Ok(all)
}

impl<R: Records, V: Versions> Node<R, V> {
    /// The step ends: of these groups what is applied since is noted after the first notes, then what the operations came
    /// to, and all that is sent is told to the voter.
    pub(crate) fn ends(
        &mut self,
        alloc: Global,
        before: Items<Before>,
        first: Items<Note>,
        work: Work,
        opening: Items<Message>,
        closing: Items<Message>,
    ) -> Result<Step, NoMemory>
        ensures made { IfOk result (λ made. (h : Meanings) (node : RuleNode) (own : Met) (locks durable : List Met) (now : Now) →
            flat_map (note_since now.met now.stored) before ≡ apply_notes (setting_of self.old.replica h) node.met node.stored now.met now.stored →
            ActedAt V.version h self.old.replica self.old.begun work (onto durable (onto locks (own ∷ node.met))) now →
            map met_of first ≡ locks ++ durable →
            MaySend (onto (ended (setting_of self.old.replica h) node own locks durable ((opening ++ now.sends) ++ closing) now).notes (own ∷ node.met)) ((opening ++ now.sends) ++ closing) →
            MadeAt V.version h self.new made (ended (setting_of self.old.replica h) node own locks durable ((opening ++ now.sends) ++ closing) now)) }
        ensures staged { OnOk result ((h : Meanings) (node : RuleNode) (own : Met) (locks durable : List Met) (now : Now) (before : List Met) →
            ActedAt V.version h self.old.replica self.old.begun work (onto durable (onto locks (own ∷ node.met))) now →
            MaySend (onto (ended (setting_of self.old.replica h) node own locks durable ((opening ++ now.sends) ++ closing) now).notes (own ∷ node.met)) ((opening ++ now.sends) ++ closing) →
            Stages self.old.replica.voter.logs.staged.items before (onto durable (onto locks (own ∷ node.met))) →
            Stages self.new.replica.voter.logs.staged.items before (ended (setting_of self.old.replica h) node own locks durable ((opening ++ now.sends) ++ closing) now).node.met) }
        ensures lagging { OnOk result ((h : Meanings) (node : RuleNode) (own : Met) (locks durable : List Met) (now : Now) →
            ActedAt V.version h self.old.replica self.old.begun work (onto durable (onto locks (own ∷ node.met))) now →
            KnowsOthers self.old.replica.members self.old.replica.me self.old.lagging before now.met now.stored →
            KnowsLagging self.new.replica.members self.new.replica.me self.new.lagging
            (ended (setting_of self.old.replica h) node own locks durable ((opening ++ now.sends) ++ closing) now).node.met (ended (setting_of self.old.replica h) node own locks durable ((opening ++ now.sends) ++ closing) now).node.stored) }
        ensures records { self.new.replica.voter.logs.records ≡ self.old.replica.voter.logs.records }
        ensures members { self.new.replica.members ≡ self.old.replica.members }
        ensures me { self.new.replica.me ≡ self.old.replica.me }
        ensures rows { self.new.replica.rows ≡ self.old.replica.rows }
    {
        let applies = notes_watched(alloc, &self.replica, &mut self.lagging, before)?;
        let Work {
            kept,
            valid,
            answers,
            sends,
        } = work;
        let notes = joined(first, applies, valid, answers)?;
        let sends = all_sends(opening, sends, closing)?;
        tell_all_sent(alloc, &mut self.replica.voter, sends.as_slice())?;
        self.open = kept;
        Ok(Step { notes, sends })
    }
}
