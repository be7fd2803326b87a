//! A message tells the cell and the coordinator, and is replied to.
ghost use Rattle.std.specs.Prelude.{◌≡◌, ◌≢◌, ◌∷◌, List, map, None, IfOk, OnOk, Err};
ghost use Rattle.mega_handler.specs.Named.{Meanings};
ghost use Rattle.mega_step_parts.specs.of_leases.Taking.{IsByStranger, IsLate};
ghost use Rattle.mega_step_parts.specs.of_leases.Tells.{Tells as TellsLeases};
ghost use Rattle.mega_rules.specs.Met.{Met, Takes};
ghost use Rattle.mega_rules.specs.Replies.{reply_message, reply_to};
ghost use Rattle.mega_rules.specs.Steps.{onto, told_notes};
ghost use Rattle.mega_step_parts.specs.of_voter.Telling.{Tells};
ghost use Rattle.mega_actions.specs.IsAt.{setting_of};
ghost use Rattle.mega_node_events.specs.declared.fault.StepFault.TheVariants.{Late, Stranger, Unserved};
ghost use Rattle.mega_node_events.specs.Faults.{failed_by};
ghost use Rattle.mega_step_parts.specs.Notes.{met_of};
ghost use Rattle.mega_step_parts.specs.of_leases.Notes.{met_of as leases_met};
ghost use Rattle.mega_step_parts.specs.Replying.{or_reply};
ghost use Rattle.mega_step_parts.specs.Staging.{Stages};

use crate::fault::StepFault;
use mega_actions::Replica;
use mega_base::{Items, NoMemory};
use mega_disk::{Records, Versions};
use mega_step_parts::mega_leases::Reaction as OfLeases;
use mega_step_parts::{Note, as_notes, is_voter, keep_notes, own_reply, reply_message};
use mega_wire::{Body, Message};
use std::alloc::Global;

/// What is noted and replied where a message is taken, before anything is decided by it.
#[derive(Debug, Drop)]
pub(crate) struct Reaction {
    pub(crate) notes: Items<Note>,
    pub(crate) sends: Items<Message>,
}

/// What a node notes of what its leases were told, and its reply to this node: its own, or else theirs.
fn says(
    alloc: Global,
    me: u8,
    to: u8,
    mine: Option<Body>,
    told: OfLeases,
) -> Result<Reaction, NoMemory>
    ensures notes { IfOk result (λ made. map met_of made.notes ≡ map leases_met told.notes) }
    ensures sends { IfOk result (λ made. made.sends ≡ reply_message me to (or_reply mine told.reply)) }
{
    let OfLeases { notes, reply } = told;
    let sends = reply_message(alloc, me, to, mine, reply)?;
    let notes = as_notes(alloc, notes)?;
    Ok(Reaction { notes, sends })
}

/// The node takes a message: its cell and its coordinator are told, and it replies.
#[tactic(auto, using(crate::proofs::Failing::taking_is_apart))]
pub(crate) fn is_told<R: Records, V: Versions>(
    alloc: Global,
    replica: &mut Replica<R, V>,
    message: &Message,
) -> Result<Reaction, StepFault>
    ensures notes { IfOk result (λ made. (h : Meanings) (met : List Met) → TellsLeases replica.old.members replica.old.me replica.old.leases met →
        map met_of made.notes ≡ told_notes (setting_of replica.old h) met message.now.from message.now.body) }
    ensures sends { IfOk result (λ made. (met : List Met) → Tells replica.old.voter.logs.kept met →
        TellsLeases replica.old.members replica.old.me replica.old.leases met → made.sends ≡ reply_to replica.old.members replica.old.me met message.now) }
    ensures kept { OnOk result ((h : Meanings) (met : List Met) → Tells replica.old.voter.logs.kept met → TellsLeases replica.old.members replica.old.me replica.old.leases met →
        Tells replica.new.voter.logs.kept (onto (told_notes (setting_of replica.old h) met message.now.from message.now.body) (Takes message.now ∷ met))) }
    ensures staged { OnOk result ((h : Meanings) (before met : List Met) → TellsLeases replica.old.members replica.old.me replica.old.leases met → Stages replica.old.voter.logs.staged.items before met →
        Stages replica.new.voter.logs.staged.items before (onto (told_notes (setting_of replica.old h) met message.now.from message.now.body) (Takes message.now ∷ met))) }
    ensures records { replica.new.voter.logs.records ≡ replica.old.voter.logs.records }
    ensures leased { OnOk result ((h : Meanings) (met : List Met) → TellsLeases replica.old.members replica.old.me replica.old.leases met →
        TellsLeases replica.old.members replica.old.me replica.new.leases (onto (told_notes (setting_of replica.old h) met message.now.from message.now.body) (Takes message.now ∷ met))) }
    ensures members { replica.new.members ≡ replica.old.members }
    ensures me { replica.new.me ≡ replica.old.me }
    ensures rows { replica.new.rows ≡ replica.old.rows }
    ensures indexed { replica.new.indexed ≡ replica.old.indexed }
    ensures digest { replica.new.digest ≡ replica.old.digest }
    ensures built { result ≢ Err Unserved }
    ensures stranger { result ≡ Err Stranger → IsByStranger message.now.from message.now.body }
    ensures late { result ≡ Err Late → (met : List Met) → TellsLeases replica.old.members replica.old.me replica.old.leases met → IsLate replica.old.members message.now.body }
    ensures apart { failed_by result ≡ None }
{
    let votes = is_voter(replica.members.cluster(), replica.me);
    let mine = own_reply(alloc, &replica.voter, votes, &message.body)?;
    match replica.leases.takes(alloc, message) {
        Ok(told) => match keep_notes(alloc, &mut replica.voter, told.notes.as_slice()) {
            Ok(()) => {
                let made = says(alloc, replica.me, message.from, mine, told)?;
                Ok(made)
            }
            Err(refused) => {
                drop(mine);
                drop(told);
                Err(StepFault::from(refused))
            }
        },
        Err(refused) => {
            drop(mine);
            Err(StepFault::from(refused))
        }
    }
}
