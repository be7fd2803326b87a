//! What the cell notes of epochs is kept by the voter of its node.
ghost use Rattle.std.specs.Prelude.{◌≡◌, ◌∷◌, List, OnOk, Err};
ghost use Rattle.mega_leases.specs.Notes.{met_of as leases_met};
ghost use Rattle.mega_voter.specs.of_rules.Met.{Grants, Lapses, Met};
ghost use Rattle.mega_voter.specs.Telling.{Tells};
ghost use Rattle.mega_step_choices.specs.Staging.{Stages};

use mega_base::{Epoch, NoMemory, NodeId};
use mega_disk::Records;
use mega_leases::LeaseNote;
use mega_voter::Voter;
use std::alloc::Global;

/// Keeps that the cell grants an epoch.
#[tactic(auto, using(crate::proofs::Staged::granting_staged))]
fn keep_grant<R: Records>(
    alloc: Global,
    voter: &mut Voter<R>,
    node: NodeId,
    epoch: Epoch,
) -> Result<(), NoMemory>
    ensures kept { OnOk result ((met : List Met) → Tells voter.old.logs.kept met → Tells voter.new.logs.kept (Grants node.0 epoch ∷ met)) }
    ensures staged { OnOk result ((before met : List Met) → Stages voter.old.logs.staged.items before met → Stages voter.new.logs.staged.items before (Grants node.0 epoch ∷ met)) }
    ensures records { voter.new.logs.records ≡ voter.old.logs.records }
{
    match voter.grants(alloc, node, epoch) {
        Ok(()) => Ok(()),
        Err(_) => Err(NoMemory),
    }
}

/// Keeps that the cell lets an epoch lapse.
#[tactic(auto, using(crate::proofs::Staged::lapsing_staged))]
fn keep_lapse<R: Records>(
    alloc: Global,
    voter: &mut Voter<R>,
    node: NodeId,
    epoch: Epoch,
) -> Result<(), NoMemory>
    ensures kept { OnOk result ((met : List Met) → Tells voter.old.logs.kept met → Tells voter.new.logs.kept (Lapses node.0 epoch ∷ met)) }
    ensures staged { OnOk result ((before met : List Met) → Stages voter.old.logs.staged.items before met → Stages voter.new.logs.staged.items before (Lapses node.0 epoch ∷ met)) }
    ensures records { voter.new.logs.records ≡ voter.old.logs.records }
{
    match voter.lapses(alloc, node, epoch) {
        Ok(()) => Ok(()),
        Err(_) => Err(NoMemory),
    }
}

/// Keeps a note of the cell: what it grants, and what it lets lapse.
#[tactic(auto, using(crate::proofs::Staged::silent_staged))]
pub fn keep_note<R: Records>(
    alloc: Global,
    voter: &mut Voter<R>,
    note: &LeaseNote,
) -> Result<(), NoMemory>
    ensures kept { OnOk result ((met : List Met) → Tells voter.old.logs.kept met → Tells voter.new.logs.kept (leases_met note.now ∷ met)) }
    ensures staged { OnOk result ((before met : List Met) → Stages voter.old.logs.staged.items before met → Stages voter.new.logs.staged.items before (leases_met note.now ∷ met)) }
    ensures records { voter.new.logs.records ≡ voter.old.logs.records }
{
    match note {
        LeaseNote::Grants { node, epoch } => keep_grant(alloc, voter, *node, *epoch),
        LeaseNote::Lapses { node, epoch } => keep_lapse(alloc, voter, *node, *epoch),
        _ => Ok(()),
    }
}
