//! An operation whose read is complete is answered, proposes what its request comes to, or ends.
ghost use Rattle.std.specs.Prelude.{◌≡◌, ◌+◌, ◌<◌, ◌^◌, IfOk, true, false, Err};
ghost use Rattle.mega_disk.specs.VersionMaps.{SameVersions};
ghost use Rattle.mega_handler.specs.Named.{Meanings};
ghost use Rattle.mega_marks.specs.of_node_laws.About.{IsOf};
ghost use Rattle.mega_rules.specs.Clock.{clock_of};
ghost use Rattle.mega_rules.specs.Operations.{Now};
ghost use Rattle.mega_rules.specs.Acting.{Rests, finishes};
ghost use Rattle.mega_replica.specs.Used.{StoreUsed};
ghost use Rattle.mega_step_work.specs.of_voter.Telling.{Tells};
ghost use Rattle.mega_answers.specs.declared.fault.ActFault.TheVariants.{Unserved};
ghost use Rattle.mega_step_work.specs.Servable.{is_answered, is_plain, is_proposed};
ghost use Rattle.mega_answers.specs.Coming.{sealed_by};
ghost use Rattle.mega_step_work.specs.Actions.{does};
ghost use Rattle.mega_answers.specs.Faults.{failed_by};
ghost use Rattle.mega_step_work.specs.Reaching.{operation_of};
ghost use Rattle.mega_answers.specs.Sees.{Sees};
ghost use Rattle.mega_step_work.specs.Settings.{setting};

use crate::answering::answer_at;
use crate::fault::ActFault;
use crate::request_outcome::{RequestOutcome, comes_to};
use mega_base::{NoMemory, Position};
use mega_disk::{Records, Versions};
use mega_outcome::Answer;
use mega_step_work::mega_operations::Members;
use mega_step_work::mega_voter::Voter;
use mega_step_work::{Action, CompleteRead, is_answered, is_limit, is_proposed};
use std::alloc::Global;

/// The operation ends with the answer that its request has over the rows, or goes on to its own proposal.
pub fn finishes<R: Records, V: Versions>(
    alloc: Global,
    reached: CompleteRead,
    members: &Members,
    voter: &Voter<R>,
    clock: u64,
    rows: &mut V,
) -> Result<Action, ActFault>
    ensures action { IfOk result (λ action. V.is_told ≡ true → (me : _) (h : Meanings) (now : Now) →
        Tells voter.now.logs.kept now.met → clock ≡ clock_of now.met →
        Sees members.now.schema (V.version rows.old) reached.group reached.position now → IsOf reached.kept.request reached.group →
        Rests (does now action) ≡ finishes (setting members.now me h) now (operation_of reached) reached.group reached.reading reached.position) }
    ensures versions { SameVersions (V.version rows.old) (V.version rows.new) }
    ensures used { StoreUsed V.Versions (failed_by result) rows.old rows.new }
    ensures unserved { result ≡ Err Unserved → is_plain reached.kept.request ≡ false }
{
    if is_answered(&reached.kept.request) {
        let action = answers(alloc, reached, members, rows)?;
        return Ok(action);
    }
    let action = comes(alloc, reached, members, voter, clock, rows)?;
    Ok(action)
}

/// The operation ends with the answer that its request has over the rows.
fn answers<V: Versions>(
    alloc: Global,
    reached: CompleteRead,
    members: &Members,
    rows: &mut V,
) -> Result<Action, ActFault>
    ensures action { IfOk result (λ action. V.is_told ≡ true → (me : _) (h : Meanings) (now : Now) →
        Sees members.now.schema (V.version rows.old) reached.group reached.position now → IsOf reached.kept.request reached.group →
        Rests (does now action) ≡ finishes (setting members.now me h) now (operation_of reached) reached.group reached.reading reached.position) }
    ensures versions { SameVersions (V.version rows.old) (V.version rows.new) }
    ensures used { StoreUsed V.Versions (failed_by result) rows.old rows.new }
    ensures unserved { result ≡ Err Unserved → is_answered reached.kept.request ≡ false }
{
    let schema = &members.cluster().schema;
    let position = reached.position;
    match answer_at(
        alloc,
        schema,
        &reached.kept.request,
        rows,
        position,
        position,
    ) {
        Ok(answer) => Ok(reached.ends(answer)),
        Err(fault) => {
            drop(reached);
            Err(fault)
        }
    }
}

/// The operation ends where the log has reached its limit, and else proposes what its request comes to over the rows.
#[tactic(auto, using(mega_replica::proofs::Using::used_here, crate::proofs::Refused::used_unkept))]
fn comes<R: Records, V: Versions>(
    alloc: Global,
    reached: CompleteRead,
    members: &Members,
    voter: &Voter<R>,
    clock: u64,
    rows: &mut V,
) -> Result<Action, ActFault>
    ensures action { IfOk result (λ action. V.is_told ≡ true → (me : _) (h : Meanings) (now : Now) →
        Tells voter.now.logs.kept now.met → clock ≡ clock_of now.met →
        Sees members.now.schema (V.version rows.old) reached.group reached.position now → IsOf reached.kept.request reached.group →
        Rests (does now action) ≡ finishes (setting members.now me h) now (operation_of reached) reached.group reached.reading reached.position) }
    ensures versions { SameVersions (V.version rows.old) (V.version rows.new) }
    ensures used { StoreUsed V.Versions (failed_by result) rows.old rows.new }
    ensures unserved { result ≡ Err Unserved → is_proposed reached.kept.request ≡ false }
{
    if !is_proposed(&reached.kept.request) {
        drop(reached);
        return Err(ActFault::Unserved);
    }
    if is_limit(members, reached.position) {
        let position = Position(reached.position);
        return Ok(reached.ends(Answer::LogFull { position }));
    }
    let schema = &members.cluster().schema;
    match comes_to(alloc, schema, &reached.kept.request, rows, reached.position) {
        Ok(came) => {
            let action = seals_by(alloc, reached, members, voter, clock, came)?;
            Ok(action)
        }
        Err(fault) => {
            drop(reached);
            Err(fault)
        }
    }
}

/// The operation goes on by what its request came to.
fn seals_by<R: Records>(
    alloc: Global,
    reached: CompleteRead,
    members: &Members,
    voter: &Voter<R>,
    clock: u64,
    came: RequestOutcome,
) -> Result<Action, NoMemory>
    requires { reached.position + 1 < 2 ^ 64 }
    ensures { IfOk result (λ action. (me : _) (h : Meanings) (now : Now) → Tells voter.now.logs.kept now.met → clock ≡ clock_of now.met →
        does now action ≡ sealed_by (setting members.now me h) now (operation_of reached) reached.group reached.reading reached.position came) }
{
    match came {
        RequestOutcome::Alone(came) => {
            let action = reached.sealed(alloc, members, voter, clock, came)?;
            Ok(action)
        }
        RequestOutcome::Batched(came) => {
            let action = reached.batch_sealed(alloc, members, voter, clock, came)?;
            Ok(action)
        }
    }
}
