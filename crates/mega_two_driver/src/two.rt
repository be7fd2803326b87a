//! A change that is driven: `ask` gives its present request, and `take` or `lost` tells what became of it.
ghost use Rattle.std.specs.Prelude.{◌≡◌, slice_get, option_map, IfOk, OnOk, OnErr, Ok};
ghost use Rattle.std.specs.Option.{option_copied};
ghost use Rattle.std.specs.Result.{result_ok};
ghost use Rattle.mega_two_driver.specs.Answers.{GivesOrReason};
ghost use Rattle.mega_two_driver.specs.Begins.{plan_of};
ghost use Rattle.mega_two_driver.specs.Driver.{asked_in, asks, begun, decision, finish_of, learned, look_of, lost, prepare_of, read_plan, recovered, stepped, taken, told_in};
ghost use Rattle.mega_two_moves.specs.Moves.{ended_in};

use crate::begins::plan_of;
use crate::checks::is_name;
use crate::fault::TwoFault;
use crate::plan::{PartRequests, Plan, plan_named};
use crate::rows::{lock_told, plan_line, plan_told};
use crate::tables::has_plans;
use crate::words::{same, transaction_told};
use mega_base::{Copied, NoMemory, Text};
use mega_schema::Schema;
use mega_two_moves::{Ended, Phase, RequestResult, State, by_state, ended_in, moved};
use std::alloc::Global;

/// A change of several groups: its requests, and where it is.
#[derive(Drop)]
pub struct Two {
    pub(crate) schema: Schema,
    pub(crate) plan: Plan,
    pub(crate) phase: Phase,
}

fn decision(plan: &Plan, made: bool) -> &[u8]
    ensures { result.now ≡ decision made plan.now }
{
    if made {
        plan.commit.as_slice()
    } else {
        plan.abort.as_slice()
    }
}

fn finish_of(part: &PartRequests, made: bool) -> &[u8]
    ensures { result.now ≡ finish_of made part.now }
{
    if made {
        part.commit.as_slice()
    } else {
        part.abort.as_slice()
    }
}

fn part_at(plan: &Plan, part: usize) -> Option<&PartRequests>
    ensures { option_copied result ≡ slice_get plan.now.parts part }
{
    plan.parts.as_slice().get(part)
}

fn prepare_at(plan: &Plan, part: usize) -> Option<&[u8]>
    ensures { option_map (λ s. s.now) result ≡ option_map prepare_of (slice_get plan.now.parts part) }
{
    match part_at(plan, part) {
        Some(part) => Some(part.prepare.as_slice()),
        None => None,
    }
}

fn finish_at(plan: &Plan, made: bool, part: usize) -> Option<&[u8]>
    ensures { option_map (λ s. s.now) result ≡ option_map (finish_of made) (slice_get plan.now.parts part) }
{
    match part_at(plan, part) {
        Some(part) => Some(finish_of(part, made)),
        None => None,
    }
}

fn look_at(plan: &Plan, part: usize) -> Option<&[u8]>
    ensures { option_map (λ s. s.now) result ≡ option_map look_of (slice_get plan.now.parts part) }
{
    match part_at(plan, part) {
        Some(part) => Some(part.look.as_slice()),
        None => None,
    }
}

/// The present request of a plan.
fn asked_in(plan: &Plan, phase: Phase) -> Option<&[u8]>
    ensures { option_map (λ s. s.now) result ≡ asked_in plan.now phase }
{
    match phase {
        Phase::Begins => Some(plan.put.as_slice()),
        Phase::Prepares(part) => prepare_at(plan, part),
        Phase::Decides(made) => Some(decision(plan, made)),
        Phase::Looks(_) | Phase::Recovers => Some(plan.look.as_slice()),
        Phase::Finishes(made, part) => finish_at(plan, made, part),
        Phase::Checks(_, part) => look_at(plan, part),
        Phase::Over(_) => None,
    }
}

/// What a reply tells of the present request.
fn told_in(alloc: Global, name: &str, phase: Phase, reply: &[u8]) -> Result<RequestResult, NoMemory>
    ensures { IfOk result (λ told. told ≡ told_in name.now phase reply.now) }
{
    match phase {
        Phase::Begins | Phase::Prepares(_) | Phase::Decides(_) | Phase::Finishes(_, _) => {
            Ok(transaction_told(reply))
        }
        Phase::Looks(_) | Phase::Recovers => plan_told(alloc, reply),
        Phase::Checks(_, _) => lock_told(alloc, name, reply),
        Phase::Over(_) => Ok(RequestResult::Again),
    }
}

/// The change of a line, none where it tells none.
fn plan_if(alloc: Global, schema: &Schema, line: &[u8]) -> Result<Option<Plan>, NoMemory>
    ensures { IfOk result (λ plan. plan ≡ result_ok (plan_of schema.now line.now)) }
{
    match plan_of(alloc, schema, line) {
        Ok(plan) => Ok(Some(plan)),
        Err(TwoFault::NoMemory) => Err(NoMemory),
        Err(TwoFault::Refused { .. }) => Ok(None),
    }
}

impl Two {
    /// A change that is begun by a line, or the first reason for which the line or the schema does not allow it.
    #[tactic(auto, unfolding(crate::specs::Driver::begun))]
    pub fn begin(alloc: Global, schema: &Schema, line: &[u8]) -> Result<Two, TwoFault>
        ensures exact { GivesOrReason result (begun schema.now line.now) }
    {
        let plan = plan_of(alloc, schema, line)?;
        let schema = schema.copy(alloc)?;
        Ok(Two {
            schema,
            plan,
            phase: Phase::Begins,
        })
    }

    /// A change of this name that is recovered, whoever began it.
    #[tactic(auto, unfolding(crate::specs::Driver::recovered))]
    pub fn recover(alloc: Global, schema: &Schema, name: &Text) -> Result<Two, TwoFault>
        ensures exact { GivesOrReason result (recovered schema.now name.now) }
    {
        if !is_name(name.as_bytes()) {
            return Err(TwoFault::Refused { reason: 5 });
        }
        if !has_plans(alloc, schema)? {
            return Err(TwoFault::Refused { reason: 10 });
        }
        let plan = plan_named(alloc, name.as_str())?;
        let schema = schema.copy(alloc)?;
        Ok(Two {
            schema,
            plan,
            phase: Phase::Recovers,
        })
    }

    /// The name of the change.
    pub fn name(&self) -> &str
        ensures { result.now ≡ self.now.plan.name }
    {
        self.plan.name.as_str()
    }

    /// The present request, none where it ended.
    pub fn ask(&self) -> Option<&[u8]>
        ensures { option_map (λ s. s.now) result ≡ asks self.now }
    {
        asked_in(&self.plan, self.phase)
    }

    /// How it ended.
    pub fn ended(&self) -> Option<Ended>
        ensures { result ≡ ended_in self.now.phase }
    {
        ended_in(self.phase)
    }

    /// Goes on by what it is told.
    fn step(&mut self, told: RequestResult)
        ensures { self.new ≡ stepped self.old told }
    {
        self.phase = moved(self.plan.parts.len(), self.phase, told);
    }

    /// Takes up the parts that the plan's line tells.
    fn learn(&mut self, state: State, plan: Option<Plan>)
        ensures { self.new ≡ learned self.old state plan }
    {
        let Some(plan) = plan else {
            self.phase = Phase::Over(Ended::Open);
            return;
        };
        if same(plan.name.as_bytes(), self.plan.name.as_bytes()) {
            self.phase = by_state(plan.parts.len(), false, state);
            self.plan = plan;
        } else {
            self.phase = Phase::Over(Ended::Open);
        }
    }

    /// Takes a reply that shows the plan of the change that it recovers.
    fn read_plan(
        &mut self,
        alloc: Global,
        reply: &[u8],
        told: RequestResult,
    ) -> Result<(), NoMemory>
        ensures ok { OnOk result (self.new ≡ read_plan self.old reply.now told) }
        ensures err { OnErr result (self.new ≡ self.old) }
    {
        match told {
            RequestResult::StateIs(state) => {
                let line = plan_line(alloc, reply)?;
                let plan = plan_if(alloc, &self.schema, line.as_slice())?;
                self.learn(state, plan);
                Ok(())
            }
            other => {
                self.step(other);
                Ok(())
            }
        }
    }

    /// Takes the reply to the present request. A refusal leaves the change.
    #[tactic(auto, unfolding(crate::specs::Driver::taken))]
    pub fn take(&mut self, alloc: Global, reply: &[u8]) -> Result<(), NoMemory>
        ensures ok { OnOk result (self.new ≡ taken self.old reply.now) }
        ensures err { OnErr result (self.new ≡ self.old) }
    {
        let told = told_in(alloc, self.plan.name.as_str(), self.phase, reply)?;
        match self.phase {
            Phase::Recovers => self.read_plan(alloc, reply, told),
            _ => {
                self.step(told);
                Ok(())
            }
        }
    }

    /// The present request was lost.
    #[tactic(auto, unfolding(crate::specs::Driver::lost))]
    pub fn lost(&mut self) -> Result<(), NoMemory>
        ensures done { result ≡ Ok tt }
        ensures state { self.new ≡ lost self.old }
    {
        self.step(RequestResult::Lost);
        Ok(())
    }
}
