//! Reads the line of a change.
ghost use Rattle.std.specs.Prelude.{◌≡◌, IfOk, Ok};
ghost use Rattle.serde_json.specs.View.{view, items_view};
ghost use Rattle.mega_schedule.specs.Events.{object_of};
ghost use Rattle.mega_schedule.specs.Rows.{each_in};
ghost use Rattle.mega_two_driver.specs.Answers.{Gives, GivesOrReason};
ghost use Rattle.mega_two_driver.specs.Begins.{all_fit, are_parts, name_in, parts_fit, parts_in, plan_of, plan_of_object, plan_of_parts};
ghost use Rattle.mega_two_driver.specs.Fits.{own_of};

use crate::checks::line_check;
use crate::fault::{TwoFault, judge};
use crate::fits::{are_groups_apart, own_of, part_fits};
use crate::plan::{Plan, plan_with};
use crate::tables::has_plans;
use mega_base::{Items, NoMemory};
use mega_outcome::Transaction;
use mega_schedule::LineFault;
use mega_schedule::values::{list_in, text_in};
use mega_schema::Schema;
use serde_json::Value as Json;
use std::alloc::Global;

/// The most bytes that a line may have.
const MOST_BYTES: usize = 16_384;

/// The object that a line is.
fn object_of(alloc: Global, line: &[u8]) -> Result<Json, TwoFault>
    ensures { Gives view result (object_of line.now) }
{
    match mega_schedule::object_of(alloc, line) {
        Ok(object) => Ok(object),
        Err(LineFault::NoMemory) => Err(TwoFault::NoMemory),
        Err(LineFault::Refused { reason }) => Err(TwoFault::Refused { reason }),
    }
}

/// Each part alone, as a transaction.
fn owns_of(alloc: Global, schema: &Schema, parts: &[Json]) -> Result<Items<Transaction>, NoMemory>
    ensures { IfOk result (λ owns. owns ≡ each_in (own_of schema.now) (items_view parts.now)) }
{
    let mut owns = Items::new(alloc);
    for part in parts {
        owns.push(own_of(alloc, schema, part)?)?;
    }
    Ok(owns)
}

/// 2 to 8 parts, of different groups.
fn are_parts(owns: &[Transaction]) -> bool
    ensures { result ≡ are_parts owns.now }
{
    2 <= owns.len() && owns.len() <= 8 && are_groups_apart(owns)
}

fn parts_fit(
    alloc: Global,
    schema: &Schema,
    name: &str,
    owns: &[Transaction],
    parts: &[Json],
) -> Result<bool, NoMemory>
    ensures { IfOk result (λ fit. fit ≡ parts_fit schema.now name.now owns.now (items_view parts.now)) }
{
    let mut left = parts;
    for own in owns {
        let [part, later @ ..] = left else {
            return Ok(true);
        };
        if !part_fits(alloc, schema, name, own, part)? {
            return Ok(false);
        }
        left = later;
    }
    Ok(true)
}

fn all_fit(
    alloc: Global,
    schema: &Schema,
    name: &str,
    owns: &[Transaction],
    parts: &[Json],
) -> Result<bool, NoMemory>
    ensures { IfOk result (λ fit. fit ≡ all_fit schema.now name.now owns.now (items_view parts.now)) }
{
    let plans = has_plans(alloc, schema)?;
    let fit = parts_fit(alloc, schema, name, owns, parts)?;
    Ok(plans && fit)
}

/// The change of these parts, or the reason why they are none.
#[tactic(auto, unfolding(crate::specs::Begins::plan_of_parts))]
fn plan_of_parts(
    alloc: Global,
    schema: &Schema,
    line: &[u8],
    name: &str,
    parts: &[Json],
    owns: &[Transaction],
) -> Result<Plan, TwoFault>
    ensures { GivesOrReason result (plan_of_parts schema.now line.now name.now (items_view parts.now) owns.now) }
{
    if !are_parts(owns) {
        return Err(TwoFault::Refused { reason: 9 });
    }
    if !all_fit(alloc, schema, name, owns, parts)? {
        return Err(TwoFault::Refused { reason: 10 });
    }
    let plan = plan_with(alloc, schema, line, name, parts)?;
    Ok(plan)
}

/// The change of an object.
fn plan_of_object(
    alloc: Global,
    schema: &Schema,
    line: &[u8],
    object: &Json,
) -> Result<Plan, TwoFault>
    ensures { GivesOrReason result (plan_of_object schema.now line.now (Ok (view object.now))) }
{
    judge(line_check(object))?;
    let parts = list_in(object, "parts");
    let owns = owns_of(alloc, schema, parts)?;
    let name = text_in(object, "gid");
    plan_of_parts(alloc, schema, line, name, parts, owns.as_slice())
}

/// The change that a line tells, or the first reason for which it tells none.
#[tactic(auto, unfolding(crate::specs::Begins::plan_of))]
pub(crate) fn plan_of(alloc: Global, schema: &Schema, line: &[u8]) -> Result<Plan, TwoFault>
    ensures { GivesOrReason result (plan_of schema.now line.now) }
{
    if MOST_BYTES < line.len() {
        return Err(TwoFault::Refused { reason: 7 });
    }
    let object = object_of(alloc, line)?;
    plan_of_object(alloc, schema, line, &object)
}
