//! The JSON of transactions and looks, and of the plan.
ghost use Rattle.std.specs.Prelude.{◌≡◌, IfOk};
ghost use Rattle.mega_two_driver.specs.Texts.{deciding_text, look_text, no_plan_check, plan_group, plan_look, plan_put, planning_text, row_look, state_digit, transaction_text, undecided_check};

use crate::joins::{joined3, joined7, listed, quoted};
use mega_base::{Bytes, NoMemory};
use std::alloc::Global;

/// A transaction with these lists of checks and writes.
#[tactic(auto, unfolding(crate::specs::Texts::transaction_text))]
pub(crate) fn transaction_text(
    alloc: Global,
    checks: &[u8],
    group: &[u8],
    writes: &[u8],
) -> Result<Bytes, NoMemory>
    ensures { IfOk result (λ text. text ≡ transaction_text checks.now group.now writes.now) }
{
    joined7(
        alloc,
        br#"{"checks":"#,
        checks,
        br#","do":"txn","group":"#,
        group,
        br#","reads":[],"sends":[],"writes":"#,
        writes,
        b"}",
    )
}

/// A current read of one row, of a table whose name is quoted.
#[tactic(auto, unfolding(crate::specs::Texts::row_look))]
fn row_look(alloc: Global, group: &[u8], key: &[u8], name: &[u8]) -> Result<Bytes, NoMemory>
    ensures { IfOk result (λ text. text ≡ row_look group.now key.now name.now) }
{
    joined7(
        alloc,
        br#"{"do":"read","group":"#,
        group,
        br#","mode":"current","rows":[{"key":"#,
        key,
        br#","row":"#,
        name,
        b"}]}",
    )
}

/// A current read of one row.
pub(crate) fn look_text(
    alloc: Global,
    group: &[u8],
    key: &[u8],
    table: &[u8],
) -> Result<Bytes, NoMemory>
    ensures { IfOk result (λ text. text ≡ look_text group.now key.now table.now) }
{
    let name = quoted(alloc, table)?;
    row_look(alloc, group, key, name.as_slice())
}

fn plan_group(alloc: Global, name: &[u8]) -> Result<Bytes, NoMemory>
    ensures { IfOk result (λ text. text ≡ plan_group name.now) }
{
    let key = listed(alloc, name)?;
    joined3(alloc, br#"["TwoPlan","#, key.as_slice(), b"]")
}

/// The put of a plan in a state, which is a digit.
#[tactic(auto, unfolding(crate::specs::Texts::plan_put))]
fn plan_put(alloc: Global, name: &[u8], line: &[u8], state: &[u8]) -> Result<Bytes, NoMemory>
    ensures { IfOk result (λ text. text ≡ plan_put name.now line.now state.now) }
{
    let name = quoted(alloc, name)?;
    let digits = hex::encode(alloc, line)?;
    let digits = quoted(alloc, digits.as_bytes())?;
    joined7(
        alloc,
        br#"[{"put":"TwoPlan","row":{"gid":"#,
        name.as_slice(),
        br#","plan":"#,
        digits.as_slice(),
        br#","state":"#,
        state,
        b"}}]",
    )
}

#[tactic(auto, unfolding(crate::specs::Texts::no_plan_check))]
fn no_plan_check(alloc: Global, name: &[u8]) -> Result<Bytes, NoMemory>
    ensures { IfOk result (λ text. text ≡ no_plan_check name.now) }
{
    let key = listed(alloc, name)?;
    joined3(
        alloc,
        br#"[{"gone":"TwoPlan","key":"#,
        key.as_slice(),
        b"}]",
    )
}

#[tactic(auto, unfolding(crate::specs::Texts::undecided_check))]
fn undecided_check(alloc: Global, name: &[u8]) -> Result<Bytes, NoMemory>
    ensures { IfOk result (λ text. text ≡ undecided_check name.now) }
{
    let key = listed(alloc, name)?;
    joined3(
        alloc,
        br#"[{"is":"TwoPlan","key":"#,
        key.as_slice(),
        br#","property":"state","values":[0]}]"#,
    )
}

/// The plan is put where there is none of this name, undecided.
#[tactic(auto, unfolding(crate::specs::Texts::planning_text))]
pub(crate) fn planning_text(alloc: Global, name: &[u8], line: &[u8]) -> Result<Bytes, NoMemory>
    ensures { IfOk result (λ text. text ≡ planning_text name.now line.now) }
{
    let checks = no_plan_check(alloc, name)?;
    let group = plan_group(alloc, name)?;
    let writes = plan_put(alloc, name, line, b"0")?;
    transaction_text(
        alloc,
        checks.as_slice(),
        group.as_slice(),
        writes.as_slice(),
    )
}

fn state_digit(made: bool) -> &'static [u8]
    ensures { result.now ≡ state_digit made }
{
    if made { b"1" } else { b"2" }
}

/// The plan is put as made or dropped where it is undecided.
#[tactic(auto, unfolding(crate::specs::Texts::deciding_text))]
pub(crate) fn deciding_text(
    alloc: Global,
    made: bool,
    name: &[u8],
    line: &[u8],
) -> Result<Bytes, NoMemory>
    ensures { IfOk result (λ text. text ≡ deciding_text made name.now line.now) }
{
    let checks = undecided_check(alloc, name)?;
    let group = plan_group(alloc, name)?;
    let writes = plan_put(alloc, name, line, state_digit(made))?;
    transaction_text(
        alloc,
        checks.as_slice(),
        group.as_slice(),
        writes.as_slice(),
    )
}

/// The plan is looked at.
#[tactic(auto, unfolding(crate::specs::Texts::plan_look))]
pub(crate) fn plan_look(alloc: Global, name: &[u8]) -> Result<Bytes, NoMemory>
    ensures { IfOk result (λ text. text ≡ plan_look name.now) }
{
    let group = plan_group(alloc, name)?;
    let key = listed(alloc, name)?;
    look_text(alloc, group.as_slice(), key.as_slice(), b"TwoPlan")
}
