//! The requests of a change, as JSON text.
ghost use Rattle.std.specs.Prelude.{◌≡◌, IfOk};
ghost use Rattle.serde_json.specs.View.{items_view};
ghost use Rattle.mega_two_driver.specs.Texts.{parts_requests, plan_named, plan_with};

use crate::parts::part_requests;
use crate::texts::{deciding_text, plan_look, planning_text};
use mega_base::{Bytes, Items, NoMemory, Text};
use mega_schema::Schema;
use serde_json::Value as Json;
use std::alloc::Global;

/// The requests of a part: to prepare it, to finish it with its writes and without, and to look at its lock.
#[derive(Debug, Drop)]
pub struct PartRequests {
    pub prepare: Bytes,
    pub commit: Bytes,
    pub abort: Bytes,
    pub look: Bytes,
}

/// The requests of a change: to put its plan, to decide it either way, to look at it, and those of its parts.
#[derive(Debug, Drop)]
pub struct Plan {
    pub name: Text,
    pub put: Bytes,
    pub commit: Bytes,
    pub abort: Bytes,
    pub look: Bytes,
    pub parts: Items<PartRequests>,
}

fn parts_requests(
    alloc: Global,
    schema: &Schema,
    name: &str,
    parts: &[Json],
) -> Result<Items<PartRequests>, NoMemory>
    ensures { IfOk result (λ made. made ≡ parts_requests schema.now name.now (items_view parts.now)) }
{
    let mut made = Items::new(alloc);
    for part in parts {
        made.push(part_requests(alloc, schema, name, part)?)?;
    }
    Ok(made)
}

/// The requests of the change that a line with this name and these parts tells.
#[tactic(auto, unfolding(crate::specs::Texts::plan_with))]
pub(crate) fn plan_with(
    alloc: Global,
    schema: &Schema,
    line: &[u8],
    name: &str,
    parts: &[Json],
) -> Result<Plan, NoMemory>
    ensures { IfOk result (λ plan. plan ≡ plan_with schema.now line.now name.now (items_view parts.now)) }
{
    let put = planning_text(alloc, name.as_bytes(), line)?;
    let commit = deciding_text(alloc, true, name.as_bytes(), line)?;
    let abort = deciding_text(alloc, false, name.as_bytes(), line)?;
    let look = plan_look(alloc, name.as_bytes())?;
    let parts = parts_requests(alloc, schema, name, parts)?;
    let name = Text::from_str(alloc, name)?;
    Ok(Plan {
        name,
        put,
        commit,
        abort,
        look,
        parts,
    })
}

/// Of a change that is known by its name alone.
#[tactic(auto, unfolding(crate::specs::Texts::plan_named))]
pub(crate) fn plan_named(alloc: Global, name: &str) -> Result<Plan, NoMemory>
    ensures { IfOk result (λ plan. plan ≡ plan_named name.now) }
{
    let look = plan_look(alloc, name.as_bytes())?;
    let name = Text::from_str(alloc, name)?;
    Ok(Plan {
        name,
        put: Bytes::new(alloc),
        commit: Bytes::new(alloc),
        abort: Bytes::new(alloc),
        look,
        parts: Items::new(alloc),
    })
}
