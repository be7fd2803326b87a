//! The news of a decision, to all other nodes.
ghost use Rattle.std.specs.Prelude.{◌≡◌, map, None, IfOk, Err};
ghost use Rattle.std.specs.List.{range_with_len};
ghost use Rattle.mega_rules.specs.Operations.{Setting};
ghost use Rattle.mega_rules.specs.Steps.{decide_to, news, told_decision};
ghost use Rattle.mega_step_parts.specs.News.{news_by};

use crate::deciding::{Chosen, tells_decision};
use mega_base::{Copied, Items, NoMemory, Position};
use mega_propose::others;
use mega_step_work::mega_operations::Members;
use mega_wire::{Body, Message};
use std::alloc::Global;

/// The numbers of so many nodes.
#[tactic(auto, using(mega_leases::proofs::Ticked::one_cell_more))]
pub fn nodes(alloc: Global, count: u8) -> Result<Items<u8>, NoMemory>
    ensures { IfOk result (λ made. made ≡ range_with_len 1 count) }
{
    let mut made = Items::new(alloc);
    for before in 0..count {
        made.push(before + 1)?;
    }
    Ok(made)
}

/// Tells a node of a decision.
fn decide_to(alloc: Global, me: u8, found: &Chosen, to: u8) -> Result<Message, NoMemory>
    ensures { IfOk result (λ made. made ≡ decide_to me found.now to) }
{
    let group = found.group.copy(alloc)?;
    let entry = found.entry.copy(alloc)?;
    let body = Body::Decide {
        group,
        position: Position(found.position),
        entry,
    };
    Ok(Message { from: me, to, body })
}

/// Tells these nodes of a decision.
fn decide_to_all(
    alloc: Global,
    me: u8,
    found: &Chosen,
    nodes: &[u8],
) -> Result<Items<Message>, NoMemory>
    ensures { IfOk result (λ sends. sends ≡ map (decide_to me found.now) nodes.now) }
{
    let mut sends = Items::new(alloc);
    for node in nodes {
        let message = decide_to(alloc, me, found, *node)?;
        sends.push(message)?;
    }
    Ok(sends)
}

/// Tells all other nodes of a decision, if there is one. Members are never more than 255.
fn news(
    alloc: Global,
    members: &Members,
    me: u8,
    found: &Option<Chosen>,
) -> Result<Items<Message>, NoMemory>
    ensures { IfOk result (λ sends. (s : Setting) → s.cluster ≡ members.now → s.me ≡ me → sends ≡ news s found.now) }
{
    match found {
        Some(found) => {
            let count = members.cluster().nodes.len();
            if count > 255 {
                return Err(NoMemory);
            }
            let nodes = nodes(alloc, count as u8)?;
            let others = others(alloc, me, nodes.as_slice())?;
            decide_to_all(alloc, me, found, others.as_slice())
        }
        None => Ok(Items::new(alloc)),
    }
}

/// Tells all other nodes of a decision that no message told.
pub fn news_by(
    alloc: Global,
    members: &Members,
    me: u8,
    body: &Body,
    found: &Option<Chosen>,
) -> Result<Items<Message>, NoMemory>
    ensures { IfOk result (λ sends. (s : Setting) → s.cluster ≡ members.now → s.me ≡ me → sends ≡ news_by s (told_decision body.now) found.now) }
{
    if tells_decision(body) {
        return Ok(Items::new(alloc));
    }
    news(alloc, members, me, found)
}
