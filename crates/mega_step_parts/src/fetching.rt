//! What a node with rows asks for in the background: the least missing entry of each group.
ghost use Rattle.std.specs.Prelude.{◌≡◌, ℕ, List, map, flat_map, IfOk};
ghost use Rattle.mega_rules.specs.Clock.{does_again, ticks_of};
ghost use Rattle.mega_rules.specs.Logs.{groups_of};
ghost use Rattle.mega_rules.specs.Members.{has_rows};
ghost use Rattle.mega_rules.specs.Met.{Met};
ghost use Rattle.mega_rules.specs.Operations.{Setting};
ghost use Rattle.mega_rules.specs.Steps.{background, fetches_for};
ghost use Rattle.mega_step_work.specs.of_voter.Telling.{Tells};
ghost use Rattle.mega_step_parts.specs.Fetching.{fetch_message};

use crate::joining::add_sends;
use mega_base::{Copied, GroupId, Items, NoMemory, NodeId, OpId, Position};
use mega_disk::Records;
use mega_propose::others;
use mega_step_work::mega_operations::Members;
use mega_step_work::mega_voter::Voter;
use mega_wire::{Body, Message};
use std::alloc::Global;

/// Asks a node for the entry at a position.
fn fetch_to(
    alloc: Global,
    op: OpId,
    me: u8,
    group: &GroupId,
    position: u64,
    to: u8,
) -> Result<Message, NoMemory>
    ensures { IfOk result (λ made. made ≡ fetch_message op me group.now position to) }
{
    let group = group.copy(alloc)?;
    let body = Body::Fetch {
        op,
        group,
        position: Position(position),
    };
    Ok(Message { from: me, to, body })
}

/// Asks these nodes for the entry at a position.
fn fetch_from_all(
    alloc: Global,
    op: OpId,
    me: u8,
    group: &GroupId,
    position: u64,
    nodes: &[u8],
) -> Result<Items<Message>, NoMemory>
    ensures { IfOk result (λ sends. sends ≡ map (fetch_message op me group.now position) nodes.now) }
{
    let mut sends = Items::new(alloc);
    for node in nodes {
        let message = fetch_to(alloc, op, me, group, position, *node)?;
        sends.push(message)?;
    }
    Ok(sends)
}

/// Asks the other voters for the least missing entry of a group below a decided one.
fn fetches_for<R: Records>(
    alloc: Global,
    voter: &Voter<R>,
    members: &Members,
    me: u8,
    group: &GroupId,
) -> Result<Items<Message>, NoMemory>
    ensures { IfOk result (λ sends. (s : Setting) (met : List Met) → s.cluster ≡ members.now → s.me ≡ me → Tells voter.now.logs.kept met → sends ≡ fetches_for s met group.now) }
{
    let prefix = voter.prefix(group).0;
    if voter.newest(group).0 <= prefix {
        return Ok(Items::new(alloc));
    }
    let op = OpId {
        node: NodeId(me),
        start: voter.start(),
        number: 0,
    };
    let others = others(alloc, me, members.voters())?;
    fetch_from_all(alloc, op, me, group, prefix + 1, others.as_slice())
}

/// Asks the other voters for what is missing of each group.
fn all_fetches<R: Records>(
    alloc: Global,
    voter: &Voter<R>,
    members: &Members,
    me: u8,
) -> Result<Items<Message>, NoMemory>
    ensures { IfOk result (λ sends. (s : Setting) (met : List Met) → s.cluster ≡ members.now → s.me ≡ me → Tells voter.now.logs.kept met → sends ≡ flat_map (fetches_for s met) (groups_of met)) }
{
    let groups = voter.groups(alloc)?;
    let mut sends = Items::new(alloc);
    for group in groups {
        let more = fetches_for(alloc, voter, members, me, &group)?;
        add_sends(&mut sends, more)?;
    }
    Ok(sends)
}

/// What a node with rows asks for in the background, where that is due.
pub fn background<R: Records>(
    alloc: Global,
    voter: &Voter<R>,
    members: &Members,
    me: u8,
    keeps: bool,
    again: bool,
) -> Result<Items<Message>, NoMemory>
    ensures { IfOk result (λ sends. (s : Setting) (met : List Met) (now : ℕ) → s.cluster ≡ members.now → s.me ≡ me → keeps ≡ has_rows s.cluster s.me →
        again ≡ does_again s.cluster.retry (ticks_of met) now → Tells voter.now.logs.kept met → sends ≡ background s met now) }
{
    if keeps && again {
        return all_fetches(alloc, voter, members, me);
    }
    Ok(Items::new(alloc))
}
