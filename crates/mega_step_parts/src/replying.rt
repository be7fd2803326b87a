//! The one reply to what a node is asked.
ghost use Rattle.std.specs.Prelude.{◌≡◌, if◌then◌else◌, List, None, IfOk};
ghost use Rattle.mega_rules.specs.Met.{Met};
ghost use Rattle.mega_rules.specs.Replies.{reply_message};
ghost use Rattle.mega_step_work.specs.of_voter.Telling.{Tells};
ghost use Rattle.mega_step_parts.specs.Replying.{or_reply, vote_reply};

use mega_base::{Copied, Items, NoMemory};
use mega_disk::Records;
use mega_step_work::mega_voter::Voter;
use mega_wire::{Body, Message};
use std::alloc::Global;

/// The reply of the voter to what it is asked.
fn vote_reply<R: Records>(
    alloc: Global,
    voter: &Voter<R>,
    body: &Body,
) -> Result<Option<Body>, NoMemory>
    ensures { IfOk result (λ reply. (met : List Met) → Tells voter.now.logs.kept met → reply ≡ vote_reply met body.now) }
{
    match body {
        Body::Where { op, group } => {
            let position = voter.top(group);
            let group = group.copy(alloc)?;
            Ok(Some(Body::Top {
                op: *op,
                group,
                position,
            }))
        }
        Body::Accept {
            op,
            group,
            position,
            ballot,
            entry,
        } => {
            let reply = voter.voted(alloc, *op, group, *position, *ballot, entry)?;
            Ok(Some(reply))
        }
        Body::Prepare {
            op,
            group,
            position,
            ballot,
        } => {
            let reply = voter.prepared(alloc, *op, group, *position, *ballot)?;
            Ok(Some(reply))
        }
        Body::Fetch {
            op,
            group,
            position,
        } => {
            let reply = voter.fetched(alloc, *op, group, *position)?;
            Ok(Some(reply))
        }
        _ => Ok(None),
    }
}

/// The reply of a node to what is asked of voters, if it votes.
pub fn own_reply<R: Records>(
    alloc: Global,
    voter: &Voter<R>,
    votes: bool,
    body: &Body,
) -> Result<Option<Body>, NoMemory>
    ensures { IfOk result (λ reply. (met : List Met) → Tells voter.now.logs.kept met → reply ≡ (if votes then vote_reply met body.now else None)) }
{
    if votes {
        return vote_reply(alloc, voter, body);
    }
    Ok(None)
}

/// The first reply, or else the other.
fn or_reply(reply: Option<Body>, other: Option<Body>) -> Option<Body>
    ensures { result ≡ or_reply reply other }
{
    match reply {
        Some(body) => Some(body),
        None => other,
    }
}

/// The reply goes to this node, if there is one.
pub fn reply_message(
    alloc: Global,
    me: u8,
    to: u8,
    reply: Option<Body>,
    other: Option<Body>,
) -> Result<Items<Message>, NoMemory>
    ensures { IfOk result (λ sends. sends ≡ reply_message me to (or_reply reply other)) }
{
    let mut sends = Items::new(alloc);
    match or_reply(reply, other) {
        Some(body) => {
            sends.push(Message { from: me, to, body })?;
            Ok(sends)
        }
        None => Ok(sends),
    }
}
