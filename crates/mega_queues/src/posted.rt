//! A message on its way.
ghost use Rattle.std.specs.Prelude.{◌≡◌, ◌+◌, ◌++◌, ◌∷◌, [], IfOk, OnOk};
ghost use Rattle.mega_rules.specs.Queues.{posted};

use mega_base::{Copied, GroupId, NoMemory, Position};
use mega_entry::{Enter, Name, Send};
use std::alloc::Global;
use std::marker::Model;

/// A message on its way: to whom it was sent, and what its receiver enters. Contracts see that of the rules.
#[derive(Debug, Drop)]
pub struct Posted {
    pub to: GroupId,
    pub message: Enter,
}

impl Model for Posted {
    ghost use Rattle.mega_rules.specs.Queues as rules;

    ghost Value = { rules.Posted };

    ghost view = { λ p. record { to = p.to; message = p.message } };
}

/// A send as a message, by its place in its sender's entry.
fn post(
    alloc: Global,
    group: &GroupId,
    position: Position,
    place: u32,
    send: &Send,
) -> Result<Posted, NoMemory>
    ensures { IfOk result (λ made. made ≡ record { to = send.now.to; message = record { name = record { group = group.now; position = position; place = place }; queue = send.now.queue; payload = send.now.payload } }) }
{
    let to = send.to.copy(alloc)?;
    let group = group.copy(alloc)?;
    let queue = send.queue.copy(alloc)?;
    let payload = send.payload.copy(alloc)?;
    let name = Name {
        group,
        position,
        place,
    };
    let message = Enter {
        name,
        queue,
        payload,
    };
    Ok(Posted { to, message })
}

/// Adds a send.
fn post_one(
    alloc: Global,
    outbox: &mut Vec<Posted>,
    group: &GroupId,
    position: Position,
    place: u32,
    send: &Send,
) -> Result<(), NoMemory>
    ensures { OnOk result (outbox.new.items ≡ outbox.old.items ++ record { to = send.now.to; message = record { name = record { group = group.now; position = position; place = place }; queue = send.now.queue; payload = send.now.payload } } ∷ []) }
{
    let one = post(alloc, group, position, place, send)?;
    outbox.push(one)?;
    Ok(())
}

/// The place after one; no entry that memory holds has more than those of 32 bits.
fn next_place(place: u32) -> Result<u32, NoMemory>
    ensures { IfOk result (λ next. next ≡ place + 1) }
{
    match place.checked_add(1) {
        Some(next) => Ok(next),
        None => Err(NoMemory),
    }
}

/// Adds the sends of an entry.
#[tactic(auto, using(crate::proofs::Posting::posted_more))]
pub fn post_all(
    alloc: Global,
    outbox: &mut Vec<Posted>,
    group: &GroupId,
    position: Position,
    sends: &[Send],
) -> Result<(), NoMemory>
    ensures { OnOk result (outbox.new.items ≡ outbox.old.items ++ posted group.now position.0 0 sends.now) }
{
    let mut place = 0_u32;
    for send in sends {
        post_one(alloc, outbox, group, position, place, send)?;
        place = next_place(place)?;
    }
    Ok(())
}
