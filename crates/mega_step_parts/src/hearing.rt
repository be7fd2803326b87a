//! The open operations hear a message: only one that the message is for is changed by it.
ghost use Rattle.std.specs.Prelude.{◌≡◌, ◌≤◌, ◌++◌, ◌∷◌, [], All, length, map, take, IfOk, OnOk};
ghost use Rattle.mega_rules.specs.Operations.{Setting};
ghost use Rattle.mega_rules.specs.Steps.{hears_message};
ghost use Rattle.mega_step_parts.specs.Listening.{IsPassedBy};

use crate::listening::Listeners;
use mega_base::{Items, NoMemory};
use mega_step_choices::is_for;
use mega_step_work::mega_operations::{Heard, Members, Operation};
use mega_wire::{Body, Message};
use std::alloc::Global;

/// Adds what an open operation comes to when its node takes a message, at a clock: nothing else where the message is not for it.
#[tactic(auto, using(crate::proofs::Unheard::not_for))]
fn hears(
    alloc: Global,
    members: &Members,
    clock: u64,
    message: &Message,
    operation: Operation,
    heard: &mut Items<Heard>,
) -> Result<(), NoMemory>
    ensures { (s : Setting) → s.cluster ≡ members.now → OnOk result (heard.new ≡ heard.old ++ hears_message s clock message.now operation ∷ []) }
{
    if !is_for(operation.id, &message.body) {
        return heard.push(Heard {
            operation,
            sends: Items::new(alloc),
        });
    }
    let one = operation.hears(alloc, members, clock, message)?;
    heard.push(one)
}

/// How many of these operations stand before the first that a message is for: all where it is for none.
fn passed_by(operations: &[Operation], body: &Body) -> usize
    ensures within { result ≤ length operations.now }
    ensures each { All (IsPassedBy body.now) (take result operations.now) }
{
    let mut count = 0;
    for operation in operations {
        if is_for(operation.id, body) {
            return count;
        }
        count += 1;
    }
    count
}

/// What these open operations come to when their node takes a message, at a clock.
fn these_hear(
    alloc: Global,
    members: &Members,
    clock: u64,
    message: &Message,
    operations: Vec<Operation>,
) -> Result<Items<Heard>, NoMemory>
    ensures { IfOk result (λ heard. (s : Setting) → s.cluster ≡ members.now → heard ≡ map (hears_message s clock message.now) operations.items) }
{
    let mut heard = Items::with_capacity(alloc, operations.len())?;
    for operation in operations {
        hears(alloc, members, clock, message, operation, &mut heard)?;
    }
    Ok(heard)
}

/// What the open operations come to when their node takes a message, at a clock.
pub fn all_hear(
    alloc: Global,
    members: &Members,
    clock: u64,
    message: &Message,
    operations: Items<Operation>,
) -> Result<Listeners, NoMemory>
    ensures { IfOk result (λ heard. (s : Setting) → s.cluster ≡ members.now → heard ≡ map (hears_message s clock message.now) operations) }
{
    let mut unmoved = operations.into_vec();
    let count = passed_by(unmoved.as_slice(), &message.body);
    let rest = unmoved.split_off(count)?;
    let heard = these_hear(alloc, members, clock, message, rest)?;
    Ok(Listeners {
        unmoved: Items::from_vec(unmoved),
        heard,
    })
}
