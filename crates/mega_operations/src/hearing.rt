//! What an operation comes to when its node takes a message or ticks.
ghost use Rattle.std.specs.Prelude.{◌≡◌, IfOk};
ghost use Rattle.mega_propose.specs.Rounds.{due, takes};
ghost use Rattle.mega_read.specs.Catching.{falls_due, hears, site};
ghost use Rattle.mega_rules.specs.Acting.{reader_of};
ghost use Rattle.mega_rules.specs.Operations.{Setting};
ghost use Rattle.mega_rules.specs.Steps.{does_due, hears_message};

use crate::members::Members;
use crate::operation::{Heard, Operation};
use crate::phase::Phase;
use mega_base::{GroupId, Items, NoMemory, OpId};
use mega_propose::Proposal;
use mega_read::Reading;
use mega_wire::Message;
use std::alloc::Global;

/// What the read of an operation comes to when its node takes a message, at a clock.
fn read_hears(
    alloc: Global,
    members: &Members,
    op: OpId,
    group: &GroupId,
    reading: Reading,
    now: u64,
    taken: &Message,
) -> Result<mega_read::Move, NoMemory>
    ensures { (s : Setting) → s.cluster ≡ members.now → IfOk result (λ made. made ≡ hears (reader_of s op group.now) reading taken.now.from now taken.now.body) }
{
    match members.reader(alloc, op, group) {
        Ok(who) => {
            let made = reading.hears(alloc, &who, taken.from, now, &taken.body)?;
            Ok(made)
        }
        Err(refused) => {
            drop(reading);
            Err(refused)
        }
    }
}

/// What the round of an operation comes to when its node takes a message, at a clock.
fn round_hears(
    alloc: Global,
    members: &Members,
    op: OpId,
    group: &GroupId,
    asked: &Items<u8>,
    position: u64,
    proposal: Proposal,
    now: u64,
    taken: &Message,
) -> Result<mega_propose::Move, NoMemory>
    ensures { (s : Setting) → s.cluster ≡ members.now → IfOk result (λ made. made ≡ takes (site (reader_of s op group.now) asked.now position) proposal taken.now.from now taken.now.body) }
{
    match members.site(alloc, op, group, asked, position) {
        Ok(site) => {
            let made = proposal.takes(alloc, &site, taken.from, now, &taken.body)?;
            Ok(made)
        }
        Err(refused) => {
            drop(proposal);
            Err(refused)
        }
    }
}

/// What the read of an operation comes to at a tick.
fn read_due(
    alloc: Global,
    members: &Members,
    op: OpId,
    group: &GroupId,
    reading: Reading,
    now: u64,
) -> Result<mega_read::Move, NoMemory>
    ensures { (s : Setting) → s.cluster ≡ members.now → IfOk result (λ made. made ≡ falls_due (reader_of s op group.now) reading s.cluster.retry now) }
{
    let retry = members.cluster().retry;
    match members.reader(alloc, op, group) {
        Ok(who) => {
            let made = reading.falls_due(alloc, &who, retry, now)?;
            Ok(made)
        }
        Err(refused) => {
            drop(reading);
            Err(refused)
        }
    }
}

/// What the round of an operation comes to at a tick.
fn round_due(
    alloc: Global,
    members: &Members,
    op: OpId,
    group: &GroupId,
    asked: &Items<u8>,
    position: u64,
    proposal: Proposal,
    now: u64,
) -> Result<mega_propose::Move, NoMemory>
    ensures { (s : Setting) → s.cluster ≡ members.now → IfOk result (λ made. made ≡ due (site (reader_of s op group.now) asked.now position) proposal s.cluster.retry now) }
{
    let retry = members.cluster().retry;
    match members.site(alloc, op, group, asked, position) {
        Ok(site) => {
            let made = proposal.due(alloc, &site, retry, now)?;
            Ok(made)
        }
        Err(refused) => {
            drop(proposal);
            Err(refused)
        }
    }
}

impl Operation {
    /// What the operation comes to when its node takes a message, at a clock.
    pub fn hears(
        self,
        alloc: Global,
        members: &Members,
        now: u64,
        taken: &Message,
    ) -> Result<Heard, NoMemory>
        ensures { (s : Setting) → s.cluster ≡ members.now → IfOk result (λ heard. heard ≡ hears_message s now taken.now self) }
    {
        let (kept, phase) = self.parts();
        match phase {
            Phase::Reads { group, reading } => {
                match read_hears(alloc, members, kept.id, &group, reading, now, taken) {
                    Ok(made) => Ok(kept.reads(group, made)),
                    Err(refused) => {
                        drop(kept);
                        drop(group);
                        Err(refused)
                    }
                }
            }
            Phase::Proposes {
                group,
                position,
                asked,
                proposal,
                promised,
            } => match round_hears(
                alloc, members, kept.id, &group, &asked, position, proposal, now, taken,
            ) {
                Ok(made) => Ok(kept.proposes(group, position, asked, promised, made)),
                Err(refused) => {
                    drop(kept);
                    drop(group);
                    drop(asked);
                    drop(promised);
                    Err(refused)
                }
            },
        }
    }

    /// What the operation comes to at a tick: it does what is due.
    pub fn does_due(self, alloc: Global, members: &Members, now: u64) -> Result<Heard, NoMemory>
        ensures { (s : Setting) → s.cluster ≡ members.now → IfOk result (λ heard. heard ≡ does_due s now self) }
    {
        let (kept, phase) = self.parts();
        match phase {
            Phase::Reads { group, reading } => {
                match read_due(alloc, members, kept.id, &group, reading, now) {
                    Ok(made) => Ok(kept.reads(group, made)),
                    Err(refused) => {
                        drop(kept);
                        drop(group);
                        Err(refused)
                    }
                }
            }
            Phase::Proposes {
                group,
                position,
                asked,
                proposal,
                promised,
            } => match round_due(
                alloc, members, kept.id, &group, &asked, position, proposal, now,
            ) {
                Ok(made) => Ok(kept.proposes(group, position, asked, promised, made)),
                Err(refused) => {
                    drop(kept);
                    drop(group);
                    drop(asked);
                    drop(promised);
                    Err(refused)
                }
            },
        }
    }
}
