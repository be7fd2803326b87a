//! An operation proposes its own entry, beginning with the leader of the position.
ghost use Rattle.std.specs.Prelude.{◌≡◌, ◌+◌, ◌<◌, ◌^◌, IfOk, Some};
ghost use Rattle.std.specs.List.{list_any};
ghost use Rattle.std.specs.Result.{is_ok};
ghost use Rattle.std.specs.Option.{option_copied};
ghost use Rattle.mega_handler.specs.Named.{Meanings};
ghost use Rattle.mega_operations.specs.Phases.{promised_of};
ghost use Rattle.mega_operations.specs.Whole.{whole};
ghost use Rattle.mega_rules.specs.Clock.{clock_of};
ghost use Rattle.mega_outcome.specs.Outcome.{entry_of_done};
ghost use Rattle.mega_propose.specs.Rounds.{asks};
ghost use Rattle.mega_read.specs.Catching.{asked_by, site};
ghost use Rattle.mega_rules.specs.Operations.{Now, Proposes, Replies};
ghost use Rattle.mega_rules.specs.Acting.{batch_sealed, leader_after, proposes, proposes_by, reader_of, sealed, sends_more, unless_decided};
ghost use Rattle.mega_voter.specs.Telling.{Tells};
ghost use Rattle.mega_step_work.specs.Actions.{does, said};
ghost use Rattle.mega_step_work.specs.Reaching.{operation_of};
ghost use Rattle.mega_step_choices.specs.Settings.{setting};

use crate::action::{Action, End};
use crate::complete_read::CompleteRead;
use mega_base::{GroupId, Items, NoMemory, Position};
use mega_disk::Records;
use mega_entry::Entry;
use mega_operations::{Members, OperationBase, Phase, Promised};
use mega_outcome::{Answer, Batch, Done, Shown, Turn};
use mega_propose::Proposal;
use mega_step_choices::{own_entry, verdict};
use mega_voter::Voter;
use mega_wire::Message;
use std::alloc::Global;

/// An operation that proposes its own entry at a position of a group.
#[derive(Debug, Drop)]
pub struct Proposing {
    pub group: GroupId,
    pub position: u64,
    pub asked: Items<u8>,
    pub proposal: Proposal,
    pub promised: Promised,
}

/// What an operation does that proposes: it ends where its position is decided, and else stays open.
pub fn unless_decided(
    kept: OperationBase,
    own: Proposing,
    sends: Option<Items<Message>>,
    found: Option<&Entry>,
) -> Action
    ensures { (now : Now) → does now result ≡ unless_decided (said now sends) (whole kept (Proposes own.group own.position own.asked own.proposal (promised_of own.promised))) own.position (promised_of own.promised) (option_copied found.entry) }
{
    let Proposing {
        group,
        position,
        asked,
        proposal,
        promised,
    } = own;
    match found {
        Some(entry) => {
            let op = kept.id;
            drop(kept);
            drop(group);
            drop(asked);
            drop(proposal);
            let answer = verdict(op, position, promised, entry);
            Action {
                sends,
                end: End::Ends(op, answer),
            }
        }
        None => {
            let phase = Phase::Proposes {
                group,
                position,
                asked,
                proposal,
                promised,
            };
            let operation = kept.in_phase(phase);
            Action {
                sends,
                end: End::Stays(operation),
            }
        }
    }
}

/// The leader of the position after one: the node that the entry there names, and of position 1 the lowest voter.
fn leader_after<R: Records>(
    members: &Members,
    voter: &Voter<R>,
    group: &GroupId,
    position: u64,
) -> Option<u8>
    ensures { (me : _) (h : Meanings) (now : Now) → Tells voter.now.logs.kept now.met → result ≡ leader_after (setting members.now me h) now group.now position }
{
    if position == 0 {
        return members.voters().get(0).copied();
    }
    match voter.decided(group, Position(position)) {
        Some(entry) => Some(entry.content().leader.0),
        None => members.voters().get(0).copied(),
    }
}

/// A round that begins with the leader of a position: the nodes about which the read asked the cells, and what the round sends.
struct Asking {
    asked: Items<u8>,
    round: mega_propose::Move,
}

/// The round of an operation's own entry at a position, whose leader is asked first.
fn begun(
    alloc: Global,
    members: &Members,
    clock: u64,
    reached: &CompleteRead,
    position: u64,
    leader: u8,
    own: Entry,
) -> Result<Asking, NoMemory>
    ensures asked { IfOk result (λ made. made.asked ≡ asked_by reached.now.reading) }
    ensures round { IfOk result (λ made. (me : _) (h : Meanings) → made.round ≡ asks (site (reader_of (setting members.now me h) reached.now.kept.id reached.now.group) (asked_by reached.now.reading) position) leader own clock) }
{
    let asked = reached.reading.asked_by(alloc)?;
    let site = members.site(alloc, reached.kept.id, &reached.group, &asked, position)?;
    let round = site.asks(alloc, leader, own, clock)?;
    Ok(Asking { asked, round })
}

impl CompleteRead {
    /// The operation proposes at the next position, unless that is decided.
    fn proposing(self, asking: Asking, promised: Promised, found: Option<&Entry>) -> Action
        requires { self.position + 1 < 2 ^ 64 }
        ensures { (now : Now) → does now result ≡ unless_decided (sends_more now asking.round.sends) (whole self.kept (Proposes self.group (self.position + 1) asking.asked asking.round.proposal (promised_of promised))) (self.position + 1) (promised_of promised) (option_copied found.entry) }
    {
        let CompleteRead {
            kept,
            group,
            reading,
            position,
        } = self;
        drop(reading);
        let Asking { asked, round } = asking;
        let mega_propose::Move { proposal, sends } = round;
        let own = Proposing {
            group,
            position: position + 1,
            asked,
            proposal,
            promised,
        };
        unless_decided(kept, own, Some(sends), found)
    }

    /// The operation proposes its own entry at the next position, and asks its leader.
    fn asks<R: Records>(
        self,
        alloc: Global,
        members: &Members,
        voter: &Voter<R>,
        clock: u64,
        own: Entry,
        promised: Promised,
        leader: u8,
    ) -> Result<Action, NoMemory>
        requires { self.position + 1 < 2 ^ 64 }
        ensures { IfOk result (λ action. (me : _) (h : Meanings) (now : Now) → Tells voter.now.logs.kept now.met → clock ≡ clock_of now.met →
            does now action ≡ proposes_by (setting members.now me h) now (operation_of self) self.group self.reading self.position own (promised_of promised) (Some leader)) }
    {
        let position = self.position + 1;
        match begun(alloc, members, clock, &self, position, leader, own) {
            Ok(asking) => {
                let found = voter.decided(&self.group, Position(position));
                Ok(self.proposing(asking, promised, found))
            }
            Err(refused) => {
                drop(self);
                drop(promised);
                Err(refused)
            }
        }
    }

    /// The operation proposes its own entry at the next position.
    pub fn proposes<R: Records>(
        self,
        alloc: Global,
        members: &Members,
        voter: &Voter<R>,
        clock: u64,
        own: Entry,
        promised: Promised,
    ) -> Result<Action, NoMemory>
        requires { self.position + 1 < 2 ^ 64 }
        ensures { IfOk result (λ action. (me : _) (h : Meanings) (now : Now) → Tells voter.now.logs.kept now.met → clock ≡ clock_of now.met →
            does now action ≡ proposes (setting members.now me h) now (operation_of self) self.group self.reading self.position own (promised_of promised)) }
    {
        match leader_after(members, voter, &self.group, self.position) {
            Some(leader) => {
                let action = self.asks(alloc, members, voter, clock, own, promised, leader)?;
                Ok(action)
            }
            None => Ok(self.stays()),
        }
    }

    /// The operation is turned away, or proposes what its transaction comes to.
    pub fn sealed<R: Records>(
        self,
        alloc: Global,
        members: &Members,
        voter: &Voter<R>,
        clock: u64,
        came: Result<Done, Turn>,
    ) -> Result<Action, NoMemory>
        requires { self.position + 1 < 2 ^ 64 }
        ensures { IfOk result (λ action. (me : _) (h : Meanings) (now : Now) → Tells voter.now.logs.kept now.met → clock ≡ clock_of now.met →
            does now action ≡ sealed (setting members.now me h) now (operation_of self) self.group self.reading self.position came) }
    {
        match came {
            Ok(done) => {
                let action = self.seals(alloc, members, voter, clock, done)?;
                Ok(action)
            }
            Err(turn) => Ok(self.ends(Answer::Turned(turn))),
        }
    }

    /// The operation proposes what its transaction does.
    fn seals<R: Records>(
        self,
        alloc: Global,
        members: &Members,
        voter: &Voter<R>,
        clock: u64,
        done: Done,
    ) -> Result<Action, NoMemory>
        requires { self.position + 1 < 2 ^ 64 }
        ensures { IfOk result (λ action. (me : _) (h : Meanings) (now : Now) → Tells voter.now.logs.kept now.met → clock ≡ clock_of now.met →
            does now action ≡ proposes (setting members.now me h) now (operation_of self) self.group self.reading self.position (entry_of_done self.kept.id done) (Replies done.replies)) }
    {
        let Done {
            replies,
            writes,
            sends,
        } = done;
        match own_entry(alloc, self.kept.id, writes, sends, Items::new(alloc)) {
            Ok(own) => {
                let promised = Promised::Replies(replies);
                let action = self.proposes(alloc, members, voter, clock, own, promised)?;
                Ok(action)
            }
            Err(refused) => {
                drop(self);
                drop(replies);
                Err(refused)
            }
        }
    }

    /// The operation ends where all of its batch is turned away, and else proposes what the rest comes to.
    pub fn batch_sealed<R: Records>(
        self,
        alloc: Global,
        members: &Members,
        voter: &Voter<R>,
        clock: u64,
        came: Batch,
    ) -> Result<Action, NoMemory>
        requires { self.position + 1 < 2 ^ 64 }
        ensures { IfOk result (λ action. (me : _) (h : Meanings) (now : Now) → Tells voter.now.logs.kept now.met → clock ≡ clock_of now.met →
            does now action ≡ batch_sealed (setting members.now me h) now (operation_of self) self.group self.reading self.position came) }
    {
        let Batch {
            results,
            writes,
            sends,
            cuts,
        } = came;
        if !is_any_taken(results.as_slice()) {
            drop(writes);
            drop(sends);
            drop(cuts);
            return Ok(self.ends(Answer::AllTurned { results }));
        }
        match own_entry(alloc, self.kept.id, writes, sends, cuts) {
            Ok(own) => {
                let promised = Promised::Results(results);
                let action = self.proposes(alloc, members, voter, clock, own, promised)?;
                Ok(action)
            }
            Err(refused) => {
                drop(self);
                drop(results);
                Err(refused)
            }
        }
    }
}

/// Whether a transaction of a batch is taken.
fn is_any_taken(results: &[Result<Items<Option<Shown>>, Turn>]) -> bool
    ensures { result ≡ list_any is_ok results.now }
{
    results.iter().any(|one| one.is_ok())
}
