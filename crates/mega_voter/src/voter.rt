//! The logs of a voter, which tell what its node met: each call notes it and stages its item.
ghost use Rattle.std.specs.Prelude.{◌≡◌, ◌+◌, ◌<◌, ◌++◌, ◌∷◌, [], ℕ, List, true, IfOk, OnOk, OnErr, Err, if◌then◌else◌, is_none};
ghost use Rattle.std.specs.List.{list_all};
ghost use Rattle.mega_wal.specs.declared.item.JournalItem.{JournalItem as Item};
ghost use Rattle.mega_wal.specs.declared.item.JournalItem.TheVariants.{Decide, Grant, Lapse, Start};
ghost use Rattle.mega_wal.specs.Compaction.{IsOfFormat};
ghost use Rattle.mega_wal.specs.History.{by_decide};
ghost use Rattle.mega_wal.specs.Items.{IsItem};
ghost use Rattle.mega_wire.specs.Messages.{IsBody};
ghost use Rattle.mega_rules.specs.Clock.{start_of};
ghost use Rattle.mega_rules.specs.Logs.{decided};
ghost use Rattle.mega_rules.specs.Met.{Met, Decides, Grants, Lapses, Sends, Starts};
ghost use Rattle.mega_rules.specs.Steps.{onto};
ghost use Rattle.mega_voter.specs.Holding.{Recalls, is_no_start};
ghost use Rattle.mega_voter.specs.Journal.{items_in};
ghost use Rattle.mega_voter.specs.Telling.{IsAnswer, Tells};

use mega_base::{Copied, Epoch, GroupId, NodeId, Position};
use mega_disk::Records;
use mega_entry::Entry;
use mega_wal::{LogFault, Logs};
use mega_wire::{Body, Message};
use std::alloc::Global;

/// The logs of a voter, which tell what its node met. A call notes what the node met in memory and stages its item of
/// the journal; the logs make a record of what is staged, which leaves what is told.
#[derive(Drop)]
pub struct Voter<R: Records> {
    pub logs: Logs<R>,
}

impl<R: Records> Voter<R> {
    /// A voter with these logs.
    pub fn new(logs: Logs<R>) -> Voter<R>
        ensures { result.logs ≡ logs }
    {
        Voter { logs }
    }

    /// The logs, as the voter left them.
    pub fn close(self) -> Logs<R>
        ensures { result ≡ self.logs }
    {
        let Voter { logs } = self;
        logs
    }

    /// Notes that the node starts once more, with the number behind the count of starts, and shows what it owes to a step that
    /// was cut off (`counted`).
    #[tactic(auto, using(crate::proofs::KeptTells::begun_told, crate::proofs::KeptTells::still_told))]
    pub fn begins(&mut self, alloc: Global) -> Result<(), LogFault>
        requires { self.old.logs.kept.starts < 4294967295 }
        ensures state { OnOk result ((met : List Met) → Tells self.old.logs.kept met → Tells self.new.logs.kept (Starts (start_of met + 1) ∷ met)) }
        ensures counted { OnOk result ((starts : ℕ) (met owed : List Met) → list_all is_no_start owed ≡ true → Recalls self.old.logs.kept starts (onto owed met) → Tells self.new.logs.kept (onto owed (Starts (starts + 1) ∷ met))) }
        ensures staged { OnOk result (self.new.logs.staged.items ≡ self.old.logs.staged.items ++ Start ∷ []) }
        ensures memory { OnErr result (result ≡ Err LogFault.NoMemory) }
        ensures err { OnErr result ((met : List Met) → Tells self.old.logs.kept met → Tells self.new.logs.kept met) }
        ensures left { OnErr result (self.new.logs.staged.items ≡ self.old.logs.staged.items) }
        ensures format { IsOfFormat self.old.logs.kept → IsOfFormat self.new.logs.kept }
        ensures records { self.new.logs.records ≡ self.old.logs.records }
    {
        self.logs.begin(alloc)?;
        Ok(())
    }

    /// Notes that the node sends a message. A promise and a vote, which are to be what the voter answers now, are kept;
    /// any other message changes nothing.
    #[tactic(auto, using(crate::proofs::KeptTells::still_told, crate::proofs::KeptTells::silent_told))]
    pub fn sent(&mut self, alloc: Global, message: &Message) -> Result<(), LogFault>
        ensures state { OnOk result ((met : List Met) → IsAnswer met message.now.body → Tells self.old.logs.kept met → Tells self.new.logs.kept (Sends message.now ∷ met)) }
        ensures staged { OnOk result ((met : List Met) → IsAnswer met message.now.body → Tells self.old.logs.kept met → self.new.logs.staged.items ≡ self.old.logs.staged.items ++ items_in message.now.body) }
        ensures memory { OnErr result (result ≡ Err LogFault.NoMemory) }
        ensures err { OnErr result ((met : List Met) → Tells self.old.logs.kept met → Tells self.new.logs.kept met) }
        ensures left { OnErr result (self.new.logs.staged.items ≡ self.old.logs.staged.items) }
        ensures format { IsOfFormat self.old.logs.kept → IsBody message.now.body → IsOfFormat self.new.logs.kept }
        ensures records { self.new.logs.records ≡ self.old.logs.records }
    {
        match &message.body {
            Body::Promise {
                group,
                position,
                ballot,
                ..
            } => {
                let _answer = self.logs.promise(alloc, group, *position, *ballot)?;
                Ok(())
            }
            Body::Accepted {
                group,
                position,
                ballot,
                entry,
                ..
            } => {
                let entry = entry.copy(alloc)?;
                let _answer = self.logs.accept(alloc, group, *position, *ballot, entry)?;
                Ok(())
            }
            _ => Ok(()),
        }
    }

    /// Notes that an entry is decided at a position, from 1 on. Where one was decided there before the answer is false,
    /// and nothing changes.
    #[tactic(auto, using(crate::proofs::KeptTells::still_told))]
    pub fn decides(
        &mut self,
        alloc: Global,
        group: &GroupId,
        position: Position,
        entry: Entry,
    ) -> Result<bool, LogFault>
        ensures exact { IfOk result (λ new. (met : List Met) → Tells self.old.logs.kept met → new ≡ is_none (decided met group.now position.0)) }
        ensures state { IfOk result (λ new. (met : List Met) → 0 < position.0 → Tells self.old.logs.kept met → Tells self.new.logs.kept (if new then Decides group.now position.0 entry ∷ met else met)) }
        ensures staged { IfOk result (λ new. self.new.logs.staged.items ≡ self.old.logs.staged.items ++ by_decide new (Decide group.now position entry)) }
        ensures memory { OnErr result (result ≡ Err LogFault.NoMemory) }
        ensures err { OnErr result ((met : List Met) → Tells self.old.logs.kept met → Tells self.new.logs.kept met) }
        ensures left { OnErr result (self.new.logs.staged.items ≡ self.old.logs.staged.items) }
        ensures format { IsOfFormat self.old.logs.kept → IsItem (Decide group.now position entry) → IsOfFormat self.new.logs.kept }
        ensures records { self.new.logs.records ≡ self.old.logs.records }
    {
        let new = self.logs.decide(alloc, group, position, entry)?;
        Ok(new)
    }

    /// Notes that the node's lock cell grants an epoch to a node.
    #[tactic(auto, using(crate::proofs::KeptTells::granting_told, crate::proofs::KeptTells::still_told))]
    pub fn grants(&mut self, alloc: Global, node: NodeId, epoch: Epoch) -> Result<(), LogFault>
        ensures state { OnOk result ((met : List Met) → Tells self.old.logs.kept met → Tells self.new.logs.kept (Grants node.0 epoch ∷ met)) }
        ensures staged { OnOk result (self.new.logs.staged.items ≡ self.old.logs.staged.items ++ Grant node epoch ∷ []) }
        ensures memory { OnErr result (result ≡ Err LogFault.NoMemory) }
        ensures err { OnErr result ((met : List Met) → Tells self.old.logs.kept met → Tells self.new.logs.kept met) }
        ensures left { OnErr result (self.new.logs.staged.items ≡ self.old.logs.staged.items) }
        ensures format { IsOfFormat self.old.logs.kept → IsItem (Grant node epoch) → IsOfFormat self.new.logs.kept }
        ensures records { self.new.logs.records ≡ self.old.logs.records }
    {
        self.logs.grant(alloc, node, epoch)
    }

    /// Notes that an epoch lapses which the node's lock cell granted to a node.
    #[tactic(auto, using(crate::proofs::KeptTells::lapsing_told, crate::proofs::KeptTells::still_told))]
    pub fn lapses(&mut self, alloc: Global, node: NodeId, epoch: Epoch) -> Result<(), LogFault>
        ensures state { OnOk result ((met : List Met) → Tells self.old.logs.kept met → Tells self.new.logs.kept (Lapses node.0 epoch ∷ met)) }
        ensures staged { OnOk result (self.new.logs.staged.items ≡ self.old.logs.staged.items ++ Lapse node epoch ∷ []) }
        ensures memory { OnErr result (result ≡ Err LogFault.NoMemory) }
        ensures err { OnErr result ((met : List Met) → Tells self.old.logs.kept met → Tells self.new.logs.kept met) }
        ensures left { OnErr result (self.new.logs.staged.items ≡ self.old.logs.staged.items) }
        ensures format { IsOfFormat self.old.logs.kept → IsItem (Lapse node epoch) → IsOfFormat self.new.logs.kept }
        ensures records { self.new.logs.records ≡ self.old.logs.records }
    {
        self.logs.lapse(alloc, node, epoch)
    }
}
