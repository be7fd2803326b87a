//! A node of a world that is up, over logs and rows in memory, with the fuse on its log.
ghost use Rattle.std.specs.Prelude.{◌≡◌, ◌≢◌, ◌⊎◌, ◌+◌, ℕ, Err, Option};
ghost use Rattle.mega_cluster.specs.declared.cluster.Cluster.{Cluster};
ghost use Rattle.mega_rules.specs.Clock.{clock_of};
ghost use Rattle.mega_rules.specs.Operations.{Node as RuleNode};
ghost use Rattle.mega_durable.specs.of_core.of_step_parts.Events.{event_of};
ghost use Rattle.mega_promises.specs.Runs.{Fuse, after_append, new_fuse};
ghost use Rattle.mega_places.specs.declared.fault.WorldFault.TheVariants.{Limit, Refused};
ghost use Rattle.mega_places.specs.declared.not_made.NotMade.TheVariants.{Fault};
ghost use Rattle.mega_places.specs.LogFuses.{HasRoom, IsFused, run_fuse};
ghost use Rattle.mega_places.specs.Members.{IsMember, records_of};
ghost use Rattle.mega_places.specs.Stepping.{AtEachNode, IsSome, Outcome};

use crate::fault::{fault_of, log_fault_of};
use crate::log_fuse::{LogFuse, after_append};
use crate::not_made::NotMade;
use mega_disk::MemRecords;
use mega_durable::mega_core::mega_step_parts::{Event, Step};
use mega_durable::{Up, UpFault};
use mega_meanings::QueueHandlers;
use mega_rows::VersionedRows;
use std::alloc::Global;

/// A node that is up, and the fuse that is set on its log.
#[derive(Drop)]
pub struct Member {
    pub(crate) up: Up<MemRecords, VersionedRows>,
    pub(crate) fuse: Option<LogFuse>,
}

/// A fuse, if one is set, where there were so many records before and are so many now.
fn counted(fuse: Option<LogFuse>, before: u64, now: u64) -> Option<LogFuse>
    ensures same { before ≡ now → result ≡ fuse }
    ensures more { now ≡ before + 1 → HasRoom (run_fuse fuse) → run_fuse result ≡ after_append (run_fuse fuse) }
{
    if before < now {
        return after_append(fuse);
    }
    fuse
}

impl Member {
    /// The last time that the clock of the node showed in this start.
    pub fn clock(&self) -> u64
        ensures { (c : Cluster) (me : ℕ) (ruled : RuleNode) → IsMember c me self.now ruled → result ≡ clock_of ruled.met }
    {
        self.up.clock()
    }

    /// The node makes the step of an event.
    pub fn step<H: QueueHandlers>(
        &mut self,
        alloc: Global,
        handlers: &mut H,
        event: Event<'_>,
    ) -> Result<Step, NotMade>
        requires known { IsSome (H.meant handlers.old) self.old (event_of event) }
        ensures made { AtEachNode (H.meant handlers.old) self.old (event_of event.entry) (λ c h me ruled fuse. Outcome c h me ruled (event_of event.entry) fuse self.new result) }
        ensures handlers { H.meant handlers.new ≡ H.meant handlers.old }
        ensures served { (why : ℕ) → result ≢ Err (Fault (Refused why)) }
        ensures limited { result ≢ Err (Fault Limit) }
    {
        let before = self.up.records();
        match self.up.step(alloc, handlers, event) {
            Ok(made) => {
                self.fuse = counted(self.fuse, before, self.up.records());
                Ok(made)
            }
            Err(UpFault::Cut(cut)) => Err(NotMade::Cut(cut)),
            Err(UpFault::Step(fault)) => Err(NotMade::Fault(fault_of(fault))),
            Err(UpFault::Log(fault)) => Err(NotMade::Fault(log_fault_of(fault))),
            Err(UpFault::Unformed) => unreachable!(),
        }
    }

    /// A fuse is set on the log of the node.
    pub fn set_fuse(&mut self, calls: u64, image: u8)
        ensures member { (c : Cluster) (me : ℕ) (ruled : RuleNode) → IsMember c me self.old ruled → IsMember c me self.new ruled }
        ensures fused { (fuse : Option Fuse) → IsFused self.old.fuse (records_of self.old) fuse → IsFused self.new.fuse (records_of self.new) (new_fuse calls image) }
    {
        self.up.fuse(calls, image);
        self.fuse = Some(LogFuse {
            calls,
            image,
            appended: 0,
        });
    }
}
