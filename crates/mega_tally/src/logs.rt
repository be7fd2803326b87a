//! Which positions of each group each node decided.
ghost use Rattle.std.specs.Prelude.{◌≡◌, ◌∷◌, ℕ, Bool, List, IfOk, OnOk, Some, None, if◌then◌else◌};
ghost use Rattle.std.specs.Ordering.{is_eq};
ghost use Rattle.std.specs.BTreeMap.{get};
ghost use Rattle.mega_entry.specs.declared.content.Content.{Content};
ghost use Rattle.mega_transcript.specs.declared.item.Item.{Item as OnTape};
ghost use Rattle.mega_transcript.specs.declared.item.Item.TheVariants.{Decide};
ghost use Rattle.mega_transcript.specs.Counts.{prefix_of};
ghost use Rattle.mega_tally.specs.Reaching.{Reaches, ReachesOrNone, Widens};
ghost use Rattle.mega_tally.specs.Following.{Decides, Follows, Log as LogValue, log_cmp};

use crate::reach::Reach;
use mega_base::{Copied, GroupId, NoMemory, NodeId, Position};
use std::alloc::Global;
use std::collections::BTreeMap;

/// A group at a node.
type Log = (GroupId, u8);

/// What is kept of each group at each node.
pub(crate) type Logs = BTreeMap<Log, Reach>;

/// Nothing is kept.
pub(crate) fn no_logs(alloc: Global) -> Logs
    ensures { (log : LogValue) → get log_cmp result log ≡ None }
{
    BTreeMap::new(alloc)
}

/// What is kept of a log, which is taken out.
fn taken(logs: &mut Logs, log: &Log) -> Option<Reach>
    ensures found { result ≡ get log_cmp logs.old log.now }
    ensures left { (other : LogValue) → get log_cmp logs.new other ≡ (if is_eq (log_cmp log.now other) then None else get log_cmp logs.old other) }
{
    logs.remove(log)
}

/// Keeps this of a log.
fn keep(logs: &mut Logs, log: Log, reach: Reach) -> Result<(), NoMemory>
    ensures { OnOk result ((other : LogValue) → get log_cmp logs.new other ≡ (if is_eq (log_cmp log other) then Some reach else get log_cmp logs.old other)) }
{
    logs.insert(log, reach)?;
    Ok(())
}

/// What was kept of a log, or nothing.
fn reach_of(alloc: Global, kept: Option<Reach>) -> Reach
    ensures { (test : ℕ → Bool) (most : ℕ) → ReachesOrNone kept test most → Reaches result test most }
{
    match kept {
        Some(reach) => reach,
        None => Reach::new(alloc),
    }
}

/// What is kept of a log with one position more, and through which one all are decided then.
#[derive(Drop)]
struct Widened {
    reach: Reach,
    last: u64,
}

/// One position more of what was kept of a log, if anything was.
fn make_widened(alloc: Global, kept: Option<Reach>, position: u64) -> Result<Widened, NoMemory>
    ensures { IfOk result (λ made. Widens kept made.reach position made.last) }
{
    let mut reach = reach_of(alloc, kept);
    match reach.decide(position) {
        Ok(last) => Ok(Widened { reach, last }),
        Err(refused) => Err(refused),
    }
}

/// A position of a log is decided; gives through which one all are then.
fn decide_in(alloc: Global, logs: &mut Logs, log: Log, position: u64) -> Result<u64, NoMemory>
    ensures { IfOk result (λ last. Decides logs.old logs.new log position last) }
{
    let kept = taken(logs, &log);
    match make_widened(alloc, kept, position) {
        Ok(made) => {
            let Widened { reach, last } = made;
            keep(logs, log, reach)?;
            Ok(last)
        }
        Err(refused) => Err(refused),
    }
}

/// A position of a group is decided at a node; gives through which one all are there.
pub(crate) fn decide(
    alloc: Global,
    logs: &mut Logs,
    node: NodeId,
    group: &GroupId,
    position: Position,
) -> Result<u64, NoMemory>
    ensures follows { IfOk result (λ last. (tape : List OnTape) (entry : Content) → Follows logs.old tape → Follows logs.new (Decide node group.now position entry ∷ tape)) }
    ensures through { IfOk result (λ last. (tape : List OnTape) (entry : Content) → Follows logs.old tape → last ≡ prefix_of (Decide node group.now position entry ∷ tape) group.now node.0) }
{
    let own = group.copy(alloc)?;
    match decide_in(alloc, logs, (own, node.0), position.0) {
        Ok(last) => Ok(last),
        Err(refused) => Err(refused),
    }
}
