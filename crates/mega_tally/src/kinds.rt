//! Which items are counted, and how many of each kind there are.
ghost use Rattle.std.specs.Prelude.{◌≡◌, IfOk};
ghost use Rattle.mega_tally.specs.Kinds.{kinds_with, plus_if};
ghost use Rattle.mega_transcript.specs.Counts.{is_committed, is_conflict, is_message, is_read, is_unsafe};

use mega_base::NoMemory;
use mega_outcome::Answer;
use mega_transcript::Item;

/// A message that was sent.
#[tactic(auto, unfolding(mega_transcript::specs::Counts::is_message))]
pub(crate) fn is_message(item: &Item) -> bool
    ensures { result ≡ is_message item.now }
{
    matches!(item, Item::Sent { .. })
}

/// An answer that tells of a commit.
#[tactic(auto, unfolding(mega_transcript::specs::Counts::is_committed))]
pub(crate) fn is_committed(item: &Item) -> bool
    ensures { result ≡ is_committed item.now }
{
    matches!(
        item,
        Item::Answer {
            answer: Answer::Committed { .. },
            ..
        }
    )
}

/// An answer that tells of a conflict.
#[tactic(auto, unfolding(mega_transcript::specs::Counts::is_conflict))]
pub(crate) fn is_conflict(item: &Item) -> bool
    ensures { result ≡ is_conflict item.now }
{
    matches!(
        item,
        Item::Answer {
            answer: Answer::Conflict { .. },
            ..
        }
    )
}

/// An answer to a read.
#[tactic(auto, unfolding(mega_transcript::specs::Counts::is_read))]
pub(crate) fn is_read(item: &Item) -> bool
    ensures { result ≡ is_read item.now }
{
    matches!(
        item,
        Item::Answer {
            answer: Answer::Read { .. },
            ..
        }
    )
}

/// The item that tells that leases were unsafe.
#[tactic(auto, unfolding(mega_transcript::specs::Counts::is_unsafe))]
pub(crate) fn is_unsafe(item: &Item) -> bool
    ensures { result ≡ is_unsafe item.now }
{
    matches!(item, Item::Unsafe)
}

/// How many items of each kind came.
#[derive(Clone, Copy, Debug, Drop)]
pub(crate) struct Kinds {
    pub(crate) messages: u64,
    pub(crate) committed: u64,
    pub(crate) conflicts: u64,
    pub(crate) reads: u64,
}

/// The count with one more, where it is such one; refused past the last number.
fn plus_if(such: bool, count: u64) -> Result<u64, NoMemory>
    ensures { IfOk result (λ more. more ≡ plus_if such count) }
{
    if !such {
        return Ok(count);
    }
    match count.checked_add(1) {
        Some(more) => Ok(more),
        None => Err(NoMemory),
    }
}

/// The counts with an item more; refused where one is past the last number.
pub(crate) fn with_item(kinds: Kinds, item: &Item) -> Result<Kinds, NoMemory>
    ensures { IfOk result (λ more. more ≡ kinds_with kinds item.now) }
{
    let messages = plus_if(is_message(item), kinds.messages)?;
    let committed = plus_if(is_committed(item), kinds.committed)?;
    let conflicts = plus_if(is_conflict(item), kinds.conflicts)?;
    let reads = plus_if(is_read(item), kinds.reads)?;
    Ok(Kinds {
        messages,
        committed,
        conflicts,
        reads,
    })
}
