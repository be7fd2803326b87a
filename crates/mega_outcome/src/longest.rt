//! The longest entry that comes of a transaction, against the limit of an entry.
ghost use Rattle.std.specs.Prelude.{◌≡◌, ◌+◌, [], length, fold, max, IfOk};
ghost use Rattle.mega_index.specs.of_entry.declared.content.Send.{Send as SendSeen};
ghost use Rattle.mega_index.specs.Fitted.{enter_length};
ghost use Rattle.mega_outcome.specs.Outcome.{entry_length, longest, unless_large};
ghost use Rattle.mega_outcome.specs.Lengths.{writes_length, sends_length, cuts_length};
ghost use Rattle.mega_outcome.specs.Steps.{IsInside};

use crate::answer::{Done, Turn};
use crate::lengths::{message_length, sends_length, sum, writes_length};
use mega_base::NoMemory;
use mega_index::mega_entry::{Send, Write};

/// The most bytes that an entry may have.
pub const MOST_BYTES: u64 = 32768;

/// The length of an operation's entry, by the lengths of its writes, its sends and its cuts.
pub fn entry_length(writes: u64, sends: u64, cuts: u64) -> Result<u64, NoMemory>
    ensures { IfOk result (λ n. n ≡ 28 + (writes + (sends + cuts))) }
{
    sum(28, sum(writes, sum(sends, cuts)?)?)
}

/// The length of the entry that enters a message of this group.
#[tactic(auto, using(crate::proofs::Sizes::enter_length))]
fn enter_length(group: &[u8], send: &Send) -> Result<u64, NoMemory>
    ensures { IfOk result (λ n. n ≡ enter_length group.now send.now) }
{
    sum(44, sum(group.len() as u64, message_length(send)?)?)
}

/// The length of the longest entry that comes of a transaction: its own, or one that enters a message of it.
#[tactic(auto, using(crate::proofs::Sizes::longest_is))]
fn longest(group: &[u8], writes: &[Write], sends: &[Send]) -> Result<u64, NoMemory>
    ensures { IfOk result (λ n. n ≡ longest group.now writes.now sends.now) }
{
    let own = entry_length(writes_length(writes)?, sends_length(sends)?, 0)?;
    longer(group, own, sends)
}

/// The greatest of a length and those of the entries that enter these messages.
fn longer(group: &[u8], own: u64, sends: &[Send]) -> Result<u64, NoMemory>
    ensures { IfOk result (λ n. n ≡ fold (λ most (send : SendSeen). max most (enter_length group.now send)) own sends.now) }
{
    let mut most = own;
    for send in sends {
        most = most.max(enter_length(group, send)?);
    }
    Ok(most)
}

/// What is done, unless an entry would be too long.
pub fn unless_large(group: &[u8], done: Done) -> Result<Result<Done, Turn>, NoMemory>
    ensures exact { IfOk result (λ answer. answer ≡ unless_large (longest group.now done.writes done.sends) done) }
    ensures inside { IfOk result IsInside }
{
    let bytes = longest(group, done.writes.as_slice(), done.sends.as_slice())?;
    if MOST_BYTES < bytes {
        return Ok(Err(Turn::TooLarge { bytes }));
    }
    Ok(Ok(done))
}
