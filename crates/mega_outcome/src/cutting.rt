//! The cut of a batch's next transaction, and the length of the entry with it.
ghost use Rattle.std.specs.Prelude.{◌≡◌, ◌<◌, ◌++◌, ◌∷◌, [], length, IfOk};
ghost use Rattle.mega_outcome.specs.Outcome.{taken, batch_length, entry_cuts};
ghost use Rattle.mega_outcome.specs.Lengths.{cuts_length};

use crate::answer::{Batch, Done};
use crate::lengths::{sends_length, sum, writes_length};
use crate::longest::entry_length;
use mega_base::NoMemory;
use mega_index::mega_entry::Cut;

/// The cut of a transaction that is taken next.
pub fn cut_of(batch: &Batch, done: &Done) -> Result<Cut, NoMemory>
    requires { length batch.now.results < 256 }
    ensures { IfOk result (λ cut. cut ≡ record { index = length batch.now.results; writes = length done.now.writes; sends = length done.now.sends }) }
{
    let index = batch.results.len() as u8;
    match (
        u32::try_from(done.writes.len()),
        u32::try_from(done.sends.len()),
    ) {
        (Ok(writes), Ok(sends)) => Ok(Cut {
            index,
            writes,
            sends,
        }),
        _ => Err(NoMemory),
    }
}

/// The length of the cuts of a batch's entry, of which this is the last: none where transaction 0 alone was taken.
#[tactic(auto, using(crate::proofs::Sizes::cut_lengths))]
fn cuts_length(cuts: &[Cut], last: &Cut) -> Result<u64, NoMemory>
    ensures { IfOk result (λ n. n ≡ cuts_length (entry_cuts (cuts.now ++ last.now ∷ []))) }
{
    match cuts {
        [] if last.index == 0 => Ok(0),
        [] => Ok(13),
        [_, ..] => match (cuts.len() as u64).checked_mul(9) {
            Some(bytes) => sum(bytes, 13),
            None => Err(NoMemory),
        },
    }
}

/// The length of a batch's entry with one transaction more.
#[tactic(auto, using(crate::proofs::Sizes::batch_is))]
pub fn batch_length(batch: &Batch, done: &Done, cut: &Cut) -> Result<u64, NoMemory>
    requires { cut.now ≡ record { index = length batch.now.results; writes = length done.now.writes; sends = length done.now.sends } }
    ensures { IfOk result (λ n. n ≡ batch_length (taken batch.now done.now)) }
{
    let writes = sum(
        writes_length(batch.writes.as_slice())?,
        writes_length(done.writes.as_slice())?,
    )?;
    let sends = sum(
        sends_length(batch.sends.as_slice())?,
        sends_length(done.sends.as_slice())?,
    )?;
    entry_length(writes, sends, cuts_length(batch.cuts.as_slice(), cut)?)
}
