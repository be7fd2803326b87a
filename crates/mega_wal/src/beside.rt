//! Whether an entry may be accepted beside the vote of a voter at the ballot that all operations share.
ghost use Rattle.std.specs.Prelude.{◌≡◌, IfOk};
ghost use Rattle.mega_wal.specs.Acceptor.{answer_beside};

use crate::answers::Voted;
use mega_acceptor::mega_ballot::Ballot;
use mega_acceptor::mega_entry::{Entry, is_same_entry};
use mega_base::{Copied, NoMemory};
use std::alloc::Global;

/// Whether an entry may be accepted beside this vote at the ballot that all share.
pub fn answer_beside(
    alloc: Global,
    vote: &Option<(Ballot, Entry)>,
    entry: &Entry,
) -> Result<Voted, NoMemory>
    ensures { IfOk result (λ answer. answer ≡ answer_beside vote.now entry.now) }
{
    match vote {
        Some((_, accepted)) => {
            if is_same_entry(accepted, entry) {
                Ok(Voted::Yes)
            } else {
                Ok(Voted::Other(accepted.copy(alloc)?))
            }
        }
        None => Ok(Voted::Yes),
    }
}
