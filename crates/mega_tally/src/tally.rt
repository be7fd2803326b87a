//! A tally: the counts of the items that came so far.
ghost use Rattle.std.specs.Prelude.{◌≡◌, ◌∷◌, ◌++◌, ◌||◌, [], List, OnOk};
ghost use Rattle.mega_transcript.specs.declared.item.Item.{Item as OnTape};
ghost use Rattle.mega_transcript.specs.Counts.{is_unsafe};
ghost use Rattle.mega_tally.specs.Counting.{Counts};

use crate::decided::Decided;
use crate::kinds::{Kinds, is_unsafe, with_item};
use mega_base::NoMemory;
use mega_transcript::Item;
use std::alloc::Global;

/// How many items of each kind came, whether leases were unsafe, and what is decided.
#[derive(Drop)]
pub struct Tally {
    pub(crate) kinds: Kinds,
    pub(crate) is_unsafe: bool,
    pub(crate) decided: Decided,
}

/// Whether leases were unsafe, with an item more.
fn unsafe_with(was: bool, item: &Item) -> bool
    ensures { result ≡ (was || is_unsafe item.now) }
{
    was || is_unsafe(item)
}

impl Tally {
    /// No item came.
    pub fn new(alloc: Global) -> Tally
        ensures { Counts result [] }
    {
        Tally {
            kinds: Kinds {
                messages: 0,
                committed: 0,
                conflicts: 0,
                reads: 0,
            },
            is_unsafe: false,
            decided: Decided::new(alloc),
        }
    }

    /// Counts an item that comes behind the others. After a refusal the tally is not used again.
    pub fn count(&mut self, alloc: Global, item: &Item) -> Result<(), NoMemory>
        ensures { OnOk result ((items : List OnTape) → Counts self.old items → Counts self.new (items ++ item.now ∷ [])) }
    {
        let kinds = with_item(self.kinds, item)?;
        self.kinds = kinds;
        self.is_unsafe = unsafe_with(self.is_unsafe, item);
        self.decided.count(alloc, item)?;
        Ok(())
    }
}
