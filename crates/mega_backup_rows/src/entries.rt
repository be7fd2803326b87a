//! Which entry of a group's log a backup goes on with, and which of its entries are brought back.
ghost use Rattle.std.specs.Prelude.{◌≡◌, ◌+◌, ◌<◌, ◌≤◌, ◌^◌, List, length, take};
ghost use Rattle.std.specs.Option.{option_copied};
ghost use Rattle.mega_wal.specs.declared.item.JournalItem.{JournalItem as Item};
ghost use Rattle.mega_wal.specs.History.{decided_of};
ghost use Rattle.mega_wal.specs.Kept.{Represents};

use mega_base::{GroupId, Position};
use mega_disk::Records;
use mega_entry::Entry;
use mega_wal::Logs;

/// The entry of a group that is decided behind the first `n` positions.
pub fn entry_behind<'a, R: Records>(logs: &'a Logs<R>, group: &GroupId, n: u64) -> Option<&'a Entry>
    requires { n + 1 < 2 ^ 64 }
    ensures { (items : List Item) → Represents logs.now.kept items → option_copied result ≡ decided_of items group.now (n + 1) }
{
    logs.decided(group, Position(n + 1))
}

/// The first entries, of which there are so many.
pub fn first_entries(entries: &[Entry], through: u64) -> &[Entry]
    requires { through ≤ length entries.now }
    ensures { result.now ≡ take through entries.now }
{
    let (first, _) = entries.split_at(through as usize);
    first
}
