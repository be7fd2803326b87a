//! Entries of a group's log.
ghost use Rattle.std.specs.Prelude.{◌≡◌, ◌++◌, ◌≤◌, List, take, IfOk, OnOk};
ghost use Rattle.std.specs.Option.{option_copied};
ghost use Rattle.mega_rules.specs.Logs.{log_of, prefix_of};
ghost use Rattle.mega_rules.specs.Met.{Met};
ghost use Rattle.mega_voter.specs.Telling.{Tells};
ghost use Rattle.mega_marks.specs.Marked.{some_of};

use mega_base::{Copied, GroupId, NoMemory, Position};
use mega_disk::Records;
use mega_entry::Entry;
use mega_voter::Voter;
use std::alloc::Global;

/// Adds an entry, which is shared, where there is one.
fn add(alloc: Global, entries: &mut Vec<Entry>, entry: Option<&Entry>) -> Result<(), NoMemory>
    ensures { OnOk result (entries.new.items ≡ entries.old.items ++ some_of (option_copied entry.entry)) }
{
    if let Some(entry) = entry {
        entries.push(entry.copy(alloc)?)?;
    }
    Ok(())
}

/// The entries of a group's log that follow a position, through one that is decided; each is shared.
pub fn entries_between<R: Records>(
    alloc: Global,
    voter: &Voter<R>,
    group: &GroupId,
    from: u64,
    through: u64,
) -> Result<Vec<Entry>, NoMemory>
    ensures { IfOk result (λ entries. (met : List Met) → Tells voter.now.logs.kept met → from ≤ through → through ≤ prefix_of met group.now →
        take from (log_of met group.now) ++ entries.items ≡ take through (log_of met group.now)) }
{
    let mut entries = Vec::new(alloc);
    for before in from..through {
        add(
            alloc,
            &mut entries,
            voter.decided(group, Position(before + 1)),
        )?;
    }
    Ok(entries)
}
