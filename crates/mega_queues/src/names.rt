//! Names of messages, by the groups of their senders.
ghost use Rattle.std.specs.Prelude.{◌≡◌, IsSome, None, OnOk};
ghost use Rattle.std.specs.BTreeMap.{get};
ghost use Rattle.mega_wal.specs.History.{group_cmp};
ghost use Rattle.mega_queues.specs.Named.{Adds, AddsAll, is_known, names_of};

use mega_base::{Copied, GroupId, NoMemory};
use mega_entry::{Enter, Name};
use std::alloc::Global;
use std::collections::{BTreeMap, BTreeSet};

/// Names of messages: the positions and places of each sender.
pub type Names = BTreeMap<GroupId, BTreeSet<(u64, u32)>>;

/// Whether the name is among these.
pub fn is_known(names: &Names, name: &Name) -> bool
    ensures { result ≡ is_known names.now name.now }
{
    match names.get(&name.group) {
        Some(places) => places.contains(&(name.position.0, name.place)),
        None => false,
    }
}

fn add_there(names: &mut Names, name: &Name) -> Result<(), NoMemory>
    requires { IsSome (get group_cmp names.old name.now.group) }
    ensures { OnOk result (Adds names.old names.new name.now) }
{
    match names.get_mut(&name.group) {
        Some(places) => {
            places.insert((name.position.0, name.place))?;
            Ok(())
        }
        None => Ok(()),
    }
}

fn add_new(alloc: Global, names: &mut Names, name: &Name) -> Result<(), NoMemory>
    requires { get group_cmp names.old name.now.group ≡ None }
    ensures { OnOk result (Adds names.old names.new name.now) }
{
    let mut places = BTreeSet::new(alloc);
    places.insert((name.position.0, name.place))?;
    let group = name.group.copy(alloc)?;
    names.insert(group, places)?;
    Ok(())
}

/// Adds a name.
fn add(alloc: Global, names: &mut Names, name: &Name) -> Result<(), NoMemory>
    ensures { OnOk result (Adds names.old names.new name.now) }
{
    if names.contains_key(&name.group) {
        add_there(names, name)
    } else {
        add_new(alloc, names, name)
    }
}

/// Adds names.
pub fn add_all(alloc: Global, names: &mut Names, more: &[Name]) -> Result<(), NoMemory>
    ensures { OnOk result (AddsAll names.old names.new more.now) }
{
    for name in more {
        add(alloc, names, name)?;
    }
    Ok(())
}

/// Adds the names of messages.
pub fn add_names_of(alloc: Global, names: &mut Names, messages: &[Enter]) -> Result<(), NoMemory>
    ensures { OnOk result (AddsAll names.old names.new (names_of messages.now)) }
{
    for message in messages {
        add(alloc, names, &message.name)?;
    }
    Ok(())
}
