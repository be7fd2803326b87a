//! A change of what a voter keeps: an item of its journal.
use mega_acceptor::mega_ballot::Ballot;
use mega_acceptor::mega_entry::Entry;
use mega_base::{Copied, Epoch, GroupId, NoMemory, NodeId, Position};
use std::alloc::Global;

/// A change of what a voter keeps. A record of its journal is a list of them.
#[derive(Drop)]
pub enum JournalItem {
    /// The node started once more.
    Start,
    /// The voter promised a ballot.
    Promise {
        group: GroupId,
        position: Position,
        ballot: Ballot,
    },
    /// The voter accepted an entry.
    Accept {
        group: GroupId,
        position: Position,
        ballot: Ballot,
        entry: Entry,
    },
    /// The node decided an entry.
    Decide {
        group: GroupId,
        position: Position,
        entry: Entry,
    },
    /// The node's lock cell granted an epoch to a node.
    Grant {
        node: NodeId,
        epoch: Epoch,
    },
    /// An epoch that the cell granted lapsed.
    Lapse {
        node: NodeId,
        epoch: Epoch,
    },
    /// The node started this many times before.
    Starts {
        starts: u32,
    },
}

impl Copied for JournalItem {
    fn copy(&self, alloc: Global) -> Result<JournalItem, NoMemory> {
        match self {
            JournalItem::Start => Ok(JournalItem::Start),
            JournalItem::Promise {
                group,
                position,
                ballot,
            } => Ok(JournalItem::Promise {
                group: group.copy(alloc)?,
                position: *position,
                ballot: *ballot,
            }),
            JournalItem::Accept {
                group,
                position,
                ballot,
                entry,
            } => Ok(JournalItem::Accept {
                group: group.copy(alloc)?,
                position: *position,
                ballot: *ballot,
                entry: entry.copy(alloc)?,
            }),
            JournalItem::Decide {
                group,
                position,
                entry,
            } => Ok(JournalItem::Decide {
                group: group.copy(alloc)?,
                position: *position,
                entry: entry.copy(alloc)?,
            }),
            JournalItem::Grant { node, epoch } => Ok(JournalItem::Grant {
                node: *node,
                epoch: *epoch,
            }),
            JournalItem::Lapse { node, epoch } => Ok(JournalItem::Lapse {
                node: *node,
                epoch: *epoch,
            }),
            JournalItem::Starts { starts } => Ok(JournalItem::Starts { starts: *starts }),
        }
    }
}
