//! What a node notes of its lock cell and its coordinator.
use mega_base::{Epoch, GroupId, NodeId, Position};

/// What a node notes of its lock cell and its coordinator.
#[derive(Debug, Drop)]
pub enum LeaseNote {
    /// Its cell granted a node's lock under an epoch, for the first time.
    Grants { node: NodeId, epoch: Epoch },
    /// Its cell let an epoch of a node lapse.
    Lapses { node: NodeId, epoch: Epoch },
    /// Its coordinator counts a cell that it did not count before.
    Counts { cell: u8, epoch: Epoch },
    /// Its coordinator counts a cell no longer.
    Forgets { cell: u8, epoch: Epoch },
    /// Its coordinator serves from now on.
    Serves { epoch: Epoch },
    /// An epoch in which its coordinator served has ended.
    Loses { epoch: Epoch },
    /// A group is invalid at its coordinator, up to a position.
    Invalidates { group: GroupId, position: Position },
}
