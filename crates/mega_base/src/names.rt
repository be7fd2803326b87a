//! The names of nodes, log positions, epochs, operations and entity groups.
ghost use Rattle.std.specs.Prelude.{◌≡◌, IfOk};

use crate::bytes::Bytes;
use crate::copied::{Copied, NoMemory};
use crate::shared::Shared;
use std::alloc::Global;

/// A node of the cluster, counted from 1.
#[derive(Clone, Copy, PartialEq, Eq, PartialOrd, Ord, Debug, Drop)]
pub struct NodeId(pub u8);

/// A position in the log of an entity group, counted from 1; 0 stands for none.
#[derive(Clone, Copy, PartialEq, Eq, PartialOrd, Ord, Debug, Drop)]
pub struct Position(pub u64);

/// An epoch of a coordinator: the start of its node, and how many epochs ended before it in that start.
#[derive(Clone, Copy, PartialEq, Eq, PartialOrd, Ord, Debug, Drop)]
pub struct Epoch {
    pub start: u32,
    pub count: u32,
}

/// An operation: its node, the start of that node in which it began, and its number there, from 1.
#[derive(Clone, Copy, PartialEq, Eq, PartialOrd, Ord, Debug, Drop)]
pub struct OpId {
    pub node: NodeId,
    pub start: u32,
    pub number: u32,
}

/// An entity group: the key bytes of its root's table number and root key values, which copies share.
#[derive(PartialEq, Eq, PartialOrd, Ord, Debug, Drop)]
pub struct GroupId {
    pub key: Shared<Bytes>,
}

impl GroupId {
    /// The group with this key, with no copy.
    pub fn new(alloc: Global, key: Bytes) -> Result<GroupId, NoMemory>
        ensures { IfOk result (λ made. made.key ≡ key) }
    {
        let key = Shared::new(alloc, key)?;
        Ok(GroupId { key })
    }
}

impl Copied for NodeId {
    fn copy(&self, _alloc: Global) -> Result<NodeId, NoMemory> {
        Ok(*self)
    }
}

impl Copied for Position {
    fn copy(&self, _alloc: Global) -> Result<Position, NoMemory> {
        Ok(*self)
    }
}

impl Copied for Epoch {
    fn copy(&self, _alloc: Global) -> Result<Epoch, NoMemory> {
        Ok(*self)
    }
}

impl Copied for OpId {
    fn copy(&self, _alloc: Global) -> Result<OpId, NoMemory> {
        Ok(*self)
    }
}

impl Copied for GroupId {
    fn copy(&self, alloc: Global) -> Result<GroupId, NoMemory> {
        let key = self.key.copy(alloc)?;
        Ok(GroupId { key })
    }
}
