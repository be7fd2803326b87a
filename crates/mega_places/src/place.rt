//! A node's place in a world.
use crate::fallen::Fallen;
use crate::member::Member;

/// What stands in the place of a node of the cluster.
#[derive(Drop)]
pub enum Place {
    /// The node, which is up.
    Up(Member),
    /// What the node left, which is down.
    Down(Fallen),
}
