//! Lists of nodes: membership, union, difference and majority, and the greatest position that they tell.
ghost use Rattle.std.specs.Prelude.{◌≡◌, max, IfOk};
ghost use Rattle.mega_propose.specs.Members.{has, is_majority, joined, others, with_node, without};

use mega_base::{Items, NoMemory};
use std::alloc::Global;

/// Whether the node is one of these.
pub fn has(node: u8, nodes: &[u8]) -> bool
    ensures { result ≡ has node nodes.now }
{
    nodes.contains(&node)
}

/// These nodes, and the node at their end if it is none of them.
pub fn with_node(node: u8, nodes: Items<u8>) -> Result<Items<u8>, NoMemory>
    ensures { IfOk result (λ made. made ≡ with_node node nodes) }
{
    if has(node, nodes.as_slice()) {
        return Ok(nodes);
    }
    let mut made = nodes;
    made.push(node)?;
    Ok(made)
}

/// All of these nodes but the one.
pub fn others(alloc: Global, node: u8, nodes: &[u8]) -> Result<Items<u8>, NoMemory>
    ensures { IfOk result (λ made. made ≡ others node nodes.now) }
{
    let kept: Vec<u8> = nodes
        .iter()
        .copied()
        .filter(|other| *other != node)
        .collect(alloc)?;
    Ok(Items::from_vec(kept))
}

/// All of these nodes but those.
pub fn without(alloc: Global, those: &[u8], nodes: &[u8]) -> Result<Items<u8>, NoMemory>
    ensures { IfOk result (λ made. made ≡ without those.now nodes.now) }
{
    let kept: Vec<u8> = nodes
        .iter()
        .copied()
        .filter(|node| !has(*node, those))
        .collect(alloc)?;
    Ok(Items::from_vec(kept))
}

/// The two lists as one.
pub fn joined(alloc: Global, nodes: Items<u8>, more: &[u8]) -> Result<Items<u8>, NoMemory>
    ensures { IfOk result (λ made. made ≡ joined nodes more.now) }
{
    let rest = without(alloc, nodes.as_slice(), more)?;
    let mut made = nodes.into_vec();
    made.extend_from_slice(rest.as_slice())?;
    Ok(Items::from_vec(made))
}

/// Whether so many are more than half of the members.
pub fn is_majority(members: usize, count: usize) -> bool
    ensures { result ≡ is_majority members count }
{
    members / 2 < count
}

/// The greatest top position that nodes told, with what one more tells.
pub fn greatest_top(best: u64, top: u64) -> u64
    ensures { result ≡ max best top }
{
    best.max(top)
}
