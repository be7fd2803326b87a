//! A cluster of which the voters and the full nodes are listed once.
ghost use Rattle.std.specs.Prelude.{◌≡◌, ◌<◌, IfOk, Err, filter, length};
ghost use Rattle.std.specs.List.{range_with_len};
ghost use Rattle.mega_rules.specs.Members.{full_nodes, is_full, is_voter, voters};
ghost use Rattle.mega_operations.specs.declared.members.MembersFault.TheVariants.{NoMemory as Refused, TooMany};

use mega_base::{Copied, GroupId, Items, NoMemory, OpId, Shared};
use mega_cluster::Cluster;
use mega_kinds::{is_full, is_voter};
use mega_propose::Site;
use mega_read::Reader;
use std::alloc::Global;
use std::marker::Model;

/// Why the members of a cluster are not listed.
#[derive(Clone, Copy, PartialEq, Eq, Debug, Drop)]
pub enum MembersFault {
    /// It has more nodes than there are numbers for: more than 255.
    TooMany,
    /// An allocation was refused.
    NoMemory,
}

impl From<NoMemory> for MembersFault {
    ghost from_gives = { λ _ fault. fault ≡ Refused };

    fn from(_refused: NoMemory) -> MembersFault {
        MembersFault::NoMemory
    }
}

/// A cluster of which the voters and the full nodes are listed once. Contracts see the cluster.
#[derive(Debug, Drop)]
pub struct Members {
    cluster: Cluster,
    voters: Shared<Items<u8>>,
    full: Shared<Items<u8>>,
}

impl Model for Members {
    ghost use Rattle.std.specs.Prelude.{◌≡◌};
    ghost use Rattle.mega_cluster.specs.declared.cluster.Cluster.{Cluster};
    ghost use Rattle.mega_rules.specs.Members.{full_nodes, voters as voters_of};

    ghost Value = { Cluster };

    ghost view = { λ m. m.cluster };

    ghost invariant = { λ m. (m.voters ≡ voters_of m.cluster) × (m.full ≡ full_nodes m.cluster) };
}

/// The voters among the first nodes, which are so many.
#[tactic(auto, using(crate::proofs::Numbered::kept_next, crate::proofs::Numbered::left_out))]
fn voters(alloc: Global, cluster: &Cluster, count: u8) -> Result<Items<u8>, NoMemory>
    ensures { IfOk result (λ nodes. nodes ≡ filter (is_voter cluster.now) (range_with_len 1 count)) }
{
    let mut nodes = Items::new(alloc);
    for before in 0..count {
        let node = before + 1;
        if is_voter(cluster, node) {
            nodes.push(node)?;
        }
    }
    Ok(nodes)
}

/// The full nodes among the first nodes, which are so many.
#[tactic(auto, using(crate::proofs::Numbered::kept_next, crate::proofs::Numbered::left_out))]
fn full_nodes(alloc: Global, cluster: &Cluster, count: u8) -> Result<Items<u8>, NoMemory>
    ensures { IfOk result (λ nodes. nodes ≡ filter (is_full cluster.now) (range_with_len 1 count)) }
{
    let mut nodes = Items::new(alloc);
    for before in 0..count {
        let node = before + 1;
        if is_full(cluster, node) {
            nodes.push(node)?;
        }
    }
    Ok(nodes)
}

impl Members {
    /// The members of a cluster; `TooMany` where it has more than 255 nodes.
    pub fn new(alloc: Global, cluster: Cluster) -> Result<Members, MembersFault>
        ensures ok { IfOk result (λ members. members ≡ cluster) }
        ensures many { result ≡ Err TooMany → 255 < length cluster.nodes }
    {
        let count = cluster.nodes.len();
        if count > 255 {
            return Err(MembersFault::TooMany);
        }
        let count = count as u8;
        let voters = Shared::new(alloc, voters(alloc, &cluster, count)?)?;
        let full = Shared::new(alloc, full_nodes(alloc, &cluster, count)?)?;
        Ok(Members {
            cluster,
            voters,
            full,
        })
    }

    pub fn cluster(&self) -> &Cluster
        ensures { result.now ≡ self.now }
    {
        &self.cluster
    }

    /// The voters, in order.
    pub fn voters(&self) -> &[u8]
        ensures { result.now ≡ voters self.now }
    {
        self.voters.as_slice()
    }

    /// An operation that reads a group among these members.
    pub fn reader(&self, alloc: Global, op: OpId, group: &GroupId) -> Result<Reader, NoMemory>
        ensures { IfOk result (λ made. made ≡ record { op = op; group = group.now; voters = voters self.now; full = full_nodes self.now; cells = self.now.cells }) }
    {
        let group = group.copy(alloc)?;
        let voters = self.voters.copy(alloc)?;
        let full = self.full.copy(alloc)?;
        Ok(Reader {
            op,
            group,
            voters,
            full,
            cells: self.cluster.cells,
        })
    }
    /// An operation that proposes at a position of a group among these members.
    pub fn site(
        &self,
        alloc: Global,
        op: OpId,
        group: &GroupId,
        asked: &Items<u8>,
        position: u64,
    ) -> Result<Site, NoMemory>
        ensures { IfOk result (λ made. made ≡ record { op = op; group = group.now; position = position; voters = voters self.now; full = full_nodes self.now; cells = self.now.cells; asked = asked.now }) }
    {
        let who = self.reader(alloc, op, group)?;
        who.site(alloc, asked, position)
    }
}
