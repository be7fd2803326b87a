//! What each kind of node does in its cluster (CIDR 2011, replica types): who votes, who keeps rows, and which requests it serves.
ghost use Rattle.std.specs.Prelude.{◌≡◌};
ghost use Rattle.mega_rules.specs.Members.{has_rows, is_cell, is_full, is_node, is_voter, keeps_rows, kind_of, runs, votes};
ghost use Rattle.mega_rules.specs.Steps.{is_current, missing_kind, needs_full};

use mega_base::NodeKind;
use mega_cluster::Cluster;
use mega_outcome::{Mode, Request};

/// The kind of a node.
pub fn kind_of(cluster: &Cluster, node: u8) -> Option<NodeKind>
    ensures { result ≡ kind_of cluster.now node }
{
    let place = usize::from(node).saturating_sub(1);
    cluster.nodes.as_slice().get(place).copied()
}

/// Whether a node is one of the cluster.
pub fn is_node(cluster: &Cluster, node: u8) -> bool
    ensures { result ≡ is_node cluster.now node }
{
    1 <= node && usize::from(node) <= cluster.nodes.len()
}

/// Whether nodes of a kind vote: full nodes and witnesses.
fn votes(kind: Option<NodeKind>) -> bool
    ensures { result ≡ votes kind }
{
    matches!(&kind, Some(NodeKind::Full | NodeKind::Witness))
}

/// Whether nodes of a kind keep rows: full and read-only ones.
fn keeps_rows(kind: Option<NodeKind>) -> bool
    ensures { result ≡ keeps_rows kind }
{
    matches!(&kind, Some(NodeKind::Full | NodeKind::Read))
}

/// Whether a node votes.
pub fn is_voter(cluster: &Cluster, node: u8) -> bool
    ensures { result ≡ is_voter cluster.now node }
{
    is_node(cluster, node) && votes(kind_of(cluster, node))
}

/// Whether a node keeps rows.
pub fn has_rows(cluster: &Cluster, node: u8) -> bool
    ensures { result ≡ has_rows cluster.now node }
{
    is_node(cluster, node) && keeps_rows(kind_of(cluster, node))
}

/// Whether nodes of a kind are full nodes.
fn runs(kind: Option<NodeKind>) -> bool
    ensures { result ≡ runs kind }
{
    matches!(&kind, Some(NodeKind::Full))
}

/// Whether a node is a full one.
pub fn is_full(cluster: &Cluster, node: u8) -> bool
    ensures { result ≡ is_full cluster.now node }
{
    is_node(cluster, node) && runs(kind_of(cluster, node))
}

/// Whether a lock cell lives in a node.
pub fn is_cell(cluster: &Cluster, node: u8) -> bool
    ensures { result ≡ is_cell cluster.now node }
{
    1 <= node && node <= cluster.cells
}

/// Whether a read in this mode is of the newest position.
fn is_current(mode: &Mode) -> bool
    ensures { result ≡ is_current mode.now }
{
    matches!(mode, Mode::Current)
}

/// Whether a request is served at full nodes alone.
fn needs_full(request: &Request) -> bool
    ensures { result ≡ needs_full request.now }
{
    match request {
        Request::Read(read) => is_current(&read.mode),
        Request::Find(find) => is_current(&find.mode),
        Request::Refresh => false,
        _ => true,
    }
}

/// The kind of a node, where nodes of this kind do not serve a request.
pub fn missing_kind(request: &Request, kind: Option<NodeKind>) -> Option<NodeKind>
    ensures { result ≡ missing_kind request.now kind }
{
    match kind {
        Some(NodeKind::Witness) => Some(NodeKind::Witness),
        Some(NodeKind::Read) => {
            if needs_full(request) {
                return Some(NodeKind::Read);
            }
            None
        }
        _ => None,
    }
}
