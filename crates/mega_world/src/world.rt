//! A world: the nodes of a cluster over memory, up or down, and all messages between them.
use mega_cluster::Cluster;
use mega_places::{Mail, Place, Safety};

/// The nodes of a cluster, each in its place, all messages between them, and what tells whether leases are safe.
#[derive(Drop)]
pub struct World {
    pub(crate) cluster: Cluster,
    pub(crate) places: Vec<Place>,
    pub(crate) mail: Mail,
    pub(crate) safety: Safety,
}
