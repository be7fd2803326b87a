//! What a node keeps beside its open operations: its logs, its leases, its rows, its global indexes and its digest of queues.
use mega_answers::mega_leases::Leases;
use mega_answers::mega_marks::Indexed;
use mega_answers::mega_operations::Members;
use mega_answers::mega_pumps::Digest;
use mega_answers::mega_voter::Voter;
use mega_disk::{Records, Versions};
use mega_replica::StoredRows;

/// What a node keeps beside its open operations: its cluster and number, its logs, its leases, its rows, its
/// global indexes, and the digest of its logs' queues.
#[derive(Drop)]
pub struct Replica<R: Records, V: Versions> {
    pub members: Members,
    pub me: u8,
    pub voter: Voter<R>,
    pub leases: Leases,
    pub rows: StoredRows<V>,
    pub indexed: Indexed,
    pub digest: Digest,
}
