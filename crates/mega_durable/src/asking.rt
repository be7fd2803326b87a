//! What may be asked of a node that is up.
ghost use Rattle.std.specs.Prelude.{◌≡◌};
ghost use Rattle.std.specs.List.{list_any};
ghost use Rattle.mega_handler.specs.Named.{Meanings};
ghost use Rattle.mega_leases.specs.Counting.{counts_at};
ghost use Rattle.mega_rules.specs.Clock.{clock_of};
ghost use Rattle.mega_rules.specs.Operations.{Node as RuleNode};
ghost use Rattle.mega_rules.specs.Steps.{op_of};
ghost use Rattle.mega_wal.specs.Same.{same_op};
ghost use Rattle.mega_durable.specs.Standing.{IsUp, records_in, setting_of};

use crate::up::Up;
use mega_base::{Epoch, OpId};
use mega_cluster::Cluster;
use mega_core::mega_propose::is_same_op;
use mega_core::mega_step_parts::mega_operations::Operation;
use mega_core::next_op;
use mega_disk::{Records, Versions};

/// Whether an operation is among those that are open.
fn is_among(operations: &[Operation], op: OpId) -> bool
    ensures { result ≡ list_any (λ o. same_op o.id op) operations.now }
{
    operations.iter().any(|one| is_same_op(one.id, op))
}

impl<R: Records, V: Versions> Up<R, V> {
    /// The cluster.
    pub fn cluster(&self) -> &Cluster
        ensures { result.now ≡ self.now.node.replica.members }
    {
        self.node.replica.members.cluster()
    }

    /// The last time that its clock showed in this start.
    pub fn clock(&self) -> u64
        ensures { (h : Meanings) (node : RuleNode) → IsUp R.Records V.version h self.now.node node → result ≡ clock_of node.met }
    {
        self.node.replica.leases.now()
    }

    /// Whether its coordinator counts a cell under an epoch.
    pub fn counts(&self, cell: u8, epoch: Epoch) -> bool
        ensures { (h : Meanings) (node : RuleNode) → IsUp R.Records V.version h self.now.node node → result ≡ counts_at self.now.node.replica.members node.met cell epoch }
    {
        self.node.replica.leases.counts(cell, epoch)
    }

    /// The number of records on its log.
    pub fn records(&self) -> u64
        ensures { result ≡ R.count_of (records_in self.now.node) }
    {
        self.node.replica.voter.records()
    }

    /// The id of the operation that begins next.
    pub fn next_op(&self) -> OpId
        ensures { (h : Meanings) (node : RuleNode) → IsUp R.Records V.version h self.now.node node → result ≡ op_of (setting_of self.now.node h) node.met }
    {
        next_op(
            &self.node.replica.voter,
            self.node.replica.me,
            self.node.begun,
        )
    }

    /// Whether an operation is open.
    pub fn is_open(&self, op: OpId) -> bool
        ensures { result ≡ list_any (λ o. same_op o.id op) self.now.node.open }
    {
        is_among(self.node.open.as_slice(), op)
    }
}
