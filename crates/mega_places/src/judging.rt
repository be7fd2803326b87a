//! Whether an item shows that leases are not safe, asked of the nodes and of the lapses that are kept.

ghost use Rattle.std.specs.Prelude.{◌≡◌, ◌&&◌, ℕ, not};
ghost use Rattle.mega_cluster.specs.declared.cluster.Cluster.{Cluster};
ghost use Rattle.mega_rules.specs.Operations.{Node as RuleNode};
ghost use Rattle.mega_promises.specs.Runs.{breaks, counts_cell};
ghost use Rattle.mega_safety.specs.Lapses.{AreLapsesOf};
ghost use Rattle.mega_places.specs.Members.{AreMembers};

use crate::place::Place;
use crate::places::member_of;
use mega_base::Epoch;
use mega_safety::{Lapse, Safety};
use mega_transcript::Item;
use mega_verdicts::is_first;

/// Whether the node of this number is up, and its coordinator counts a cell under an epoch.
fn counts(places: &[Place], node: u8, cell: u8, epoch: Epoch) -> bool
    ensures { (c : Cluster) (ruled : ℕ → RuleNode) → AreMembers c places.now ruled → result ≡ counts_cell c (ruled node).met cell epoch }
{
    match member_of(places, usize::from(node)) {
        Some(member) => member.up.counts(cell, epoch),
        None => false,
    }
}

/// Whether an item shows that leases are not safe: a coordinator counts a cell under an epoch that lapsed there.
fn breaks(places: &[Place], safety: &Safety, item: &Item) -> bool
    ensures { (c : Cluster) (ruled : ℕ → RuleNode) → AreMembers c places.now ruled → AreLapsesOf safety.now.lapses (λ me. (ruled me).met) → result ≡ breaks c ruled item.now }
{
    match item {
        Item::Lapse { cell, node, epoch } => counts(places, node.0, *cell, *epoch),
        Item::Counts { node, cell, epoch } => safety.has_lapsed(Lapse {
            cell: *cell,
            node: *node,
            epoch: *epoch,
        }),
        _ => false,
    }
}

/// Whether an item is the first that shows that leases are not safe.
pub fn breaks_first(places: &[Place], safety: &Safety, item: &Item) -> bool
    ensures { (c : Cluster) (ruled : ℕ → RuleNode) → AreMembers c places.now ruled → AreLapsesOf safety.now.lapses (λ me. (ruled me).met) → result ≡ (not safety.now.is_told && breaks c ruled item.now) }
{
    is_first(safety.is_told, breaks(places, safety, item))
}
