//! What a transaction comes to over the rows of its group at a position.
ghost use Rattle.std.specs.Prelude.{◌≡◌, ◌≤◌, ℕ, true};
ghost use Rattle.mega_base.specs.Causes.{Rose};
ghost use Rattle.mega_disk.specs.Images.{Within, LeavesOnly};
ghost use Rattle.mega_disk.specs.Fuse.{MayBurn, Burns};
ghost use Rattle.mega_disk.specs.VersionMaps.{SameVersions};
ghost use Rattle.mega_outcome.specs.Outcome.{outcome};
ghost use Rattle.mega_outcome.specs.Answers.{Gives, rows_at};

use crate::answer::{Done, Turn};
use crate::running::outcome_in;
use crate::transaction::Transaction;
use mega_base::Position;
use mega_disk::Versions;
use mega_index::mega_schema::Schema;
use std::alloc::Global;
use std::collections::BTreeMap;

/// What a transaction comes to over the rows of its group at a position: what it replies, writes and sends, or the
/// refusal of its first item that fails. The rows stay as they are.
pub fn run<V: Versions>(
    alloc: Global,
    schema: &Schema,
    txn: &Transaction,
    rows: &mut V,
    at: Position,
) -> Result<Done, Turn>
    ensures exact { V.is_told ≡ true → Gives result (outcome schema.now txn.now (rows_at (V.version rows.old) at.0)) }
    ensures versions { SameVersions (V.version rows.old) (V.version rows.new) }
    ensures cleaned { V.cleaned rows.new ≡ V.cleaned rows.old }
    ensures marks { V.marked rows.new ≡ V.marked rows.old }
    ensures full { V.is_full rows.new ≡ V.is_full rows.old }
    ensures any_moment { LeavesOnly V.moment V.opened_since rows.old rows.new (V.may_open rows.old) }
    ensures within { Within (V.may_open rows.old) (V.may_open rows.new) }
    ensures cause { result ≡ Err Turn.DiskFault → Rose (V.faults rows.old) (V.faults rows.new) }
    ensures later { V.faults rows.old ≤ V.faults rows.new }
    ensures bad { (n : ℕ) → result ≡ Err (Turn.BadRecord n) → V.is_bad rows.old n }
    ensures bad_stays { (n : ℕ) → V.is_bad rows.new n → V.is_bad rows.old n }
    ensures never_full { (n : ℕ) → result ≡ Err (Turn.Full n) → ⊥ }
    ensures may_burn { MayBurn (V.fuse_left rows.old) (V.fuse_left rows.new) }
    ensures burns { V.fails_by_fuse rows.old ≡ true → result ≡ Err Turn.DiskFault → Burns (V.fuse_left rows.old) (V.fuse_left rows.new) }
    ensures by_fuse { V.fails_by_fuse rows.old ≡ true → V.fails_by_fuse rows.new ≡ true }
{
    let pending = BTreeMap::new(alloc);
    let group = txn.group.key.as_slice();
    match outcome_in(alloc, schema, group, &pending, rows, at, txn) {
        Ok(answer) => answer,
        Err(fault) => Err(Turn::from(fault)),
    }
}
