//! What a transaction does under a schema, and under one that adds properties which are not required.
ghost use Rattle.std.specs.Prelude.{◌≡◌, ◌≤◌, ℕ, true, Err, IfOk};
ghost use Rattle.mega_base.specs.Causes.{Rose};
ghost use Rattle.mega_disk.specs.VersionMaps.{SameVersions};
ghost use Rattle.mega_outcome.specs.Outcome.{outcome, first_change};
ghost use Rattle.mega_outcome.specs.Answers.{Gives, rows_at};
ghost use Rattle.mega_outcome.specs.Extends.{Extends, LookAtKnown};

use crate::answer::{Done, Turn};
use crate::outcomes::run;
use crate::transaction::Transaction;
use mega_base::Position;
use mega_disk::Versions;
use mega_index::mega_schema::Schema;
use std::alloc::Global;

/// What a transaction comes to under a schema, and under one that adds properties which are not required. Where
/// both take it, they do the same.
pub fn extends_outcome<V: Versions>(
    alloc: Global,
    schema: &Schema,
    extended: &Schema,
    txn: &Transaction,
    rows: &mut V,
    at: Position,
) -> (Result<Done, Turn>, Result<Done, Turn>)
    requires extends { Extends schema.now extended.now }
    requires known { V.is_told ≡ true → LookAtKnown schema.now txn.now.group.key (rows_at (V.version rows.old) at.0) (first_change txn.now) txn.now.writes }
    ensures first { V.is_told ≡ true → Gives result.0 (outcome schema.now txn.now (rows_at (V.version rows.old) at.0)) }
    ensures second { V.is_told ≡ true → Gives result.1 (outcome extended.now txn.now (rows_at (V.version rows.old) at.0)) }
    ensures same { V.is_told ≡ true → IfOk result.0 (λ done. IfOk result.1 (λ other. other ≡ done)) }
    ensures versions { SameVersions (V.version rows.old) (V.version rows.new) }
    ensures cause { result.0 ≡ Err Turn.DiskFault → Rose (V.faults rows.old) (V.faults rows.new) }
    ensures second_cause { result.1 ≡ Err Turn.DiskFault → Rose (V.faults rows.old) (V.faults rows.new) }
    ensures later { V.faults rows.old ≤ V.faults rows.new }
    ensures bad { (n : ℕ) → result.0 ≡ Err (Turn.BadRecord n) → V.is_bad rows.old n }
    ensures second_bad { (n : ℕ) → result.1 ≡ Err (Turn.BadRecord n) → V.is_bad rows.old n }
    ensures bad_stays { (n : ℕ) → V.is_bad rows.new n → V.is_bad rows.old n }
    ensures never_full { (n : ℕ) → result.0 ≡ Err (Turn.Full n) → ⊥ }
    ensures second_never_full { (n : ℕ) → result.1 ≡ Err (Turn.Full n) → ⊥ }
{
    let first = run(alloc, schema, txn, rows, at);
    let second = run(alloc, extended, txn, rows, at);
    (first, second)
}
