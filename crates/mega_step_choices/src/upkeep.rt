//! Whether a step begins with one record in place of all of a log, and with a spill of the rows.
ghost use Rattle.std.specs.Prelude.{◌≡◌, [], true, false};

use mega_disk::{Records, Versions};
use mega_replica::StoredRows;
use mega_wal::Logs;

/// Whether a log is to be compacted: its records are due, and nothing is staged.
pub fn is_to_compact<R: Records>(logs: &Logs<R>) -> bool
    ensures due { result ≡ true → R.is_due logs.now.records ≡ true }
    ensures flushed { result ≡ true → logs.now.staged.items ≡ [] }
    ensures not_due { result ≡ false → R.is_due logs.now.records ≡ true → logs.now.staged.items ≡ [] → ⊥ }
{
    logs.due() && logs.staged().is_empty()
}

/// Whether rows are to be spilled: they are full.
pub fn is_to_spill<V: Versions>(rows: &StoredRows<V>) -> bool
    ensures { result ≡ V.is_full rows.now.rows }
{
    rows.rows.full()
}
