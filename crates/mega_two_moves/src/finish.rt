//! In which order a finish writes.
ghost use Rattle.std.specs.Prelude.{◌≡◌, ◌++◌, IfOk};

use mega_base::{Bytes, NoMemory};

/// A part's own writes, behind them the deletion of its lock, and then the note of its end.
pub fn finish_of(own: Bytes, lock: &[u8], end: &[u8]) -> Result<Bytes, NoMemory>
    ensures { IfOk result (λ text. text ≡ own ++ (lock.now ++ end.now)) }
{
    let mut out = own;
    out.extend_from_slice(lock)?;
    out.extend_from_slice(end)?;
    Ok(out)
}
