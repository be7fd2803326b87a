//! Writes a body behind a closed gate, and opens the gate once the body is on the disk.
ghost use Rattle.std.specs.Prelude.{◌≡◌, ◌+◌, ◌<◌, ◌≤◌, ◌^◌, ◌++◌, [], ◌∷◌, true, length, IfOk, OnOk};
ghost use Rattle.mega_base.specs.Causes.{Rose};
ghost use Rattle.mega_disk.specs.Images.{LeavesOnly};
ghost use Rattle.mega_disk.specs.Fuse.{LowersBy, MayBurn, Burns};
ghost use Rattle.mega_chain.specs.Chain.{records_of, behind_gate as bytes_behind_gate};
ghost use Rattle.mega_chain.specs.Rest.{IsSettled, Appends};

use crate::device::write_through;
use mega_base::NoMemory;
use mega_disk::{Disk, DiskError};
use std::alloc::Global;

/// Writes a body behind the closed gate at `at` and, once it is on the disk, opens the gate.
pub fn put_record<D: Disk>(
    alloc: Global,
    disk: &mut D,
    at: u64,
    body: &[u8],
) -> Result<(), DiskError>
    requires settled { D.is_told ≡ true → IsSettled (D.seen disk.old) (D.may_leave disk.old) at }
    requires room { at < 2 ^ 62 }
    ensures added { D.is_told ≡ true → OnOk result (records_of (D.seen disk.new) ≡ records_of (D.seen disk.old) ++ body.now ∷ []) }
    ensures settled { D.is_told ≡ true → OnOk result (IsSettled (D.seen disk.new) (D.may_leave disk.new) (at + 9 + length body.now)) }
    ensures any_moment { D.is_told ≡ true → LeavesOnly D.moment D.left_since disk.old disk.new (Appends at body.now (D.seen disk.old)) }
    ensures cause { result ≡ Err DiskError.Failed → Rose (D.faults disk.old) (D.faults disk.new) }
    ensures later { D.faults disk.old ≤ D.faults disk.new }
    ensures lowers { OnOk result (LowersBy 0 (D.fuse_left disk.old) (D.fuse_left disk.new)) }
    ensures may_burn { MayBurn (D.fuse_left disk.old) (D.fuse_left disk.new) }
    ensures burns { D.fails_by_fuse disk.old ≡ true → result ≡ Err DiskError.Failed → Burns (D.fuse_left disk.old) (D.fuse_left disk.new) }
    ensures by_fuse { D.fails_by_fuse disk.old ≡ true → D.fails_by_fuse disk.new ≡ true }
{
    let record = behind_gate(alloc, body)?;
    write_through(disk, at + 1, record.as_slice())?;
    write_through(disk, at, &[1])
}

/// The bytes behind a record's gate: the length of its body, the body, and a closed gate for the next.
fn behind_gate(alloc: Global, body: &[u8]) -> Result<Vec<u8>, NoMemory>
    ensures { IfOk result (λ bytes. bytes.items ≡ bytes_behind_gate body.now) }
{
    let mut bytes = Vec::with_capacity(alloc, body.len() + 9)?;
    bytes.extend_from_slice(&(body.len() as u64).to_be_bytes())?;
    bytes.extend_from_slice(body)?;
    bytes.push(0)?;
    Ok(bytes)
}
