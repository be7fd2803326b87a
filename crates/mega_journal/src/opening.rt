//! Reads the records that a crash may have left, and closes the gate behind them.
ghost use Rattle.std.specs.Prelude.{◌≡◌, ◌+◌, ◌<◌, ◌≤◌, ◌^◌, true, length, IfOk, OnOk};
ghost use Rattle.mega_base.specs.Causes.{Rose};
ghost use Rattle.mega_disk.specs.Images.{Only, LeavesOnly};
ghost use Rattle.mega_disk.specs.Fuse.{LowersBy, MayBurn, Burns};
ghost use Rattle.mega_journal.specs.Chain.{records_of};
ghost use Rattle.mega_journal.specs.Rest.{IsSettled, HoldsAs, IsRead, is_shut};

use crate::device::{read_all, settle, write_through};
use crate::parsing::{Found, parse};
use mega_disk::{Disk, DiskError};
use std::alloc::Global;

/// Reads the records of a device and closes the gate behind them where it stands open, or where there
/// is none. It begins with a sync, so that nothing is pending.
pub(crate) fn open_chain<D: Disk>(alloc: Global, disk: &mut D) -> Result<Found, DiskError>
    ensures records { D.is_told ≡ true → IfOk result (λ found. found.records.items ≡ records_of (D.seen disk.old)) }
    ensures same { D.is_told ≡ true → OnOk result (records_of (D.seen disk.new) ≡ records_of (D.seen disk.old)) }
    ensures settled { D.is_told ≡ true → IfOk result (λ found. IsSettled (D.seen disk.new) (D.may_leave disk.new) found.end) }
    ensures any_moment { D.is_told ≡ true → LeavesOnly D.moment D.left_since disk.old disk.new (HoldsAs (D.may_leave disk.old)) }
    ensures few { IfOk result (λ found. length found.records.items ≤ found.end) }
    ensures room { IfOk result (λ found. found.end < 2 ^ 63) }
    ensures cause { result ≡ Err DiskError.Failed → Rose (D.faults disk.old) (D.faults disk.new) }
    ensures later { D.faults disk.old ≤ D.faults disk.new }
    ensures lowers { OnOk result (LowersBy 0 (D.fuse_left disk.old) (D.fuse_left disk.new)) }
    ensures may_burn { MayBurn (D.fuse_left disk.old) (D.fuse_left disk.new) }
    ensures burns { D.fails_by_fuse disk.old ≡ true → result ≡ Err DiskError.Failed → Burns (D.fuse_left disk.old) (D.fuse_left disk.new) }
    ensures by_fuse { D.fails_by_fuse disk.old ≡ true → D.fails_by_fuse disk.new ≡ true }
{
    settle(disk)?;
    let bytes = read_all(alloc, disk)?;
    let found = parse(alloc, bytes.as_slice())?;
    close_end(disk, bytes.as_slice(), found.end)?;
    Ok(found)
}

/// Writes a closed gate at the end of the records where none stands there.
fn close_end<D: Disk>(disk: &mut D, bytes: &[u8], end: usize) -> Result<(), DiskError>
    requires behind { 0 < length bytes.now → end < length bytes.now }
    requires read { D.is_told ≡ true → IsRead (D.seen disk.old) end }
    requires bytes { D.is_told ≡ true → bytes.now ≡ D.seen disk.old }
    requires durable { D.is_told ≡ true → Only (D.seen disk.old) (D.may_leave disk.old) }
    ensures same { D.is_told ≡ true → OnOk result (records_of (D.seen disk.new) ≡ records_of (D.seen disk.old)) }
    ensures settled { D.is_told ≡ true → OnOk result (IsSettled (D.seen disk.new) (D.may_leave disk.new) end) }
    ensures any_moment { D.is_told ≡ true → LeavesOnly D.moment D.left_since disk.old disk.new (λ image. records_of image ≡ records_of (D.seen disk.old)) }
    ensures cause { result ≡ Err DiskError.Failed → Rose (D.faults disk.old) (D.faults disk.new) }
    ensures later { D.faults disk.old ≤ D.faults disk.new }
    ensures lowers { OnOk result (LowersBy 0 (D.fuse_left disk.old) (D.fuse_left disk.new)) }
    ensures may_burn { MayBurn (D.fuse_left disk.old) (D.fuse_left disk.new) }
    ensures burns { D.fails_by_fuse disk.old ≡ true → result ≡ Err DiskError.Failed → Burns (D.fuse_left disk.old) (D.fuse_left disk.new) }
    ensures by_fuse { D.fails_by_fuse disk.old ≡ true → D.fails_by_fuse disk.new ≡ true }
{
    if ends_shut(bytes, end) {
        return Ok(());
    }
    write_through(disk, end as u64, &[0])
}

/// Whether a closed gate stands behind the records of a file of more than one byte.
fn ends_shut(bytes: &[u8], end: usize) -> bool
    requires { 0 < length bytes.now → end < length bytes.now }
    ensures { result ≡ is_shut bytes.now end }
{
    bytes.len() > 1 && bytes[end] != 1
}
