//! Closes the gate behind the records of a file.
ghost use Rattle.std.specs.Prelude.{◌≡◌, ◌<◌, ◌≤◌, ◌^◌, true, length, take, IfOk, OnOk};
ghost use Rattle.mega_base.specs.Causes.{Rose};
ghost use Rattle.mega_disk.specs.Images.{Only, Within, LeavesOnly};
ghost use Rattle.mega_disk.specs.Fuse.{LowersBy, MayBurn, Burns};
ghost use Rattle.mega_chain.specs.Chain.{records_of};
ghost use Rattle.mega_chain.specs.Rest.{IsSettled, IsRead, is_shut};

use crate::device::write_through;
use mega_disk::{Disk, DiskError};

/// Writes a closed gate at the end of the records where none stands there.
pub fn shut<D: Disk>(disk: &mut D, end: u64, size: u64) -> Result<(), DiskError>
    requires room { end < 2 ^ 62 }
    requires size { D.is_told ≡ true → size ≡ length (D.seen disk.old) }
    requires read { D.is_told ≡ true → IsRead (D.seen disk.old) end }
    requires durable { D.is_told ≡ true → Only (D.seen disk.old) (D.may_leave disk.old) }
    ensures same { D.is_told ≡ true → OnOk result (records_of (D.seen disk.new) ≡ records_of (D.seen disk.old)) }
    ensures front { D.is_told ≡ true → OnOk result (take end (D.seen disk.new) ≡ take end (D.seen disk.old)) }
    ensures settled { D.is_told ≡ true → OnOk result (IsSettled (D.seen disk.new) (D.may_leave disk.new) end) }
    ensures any_moment { D.is_told ≡ true → LeavesOnly D.moment D.left_since disk.old disk.new (λ image. records_of image ≡ records_of (D.seen disk.old)) }
    ensures cause { result ≡ Err DiskError.Failed → Rose (D.faults disk.old) (D.faults disk.new) }
    ensures later { D.faults disk.old ≤ D.faults disk.new }
    ensures lowers { OnOk result (LowersBy 0 (D.fuse_left disk.old) (D.fuse_left disk.new)) }
    ensures may_burn { MayBurn (D.fuse_left disk.old) (D.fuse_left disk.new) }
    ensures burns { D.fails_by_fuse disk.old ≡ true → result ≡ Err DiskError.Failed → Burns (D.fuse_left disk.old) (D.fuse_left disk.new) }
    ensures by_fuse { D.fails_by_fuse disk.old ≡ true → D.fails_by_fuse disk.new ≡ true }
{
    if ends_shut(disk, end, size)? {
        return Ok(());
    }
    write_through(disk, end, &[0])
}

/// Whether a closed gate stands behind the records of a file of more than one byte.
fn ends_shut<D: Disk>(disk: &mut D, end: u64, size: u64) -> Result<bool, DiskError>
    requires size { D.is_told ≡ true → size ≡ length (D.seen disk.old) }
    requires read { D.is_told ≡ true → IsRead (D.seen disk.old) end }
    ensures value { D.is_told ≡ true → IfOk result (λ shut. shut ≡ is_shut (D.seen disk.old) end) }
    ensures seen { OnOk result (D.seen disk.new ≡ D.seen disk.old) }
    ensures within { Within (D.may_leave disk.old) (D.may_leave disk.new) }
    ensures any_moment { LeavesOnly D.moment D.left_since disk.old disk.new (D.may_leave disk.old) }
    ensures cause { result ≡ Err DiskError.Failed → Rose (D.faults disk.old) (D.faults disk.new) }
    ensures later { D.faults disk.old ≤ D.faults disk.new }
    ensures lowers { OnOk result (LowersBy 0 (D.fuse_left disk.old) (D.fuse_left disk.new)) }
    ensures may_burn { MayBurn (D.fuse_left disk.old) (D.fuse_left disk.new) }
    ensures burns { D.fails_by_fuse disk.old ≡ true → result ≡ Err DiskError.Failed → Burns (D.fuse_left disk.old) (D.fuse_left disk.new) }
    ensures by_fuse { D.fails_by_fuse disk.old ≡ true → D.fails_by_fuse disk.new ≡ true }
{
    if size <= 1 {
        return Ok(false);
    }
    let mut gate = [0; 1];
    disk.read(end, &mut gate)?;
    Ok(gate[0] != 1)
}
