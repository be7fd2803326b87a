//! The device calls of a journal: settle, write and sync, and read all bytes once.
ghost use Rattle.std.specs.Prelude.{◌≡◌, ◌+◌, ◌≤◌, true, length, IfOk, OnOk};
ghost use Rattle.mega_base.specs.Causes.{Rose};
ghost use Rattle.mega_disk.specs.Images.{overwritten, Only, Torn, Within, LeavesOnly};
ghost use Rattle.mega_disk.specs.Fuse.{LowersBy, MayBurn, Burns};

use mega_base::NoMemory;
use mega_disk::{Disk, DiskError};
use std::alloc::Global;

/// How many bytes a read takes at most.
const PIECE: usize = 1 << 20;

/// Begins an opening: after it nothing is pending.
pub fn settle<D: Disk>(disk: &mut D) -> Result<(), DiskError>
    ensures durable { D.is_told ≡ true → OnOk result (Only (D.seen disk.old) (D.may_leave disk.new)) }
    ensures seen { OnOk result (D.seen disk.new ≡ D.seen disk.old) }
    ensures within { Within (D.may_leave disk.old) (D.may_leave disk.new) }
    ensures any_moment { LeavesOnly D.moment D.left_since disk.old disk.new (D.may_leave disk.old) }
    ensures cause { result ≡ Err DiskError.Failed → Rose (D.faults disk.old) (D.faults disk.new) }
    ensures later { D.faults disk.old ≤ D.faults disk.new }
    ensures lowers { OnOk result (LowersBy 1 (D.fuse_left disk.old) (D.fuse_left disk.new)) }
    ensures may_burn { MayBurn (D.fuse_left disk.old) (D.fuse_left disk.new) }
    ensures burns { D.fails_by_fuse disk.old ≡ true → result ≡ Err DiskError.Failed → Burns (D.fuse_left disk.old) (D.fuse_left disk.new) }
    ensures by_fuse { D.fails_by_fuse disk.old ≡ true → D.fails_by_fuse disk.new ≡ true }
{
    disk.sync()?;
    Ok(())
}

/// Writes bytes and syncs. At Ok they are on the disk.
pub fn write_through<D: Disk>(disk: &mut D, at: u64, bytes: &[u8]) -> Result<(), DiskError>
    requires { D.is_told ≡ true → at ≤ length (D.seen disk.old) }
    ensures written { D.is_told ≡ true → OnOk result (D.seen disk.new ≡ overwritten at bytes.now (D.seen disk.old)) }
    ensures durable { D.is_told ≡ true → OnOk result (Only (D.seen disk.new) (D.may_leave disk.new)) }
    ensures any_moment { D.is_told ≡ true → Only (D.seen disk.old) (D.may_leave disk.old) → LeavesOnly D.moment D.left_since disk.old disk.new (Torn at (length bytes.now) (D.seen disk.old)) }
    ensures cause { result ≡ Err DiskError.Failed → Rose (D.faults disk.old) (D.faults disk.new) }
    ensures later { D.faults disk.old ≤ D.faults disk.new }
    ensures lowers { OnOk result (LowersBy 2 (D.fuse_left disk.old) (D.fuse_left disk.new)) }
    ensures may_burn { MayBurn (D.fuse_left disk.old) (D.fuse_left disk.new) }
    ensures burns { D.fails_by_fuse disk.old ≡ true → result ≡ Err DiskError.Failed → Burns (D.fuse_left disk.old) (D.fuse_left disk.new) }
    ensures by_fuse { D.fails_by_fuse disk.old ≡ true → D.fails_by_fuse disk.new ≡ true }
{
    disk.write(at, bytes)?;
    disk.sync()
}

/// All bytes of the device, each read once.
pub fn read_all<D: Disk>(alloc: Global, disk: &mut D) -> Result<Vec<u8>, DiskError>
    ensures bytes { D.is_told ≡ true → IfOk result (λ bytes. bytes.items ≡ D.seen disk.old) }
    ensures seen { OnOk result (D.seen disk.new ≡ D.seen disk.old) }
    ensures within { Within (D.may_leave disk.old) (D.may_leave disk.new) }
    ensures any_moment { LeavesOnly D.moment D.left_since disk.old disk.new (D.may_leave disk.old) }
    ensures cause { result ≡ Err DiskError.Failed → Rose (D.faults disk.old) (D.faults disk.new) }
    ensures later { D.faults disk.old ≤ D.faults disk.new }
    ensures lowers { OnOk result (LowersBy 0 (D.fuse_left disk.old) (D.fuse_left disk.new)) }
    ensures may_burn { MayBurn (D.fuse_left disk.old) (D.fuse_left disk.new) }
    ensures burns { D.fails_by_fuse disk.old ≡ true → result ≡ Err DiskError.Failed → Burns (D.fuse_left disk.old) (D.fuse_left disk.new) }
    ensures by_fuse { D.fails_by_fuse disk.old ≡ true → D.fails_by_fuse disk.new ≡ true }
{
    let size = disk.len()?;
    let mut bytes = zeros(alloc, size as usize)?;
    fill(disk, bytes.as_mut_slice())?;
    Ok(bytes)
}

fn zeros(alloc: Global, size: usize) -> Result<Vec<u8>, NoMemory>
    ensures { IfOk result (λ bytes. length bytes.items ≡ size) }
{
    Ok(vec![in alloc; 0; size]?)
}

/// Fills the bytes with those of the device, piece by piece.
fn fill<D: Disk>(disk: &mut D, bytes: &mut [u8]) -> Result<(), DiskError>
    requires { D.is_told ≡ true → length bytes.old ≡ length (D.seen disk.old) }
    ensures bytes { D.is_told ≡ true → OnOk result (bytes.new ≡ D.seen disk.old) }
    ensures seen { OnOk result (D.seen disk.new ≡ D.seen disk.old) }
    ensures within { Within (D.may_leave disk.old) (D.may_leave disk.new) }
    ensures any_moment { LeavesOnly D.moment D.left_since disk.old disk.new (D.may_leave disk.old) }
    ensures cause { result ≡ Err DiskError.Failed → Rose (D.faults disk.old) (D.faults disk.new) }
    ensures later { D.faults disk.old ≤ D.faults disk.new }
    ensures lowers { OnOk result (LowersBy 0 (D.fuse_left disk.old) (D.fuse_left disk.new)) }
    ensures may_burn { MayBurn (D.fuse_left disk.old) (D.fuse_left disk.new) }
    ensures burns { D.fails_by_fuse disk.old ≡ true → result ≡ Err DiskError.Failed → Burns (D.fuse_left disk.old) (D.fuse_left disk.new) }
    ensures by_fuse { D.fails_by_fuse disk.old ≡ true → D.fails_by_fuse disk.new ≡ true }
{
    let mut at = 0;
    while at < bytes.len() {
        let count = (bytes.len() - at).min(PIECE);
        disk.read(at as u64, &mut bytes[at..at + count])?;
        at += count;
    }
    Ok(())
}
