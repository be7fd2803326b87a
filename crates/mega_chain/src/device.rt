//! Writes to a device in pieces, and syncs behind them.
ghost use Rattle.std.specs.Prelude.{◌≡◌, ◌+◌, ◌<◌, ◌≤◌, ◌^◌, true, length, OnOk};
ghost use Rattle.mega_base.specs.Causes.{Rose};
ghost use Rattle.mega_disk.specs.Images.{overwritten, Only, Torn, LeavesOnly};
ghost use Rattle.mega_disk.specs.Fuse.{LowersBy, MayBurn, Burns};
ghost use Rattle.mega_chain.specs.Rest.{AreTorn};

use mega_disk::{Disk, DiskError};

/// How many bytes a write has at most.
const PIECE: usize = 65_536;

/// Writes bytes, piece by piece. A crash leaves any bytes in their range, and the others as they are.
pub(crate) fn write_pieces<D: Disk>(disk: &mut D, at: u64, bytes: &[u8]) -> Result<(), DiskError>
    requires within { D.is_told ≡ true → at ≤ length (D.seen disk.old) }
    requires room { at < 2 ^ 63 }
    ensures written { D.is_told ≡ true → OnOk result (D.seen disk.new ≡ overwritten at bytes.now (D.seen disk.old)) }
    ensures torn { D.is_told ≡ true → Only (D.seen disk.old) (D.may_leave disk.old) → AreTorn at (length bytes.now) (D.seen disk.old) (D.may_leave disk.new) }
    ensures any_moment { D.is_told ≡ true → Only (D.seen disk.old) (D.may_leave disk.old) → LeavesOnly D.moment D.left_since disk.old disk.new (Torn at (length bytes.now) (D.seen disk.old)) }
    ensures cause { result ≡ Err DiskError.Failed → Rose (D.faults disk.old) (D.faults disk.new) }
    ensures later { D.faults disk.old ≤ D.faults disk.new }
    ensures lowers { OnOk result (LowersBy 0 (D.fuse_left disk.old) (D.fuse_left disk.new)) }
    ensures may_burn { MayBurn (D.fuse_left disk.old) (D.fuse_left disk.new) }
    ensures burns { D.fails_by_fuse disk.old ≡ true → result ≡ Err DiskError.Failed → Burns (D.fuse_left disk.old) (D.fuse_left disk.new) }
    ensures by_fuse { D.fails_by_fuse disk.old ≡ true → D.fails_by_fuse disk.new ≡ true }
{
    let mut done = 0;
    while done < bytes.len() {
        let count = (bytes.len() - done).min(PIECE);
        disk.write(at + done as u64, &bytes[done..done + count])?;
        done += count;
    }
    Ok(())
}

/// Writes bytes and syncs. At Ok they are on the disk.
pub(crate) fn write_through<D: Disk>(disk: &mut D, at: u64, bytes: &[u8]) -> Result<(), DiskError>
    requires within { D.is_told ≡ true → at ≤ length (D.seen disk.old) }
    requires room { at < 2 ^ 63 }
    ensures written { D.is_told ≡ true → OnOk result (D.seen disk.new ≡ overwritten at bytes.now (D.seen disk.old)) }
    ensures durable { D.is_told ≡ true → OnOk result (Only (D.seen disk.new) (D.may_leave disk.new)) }
    ensures any_moment { D.is_told ≡ true → Only (D.seen disk.old) (D.may_leave disk.old) → LeavesOnly D.moment D.left_since disk.old disk.new (Torn at (length bytes.now) (D.seen disk.old)) }
    ensures cause { result ≡ Err DiskError.Failed → Rose (D.faults disk.old) (D.faults disk.new) }
    ensures later { D.faults disk.old ≤ D.faults disk.new }
    ensures lowers { OnOk result (LowersBy 0 (D.fuse_left disk.old) (D.fuse_left disk.new)) }
    ensures may_burn { MayBurn (D.fuse_left disk.old) (D.fuse_left disk.new) }
    ensures burns { D.fails_by_fuse disk.old ≡ true → result ≡ Err DiskError.Failed → Burns (D.fuse_left disk.old) (D.fuse_left disk.new) }
    ensures by_fuse { D.fails_by_fuse disk.old ≡ true → D.fails_by_fuse disk.new ≡ true }
{
    write_pieces(disk, at, bytes)?;
    disk.sync()
}
