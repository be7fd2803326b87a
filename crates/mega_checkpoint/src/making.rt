//! Makes a new file of areas, and begins the first generation.
ghost use Rattle.std.specs.Prelude.{◌≡◌, ◌+◌, ◌<◌, ◌≤◌, ◌^◌, ◌++◌, [], ◌∷◌, true, false, length, IfOk, OnOk};
ghost use Rattle.mega_base.specs.Causes.{Rose};
ghost use Rattle.mega_disk.specs.Images.{Only, LeavesOnly};
ghost use Rattle.mega_disk.specs.Fuse.{LowersBy, MayBurn, Burns};
ghost use Rattle.byteorder.specs.Endian.{big_bytes};
ghost use Rattle.mega_areas.specs.Pages.{zero_bytes};
ghost use Rattle.mega_checkpoint.specs.Format.{list_of};
ghost use Rattle.mega_checkpoint.specs.Held.{HoldsAreas, IsIdle};

use crate::numbering::generation_bytes;
use mega_areas::{Area, Areas, set_byte, stage, zeros};
use mega_base::NoMemory;
use mega_disk::{Disk, DiskError};
use mega_journal::write_through;
use std::alloc::Global;

/// Makes a file of at most one byte a file of areas, with a page of each and no open gate.
pub(crate) fn make<D: Disk>(alloc: Global, disk: &mut D, size: usize) -> Result<(), DiskError>
    requires few { size ≤ 1 }
    requires size { D.is_told ≡ true → size ≡ length (D.seen disk.old) }
    requires durable { D.is_told ≡ true → Only (D.seen disk.old) (D.may_leave disk.old) }
    ensures idle { D.is_told ≡ true → OnOk result (IsIdle (D.seen disk.new) (D.may_leave disk.new) 1) }
    ensures any_moment { D.is_told ≡ true → LeavesOnly D.moment D.left_since disk.old disk.new (λ image. list_of image ≡ []) }
    ensures cause { result ≡ Err DiskError.Failed → Rose (D.faults disk.old) (D.faults disk.new) }
    ensures later { D.faults disk.old ≤ D.faults disk.new }
    ensures lowers { OnOk result (LowersBy 0 (D.fuse_left disk.old) (D.fuse_left disk.new)) }
    ensures may_burn { MayBurn (D.fuse_left disk.old) (D.fuse_left disk.new) }
    ensures burns { D.fails_by_fuse disk.old ≡ true → result ≡ Err DiskError.Failed → Burns (D.fuse_left disk.old) (D.fuse_left disk.new) }
    ensures by_fuse { D.fails_by_fuse disk.old ≡ true → D.fails_by_fuse disk.new ≡ true }
{
    let rest = behind_first(alloc)?;
    write_through(disk, 0, &[0])?;
    write_through(disk, 1, rest.as_slice())?;
    write_through(disk, 0, &[1])
}

/// What stands behind the first gate of a new file: the mark, and zero bytes to the end of the third page.
fn behind_first(alloc: Global) -> Result<Vec<u8>, NoMemory>
    ensures { IfOk result (λ bytes. bytes.items ≡ 71 ∷ 65 ∷ 50 ∷ zero_bytes 12284) }
{
    let mut bytes = Vec::with_capacity(alloc, 12287)?;
    bytes.extend_from_slice(&[0x47, 0x41, 0x32])?;
    let zeros = zeros(alloc, 12284)?;
    bytes.extend_from_slice(zeros.as_slice())?;
    Ok(bytes)
}

/// Begins the first generation, with no record, in a file of areas with no open gate.
pub(crate) fn begin<D: Disk>(alloc: Global, disk: &mut D, pages: u64) -> Result<Areas, DiskError>
    requires idle { D.is_told ≡ true → IsIdle (D.seen disk.old) (D.may_leave disk.old) pages }
    requires some { 1 ≤ pages }
    requires small { pages < 2 ^ 50 }
    ensures held { D.is_told ≡ true → IfOk result (λ areas. HoldsAreas (D.seen disk.new) (D.may_leave disk.new) areas 0) }
    ensures pages { IfOk result (λ areas. areas.pages ≡ pages) }
    ensures empty { D.is_told ≡ true → OnOk result (list_of (D.seen disk.new) ≡ []) }
    ensures any_moment { D.is_told ≡ true → LeavesOnly D.moment D.left_since disk.old disk.new (λ image. list_of image ≡ []) }
    ensures cause { result ≡ Err DiskError.Failed → Rose (D.faults disk.old) (D.faults disk.new) }
    ensures later { D.faults disk.old ≤ D.faults disk.new }
    ensures lowers { OnOk result (LowersBy 0 (D.fuse_left disk.old) (D.fuse_left disk.new)) }
    ensures may_burn { MayBurn (D.fuse_left disk.old) (D.fuse_left disk.new) }
    ensures burns { D.fails_by_fuse disk.old ≡ true → result ≡ Err DiskError.Failed → Burns (D.fuse_left disk.old) (D.fuse_left disk.new) }
    ensures by_fuse { D.fails_by_fuse disk.old ≡ true → D.fails_by_fuse disk.new ≡ true }
{
    let front = first_generation(alloc)?;
    stage(alloc, disk, Area::Odd, 1, front.as_slice(), pages, pages)?;
    set_byte(disk, Area::Odd, 0, 1)?;
    Ok(Areas {
        active: Area::Odd,
        generation: 1,
        pages,
        other_open: false,
    })
}

/// The first generation, and a closed gate behind it.
fn first_generation(alloc: Global) -> Result<Vec<u8>, NoMemory>
    ensures { IfOk result (λ bytes. bytes.items ≡ big_bytes 8 1 ++ 0 ∷ []) }
{
    let mut bytes = generation_bytes(alloc, 1)?;
    bytes.push(0)?;
    Ok(bytes)
}
