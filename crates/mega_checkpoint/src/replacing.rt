//! Puts one record in place of all, in the area that does not count, which counts from then on.
ghost use Rattle.std.specs.Prelude.{◌≡◌, ◌+◌, ◌-◌, ◌*◌, ◌<◌, ◌≤◌, ◌^◌, [], ◌∷◌, true, max, length, IfOk, OnOk};
ghost use Rattle.mega_base.specs.Causes.{Rose};
ghost use Rattle.mega_disk.specs.Images.{LeavesOnly};
ghost use Rattle.mega_disk.specs.Fuse.{LowersBy, MayBurn, Burns};
ghost use Rattle.mega_disk.specs.RecordLists.{IsOldOrReplaced};
ghost use Rattle.mega_areas.specs.Pages.{length_of_pages, pages_for};
ghost use Rattle.mega_checkpoint.specs.Format.{list_of, replacing};
ghost use Rattle.mega_checkpoint.specs.Held.{HoldsAreas, shut};

use crate::numbering::generation_bytes;
use mega_areas::{Areas, pages_for, set_byte, stage};
use mega_base::NoMemory;
use mega_disk::{Disk, DiskError};
use std::alloc::Global;

/// Writes the record as the next generation of the other area and, once it is on the disk, opens that area's gate.
pub(crate) fn replace_area<D: Disk>(
    alloc: Global,
    disk: &mut D,
    areas: Areas,
    end: u64,
    body: &[u8],
) -> Result<Areas, DiskError>
    requires held { D.is_told ≡ true → HoldsAreas (D.seen disk.old) (D.may_leave disk.old) areas end }
    requires short { length body.now < 2 ^ 32 }
    requires limit { length_of_pages (max areas.pages (pages_for (15 + length body.now))) ≤ 2 ^ 40 }
    requires next { areas.generation < 2 ^ 64 - 1 }
    requires small { areas.pages < 2 ^ 50 }
    ensures replaced { D.is_told ≡ true → OnOk result (list_of (D.seen disk.new) ≡ body.now ∷ []) }
    ensures held { D.is_told ≡ true → IfOk result (λ areas. HoldsAreas (D.seen disk.new) (D.may_leave disk.new) areas (5 + length body.now)) }
    ensures pages { IfOk result (λ grown. grown.pages ≡ max areas.pages (pages_for (15 + length body.now))) }
    ensures room { IfOk result (λ grown. 5 + length body.now < 4096 * grown.pages) }
    ensures small { IfOk result (λ grown. grown.pages < 2 ^ 50) }
    ensures any_moment { D.is_told ≡ true → LeavesOnly D.moment D.left_since disk.old disk.new (λ image. IsOldOrReplaced (list_of (D.seen disk.old)) body.now (list_of image)) }
    ensures cause { result ≡ Err DiskError.Failed → Rose (D.faults disk.old) (D.faults disk.new) }
    ensures later { D.faults disk.old ≤ D.faults disk.new }
    ensures lowers { OnOk result (LowersBy 4 (D.fuse_left disk.old) (D.fuse_left disk.new)) }
    ensures may_burn { MayBurn (D.fuse_left disk.old) (D.fuse_left disk.new) }
    ensures burns { D.fails_by_fuse disk.old ≡ true → result ≡ Err DiskError.Failed → Burns (D.fuse_left disk.old) (D.fuse_left disk.new) }
    ensures by_fuse { D.fails_by_fuse disk.old ≡ true → D.fails_by_fuse disk.new ≡ true }
{
    let generation = areas.generation + 1;
    let bytes = replacing(alloc, generation, body)?;
    let pages = areas.pages.max(pages_for(15 + body.len() as u64));
    let beside = areas.active.other();
    shut_other(disk, areas, end)?;
    stage(alloc, disk, beside, 1, bytes.as_slice(), areas.pages, pages)?;
    set_byte(disk, beside, 0, 1)?;
    Ok(Areas {
        active: beside,
        generation,
        pages,
        other_open: true,
    })
}

/// What stands behind the gate of an area with one record: the generation, the record with an open gate, and a closed
/// gate.
fn replacing(alloc: Global, generation: u64, body: &[u8]) -> Result<Vec<u8>, NoMemory>
    requires { length body.now < 2 ^ 32 }
    ensures { IfOk result (λ bytes. bytes.items ≡ replacing generation body.now) }
{
    let mut bytes = generation_bytes(alloc, generation)?;
    bytes.reserve_exact(body.len() + 6)?;
    bytes.push(1)?;
    bytes.extend_from_slice(&(body.len() as u32).to_be_bytes())?;
    bytes.extend_from_slice(body)?;
    bytes.push(0)?;
    Ok(bytes)
}

/// Closes the gate of the other area where it is open; one that is closed is not written, since a crash could leave it
/// open before a generation that comes after the one that counts.
fn shut_other<D: Disk>(disk: &mut D, areas: Areas, end: u64) -> Result<(), DiskError>
    requires held { D.is_told ≡ true → HoldsAreas (D.seen disk.old) (D.may_leave disk.old) areas end }
    requires small { areas.pages < 2 ^ 50 }
    ensures same { D.is_told ≡ true → OnOk result (list_of (D.seen disk.new) ≡ list_of (D.seen disk.old)) }
    ensures held { D.is_told ≡ true → OnOk result (HoldsAreas (D.seen disk.new) (D.may_leave disk.new) (shut areas) end) }
    ensures any_moment { D.is_told ≡ true → LeavesOnly D.moment D.left_since disk.old disk.new (λ image. list_of image ≡ list_of (D.seen disk.old)) }
    ensures cause { result ≡ Err DiskError.Failed → Rose (D.faults disk.old) (D.faults disk.new) }
    ensures later { D.faults disk.old ≤ D.faults disk.new }
    ensures lowers { OnOk result (LowersBy 0 (D.fuse_left disk.old) (D.fuse_left disk.new)) }
    ensures may_burn { MayBurn (D.fuse_left disk.old) (D.fuse_left disk.new) }
    ensures burns { D.fails_by_fuse disk.old ≡ true → result ≡ Err DiskError.Failed → Burns (D.fuse_left disk.old) (D.fuse_left disk.new) }
    ensures by_fuse { D.fails_by_fuse disk.old ≡ true → D.fails_by_fuse disk.new ≡ true }
{
    if !areas.other_open {
        return Ok(());
    }
    set_byte(disk, areas.active.other(), 0, 0)
}
