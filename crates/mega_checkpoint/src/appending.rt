//! Appends a record to the area that counts.
ghost use Rattle.std.specs.Prelude.{◌≡◌, ◌+◌, ◌*◌, ◌<◌, ◌≤◌, ◌^◌, ◌++◌, [], ◌∷◌, true, max, length, IfOk, OnOk};
ghost use Rattle.mega_base.specs.Causes.{Rose};
ghost use Rattle.mega_disk.specs.Images.{LeavesOnly};
ghost use Rattle.mega_disk.specs.Fuse.{LowersBy, MayBurn, Burns};
ghost use Rattle.mega_disk.specs.RecordLists.{IsBeforeOrAfter};
ghost use Rattle.mega_areas.specs.Pages.{length_of_pages, pages_for};
ghost use Rattle.mega_checkpoint.specs.Format.{list_of};
ghost use Rattle.mega_areas.specs.Forms.{length_with, limit_of, pages_of, pages_with};
ghost use Rattle.mega_checkpoint.specs.Held.{HoldsAreas, IsHeld};

use crate::chain::{add_to_chain, behind_gate, spells_mark};
use mega_areas::{Areas, Form, pages_for, set_byte, stage};
use mega_disk::{Disk, DiskError};
use std::alloc::Global;

/// Writes a record behind the closed gate at `end` of the area's chain and, once it is on the disk, opens the gate.
pub(crate) fn add_to_area<D: Disk>(
    alloc: Global,
    disk: &mut D,
    areas: Areas,
    end: u64,
    body: &[u8],
) -> Result<Areas, DiskError>
    requires held { D.is_told ≡ true → HoldsAreas (D.seen disk.old) (D.may_leave disk.old) areas end }
    requires short { length body.now < 2 ^ 32 }
    requires room { end < 4096 * areas.pages }
    requires limit { length_of_pages (max areas.pages (pages_for (end + 15 + length body.now))) ≤ 2 ^ 40 }
    requires small { areas.pages < 2 ^ 50 }
    ensures added { D.is_told ≡ true → OnOk result (list_of (D.seen disk.new) ≡ list_of (D.seen disk.old) ++ body.now ∷ []) }
    ensures held { D.is_told ≡ true → IfOk result (λ areas. HoldsAreas (D.seen disk.new) (D.may_leave disk.new) areas (end + 5 + length body.now)) }
    ensures pages { IfOk result (λ grown. grown.pages ≡ max areas.pages (pages_for (end + 15 + length body.now))) }
    ensures room { IfOk result (λ grown. end + 5 + length body.now < 4096 * grown.pages) }
    ensures small { IfOk result (λ grown. grown.pages < 2 ^ 50) }
    ensures any_moment { D.is_told ≡ true → LeavesOnly D.moment D.left_since disk.old disk.new (λ image. IsBeforeOrAfter (list_of (D.seen disk.old)) body.now (list_of image)) }
    ensures cause { result ≡ Err DiskError.Failed → Rose (D.faults disk.old) (D.faults disk.new) }
    ensures later { D.faults disk.old ≤ D.faults disk.new }
    ensures lowers { OnOk result (LowersBy 4 (D.fuse_left disk.old) (D.fuse_left disk.new)) }
    ensures may_burn { MayBurn (D.fuse_left disk.old) (D.fuse_left disk.new) }
    ensures burns { D.fails_by_fuse disk.old ≡ true → result ≡ Err DiskError.Failed → Burns (D.fuse_left disk.old) (D.fuse_left disk.new) }
    ensures by_fuse { D.fails_by_fuse disk.old ≡ true → D.fails_by_fuse disk.new ≡ true }
{
    let record = behind_gate(alloc, body)?;
    let pages = areas.pages.max(pages_for(end + 15 + body.len() as u64));
    stage(
        alloc,
        disk,
        areas.active,
        end + 10,
        record.as_slice(),
        areas.pages,
        pages,
    )?;
    set_byte(disk, areas.active, end + 9, 1)?;
    Ok(Areas { pages, ..areas })
}

/// Appends a record to a file of either form. A body that would make a chain begin as a file of areas does is refused,
/// as one that there is no memory for.
pub(crate) fn add<D: Disk>(
    alloc: Global,
    disk: &mut D,
    form: Form,
    end: u64,
    body: &[u8],
) -> Result<Form, DiskError>
    requires held { D.is_told ≡ true → IsHeld (D.seen disk.old) (D.may_leave disk.old) form end }
    requires short { length body.now < 2 ^ 32 }
    requires room { end < limit_of form }
    requires limit { length_with form end (length body.now) ≤ 2 ^ 40 }
    requires small { pages_of form < 2 ^ 50 }
    ensures added { D.is_told ≡ true → OnOk result (list_of (D.seen disk.new) ≡ list_of (D.seen disk.old) ++ body.now ∷ []) }
    ensures held { D.is_told ≡ true → IfOk result (λ form. IsHeld (D.seen disk.new) (D.may_leave disk.new) form (end + 5 + length body.now)) }
    ensures pages { IfOk result (λ grown. pages_of grown ≡ pages_with form end (length body.now)) }
    ensures room { IfOk result (λ grown. end + 5 + length body.now < limit_of grown) }
    ensures small { IfOk result (λ grown. pages_of grown < 2 ^ 50) }
    ensures any_moment { D.is_told ≡ true → LeavesOnly D.moment D.left_since disk.old disk.new (λ image. IsBeforeOrAfter (list_of (D.seen disk.old)) body.now (list_of image)) }
    ensures cause { result ≡ Err DiskError.Failed → Rose (D.faults disk.old) (D.faults disk.new) }
    ensures later { D.faults disk.old ≤ D.faults disk.new }
    ensures lowers { OnOk result (LowersBy 4 (D.fuse_left disk.old) (D.fuse_left disk.new)) }
    ensures may_burn { MayBurn (D.fuse_left disk.old) (D.fuse_left disk.new) }
    ensures burns { D.fails_by_fuse disk.old ≡ true → result ≡ Err DiskError.Failed → Burns (D.fuse_left disk.old) (D.fuse_left disk.new) }
    ensures by_fuse { D.fails_by_fuse disk.old ≡ true → D.fails_by_fuse disk.new ≡ true }
{
    match form {
        Form::Chain => {
            if end == 0 && spells_mark(body.len()) {
                return Err(DiskError::NoMemory);
            }
            add_to_chain(alloc, disk, end, body)?;
            Ok(Form::Chain)
        }
        Form::InAreas(areas) => {
            let grown = add_to_area(alloc, disk, areas, end, body)?;
            Ok(Form::InAreas(grown))
        }
    }
}
