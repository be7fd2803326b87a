//! Opens a file that a crash may have left: a new one, one of areas, or one that is a chain.
ghost use Rattle.std.specs.Prelude.{◌≡◌, ◌<◌, ◌≤◌, ◌^◌, true, length, IfOk, OnOk};
ghost use Rattle.mega_base.specs.Causes.{Rose};
ghost use Rattle.mega_disk.specs.Images.{Only, LeavesOnly};
ghost use Rattle.mega_disk.specs.Fuse.{LowersBy, MayBurn, Burns};
ghost use Rattle.mega_areas.specs.Pages.{is_areas};
ghost use Rattle.mega_checkpoint.specs.Format.{list_of};
ghost use Rattle.mega_areas.specs.Forms.{limit_of, pages_of};
ghost use Rattle.mega_checkpoint.specs.Held.{HoldsAs, IsHeld};

use crate::chain::open_chain;
use crate::making::{begin, make};
use crate::reopening::open_areas;
use mega_areas::{Form, is_areas};
use mega_base::Bytes;
use mega_disk::{Disk, DiskError};
use mega_journal::{read_all, settle};
use std::alloc::Global;

/// The records of a file, its form, and the place of the closed gate behind the records.
#[derive(Drop)]
pub(crate) struct Opened {
    pub records: Vec<Bytes>,
    pub form: Form,
    pub end: u64,
}

/// Reads the records of a device and makes it ready for further ones. It begins with a sync, so that nothing is
/// pending.
pub(crate) fn open_file<D: Disk>(alloc: Global, disk: &mut D) -> Result<Opened, DiskError>
    ensures records { D.is_told ≡ true → IfOk result (λ opened. opened.records.items ≡ list_of (D.seen disk.old)) }
    ensures same { D.is_told ≡ true → OnOk result (list_of (D.seen disk.new) ≡ list_of (D.seen disk.old)) }
    ensures held { D.is_told ≡ true → IfOk result (λ opened. IsHeld (D.seen disk.new) (D.may_leave disk.new) opened.form opened.end) }
    ensures any_moment { D.is_told ≡ true → LeavesOnly D.moment D.left_since disk.old disk.new (HoldsAs (D.may_leave disk.old)) }
    ensures few { IfOk result (λ opened. length opened.records.items ≤ opened.end) }
    ensures room { IfOk result (λ opened. opened.end < limit_of opened.form) }
    ensures small { IfOk result (λ opened. pages_of opened.form < 2 ^ 50) }
    ensures cause { result ≡ Err DiskError.Failed → Rose (D.faults disk.old) (D.faults disk.new) }
    ensures later { D.faults disk.old ≤ D.faults disk.new }
    ensures lowers { OnOk result (LowersBy 0 (D.fuse_left disk.old) (D.fuse_left disk.new)) }
    ensures may_burn { MayBurn (D.fuse_left disk.old) (D.fuse_left disk.new) }
    ensures burns { D.fails_by_fuse disk.old ≡ true → result ≡ Err DiskError.Failed → Burns (D.fuse_left disk.old) (D.fuse_left disk.new) }
    ensures by_fuse { D.fails_by_fuse disk.old ≡ true → D.fails_by_fuse disk.new ≡ true }
{
    settle(disk)?;
    let bytes = read_all(alloc, disk)?;
    open_read(alloc, disk, bytes.as_slice())
}

/// Opens a file whose bytes were read.
fn open_read<D: Disk>(alloc: Global, disk: &mut D, bytes: &[u8]) -> Result<Opened, DiskError>
    requires bytes { D.is_told ≡ true → bytes.now ≡ D.seen disk.old }
    requires durable { D.is_told ≡ true → Only (D.seen disk.old) (D.may_leave disk.old) }
    ensures records { D.is_told ≡ true → IfOk result (λ opened. opened.records.items ≡ list_of (D.seen disk.old)) }
    ensures same { D.is_told ≡ true → OnOk result (list_of (D.seen disk.new) ≡ list_of (D.seen disk.old)) }
    ensures held { D.is_told ≡ true → IfOk result (λ opened. IsHeld (D.seen disk.new) (D.may_leave disk.new) opened.form opened.end) }
    ensures any_moment { D.is_told ≡ true → LeavesOnly D.moment D.left_since disk.old disk.new (λ image. list_of image ≡ list_of (D.seen disk.old)) }
    ensures few { IfOk result (λ opened. length opened.records.items ≤ opened.end) }
    ensures room { IfOk result (λ opened. opened.end < limit_of opened.form) }
    ensures small { IfOk result (λ opened. pages_of opened.form < 2 ^ 50) }
    ensures cause { result ≡ Err DiskError.Failed → Rose (D.faults disk.old) (D.faults disk.new) }
    ensures later { D.faults disk.old ≤ D.faults disk.new }
    ensures lowers { OnOk result (LowersBy 0 (D.fuse_left disk.old) (D.fuse_left disk.new)) }
    ensures may_burn { MayBurn (D.fuse_left disk.old) (D.fuse_left disk.new) }
    ensures burns { D.fails_by_fuse disk.old ≡ true → result ≡ Err DiskError.Failed → Burns (D.fuse_left disk.old) (D.fuse_left disk.new) }
    ensures by_fuse { D.fails_by_fuse disk.old ≡ true → D.fails_by_fuse disk.new ≡ true }
{
    if bytes.len() <= 1 {
        return open_new(alloc, disk, bytes);
    }
    if is_areas(bytes) {
        return open_in_areas(alloc, disk, bytes);
    }
    let found = open_chain(alloc, disk, bytes)?;
    Ok(Opened {
        records: found.records,
        form: Form::Chain,
        end: found.end as u64,
    })
}

/// Makes a file of at most one byte a new file of areas.
fn open_new<D: Disk>(alloc: Global, disk: &mut D, bytes: &[u8]) -> Result<Opened, DiskError>
    requires few { length bytes.now ≤ 1 }
    requires bytes { D.is_told ≡ true → bytes.now ≡ D.seen disk.old }
    requires durable { D.is_told ≡ true → Only (D.seen disk.old) (D.may_leave disk.old) }
    ensures records { D.is_told ≡ true → IfOk result (λ opened. opened.records.items ≡ list_of (D.seen disk.old)) }
    ensures same { D.is_told ≡ true → OnOk result (list_of (D.seen disk.new) ≡ list_of (D.seen disk.old)) }
    ensures held { D.is_told ≡ true → IfOk result (λ opened. IsHeld (D.seen disk.new) (D.may_leave disk.new) opened.form opened.end) }
    ensures any_moment { D.is_told ≡ true → LeavesOnly D.moment D.left_since disk.old disk.new (λ image. list_of image ≡ list_of (D.seen disk.old)) }
    ensures few { IfOk result (λ opened. length opened.records.items ≤ opened.end) }
    ensures room { IfOk result (λ opened. opened.end < limit_of opened.form) }
    ensures small { IfOk result (λ opened. pages_of opened.form < 2 ^ 50) }
    ensures cause { result ≡ Err DiskError.Failed → Rose (D.faults disk.old) (D.faults disk.new) }
    ensures later { D.faults disk.old ≤ D.faults disk.new }
    ensures lowers { OnOk result (LowersBy 0 (D.fuse_left disk.old) (D.fuse_left disk.new)) }
    ensures may_burn { MayBurn (D.fuse_left disk.old) (D.fuse_left disk.new) }
    ensures burns { D.fails_by_fuse disk.old ≡ true → result ≡ Err DiskError.Failed → Burns (D.fuse_left disk.old) (D.fuse_left disk.new) }
    ensures by_fuse { D.fails_by_fuse disk.old ≡ true → D.fails_by_fuse disk.new ≡ true }
{
    make(alloc, disk, bytes.len())?;
    let areas = begin(alloc, disk, 1)?;
    let records = Vec::new(alloc);
    Ok(Opened {
        records,
        form: Form::InAreas(areas),
        end: 0,
    })
}

/// Opens a file of areas.
fn open_in_areas<D: Disk>(alloc: Global, disk: &mut D, bytes: &[u8]) -> Result<Opened, DiskError>
    requires areas { is_areas bytes.now ≡ true }
    requires bytes { D.is_told ≡ true → bytes.now ≡ D.seen disk.old }
    requires durable { D.is_told ≡ true → Only (D.seen disk.old) (D.may_leave disk.old) }
    ensures records { D.is_told ≡ true → IfOk result (λ opened. opened.records.items ≡ list_of (D.seen disk.old)) }
    ensures same { D.is_told ≡ true → OnOk result (list_of (D.seen disk.new) ≡ list_of (D.seen disk.old)) }
    ensures held { D.is_told ≡ true → IfOk result (λ opened. IsHeld (D.seen disk.new) (D.may_leave disk.new) opened.form opened.end) }
    ensures any_moment { D.is_told ≡ true → LeavesOnly D.moment D.left_since disk.old disk.new (λ image. list_of image ≡ list_of (D.seen disk.old)) }
    ensures few { IfOk result (λ opened. length opened.records.items ≤ opened.end) }
    ensures room { IfOk result (λ opened. opened.end < limit_of opened.form) }
    ensures small { IfOk result (λ opened. pages_of opened.form < 2 ^ 50) }
    ensures cause { result ≡ Err DiskError.Failed → Rose (D.faults disk.old) (D.faults disk.new) }
    ensures later { D.faults disk.old ≤ D.faults disk.new }
    ensures lowers { OnOk result (LowersBy 0 (D.fuse_left disk.old) (D.fuse_left disk.new)) }
    ensures may_burn { MayBurn (D.fuse_left disk.old) (D.fuse_left disk.new) }
    ensures burns { D.fails_by_fuse disk.old ≡ true → result ≡ Err DiskError.Failed → Burns (D.fuse_left disk.old) (D.fuse_left disk.new) }
    ensures by_fuse { D.fails_by_fuse disk.old ≡ true → D.fails_by_fuse disk.new ≡ true }
{
    let found = open_areas(alloc, disk, bytes)?;
    Ok(Opened {
        records: found.records,
        form: Form::InAreas(found.areas),
        end: found.end,
    })
}
