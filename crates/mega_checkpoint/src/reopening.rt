//! Opens a file of areas that a crash may have left: whole pages, the area that counts, and a closed gate behind its records.
ghost use Rattle.std.specs.Prelude.{◌≡◌, ◌==◌, not, ◌+◌, ◌*◌, ◌<◌, ◌≤◌, ◌^◌, true, length, get_or, take, IfOk, OnOk};
ghost use Rattle.mega_base.specs.Causes.{Rose};
ghost use Rattle.mega_disk.specs.Images.{Only, LeavesOnly};
ghost use Rattle.mega_disk.specs.Fuse.{LowersBy, MayBurn, Burns};
ghost use Rattle.mega_journal.specs.Rest.{IsRead};
ghost use Rattle.mega_areas.specs.Pages.{chain_in, counts, generation_of, is_areas, is_open, length_of_pages, other_of, pages_in};
ghost use Rattle.mega_checkpoint.specs.Format.{list_of};
ghost use Rattle.mega_checkpoint.specs.Held.{HoldsAreas};

use crate::making::begin;
use crate::reading::{pages_in, read_area};
use mega_areas::{
    Area, Areas, MAX_LENGTH, add_page, counts, generation_of, is_open, length_of_pages, set_byte,
    zeros,
};
use mega_base::Bytes;
use mega_disk::{Disk, DiskError};
use std::alloc::Global;

/// The records of a file of areas, its areas, and the place of the closed gate behind the records.
#[derive(Drop)]
pub(crate) struct FoundAreas {
    pub records: Vec<Bytes>,
    pub areas: Areas,
    pub end: u64,
}

/// Opens a file of areas. Bytes behind its last whole pages are cut off, and pages of zero bytes take their place.
pub(crate) fn open_areas<D: Disk>(
    alloc: Global,
    disk: &mut D,
    bytes: &[u8],
) -> Result<FoundAreas, DiskError>
    requires areas { is_areas bytes.now ≡ true }
    requires bytes { D.is_told ≡ true → bytes.now ≡ D.seen disk.old }
    requires durable { D.is_told ≡ true → Only (D.seen disk.old) (D.may_leave disk.old) }
    ensures records { D.is_told ≡ true → IfOk result (λ found. found.records.items ≡ list_of (D.seen disk.old)) }
    ensures same { D.is_told ≡ true → OnOk result (list_of (D.seen disk.new) ≡ list_of (D.seen disk.old)) }
    ensures held { D.is_told ≡ true → IfOk result (λ found. HoldsAreas (D.seen disk.new) (D.may_leave disk.new) found.areas found.end) }
    ensures any_moment { D.is_told ≡ true → LeavesOnly D.moment D.left_since disk.old disk.new (λ image. list_of image ≡ list_of (D.seen disk.old)) }
    ensures few { IfOk result (λ found. length found.records.items ≤ found.end) }
    ensures room { IfOk result (λ found. found.end < 4096 * found.areas.pages) }
    ensures small { IfOk result (λ found. found.areas.pages < 2 ^ 50) }
    ensures cause { result ≡ Err DiskError.Failed → Rose (D.faults disk.old) (D.faults disk.new) }
    ensures later { D.faults disk.old ≤ D.faults disk.new }
    ensures lowers { OnOk result (LowersBy 0 (D.fuse_left disk.old) (D.fuse_left disk.new)) }
    ensures may_burn { MayBurn (D.fuse_left disk.old) (D.fuse_left disk.new) }
    ensures burns { D.fails_by_fuse disk.old ≡ true → result ≡ Err DiskError.Failed → Burns (D.fuse_left disk.old) (D.fuse_left disk.new) }
    ensures by_fuse { D.fails_by_fuse disk.old ≡ true → D.fails_by_fuse disk.new ≡ true }
{
    let pages = pages_in(bytes);
    trim(disk, bytes, pages)?;
    let whole = &bytes[..length_of_pages(pages) as usize];
    let found = open_whole(alloc, disk, whole, pages)?;
    let was_cut = whole.len() < bytes.len();
    let areas = lengthen(alloc, disk, found.areas, found.end, was_cut)?;
    Ok(FoundAreas {
        records: found.records,
        areas,
        end: found.end,
    })
}

/// Cuts a file of areas to its whole pages.
fn trim<D: Disk>(disk: &mut D, bytes: &[u8], pages: u64) -> Result<(), DiskError>
    requires areas { is_areas bytes.now ≡ true }
    requires pages { pages ≡ pages_in (length bytes.now) }
    requires bytes { D.is_told ≡ true → bytes.now ≡ D.seen disk.old }
    requires durable { D.is_told ≡ true → Only (D.seen disk.old) (D.may_leave disk.old) }
    ensures seen { D.is_told ≡ true → OnOk result (D.seen disk.new ≡ take (length_of_pages pages) (D.seen disk.old)) }
    ensures durable { D.is_told ≡ true → OnOk result (Only (D.seen disk.new) (D.may_leave disk.new)) }
    ensures any_moment { D.is_told ≡ true → LeavesOnly D.moment D.left_since disk.old disk.new (λ image. list_of image ≡ list_of (D.seen disk.old)) }
    ensures cause { result ≡ Err DiskError.Failed → Rose (D.faults disk.old) (D.faults disk.new) }
    ensures later { D.faults disk.old ≤ D.faults disk.new }
    ensures lowers { OnOk result (LowersBy 0 (D.fuse_left disk.old) (D.fuse_left disk.new)) }
    ensures may_burn { MayBurn (D.fuse_left disk.old) (D.fuse_left disk.new) }
    ensures burns { D.fails_by_fuse disk.old ≡ true → result ≡ Err DiskError.Failed → Burns (D.fuse_left disk.old) (D.fuse_left disk.new) }
    ensures by_fuse { D.fails_by_fuse disk.old ≡ true → D.fails_by_fuse disk.new ≡ true }
{
    let whole = length_of_pages(pages);
    if bytes.len() as u64 == whole {
        return Ok(());
    }
    disk.cut(whole)?;
    disk.sync()
}

/// Opens a file of whole pages: the area that counts or, where none does, the first generation.
fn open_whole<D: Disk>(
    alloc: Global,
    disk: &mut D,
    bytes: &[u8],
    pages: u64,
) -> Result<FoundAreas, DiskError>
    requires areas { is_areas bytes.now ≡ true }
    requires size { length bytes.now ≡ length_of_pages pages }
    requires small { pages < 2 ^ 50 }
    requires bytes { D.is_told ≡ true → bytes.now ≡ D.seen disk.old }
    requires durable { D.is_told ≡ true → Only (D.seen disk.old) (D.may_leave disk.old) }
    ensures records { D.is_told ≡ true → IfOk result (λ found. found.records.items ≡ list_of (D.seen disk.old)) }
    ensures same { D.is_told ≡ true → OnOk result (list_of (D.seen disk.new) ≡ list_of (D.seen disk.old)) }
    ensures held { D.is_told ≡ true → IfOk result (λ found. HoldsAreas (D.seen disk.new) (D.may_leave disk.new) found.areas found.end) }
    ensures any_moment { D.is_told ≡ true → LeavesOnly D.moment D.left_since disk.old disk.new (λ image. list_of image ≡ list_of (D.seen disk.old)) }
    ensures few { IfOk result (λ found. length found.records.items ≤ found.end) }
    ensures room { IfOk result (λ found. found.end < 4096 * found.areas.pages) }
    ensures small { IfOk result (λ found. found.areas.pages < 2 ^ 50) }
    ensures cause { result ≡ Err DiskError.Failed → Rose (D.faults disk.old) (D.faults disk.new) }
    ensures later { D.faults disk.old ≤ D.faults disk.new }
    ensures lowers { OnOk result (LowersBy 0 (D.fuse_left disk.old) (D.fuse_left disk.new)) }
    ensures may_burn { MayBurn (D.fuse_left disk.old) (D.fuse_left disk.new) }
    ensures burns { D.fails_by_fuse disk.old ≡ true → result ≡ Err DiskError.Failed → Burns (D.fuse_left disk.old) (D.fuse_left disk.new) }
    ensures by_fuse { D.fails_by_fuse disk.old ≡ true → D.fails_by_fuse disk.new ≡ true }
{
    if counts(bytes, Area::Odd) {
        return open_area(alloc, disk, bytes, Area::Odd, pages);
    }
    if counts(bytes, Area::Even) {
        return open_area(alloc, disk, bytes, Area::Even, pages);
    }
    let areas = begin(alloc, disk, pages)?;
    let records = Vec::new(alloc);
    Ok(FoundAreas {
        records,
        areas,
        end: 0,
    })
}

/// Reads the records of the area that counts, and closes the gate behind them where it stands open.
fn open_area<D: Disk>(
    alloc: Global,
    disk: &mut D,
    bytes: &[u8],
    area: Area,
    pages: u64,
) -> Result<FoundAreas, DiskError>
    requires areas { is_areas bytes.now ≡ true }
    requires size { length bytes.now ≡ length_of_pages pages }
    requires counts { counts area bytes.now ≡ true }
    requires small { pages < 2 ^ 50 }
    requires bytes { D.is_told ≡ true → bytes.now ≡ D.seen disk.old }
    requires durable { D.is_told ≡ true → Only (D.seen disk.old) (D.may_leave disk.old) }
    ensures records { D.is_told ≡ true → IfOk result (λ found. found.records.items ≡ list_of (D.seen disk.old)) }
    ensures same { D.is_told ≡ true → OnOk result (list_of (D.seen disk.new) ≡ list_of (D.seen disk.old)) }
    ensures held { D.is_told ≡ true → IfOk result (λ found. HoldsAreas (D.seen disk.new) (D.may_leave disk.new) found.areas found.end) }
    ensures any_moment { D.is_told ≡ true → LeavesOnly D.moment D.left_since disk.old disk.new (λ image. list_of image ≡ list_of (D.seen disk.old)) }
    ensures few { IfOk result (λ found. length found.records.items ≤ found.end) }
    ensures room { IfOk result (λ found. found.end < 4096 * found.areas.pages) }
    ensures small { IfOk result (λ found. found.areas.pages < 2 ^ 50) }
    ensures cause { result ≡ Err DiskError.Failed → Rose (D.faults disk.old) (D.faults disk.new) }
    ensures later { D.faults disk.old ≤ D.faults disk.new }
    ensures lowers { OnOk result (LowersBy 0 (D.fuse_left disk.old) (D.fuse_left disk.new)) }
    ensures may_burn { MayBurn (D.fuse_left disk.old) (D.fuse_left disk.new) }
    ensures burns { D.fails_by_fuse disk.old ≡ true → result ≡ Err DiskError.Failed → Burns (D.fuse_left disk.old) (D.fuse_left disk.new) }
    ensures by_fuse { D.fails_by_fuse disk.old ≡ true → D.fails_by_fuse disk.new ≡ true }
{
    let areas = Areas {
        active: area,
        generation: generation_of(bytes, area),
        pages,
        other_open: is_open(bytes, area.other()),
    };
    let read = read_area(alloc, bytes, area)?;
    let end = read.end as u64;
    shut_area(disk, areas, end, read.closed, bytes)?;
    Ok(FoundAreas {
        records: read.records,
        areas,
        end,
    })
}

/// Closes the gate behind the records of the area that counts.
fn shut_area<D: Disk>(
    disk: &mut D,
    areas: Areas,
    end: u64,
    closed: bool,
    bytes: &[u8],
) -> Result<(), DiskError>
    requires form { is_areas bytes.now ≡ true }
    requires size { length bytes.now ≡ length_of_pages areas.pages }
    requires counts { counts areas.active bytes.now ≡ true }
    requires number { generation_of areas.active bytes.now ≡ areas.generation }
    requires other { is_open (other_of areas.active) bytes.now ≡ areas.other_open }
    requires read { IsRead (chain_in areas.active bytes.now) end }
    requires inside { end + 9 < 4096 * areas.pages }
    requires closed { closed ≡ not (get_or (chain_in areas.active bytes.now) end 1 == 1) }
    requires small { areas.pages < 2 ^ 50 }
    requires bytes { D.is_told ≡ true → bytes.now ≡ D.seen disk.old }
    requires durable { D.is_told ≡ true → Only (D.seen disk.old) (D.may_leave disk.old) }
    ensures same { D.is_told ≡ true → OnOk result (list_of (D.seen disk.new) ≡ list_of (D.seen disk.old)) }
    ensures held { D.is_told ≡ true → OnOk result (HoldsAreas (D.seen disk.new) (D.may_leave disk.new) areas end) }
    ensures any_moment { D.is_told ≡ true → LeavesOnly D.moment D.left_since disk.old disk.new (λ image. list_of image ≡ list_of (D.seen disk.old)) }
    ensures cause { result ≡ Err DiskError.Failed → Rose (D.faults disk.old) (D.faults disk.new) }
    ensures later { D.faults disk.old ≤ D.faults disk.new }
    ensures lowers { OnOk result (LowersBy 0 (D.fuse_left disk.old) (D.fuse_left disk.new)) }
    ensures may_burn { MayBurn (D.fuse_left disk.old) (D.fuse_left disk.new) }
    ensures burns { D.fails_by_fuse disk.old ≡ true → result ≡ Err DiskError.Failed → Burns (D.fuse_left disk.old) (D.fuse_left disk.new) }
    ensures by_fuse { D.fails_by_fuse disk.old ≡ true → D.fails_by_fuse disk.new ≡ true }
{
    if closed {
        return Ok(());
    }
    set_byte(disk, areas.active, end + 9, 0)
}

/// Writes a page of zero bytes for each area where bytes behind the whole pages were cut off.
fn lengthen<D: Disk>(
    alloc: Global,
    disk: &mut D,
    areas: Areas,
    end: u64,
    was_cut: bool,
) -> Result<Areas, DiskError>
    requires held { D.is_told ≡ true → HoldsAreas (D.seen disk.old) (D.may_leave disk.old) areas end }
    requires room { end < 4096 * areas.pages }
    requires small { areas.pages < 2 ^ 50 }
    ensures same { D.is_told ≡ true → OnOk result (list_of (D.seen disk.new) ≡ list_of (D.seen disk.old)) }
    ensures held { D.is_told ≡ true → IfOk result (λ areas. HoldsAreas (D.seen disk.new) (D.may_leave disk.new) areas end) }
    ensures any_moment { D.is_told ≡ true → LeavesOnly D.moment D.left_since disk.old disk.new (λ image. list_of image ≡ list_of (D.seen disk.old)) }
    ensures room { IfOk result (λ longer. end < 4096 * longer.pages) }
    ensures small { IfOk result (λ longer. longer.pages < 2 ^ 50) }
    ensures cause { result ≡ Err DiskError.Failed → Rose (D.faults disk.old) (D.faults disk.new) }
    ensures later { D.faults disk.old ≤ D.faults disk.new }
    ensures lowers { OnOk result (LowersBy 0 (D.fuse_left disk.old) (D.fuse_left disk.new)) }
    ensures may_burn { MayBurn (D.fuse_left disk.old) (D.fuse_left disk.new) }
    ensures burns { D.fails_by_fuse disk.old ≡ true → result ≡ Err DiskError.Failed → Burns (D.fuse_left disk.old) (D.fuse_left disk.new) }
    ensures by_fuse { D.fails_by_fuse disk.old ≡ true → D.fails_by_fuse disk.new ≡ true }
{
    let pages = areas.pages + 1;
    if !was_cut || length_of_pages(pages) > MAX_LENGTH {
        return Ok(areas);
    }
    add_pages(alloc, disk, areas, end)
}

/// Writes a page of zero bytes for each area, and syncs.
fn add_pages<D: Disk>(
    alloc: Global,
    disk: &mut D,
    areas: Areas,
    end: u64,
) -> Result<Areas, DiskError>
    requires held { D.is_told ≡ true → HoldsAreas (D.seen disk.old) (D.may_leave disk.old) areas end }
    requires room { end < 4096 * areas.pages }
    requires small { areas.pages + 1 < 2 ^ 50 }
    ensures same { D.is_told ≡ true → OnOk result (list_of (D.seen disk.new) ≡ list_of (D.seen disk.old)) }
    ensures held { D.is_told ≡ true → IfOk result (λ areas. HoldsAreas (D.seen disk.new) (D.may_leave disk.new) areas end) }
    ensures any_moment { D.is_told ≡ true → LeavesOnly D.moment D.left_since disk.old disk.new (λ image. list_of image ≡ list_of (D.seen disk.old)) }
    ensures room { IfOk result (λ longer. end < 4096 * longer.pages) }
    ensures small { IfOk result (λ longer. longer.pages < 2 ^ 50) }
    ensures cause { result ≡ Err DiskError.Failed → Rose (D.faults disk.old) (D.faults disk.new) }
    ensures later { D.faults disk.old ≤ D.faults disk.new }
    ensures lowers { OnOk result (LowersBy 0 (D.fuse_left disk.old) (D.fuse_left disk.new)) }
    ensures may_burn { MayBurn (D.fuse_left disk.old) (D.fuse_left disk.new) }
    ensures burns { D.fails_by_fuse disk.old ≡ true → result ≡ Err DiskError.Failed → Burns (D.fuse_left disk.old) (D.fuse_left disk.new) }
    ensures by_fuse { D.fails_by_fuse disk.old ≡ true → D.fails_by_fuse disk.new ≡ true }
{
    let zeros = zeros(alloc, 8192)?;
    add_page(disk, zeros.as_slice(), areas.pages)?;
    disk.sync()?;
    Ok(Areas {
        pages: areas.pages + 1,
        ..areas
    })
}
