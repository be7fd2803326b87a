//! Writes into an area: bytes cut at the ends of pages, pages that the file grows by, and gates.
ghost use Rattle.std.specs.Prelude.{◌≡◌, ◌+◌, ◌*◌, ◌%◌, ◌<◌, ◌≤◌, ◌^◌, ℕ, List, [], true, length, IfOk, OnOk};
ghost use Rattle.mega_base.specs.Causes.{Rose};
ghost use Rattle.mega_disk.specs.Images.{Only, LeavesOnly};
ghost use Rattle.mega_disk.specs.Fuse.{LowersBy, MayBurn, Burns};
ghost use Rattle.mega_areas.specs.Pages.{offset, length_of_pages, zero_bytes};
ghost use Rattle.mega_areas.specs.Places.{Keeps, AllKeep, Puts, Sets, SetsAny};
ghost use Rattle.mega_areas.specs.declared.area.Area.{Area as AreaWord};

use crate::area::{Area, PAGE, length_of_pages};
use mega_base::NoMemory;
use mega_disk::{Disk, DiskError};
use mega_journal::write_through;
use std::alloc::Global;

/// Writes bytes that lie within one page of an area.
fn write_piece<D: Disk>(disk: &mut D, area: Area, place: u64, bytes: &[u8]) -> Result<(), DiskError>
    requires page { place % 4096 + length bytes.now ≤ 4096 }
    requires small { place < 2 ^ 62 }
    requires inside { D.is_told ≡ true → offset area place + length bytes.now ≤ length (D.seen disk.old) }
    ensures put { D.is_told ≡ true → OnOk result (Puts area place bytes.now (D.seen disk.old) (D.seen disk.new)) }
    ensures size { D.is_told ≡ true → OnOk result (length (D.seen disk.new) ≡ length (D.seen disk.old)) }
    ensures kept { (from : ℕ) (file : List ℕ) → from ≤ place → AllKeep area from file (D.may_leave disk.old) → AllKeep area from file (D.may_leave disk.new) }
    ensures any_moment { (from : ℕ) (file : List ℕ) → from ≤ place → AllKeep area from file (D.may_leave disk.old) → LeavesOnly D.moment D.left_since disk.old disk.new (Keeps area from file) }
    ensures cause { result ≡ Err DiskError.Failed → Rose (D.faults disk.old) (D.faults disk.new) }
    ensures later { D.faults disk.old ≤ D.faults disk.new }
    ensures lowers { OnOk result (LowersBy 1 (D.fuse_left disk.old) (D.fuse_left disk.new)) }
    ensures may_burn { MayBurn (D.fuse_left disk.old) (D.fuse_left disk.new) }
    ensures burns { D.fails_by_fuse disk.old ≡ true → result ≡ Err DiskError.Failed → Burns (D.fuse_left disk.old) (D.fuse_left disk.new) }
    ensures by_fuse { D.fails_by_fuse disk.old ≡ true → D.fails_by_fuse disk.new ≡ true }
{
    disk.write(area.offset(place), bytes)
}

/// Writes bytes into an area from a place on, cut at the ends of pages.
fn write_area<D: Disk>(
    disk: &mut D,
    area: Area,
    place: u64,
    bytes: &[u8],
    pages: u64,
) -> Result<(), DiskError>
    requires some { 1 ≤ length bytes.now }
    requires room { place + length bytes.now ≤ 4096 * pages }
    requires small { pages < 2 ^ 50 }
    requires size { D.is_told ≡ true → length (D.seen disk.old) ≡ length_of_pages pages }
    ensures put { D.is_told ≡ true → OnOk result (Puts area place bytes.now (D.seen disk.old) (D.seen disk.new)) }
    ensures size { D.is_told ≡ true → OnOk result (length (D.seen disk.new) ≡ length_of_pages pages) }
    ensures any_moment { (from : ℕ) (file : List ℕ) → from ≤ place → AllKeep area from file (D.may_leave disk.old) → LeavesOnly D.moment D.left_since disk.old disk.new (Keeps area from file) }
    ensures cause { result ≡ Err DiskError.Failed → Rose (D.faults disk.old) (D.faults disk.new) }
    ensures later { D.faults disk.old ≤ D.faults disk.new }
    ensures lowers { OnOk result (LowersBy 1 (D.fuse_left disk.old) (D.fuse_left disk.new)) }
    ensures may_burn { MayBurn (D.fuse_left disk.old) (D.fuse_left disk.new) }
    ensures burns { D.fails_by_fuse disk.old ≡ true → result ≡ Err DiskError.Failed → Burns (D.fuse_left disk.old) (D.fuse_left disk.new) }
    ensures by_fuse { D.fails_by_fuse disk.old ≡ true → D.fails_by_fuse disk.new ≡ true }
{
    let mut done = 0;
    while done < bytes.len() {
        let at = place + done as u64;
        let count = (bytes.len() - done).min((PAGE - at % PAGE) as usize);
        write_piece(disk, area, at, &bytes[done..done + count])?;
        done += count;
    }
    Ok(())
}

/// Writes a page of zero bytes for each area behind the end of the file.
pub fn add_page<D: Disk>(disk: &mut D, zeros: &[u8], pages: u64) -> Result<(), DiskError>
    requires zeros { length zeros.now ≡ 8192 }
    requires small { pages < 2 ^ 50 }
    requires size { D.is_told ≡ true → length (D.seen disk.old) ≡ length_of_pages pages }
    ensures put { (area : AreaWord) (place : ℕ) → D.is_told ≡ true → OnOk result (Puts area place [] (D.seen disk.old) (D.seen disk.new)) }
    ensures size { D.is_told ≡ true → OnOk result (length (D.seen disk.new) ≡ length_of_pages (pages + 1)) }
    ensures kept { (area : AreaWord) (from : ℕ) (file : List ℕ) → length file ≤ length_of_pages pages → AllKeep area from file (D.may_leave disk.old) → AllKeep area from file (D.may_leave disk.new) }
    ensures any_moment { (area : AreaWord) (from : ℕ) (file : List ℕ) → length file ≤ length_of_pages pages → AllKeep area from file (D.may_leave disk.old) → LeavesOnly D.moment D.left_since disk.old disk.new (Keeps area from file) }
    ensures cause { result ≡ Err DiskError.Failed → Rose (D.faults disk.old) (D.faults disk.new) }
    ensures later { D.faults disk.old ≤ D.faults disk.new }
    ensures lowers { OnOk result (LowersBy 0 (D.fuse_left disk.old) (D.fuse_left disk.new)) }
    ensures may_burn { MayBurn (D.fuse_left disk.old) (D.fuse_left disk.new) }
    ensures burns { D.fails_by_fuse disk.old ≡ true → result ≡ Err DiskError.Failed → Burns (D.fuse_left disk.old) (D.fuse_left disk.new) }
    ensures by_fuse { D.fails_by_fuse disk.old ≡ true → D.fails_by_fuse disk.new ≡ true }
{
    disk.write(length_of_pages(pages), zeros)
}

/// So many zero bytes.
#[tactic(auto, unfolding(crate::specs::Pages::zero_bytes))]
pub fn zeros(alloc: Global, size: usize) -> Result<Vec<u8>, NoMemory>
    ensures value { IfOk result (λ bytes. bytes.items ≡ zero_bytes size) }
    ensures size { IfOk result (λ bytes. length bytes.items ≡ size) }
{
    Ok(vec![in alloc; 0; size]?)
}

/// Lengthens a file to so many pages of each area, by a page of each at a time.
fn grow<D: Disk>(alloc: Global, disk: &mut D, pages: u64, wanted: u64) -> Result<(), DiskError>
    requires more { pages ≤ wanted }
    requires small { wanted < 2 ^ 50 }
    requires size { D.is_told ≡ true → length (D.seen disk.old) ≡ length_of_pages pages }
    ensures put { (area : AreaWord) (place : ℕ) → D.is_told ≡ true → OnOk result (Puts area place [] (D.seen disk.old) (D.seen disk.new)) }
    ensures size { D.is_told ≡ true → OnOk result (length (D.seen disk.new) ≡ length_of_pages wanted) }
    ensures kept { (area : AreaWord) (from : ℕ) (file : List ℕ) → length file ≤ length_of_pages pages → AllKeep area from file (D.may_leave disk.old) → AllKeep area from file (D.may_leave disk.new) }
    ensures any_moment { (area : AreaWord) (from : ℕ) (file : List ℕ) → length file ≤ length_of_pages pages → AllKeep area from file (D.may_leave disk.old) → LeavesOnly D.moment D.left_since disk.old disk.new (Keeps area from file) }
    ensures cause { result ≡ Err DiskError.Failed → Rose (D.faults disk.old) (D.faults disk.new) }
    ensures later { D.faults disk.old ≤ D.faults disk.new }
    ensures lowers { OnOk result (LowersBy 0 (D.fuse_left disk.old) (D.fuse_left disk.new)) }
    ensures may_burn { MayBurn (D.fuse_left disk.old) (D.fuse_left disk.new) }
    ensures burns { D.fails_by_fuse disk.old ≡ true → result ≡ Err DiskError.Failed → Burns (D.fuse_left disk.old) (D.fuse_left disk.new) }
    ensures by_fuse { D.fails_by_fuse disk.old ≡ true → D.fails_by_fuse disk.new ≡ true }
{
    if pages == wanted {
        return Ok(());
    }
    let zeros = zeros(alloc, 8192)?;
    let mut at = pages;
    while at < wanted {
        add_page(disk, zeros.as_slice(), at)?;
        at += 1;
    }
    Ok(())
}

/// Writes bytes into an area from a place on, in a file that grows to so many pages, and syncs.
pub fn stage<D: Disk>(
    alloc: Global,
    disk: &mut D,
    area: Area,
    place: u64,
    bytes: &[u8],
    pages: u64,
    wanted: u64,
) -> Result<(), DiskError>
    requires more { pages ≤ wanted }
    requires some { 1 ≤ length bytes.now }
    requires room { place + length bytes.now ≤ 4096 * wanted }
    requires small { wanted < 2 ^ 50 }
    requires size { D.is_told ≡ true → length (D.seen disk.old) ≡ length_of_pages pages }
    requires durable { D.is_told ≡ true → Only (D.seen disk.old) (D.may_leave disk.old) }
    ensures put { D.is_told ≡ true → OnOk result (Puts area place bytes.now (D.seen disk.old) (D.seen disk.new)) }
    ensures size { D.is_told ≡ true → OnOk result (length (D.seen disk.new) ≡ length_of_pages wanted) }
    ensures durable { D.is_told ≡ true → OnOk result (Only (D.seen disk.new) (D.may_leave disk.new)) }
    ensures any_moment { D.is_told ≡ true → LeavesOnly D.moment D.left_since disk.old disk.new (Keeps area place (D.seen disk.old)) }
    ensures cause { result ≡ Err DiskError.Failed → Rose (D.faults disk.old) (D.faults disk.new) }
    ensures later { D.faults disk.old ≤ D.faults disk.new }
    ensures lowers { OnOk result (LowersBy 2 (D.fuse_left disk.old) (D.fuse_left disk.new)) }
    ensures may_burn { MayBurn (D.fuse_left disk.old) (D.fuse_left disk.new) }
    ensures burns { D.fails_by_fuse disk.old ≡ true → result ≡ Err DiskError.Failed → Burns (D.fuse_left disk.old) (D.fuse_left disk.new) }
    ensures by_fuse { D.fails_by_fuse disk.old ≡ true → D.fails_by_fuse disk.new ≡ true }
{
    grow(alloc, disk, pages, wanted)?;
    write_area(disk, area, place, bytes, wanted)?;
    disk.sync()
}

/// Writes a gate or another byte of an area, and syncs.
pub fn set_byte<D: Disk>(disk: &mut D, area: Area, place: u64, byte: u8) -> Result<(), DiskError>
    requires small { place < 2 ^ 62 }
    requires inside { D.is_told ≡ true → offset area place < length (D.seen disk.old) }
    requires durable { D.is_told ≡ true → Only (D.seen disk.old) (D.may_leave disk.old) }
    ensures set { D.is_told ≡ true → OnOk result (Sets area place byte (D.seen disk.old) (D.seen disk.new)) }
    ensures durable { D.is_told ≡ true → OnOk result (Only (D.seen disk.new) (D.may_leave disk.new)) }
    ensures any_moment { D.is_told ≡ true → LeavesOnly D.moment D.left_since disk.old disk.new (SetsAny area place (D.seen disk.old)) }
    ensures cause { result ≡ Err DiskError.Failed → Rose (D.faults disk.old) (D.faults disk.new) }
    ensures later { D.faults disk.old ≤ D.faults disk.new }
    ensures lowers { OnOk result (LowersBy 2 (D.fuse_left disk.old) (D.fuse_left disk.new)) }
    ensures may_burn { MayBurn (D.fuse_left disk.old) (D.fuse_left disk.new) }
    ensures burns { D.fails_by_fuse disk.old ≡ true → result ≡ Err DiskError.Failed → Burns (D.fuse_left disk.old) (D.fuse_left disk.new) }
    ensures by_fuse { D.fails_by_fuse disk.old ≡ true → D.fails_by_fuse disk.new ≡ true }
{
    write_through(disk, area.offset(place), &[byte])
}
