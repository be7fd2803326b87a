//! A file that is one chain: it is opened, and records are written behind it.
ghost use Rattle.std.specs.Prelude.{◌≡◌, ◌+◌, ◌<◌, ◌≤◌, ◌^◌, ◌++◌, [], ◌∷◌, true, false, nat_lt, length, get_or, IfOk, OnOk};
ghost use Rattle.mega_base.specs.Causes.{Rose};
ghost use Rattle.mega_disk.specs.Images.{Only, LeavesOnly};
ghost use Rattle.mega_disk.specs.Fuse.{LowersBy, MayBurn, Burns};
ghost use Rattle.mega_disk.specs.RecordLists.{IsBeforeOrAfter};
ghost use Rattle.mega_journal.specs.Chain.{behind_gate as bytes_behind_gate};
ghost use Rattle.mega_journal.specs.Rest.{IsRead};
ghost use Rattle.mega_areas.specs.Pages.{is_areas};
ghost use Rattle.mega_checkpoint.specs.Format.{list_of, spells_mark};
ghost use Rattle.mega_checkpoint.specs.Held.{HoldsChain};

use crate::reading::is_shut;
use mega_base::NoMemory;
use mega_disk::{Disk, DiskError};
use mega_journal::{Found, parse, write_through};
use std::alloc::Global;

/// Writes a record behind the closed gate at `at` and, once it is on the disk, opens the gate. The first record of a
/// chain is not of a length that spells the mark of the areas.
pub(crate) fn add_to_chain<D: Disk>(
    alloc: Global,
    disk: &mut D,
    at: u64,
    body: &[u8],
) -> Result<(), DiskError>
    requires held { D.is_told ≡ true → HoldsChain (D.seen disk.old) (D.may_leave disk.old) at }
    requires short { length body.now < 2 ^ 32 }
    requires room { at < 2 ^ 63 }
    requires plain { at ≡ 0 → spells_mark (length body.now) ≡ false }
    ensures added { D.is_told ≡ true → OnOk result (list_of (D.seen disk.new) ≡ list_of (D.seen disk.old) ++ body.now ∷ []) }
    ensures held { D.is_told ≡ true → OnOk result (HoldsChain (D.seen disk.new) (D.may_leave disk.new) (at + 5 + length body.now)) }
    ensures any_moment { D.is_told ≡ true → LeavesOnly D.moment D.left_since disk.old disk.new (λ image. IsBeforeOrAfter (list_of (D.seen disk.old)) body.now (list_of image)) }
    ensures cause { result ≡ Err DiskError.Failed → Rose (D.faults disk.old) (D.faults disk.new) }
    ensures later { D.faults disk.old ≤ D.faults disk.new }
    ensures lowers { OnOk result (LowersBy 4 (D.fuse_left disk.old) (D.fuse_left disk.new)) }
    ensures may_burn { MayBurn (D.fuse_left disk.old) (D.fuse_left disk.new) }
    ensures burns { D.fails_by_fuse disk.old ≡ true → result ≡ Err DiskError.Failed → Burns (D.fuse_left disk.old) (D.fuse_left disk.new) }
    ensures by_fuse { D.fails_by_fuse disk.old ≡ true → D.fails_by_fuse disk.new ≡ true }
{
    let record = behind_gate(alloc, body)?;
    write_through(disk, at + 1, record.as_slice())?;
    write_through(disk, at, &[1])
}

/// The bytes behind a record's gate: the length of its body, the body, and a closed gate for the next.
pub(crate) fn behind_gate(alloc: Global, body: &[u8]) -> Result<Vec<u8>, NoMemory>
    requires { length body.now < 2 ^ 32 }
    ensures { IfOk result (λ bytes. bytes.items ≡ bytes_behind_gate body.now) }
{
    let mut bytes = Vec::with_capacity(alloc, body.len() + 5)?;
    bytes.extend_from_slice(&(body.len() as u32).to_be_bytes())?;
    bytes.extend_from_slice(body)?;
    bytes.push(0)?;
    Ok(bytes)
}

/// Whether a body of this length, as the first record of a chain, would make the file begin as one of areas does.
pub(crate) fn spells_mark(size: usize) -> bool
    requires { size < 2 ^ 32 }
    ensures { result ≡ spells_mark size }
{
    let bytes = (size as u32).to_be_bytes();
    bytes[0] == 0x47 && bytes[1] == 0x41 && bytes[2] == 0x32
}

/// Reads the records of a chain, and closes the gate behind them where it stands open, or where the first gate is torn.
pub(crate) fn open_chain<D: Disk>(
    alloc: Global,
    disk: &mut D,
    bytes: &[u8],
) -> Result<Found, DiskError>
    requires some { 2 ≤ length bytes.now }
    requires chain { is_areas bytes.now ≡ false }
    requires bytes { D.is_told ≡ true → bytes.now ≡ D.seen disk.old }
    requires durable { D.is_told ≡ true → Only (D.seen disk.old) (D.may_leave disk.old) }
    ensures records { D.is_told ≡ true → IfOk result (λ found. found.records.items ≡ list_of (D.seen disk.old)) }
    ensures same { D.is_told ≡ true → OnOk result (list_of (D.seen disk.new) ≡ list_of (D.seen disk.old)) }
    ensures held { D.is_told ≡ true → IfOk result (λ found. HoldsChain (D.seen disk.new) (D.may_leave disk.new) found.end) }
    ensures any_moment { D.is_told ≡ true → LeavesOnly D.moment D.left_since disk.old disk.new (λ image. list_of image ≡ list_of (D.seen disk.old)) }
    ensures few { IfOk result (λ found. length found.records.items ≤ found.end) }
    ensures room { IfOk result (λ found. found.end < 2 ^ 63) }
    ensures cause { result ≡ Err DiskError.Failed → Rose (D.faults disk.old) (D.faults disk.new) }
    ensures later { D.faults disk.old ≤ D.faults disk.new }
    ensures lowers { OnOk result (LowersBy 0 (D.fuse_left disk.old) (D.fuse_left disk.new)) }
    ensures may_burn { MayBurn (D.fuse_left disk.old) (D.fuse_left disk.new) }
    ensures burns { D.fails_by_fuse disk.old ≡ true → result ≡ Err DiskError.Failed → Burns (D.fuse_left disk.old) (D.fuse_left disk.new) }
    ensures by_fuse { D.fails_by_fuse disk.old ≡ true → D.fails_by_fuse disk.new ≡ true }
{
    if is_torn(bytes) {
        return open_torn(alloc, disk, bytes);
    }
    let found = parse(alloc, bytes)?;
    shut_chain(disk, bytes, found.end)?;
    Ok(found)
}

/// Whether the first gate is torn.
fn is_torn(bytes: &[u8]) -> bool
    requires { 2 ≤ length bytes.now }
    ensures { result ≡ nat_lt 1 (get_or bytes.now 0 0) }
{
    bytes[0] > 1
}

/// Opens a chain with a torn first gate, which holds no record.
fn open_torn<D: Disk>(alloc: Global, disk: &mut D, bytes: &[u8]) -> Result<Found, DiskError>
    requires some { 2 ≤ length bytes.now }
    requires torn { 1 < get_or bytes.now 0 0 }
    requires chain { is_areas bytes.now ≡ false }
    requires bytes { D.is_told ≡ true → bytes.now ≡ D.seen disk.old }
    requires durable { D.is_told ≡ true → Only (D.seen disk.old) (D.may_leave disk.old) }
    ensures records { D.is_told ≡ true → IfOk result (λ found. found.records.items ≡ list_of (D.seen disk.old)) }
    ensures same { D.is_told ≡ true → OnOk result (list_of (D.seen disk.new) ≡ list_of (D.seen disk.old)) }
    ensures held { D.is_told ≡ true → IfOk result (λ found. HoldsChain (D.seen disk.new) (D.may_leave disk.new) found.end) }
    ensures any_moment { D.is_told ≡ true → LeavesOnly D.moment D.left_since disk.old disk.new (λ image. list_of image ≡ list_of (D.seen disk.old)) }
    ensures few { IfOk result (λ found. length found.records.items ≤ found.end) }
    ensures room { IfOk result (λ found. found.end < 2 ^ 63) }
    ensures cause { result ≡ Err DiskError.Failed → Rose (D.faults disk.old) (D.faults disk.new) }
    ensures later { D.faults disk.old ≤ D.faults disk.new }
    ensures lowers { OnOk result (LowersBy 0 (D.fuse_left disk.old) (D.fuse_left disk.new)) }
    ensures may_burn { MayBurn (D.fuse_left disk.old) (D.fuse_left disk.new) }
    ensures burns { D.fails_by_fuse disk.old ≡ true → result ≡ Err DiskError.Failed → Burns (D.fuse_left disk.old) (D.fuse_left disk.new) }
    ensures by_fuse { D.fails_by_fuse disk.old ≡ true → D.fails_by_fuse disk.new ≡ true }
{
    clear(disk, bytes)?;
    let records = Vec::new(alloc);
    Ok(Found { records, end: 0 })
}

/// Cuts a file with a torn first gate to its first two bytes, and closes that gate.
fn clear<D: Disk>(disk: &mut D, bytes: &[u8]) -> Result<(), DiskError>
    requires some { 2 ≤ length bytes.now }
    requires torn { 1 < get_or bytes.now 0 0 }
    requires chain { is_areas bytes.now ≡ false }
    requires bytes { D.is_told ≡ true → bytes.now ≡ D.seen disk.old }
    requires durable { D.is_told ≡ true → Only (D.seen disk.old) (D.may_leave disk.old) }
    ensures same { D.is_told ≡ true → OnOk result (list_of (D.seen disk.new) ≡ []) }
    ensures held { D.is_told ≡ true → OnOk result (HoldsChain (D.seen disk.new) (D.may_leave disk.new) 0) }
    ensures any_moment { D.is_told ≡ true → LeavesOnly D.moment D.left_since disk.old disk.new (λ image. list_of image ≡ []) }
    ensures cause { result ≡ Err DiskError.Failed → Rose (D.faults disk.old) (D.faults disk.new) }
    ensures later { D.faults disk.old ≤ D.faults disk.new }
    ensures lowers { OnOk result (LowersBy 0 (D.fuse_left disk.old) (D.fuse_left disk.new)) }
    ensures may_burn { MayBurn (D.fuse_left disk.old) (D.fuse_left disk.new) }
    ensures burns { D.fails_by_fuse disk.old ≡ true → result ≡ Err DiskError.Failed → Burns (D.fuse_left disk.old) (D.fuse_left disk.new) }
    ensures by_fuse { D.fails_by_fuse disk.old ≡ true → D.fails_by_fuse disk.new ≡ true }
{
    disk.cut(2)?;
    disk.sync()?;
    write_through(disk, 0, &[0])
}

/// Closes the gate at the end of the records where it is not closed.
fn shut_chain<D: Disk>(disk: &mut D, bytes: &[u8], end: usize) -> Result<(), DiskError>
    requires some { 2 ≤ length bytes.now }
    requires gate { get_or bytes.now 0 0 ≤ 1 }
    requires chain { is_areas bytes.now ≡ false }
    requires inside { end < length bytes.now }
    requires read { IsRead bytes.now end }
    requires bytes { D.is_told ≡ true → bytes.now ≡ D.seen disk.old }
    requires durable { D.is_told ≡ true → Only (D.seen disk.old) (D.may_leave disk.old) }
    ensures same { D.is_told ≡ true → OnOk result (list_of (D.seen disk.new) ≡ list_of (D.seen disk.old)) }
    ensures held { D.is_told ≡ true → OnOk result (HoldsChain (D.seen disk.new) (D.may_leave disk.new) end) }
    ensures any_moment { D.is_told ≡ true → LeavesOnly D.moment D.left_since disk.old disk.new (λ image. list_of image ≡ list_of (D.seen disk.old)) }
    ensures cause { result ≡ Err DiskError.Failed → Rose (D.faults disk.old) (D.faults disk.new) }
    ensures later { D.faults disk.old ≤ D.faults disk.new }
    ensures lowers { OnOk result (LowersBy 0 (D.fuse_left disk.old) (D.fuse_left disk.new)) }
    ensures may_burn { MayBurn (D.fuse_left disk.old) (D.fuse_left disk.new) }
    ensures burns { D.fails_by_fuse disk.old ≡ true → result ≡ Err DiskError.Failed → Burns (D.fuse_left disk.old) (D.fuse_left disk.new) }
    ensures by_fuse { D.fails_by_fuse disk.old ≡ true → D.fails_by_fuse disk.new ≡ true }
{
    if is_shut(bytes, end) {
        return Ok(());
    }
    write_through(disk, end as u64, &[0])
}
