//! What a store does with the versions in memory and with those of its file.
ghost use Rattle.std.specs.Prelude.{◌≡◌, ◌≤◌, ◌<◌, ◌^◌, ◌∷◌, ℕ, List, true, Err, map, IfOk, IfSome, OnOk, OnErr};
ghost use Rattle.std.specs.List.{AllByRecursion};
ghost use Rattle.mega_base.specs.Causes.{Rose};
ghost use Rattle.mega_disk.specs.Fuse.{LowersBy, MayBurn, Burns};
ghost use Rattle.mega_disk.specs.Images.{Within, LeavesOnly};
ghost use Rattle.mega_disk.specs.VersionMaps.{Drops, IsLatest, IsScan, IsSpilled, row_at};
ghost use Rattle.mega_runs.specs.Bodies.{IsRun, ascends};
ghost use Rattle.mega_runs.specs.Files.{disk_of, opened_of};
ghost use Rattle.mega_runs.specs.Finding.{found_in, row_found};
ghost use Rattle.mega_runs.specs.Fronts.{kept};
ghost use Rattle.mega_runs.specs.Merging.{all_merged, merged, with_version};
ghost use Rattle.mega_runs.specs.Ranges.{AgreeWithin};
ghost use Rattle.mega_runs.specs.Reads.{held_in, layered, mark_in, stored_of, versions_in};
ghost use Rattle.mega_runs.specs.Stores.{IsBounded, IsSpillOf, SpilledOr, added_run, base_run, cleaned_of, length_with, mark_of_pair, readable};

use crate::among::later;
use crate::body::{Run, Version};
use crate::cleaning::{Cleaning, readable_of};
use crate::file::{MAX_LENGTH, RunFile};
use crate::lookup::{Seen, copy_of};
use crate::marking::marks_of;
use crate::merging::{copies, merge, put};
use crate::scan::rows_of;
use crate::search::{between, found};
use crate::writable::{can_write, is_version};
use mega_base::{Bytes, Copied, GroupId, Items, NoMemory, Position, Row};
use mega_disk::{Disk, StoreError};
use std::alloc::Global;

/// How many runs are added between two bases.
const MOST_ADDED: usize = 8;

/// Sets a version in memory. One that could not be written is refused.
pub(crate) fn put_recent(
    alloc: Global,
    recent: &mut Vec<Version>,
    key: &Bytes,
    at: Position,
    row: Option<Row>,
) -> Result<(), StoreError>
    requires { ascends recent.old.items ≡ true }
    ensures put { OnOk result (recent.new.items ≡ with_version (record { key = key.now; at = at; row = row }) recent.old.items) }
    ensures left { OnErr result (recent.new.items ≡ recent.old.items) }
    ensures in_order { ascends recent.new.items ≡ true }
    ensures bounded { AllByRecursion IsBounded recent.old.items → AllByRecursion IsBounded recent.new.items }
    ensures memory { OnErr result (result ≡ Err StoreError.NoMemory) }
{
    let version = match key.copy(alloc) {
        Ok(key) => Version { key, at, row },
        Err(NoMemory) => return Err(StoreError::NoMemory),
    };
    if !is_version(&version) {
        return Err(StoreError::NoMemory);
    }
    match put(recent, version) {
        Ok(()) => Ok(()),
        Err(NoMemory) => Err(StoreError::NoMemory),
    }
}

/// What the versions in memory have of a key at a position.
fn seen_in(alloc: Global, recent: &[Version], key: &Bytes, at: Position) -> Result<Seen, StoreError>
    requires { ascends recent.now ≡ true }
    ensures value { IfOk result (λ seen. seen ≡ found_in key.now at.0 recent.now) }
    ensures memory { OnErr result (result ≡ Err StoreError.NoMemory) }
{
    copy_of(alloc, found(recent, key, at))
}

/// The row of what was found.
fn row_seen(seen: Seen) -> Option<Row>
    ensures { result ≡ row_found seen }
{
    match seen {
        Some((_, row)) => row,
        None => None,
    }
}

/// The row that a read of the key at a position sees of the versions in memory, and of those of the file.
pub(crate) fn row_of<D: Disk>(
    alloc: Global,
    recent: &[Version],
    file: &mut RunFile<D>,
    key: &Bytes,
    at: Position,
) -> Result<Option<Row>, StoreError>
    requires { ascends recent.now ≡ true }
    ensures value { D.is_told ≡ true → IfOk result (λ row. row ≡ row_at (layered (recent.now ∷ (kept D.is_told (D.seen (disk_of file.old)) (opened_of file.old).end))) key.now at.0) }
    ensures kept { kept D.is_told (D.seen (disk_of file.new)) (opened_of file.new).end ≡ kept D.is_told (D.seen (disk_of file.old)) (opened_of file.old).end }
    ensures opened { opened_of file.new ≡ opened_of file.old }
    ensures never_bad { D.is_told ≡ true → (n : ℕ) → result ≡ Err (StoreError.BadRecord n) → ⊥ }
    ensures never_full { (n : ℕ) → result ≡ Err (StoreError.Full n) → ⊥ }
    ensures within { Within (D.may_leave (disk_of file.old)) (D.may_leave (disk_of file.new)) }
    ensures any_moment { LeavesOnly D.moment D.left_since (disk_of file.old) (disk_of file.new) (D.may_leave (disk_of file.old)) }
    ensures cause { result ≡ Err StoreError.DiskFault → Rose (D.faults (disk_of file.old)) (D.faults (disk_of file.new)) }
    ensures later { D.faults (disk_of file.old) ≤ D.faults (disk_of file.new) }
    ensures lowers { OnOk result (LowersBy 0 (D.fuse_left (disk_of file.old)) (D.fuse_left (disk_of file.new))) }
    ensures may_burn { MayBurn (D.fuse_left (disk_of file.old)) (D.fuse_left (disk_of file.new)) }
    ensures burns { D.fails_by_fuse (disk_of file.old) ≡ true → result ≡ Err StoreError.DiskFault → Burns (D.fuse_left (disk_of file.old)) (D.fuse_left (disk_of file.new)) }
    ensures by_fuse { D.fails_by_fuse (disk_of file.old) ≡ true → D.fails_by_fuse (disk_of file.new) ≡ true }
{
    let newer = seen_in(alloc, recent, key, at)?;
    let older = file.found(alloc, key, at)?;
    Ok(row_seen(later(newer, older)))
}

/// The row of the key's version of greatest position, of the versions in memory and of those of the file.
pub(crate) fn latest_of<D: Disk>(
    alloc: Global,
    recent: &[Version],
    file: &mut RunFile<D>,
    key: &Bytes,
) -> Result<Option<Row>, StoreError>
    requires in_order { ascends recent.now ≡ true }
    requires bounded { AllByRecursion IsBounded recent.now }
    ensures value { D.is_told ≡ true → IfOk result (IsLatest (layered (recent.now ∷ (kept D.is_told (D.seen (disk_of file.old)) (opened_of file.old).end)) key.now)) }
    ensures kept { kept D.is_told (D.seen (disk_of file.new)) (opened_of file.new).end ≡ kept D.is_told (D.seen (disk_of file.old)) (opened_of file.old).end }
    ensures opened { opened_of file.new ≡ opened_of file.old }
    ensures never_bad { D.is_told ≡ true → (n : ℕ) → result ≡ Err (StoreError.BadRecord n) → ⊥ }
    ensures never_full { (n : ℕ) → result ≡ Err (StoreError.Full n) → ⊥ }
    ensures within { Within (D.may_leave (disk_of file.old)) (D.may_leave (disk_of file.new)) }
    ensures any_moment { LeavesOnly D.moment D.left_since (disk_of file.old) (disk_of file.new) (D.may_leave (disk_of file.old)) }
    ensures cause { result ≡ Err StoreError.DiskFault → Rose (D.faults (disk_of file.old)) (D.faults (disk_of file.new)) }
    ensures later { D.faults (disk_of file.old) ≤ D.faults (disk_of file.new) }
    ensures lowers { OnOk result (LowersBy 0 (D.fuse_left (disk_of file.old)) (D.fuse_left (disk_of file.new))) }
    ensures may_burn { MayBurn (D.fuse_left (disk_of file.old)) (D.fuse_left (disk_of file.new)) }
    ensures burns { D.fails_by_fuse (disk_of file.old) ≡ true → result ≡ Err StoreError.DiskFault → Burns (D.fuse_left (disk_of file.old)) (D.fuse_left (disk_of file.new)) }
    ensures by_fuse { D.fails_by_fuse (disk_of file.old) ≡ true → D.fails_by_fuse (disk_of file.new) ≡ true }
{
    let row = row_of(alloc, recent, file, key, Position(u64::MAX))?;
    Ok(row)
}

/// The versions in memory and those of the file, in order, the newer of two with one key and position.
fn versions_of<D: Disk>(
    alloc: Global,
    recent: &[Version],
    file: &mut RunFile<D>,
) -> Result<Vec<Version>, StoreError>
    requires { ascends recent.now ≡ true }
    ensures value { D.is_told ≡ true → IfOk result (λ versions. versions.items ≡ merged recent.now (all_merged (kept D.is_told (D.seen (disk_of file.old)) (opened_of file.old).end))) }
    ensures in_order { IfOk result (λ versions. ascends versions.items ≡ true) }
    ensures kept { kept D.is_told (D.seen (disk_of file.new)) (opened_of file.new).end ≡ kept D.is_told (D.seen (disk_of file.old)) (opened_of file.old).end }
    ensures opened { opened_of file.new ≡ opened_of file.old }
    ensures never_bad { D.is_told ≡ true → (n : ℕ) → result ≡ Err (StoreError.BadRecord n) → ⊥ }
    ensures never_full { (n : ℕ) → result ≡ Err (StoreError.Full n) → ⊥ }
    ensures within { Within (D.may_leave (disk_of file.old)) (D.may_leave (disk_of file.new)) }
    ensures any_moment { LeavesOnly D.moment D.left_since (disk_of file.old) (disk_of file.new) (D.may_leave (disk_of file.old)) }
    ensures cause { result ≡ Err StoreError.DiskFault → Rose (D.faults (disk_of file.old)) (D.faults (disk_of file.new)) }
    ensures later { D.faults (disk_of file.old) ≤ D.faults (disk_of file.new) }
    ensures lowers { OnOk result (LowersBy 0 (D.fuse_left (disk_of file.old)) (D.fuse_left (disk_of file.new))) }
    ensures may_burn { MayBurn (D.fuse_left (disk_of file.old)) (D.fuse_left (disk_of file.new)) }
    ensures burns { D.fails_by_fuse (disk_of file.old) ≡ true → result ≡ Err StoreError.DiskFault → Burns (D.fuse_left (disk_of file.old)) (D.fuse_left (disk_of file.new)) }
    ensures by_fuse { D.fails_by_fuse (disk_of file.old) ≡ true → D.fails_by_fuse (disk_of file.new) ≡ true }
{
    let newer = match copies(alloc, recent) {
        Ok(newer) => newer,
        Err(NoMemory) => return Err(StoreError::NoMemory),
    };
    let mut all = file.versions(alloc)?;
    match merge(alloc, newer, &mut all) {
        Ok(()) => Ok(all),
        Err(NoMemory) => Err(StoreError::NoMemory),
    }
}

/// Versions as `versions_of` has them, among which are all of the keys from `from` on and before `to`.
fn versions_around<D: Disk>(
    alloc: Global,
    recent: &[Version],
    file: &mut RunFile<D>,
    from: &Bytes,
    to: &Bytes,
) -> Result<Vec<Version>, StoreError>
    requires { ascends recent.now ≡ true }
    ensures value { D.is_told ≡ true → IfOk result (λ versions. AgreeWithin from.now to.now (versions_in versions.items) (layered (recent.now ∷ (kept D.is_told (D.seen (disk_of file.old)) (opened_of file.old).end)))) }
    ensures in_order { IfOk result (λ versions. ascends versions.items ≡ true) }
    ensures kept { kept D.is_told (D.seen (disk_of file.new)) (opened_of file.new).end ≡ kept D.is_told (D.seen (disk_of file.old)) (opened_of file.old).end }
    ensures opened { opened_of file.new ≡ opened_of file.old }
    ensures never_bad { D.is_told ≡ true → (n : ℕ) → result ≡ Err (StoreError.BadRecord n) → ⊥ }
    ensures never_full { (n : ℕ) → result ≡ Err (StoreError.Full n) → ⊥ }
    ensures within { Within (D.may_leave (disk_of file.old)) (D.may_leave (disk_of file.new)) }
    ensures any_moment { LeavesOnly D.moment D.left_since (disk_of file.old) (disk_of file.new) (D.may_leave (disk_of file.old)) }
    ensures cause { result ≡ Err StoreError.DiskFault → Rose (D.faults (disk_of file.old)) (D.faults (disk_of file.new)) }
    ensures later { D.faults (disk_of file.old) ≤ D.faults (disk_of file.new) }
    ensures lowers { OnOk result (LowersBy 0 (D.fuse_left (disk_of file.old)) (D.fuse_left (disk_of file.new))) }
    ensures may_burn { MayBurn (D.fuse_left (disk_of file.old)) (D.fuse_left (disk_of file.new)) }
    ensures burns { D.fails_by_fuse (disk_of file.old) ≡ true → result ≡ Err StoreError.DiskFault → Burns (D.fuse_left (disk_of file.old)) (D.fuse_left (disk_of file.new)) }
    ensures by_fuse { D.fails_by_fuse (disk_of file.old) ≡ true → D.fails_by_fuse (disk_of file.new) ≡ true }
{
    let newer = match copies(alloc, between(recent, from, to)) {
        Ok(newer) => newer,
        Err(NoMemory) => return Err(StoreError::NoMemory),
    };
    let mut all = file.versions_around(alloc, from, to)?;
    match merge(alloc, newer, &mut all) {
        Ok(()) => Ok(all),
        Err(NoMemory) => Err(StoreError::NoMemory),
    }
}

/// The rows at a position of the keys from `from` on and before `to`, of the versions in memory and of those of the file.
pub(crate) fn rows_between<D: Disk>(
    alloc: Global,
    recent: &[Version],
    file: &mut RunFile<D>,
    from: &Bytes,
    to: &Bytes,
    at: Position,
) -> Result<Vec<(Bytes, Row)>, StoreError>
    requires { ascends recent.now ≡ true }
    ensures value { D.is_told ≡ true → IfOk result (λ rows. IsScan (layered (recent.now ∷ (kept D.is_told (D.seen (disk_of file.old)) (opened_of file.old).end))) from.now to.now at.0 rows.items) }
    ensures kept { kept D.is_told (D.seen (disk_of file.new)) (opened_of file.new).end ≡ kept D.is_told (D.seen (disk_of file.old)) (opened_of file.old).end }
    ensures opened { opened_of file.new ≡ opened_of file.old }
    ensures never_bad { D.is_told ≡ true → (n : ℕ) → result ≡ Err (StoreError.BadRecord n) → ⊥ }
    ensures never_full { (n : ℕ) → result ≡ Err (StoreError.Full n) → ⊥ }
    ensures within { Within (D.may_leave (disk_of file.old)) (D.may_leave (disk_of file.new)) }
    ensures any_moment { LeavesOnly D.moment D.left_since (disk_of file.old) (disk_of file.new) (D.may_leave (disk_of file.old)) }
    ensures cause { result ≡ Err StoreError.DiskFault → Rose (D.faults (disk_of file.old)) (D.faults (disk_of file.new)) }
    ensures later { D.faults (disk_of file.old) ≤ D.faults (disk_of file.new) }
    ensures lowers { OnOk result (LowersBy 0 (D.fuse_left (disk_of file.old)) (D.fuse_left (disk_of file.new))) }
    ensures may_burn { MayBurn (D.fuse_left (disk_of file.old)) (D.fuse_left (disk_of file.new)) }
    ensures burns { D.fails_by_fuse (disk_of file.old) ≡ true → result ≡ Err StoreError.DiskFault → Burns (D.fuse_left (disk_of file.old)) (D.fuse_left (disk_of file.new)) }
    ensures by_fuse { D.fails_by_fuse (disk_of file.old) ≡ true → D.fails_by_fuse (disk_of file.new) ≡ true }
{
    let versions = versions_around(alloc, recent, file, from, to)?;
    match rows_of(alloc, versions.as_slice(), from, to, at) {
        Ok(rows) => Ok(rows),
        Err(NoMemory) => Err(StoreError::NoMemory),
    }
}

/// The run with these versions and marks.
fn run_with(
    alloc: Global,
    is_base: bool,
    versions: Vec<Version>,
    marks: &[(GroupId, Position)],
) -> Result<Run, NoMemory>
    ensures { IfOk result (λ run. run ≡ record { is_base = is_base; marks = map mark_of_pair marks.now; versions = versions.items }) }
{
    let marks = marks_of(alloc, marks)?;
    Ok(Run {
        is_base,
        marks,
        versions: Items::from_vec(versions),
    })
}

/// The run that is added with the versions in memory and these marks.
fn added(alloc: Global, recent: &[Version], marks: &[(GroupId, Position)]) -> Result<Run, NoMemory>
    ensures { IfOk result (λ run. run ≡ added_run marks.now recent.now) }
{
    let versions = copies(alloc, recent)?;
    run_with(alloc, false, versions, marks)
}

/// Whether the file has room for the run that is added.
fn check_added<D: Disk>(
    alloc: Global,
    recent: &[Version],
    file: &RunFile<D>,
    marks: &[(GroupId, Position)],
) -> Result<(), StoreError>
    requires { ascends recent.now ≡ true }
    ensures fits { OnOk result (IsRun (added_run marks.now recent.now)) }
    ensures room { OnOk result (length_with (opened_of file.now).end (added_run marks.now recent.now) ≤ 2 ^ 40) }
    ensures too_long { (n : ℕ) → result ≡ Err (StoreError.Full n) → (n ≡ length_with (opened_of file.now).end (added_run marks.now recent.now)) × (2 ^ 40 < n) }
    ensures no_fault { result ≡ Err StoreError.DiskFault → ⊥ }
    ensures no_bad { (n : ℕ) → result ≡ Err (StoreError.BadRecord n) → ⊥ }
{
    match added(alloc, recent, marks) {
        Ok(run) => check_room(alloc, file, &run),
        Err(NoMemory) => Err(StoreError::NoMemory),
    }
}

/// Whether the file has room for a run, and the run can be written.
fn check_room<D: Disk>(alloc: Global, file: &RunFile<D>, run: &Run) -> Result<(), StoreError>
    ensures fits { OnOk result (IsRun run.now) }
    ensures in_order { OnOk result (ascends run.now.versions ≡ true) }
    ensures room { OnOk result (length_with (opened_of file.now).end run.now ≤ 2 ^ 40) }
    ensures too_long { (n : ℕ) → result ≡ Err (StoreError.Full n) → (n ≡ length_with (opened_of file.now).end run.now) × (2 ^ 40 < n) }
    ensures no_fault { result ≡ Err StoreError.DiskFault → ⊥ }
    ensures no_bad { (n : ℕ) → result ≡ Err (StoreError.BadRecord n) → ⊥ }
{
    if !can_write(run) {
        return Err(StoreError::NoMemory);
    }
    match file.length_after(alloc, run) {
        Ok(length) => {
            if length > MAX_LENGTH {
                return Err(StoreError::Full { length });
            }
            Ok(())
        }
        Err(NoMemory) => Err(StoreError::NoMemory),
    }
}

/// The run, where it can be written and the file has room for it.
fn if_room<D: Disk>(alloc: Global, file: &RunFile<D>, run: Run) -> Result<Option<Run>, StoreError>
    ensures same { IfOk result (λ found. IfSome found (λ made. made ≡ run)) }
    ensures fits { IfOk result (λ found. IfSome found IsRun) }
    ensures in_order { IfOk result (λ found. IfSome found (λ made. ascends made.versions ≡ true)) }
    ensures room { IfOk result (λ found. IfSome found (λ made. length_with (opened_of file.now).end made ≤ 2 ^ 40)) }
    ensures memory { OnErr result (result ≡ Err StoreError.NoMemory) }
{
    match check_room(alloc, file, &run) {
        Ok(()) => Ok(Some(run)),
        Err(StoreError::Full { .. }) => Ok(None),
        Err(_) => Err(StoreError::NoMemory),
    }
}

/// The base of all versions that reads at or above the cleanings see.
fn base<D: Disk>(
    alloc: Global,
    recent: &[Version],
    file: &mut RunFile<D>,
    cleanings: &[Cleaning],
    marks: &[(GroupId, Position)],
) -> Result<Run, StoreError>
    requires { ascends recent.now ≡ true }
    ensures value { D.is_told ≡ true → IfOk result (λ run. run ≡ base_run marks.now (readable (map cleaned_of cleanings.now) (merged recent.now (all_merged (kept D.is_told (D.seen (disk_of file.old)) (opened_of file.old).end))))) }
    ensures marks { IfOk result (λ run. run.marks ≡ map mark_of_pair marks.now) }
    ensures kept { kept D.is_told (D.seen (disk_of file.new)) (opened_of file.new).end ≡ kept D.is_told (D.seen (disk_of file.old)) (opened_of file.old).end }
    ensures opened { opened_of file.new ≡ opened_of file.old }
    ensures never_bad { D.is_told ≡ true → (n : ℕ) → result ≡ Err (StoreError.BadRecord n) → ⊥ }
    ensures never_full { (n : ℕ) → result ≡ Err (StoreError.Full n) → ⊥ }
    ensures within { Within (D.may_leave (disk_of file.old)) (D.may_leave (disk_of file.new)) }
    ensures any_moment { LeavesOnly D.moment D.left_since (disk_of file.old) (disk_of file.new) (D.may_leave (disk_of file.old)) }
    ensures cause { result ≡ Err StoreError.DiskFault → Rose (D.faults (disk_of file.old)) (D.faults (disk_of file.new)) }
    ensures later { D.faults (disk_of file.old) ≤ D.faults (disk_of file.new) }
    ensures lowers { OnOk result (LowersBy 0 (D.fuse_left (disk_of file.old)) (D.fuse_left (disk_of file.new))) }
    ensures may_burn { MayBurn (D.fuse_left (disk_of file.old)) (D.fuse_left (disk_of file.new)) }
    ensures burns { D.fails_by_fuse (disk_of file.old) ≡ true → result ≡ Err StoreError.DiskFault → Burns (D.fuse_left (disk_of file.old)) (D.fuse_left (disk_of file.new)) }
    ensures by_fuse { D.fails_by_fuse (disk_of file.old) ≡ true → D.fails_by_fuse (disk_of file.new) ≡ true }
{
    let versions = versions_of(alloc, recent, file)?;
    match base_with(alloc, versions.as_slice(), cleanings, marks) {
        Ok(run) => Ok(run),
        Err(NoMemory) => Err(StoreError::NoMemory),
    }
}

/// The base of those of versions in order that reads at or above the cleanings see.
fn base_with(
    alloc: Global,
    versions: &[Version],
    cleanings: &[Cleaning],
    marks: &[(GroupId, Position)],
) -> Result<Run, NoMemory>
    ensures { IfOk result (λ run. run ≡ base_run marks.now (readable (map cleaned_of cleanings.now) versions.now)) }
{
    let kept = readable_of(alloc, versions, cleanings)?;
    run_with(alloc, true, kept, marks)
}

/// The run that a spill writes: a base, where as many runs were added since the last one as are read together and the file has room
/// for it, else the versions in memory.
fn run_to_spill<D: Disk>(
    alloc: Global,
    recent: &[Version],
    file: &mut RunFile<D>,
    cleanings: &[Cleaning],
    marks: &[(GroupId, Position)],
) -> Result<Run, StoreError>
    requires { ascends recent.now ≡ true }
    ensures spills { D.is_told ≡ true → IfOk result (IsSpillOf marks.now (map cleaned_of cleanings.now) recent.now (kept D.is_told (D.seen (disk_of file.old)) (opened_of file.old).end)) }
    ensures marks { IfOk result (λ run. run.marks ≡ map mark_of_pair marks.now) }
    ensures fits { IfOk result IsRun }
    ensures in_order { IfOk result (λ run. ascends run.versions ≡ true) }
    ensures room { IfOk result (λ run. length_with (opened_of file.old).end run ≤ 2 ^ 40) }
    ensures short { OnOk result (length_with (opened_of file.old).end (added_run marks.now recent.now) ≤ 2 ^ 40) }
    ensures too_long { (n : ℕ) → result ≡ Err (StoreError.Full n) → (n ≡ length_with (opened_of file.old).end (added_run marks.now recent.now)) × (2 ^ 40 < n) }
    ensures kept { kept D.is_told (D.seen (disk_of file.new)) (opened_of file.new).end ≡ kept D.is_told (D.seen (disk_of file.old)) (opened_of file.old).end }
    ensures opened { opened_of file.new ≡ opened_of file.old }
    ensures never_bad { D.is_told ≡ true → (n : ℕ) → result ≡ Err (StoreError.BadRecord n) → ⊥ }
    ensures within { Within (D.may_leave (disk_of file.old)) (D.may_leave (disk_of file.new)) }
    ensures any_moment { LeavesOnly D.moment D.left_since (disk_of file.old) (disk_of file.new) (D.may_leave (disk_of file.old)) }
    ensures cause { result ≡ Err StoreError.DiskFault → Rose (D.faults (disk_of file.old)) (D.faults (disk_of file.new)) }
    ensures later { D.faults (disk_of file.old) ≤ D.faults (disk_of file.new) }
    ensures lowers { OnOk result (LowersBy 0 (D.fuse_left (disk_of file.old)) (D.fuse_left (disk_of file.new))) }
    ensures may_burn { MayBurn (D.fuse_left (disk_of file.old)) (D.fuse_left (disk_of file.new)) }
    ensures burns { D.fails_by_fuse (disk_of file.old) ≡ true → result ≡ Err StoreError.DiskFault → Burns (D.fuse_left (disk_of file.old)) (D.fuse_left (disk_of file.new)) }
    ensures by_fuse { D.fails_by_fuse (disk_of file.old) ≡ true → D.fails_by_fuse (disk_of file.new) ≡ true }
{
    check_added(alloc, recent, file, marks)?;
    if file.added_count() >= MOST_ADDED {
        if let Some(run) = base_if_room(alloc, recent, file, cleanings, marks)? {
            return Ok(run);
        }
    }
    match added(alloc, recent, marks) {
        Ok(run) => Ok(run),
        Err(NoMemory) => Err(StoreError::NoMemory),
    }
}

/// The base, where it can be written and the file has room for it.
fn base_if_room<D: Disk>(
    alloc: Global,
    recent: &[Version],
    file: &mut RunFile<D>,
    cleanings: &[Cleaning],
    marks: &[(GroupId, Position)],
) -> Result<Option<Run>, StoreError>
    requires { ascends recent.now ≡ true }
    ensures spills { D.is_told ≡ true → IfOk result (λ found. IfSome found (IsSpillOf marks.now (map cleaned_of cleanings.now) recent.now (kept D.is_told (D.seen (disk_of file.old)) (opened_of file.old).end))) }
    ensures marks { IfOk result (λ found. IfSome found (λ run. run.marks ≡ map mark_of_pair marks.now)) }
    ensures fits { IfOk result (λ found. IfSome found IsRun) }
    ensures in_order { IfOk result (λ found. IfSome found (λ run. ascends run.versions ≡ true)) }
    ensures room { IfOk result (λ found. IfSome found (λ run. length_with (opened_of file.old).end run ≤ 2 ^ 40)) }
    ensures kept { kept D.is_told (D.seen (disk_of file.new)) (opened_of file.new).end ≡ kept D.is_told (D.seen (disk_of file.old)) (opened_of file.old).end }
    ensures opened { opened_of file.new ≡ opened_of file.old }
    ensures never_bad { D.is_told ≡ true → (n : ℕ) → result ≡ Err (StoreError.BadRecord n) → ⊥ }
    ensures never_full { (n : ℕ) → result ≡ Err (StoreError.Full n) → ⊥ }
    ensures within { Within (D.may_leave (disk_of file.old)) (D.may_leave (disk_of file.new)) }
    ensures any_moment { LeavesOnly D.moment D.left_since (disk_of file.old) (disk_of file.new) (D.may_leave (disk_of file.old)) }
    ensures cause { result ≡ Err StoreError.DiskFault → Rose (D.faults (disk_of file.old)) (D.faults (disk_of file.new)) }
    ensures later { D.faults (disk_of file.old) ≤ D.faults (disk_of file.new) }
    ensures lowers { OnOk result (LowersBy 0 (D.fuse_left (disk_of file.old)) (D.fuse_left (disk_of file.new))) }
    ensures may_burn { MayBurn (D.fuse_left (disk_of file.old)) (D.fuse_left (disk_of file.new)) }
    ensures burns { D.fails_by_fuse (disk_of file.old) ≡ true → result ≡ Err StoreError.DiskFault → Burns (D.fuse_left (disk_of file.old)) (D.fuse_left (disk_of file.new)) }
    ensures by_fuse { D.fails_by_fuse (disk_of file.old) ≡ true → D.fails_by_fuse (disk_of file.new) ≡ true }
{
    let run = base(alloc, recent, file, cleanings, marks)?;
    if_room(alloc, file, run)
}

/// Writes the versions in memory, or all that are still read, as a run behind those of the file.
pub(crate) fn spill_of<D: Disk>(
    alloc: Global,
    recent: &[Version],
    file: &mut RunFile<D>,
    cleanings: &[Cleaning],
    marks: &[(GroupId, Position)],
) -> Result<(), StoreError>
    requires { ascends recent.now ≡ true }
    ensures drops { D.is_told ≡ true → OnOk result (Drops (map cleaned_of cleanings.now) (layered (recent.now ∷ kept D.is_told (D.seen (disk_of file.old)) (opened_of file.old).end)) (layered (kept D.is_told (D.seen (disk_of file.new)) (opened_of file.new).end))) }
    ensures left { OnErr result (kept D.is_told (D.seen (disk_of file.new)) (opened_of file.new).end ≡ kept D.is_told (D.seen (disk_of file.old)) (opened_of file.old).end) }
    ensures marks { OnOk result (map mark_in (opened_of file.new).marks ≡ marks.now) }
    ensures marks_err { OnErr result ((opened_of file.new).marks ≡ (opened_of file.old).marks) }
    ensures holds { D.is_told ≡ true → OnOk result ((image : List ℕ) → D.may_leave (disk_of file.new) image → IsSpilled marks.now (map cleaned_of cleanings.now) (layered (recent.now ∷ kept D.is_told (D.seen (disk_of file.old)) (opened_of file.old).end)) (stored_of (held_in image))) }
    ensures any_moment { D.is_told ≡ true → LeavesOnly D.moment D.left_since (disk_of file.old) (disk_of file.new) (SpilledOr (D.may_leave (disk_of file.old)) marks.now (map cleaned_of cleanings.now) (layered (recent.now ∷ kept D.is_told (D.seen (disk_of file.old)) (opened_of file.old).end))) }
    ensures never_bad { D.is_told ≡ true → (n : ℕ) → result ≡ Err (StoreError.BadRecord n) → ⊥ }
    ensures too_long { (n : ℕ) → result ≡ Err (StoreError.Full n) → (n ≡ length_with (opened_of file.old).end (added_run marks.now recent.now)) × (2 ^ 40 < n) }
    ensures short { OnOk result (length_with (opened_of file.old).end (added_run marks.now recent.now) ≤ 2 ^ 40) }
    ensures cause { result ≡ Err StoreError.DiskFault → Rose (D.faults (disk_of file.old)) (D.faults (disk_of file.new)) }
    ensures later { D.faults (disk_of file.old) ≤ D.faults (disk_of file.new) }
    ensures lowers { OnOk result (LowersBy 0 (D.fuse_left (disk_of file.old)) (D.fuse_left (disk_of file.new))) }
    ensures may_burn { MayBurn (D.fuse_left (disk_of file.old)) (D.fuse_left (disk_of file.new)) }
    ensures burns { D.fails_by_fuse (disk_of file.old) ≡ true → result ≡ Err StoreError.DiskFault → Burns (D.fuse_left (disk_of file.old)) (D.fuse_left (disk_of file.new)) }
    ensures by_fuse { D.fails_by_fuse (disk_of file.old) ≡ true → D.fails_by_fuse (disk_of file.new) ≡ true }
{
    let run = run_to_spill(alloc, recent, file, cleanings, marks)?;
    file.add(alloc, run)?;
    Ok(())
}
