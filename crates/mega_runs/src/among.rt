//! Looks through the runs of a file.
ghost use Rattle.std.specs.Prelude.{◌≡◌, ◌≤◌, ℕ, List, true, None, Err, IfOk, OnOk, OnErr};
ghost use Rattle.mega_base.specs.Causes.{Rose};
ghost use Rattle.mega_disk.specs.Images.{Within, LeavesOnly};
ghost use Rattle.mega_disk.specs.Fuse.{LowersBy, MayBurn, Burns};
ghost use Rattle.mega_runs.specs.declared.body.Version.{Version as SomeVersion};
ghost use Rattle.mega_runs.specs.Bodies.{ascends};
ghost use Rattle.mega_runs.specs.Finding.{found_among, later_of};
ghost use Rattle.mega_runs.specs.Index.{AreIndexed, have_index};
ghost use Rattle.mega_runs.specs.Merging.{all_merged, merged};
ghost use Rattle.mega_runs.specs.Ranges.{AgreeWithin};
ghost use Rattle.mega_runs.specs.Reads.{layered, versions_in};

use crate::body::Version;
use crate::index::Indexed;
use crate::lookup::{Seen, found_in_run, versions_around, versions_of_run};
use crate::merging::merge;
use mega_base::{Bytes, Items, NoMemory, Position};
use mega_disk::{Disk, StoreError};
use std::alloc::Global;

/// What the runs, the newest first, have of a key at a position: of its versions up to this one that of greatest position, of two
/// with one position that of the newer run.
pub(crate) fn found_in_runs<D: Disk>(
    alloc: Global,
    disk: &mut D,
    runs: &[Indexed],
    key: &Bytes,
    at: Position,
) -> Result<Seen, StoreError>
    requires indexed { D.is_told ≡ true → have_index (D.seen disk.old) runs.now }
    ensures value { D.is_told ≡ true → (end : ℕ) (lists : List (List SomeVersion)) → AreIndexed (D.seen disk.old) end runs.now lists → IfOk result (λ seen. seen ≡ found_among key.now at.0 lists) }
    ensures never_bad { D.is_told ≡ true → (n : ℕ) → result ≡ Err (StoreError.BadRecord n) → ⊥ }
    ensures never_full { (n : ℕ) → result ≡ Err (StoreError.Full n) → ⊥ }
    ensures seen { OnOk result (D.seen disk.new ≡ D.seen disk.old) }
    ensures within { Within (D.may_leave disk.old) (D.may_leave disk.new) }
    ensures any_moment { LeavesOnly D.moment D.left_since disk.old disk.new (D.may_leave disk.old) }
    ensures cause { result ≡ Err StoreError.DiskFault → Rose (D.faults disk.old) (D.faults disk.new) }
    ensures later { D.faults disk.old ≤ D.faults disk.new }
    ensures lowers { OnOk result (LowersBy 0 (D.fuse_left disk.old) (D.fuse_left disk.new)) }
    ensures may_burn { MayBurn (D.fuse_left disk.old) (D.fuse_left disk.new) }
    ensures burns { D.fails_by_fuse disk.old ≡ true → result ≡ Err StoreError.DiskFault → Burns (D.fuse_left disk.old) (D.fuse_left disk.new) }
    ensures by_fuse { D.fails_by_fuse disk.old ≡ true → D.fails_by_fuse disk.new ≡ true }
{
    let mut seen = None;
    let mut left = runs.len();
    while left > 0 {
        left -= 1;
        let newer = found_in_run(alloc, disk, &runs[left], key, at)?;
        seen = later(newer, seen);
    }
    Ok(seen)
}

/// The one of greater position, and the newer where both have one.
pub(crate) fn later(newer: Seen, older: Seen) -> Seen
    ensures { result ≡ later_of newer older }
{
    match (newer, older) {
        (None, older) => older,
        (Some(newer), None) => Some(newer),
        (Some(newer), Some(older)) => {
            if newer.0 < older.0 {
                Some(older)
            } else {
                Some(newer)
            }
        }
    }
}

/// All versions of the runs, the newest first: in order, and of two with one key and position that of the newer run.
pub(crate) fn all_versions<D: Disk>(
    alloc: Global,
    disk: &mut D,
    runs: &[Indexed],
) -> Result<Vec<Version>, StoreError>
    requires indexed { D.is_told ≡ true → have_index (D.seen disk.old) runs.now }
    ensures value { D.is_told ≡ true → (end : ℕ) (lists : List (List SomeVersion)) → AreIndexed (D.seen disk.old) end runs.now lists → IfOk result (λ versions. versions.items ≡ all_merged lists) }
    ensures in_order { IfOk result (λ versions. ascends versions.items ≡ true) }
    ensures never_bad { D.is_told ≡ true → (n : ℕ) → result ≡ Err (StoreError.BadRecord n) → ⊥ }
    ensures never_full { (n : ℕ) → result ≡ Err (StoreError.Full n) → ⊥ }
    ensures seen { OnOk result (D.seen disk.new ≡ D.seen disk.old) }
    ensures within { Within (D.may_leave disk.old) (D.may_leave disk.new) }
    ensures any_moment { LeavesOnly D.moment D.left_since disk.old disk.new (D.may_leave disk.old) }
    ensures cause { result ≡ Err StoreError.DiskFault → Rose (D.faults disk.old) (D.faults disk.new) }
    ensures later { D.faults disk.old ≤ D.faults disk.new }
    ensures lowers { OnOk result (LowersBy 0 (D.fuse_left disk.old) (D.fuse_left disk.new)) }
    ensures may_burn { MayBurn (D.fuse_left disk.old) (D.fuse_left disk.new) }
    ensures burns { D.fails_by_fuse disk.old ≡ true → result ≡ Err StoreError.DiskFault → Burns (D.fuse_left disk.old) (D.fuse_left disk.new) }
    ensures by_fuse { D.fails_by_fuse disk.old ≡ true → D.fails_by_fuse disk.new ≡ true }
{
    let mut all = Vec::new(alloc);
    let mut left = runs.len();
    while left > 0 {
        left -= 1;
        let newer = versions_of_run(alloc, disk, &runs[left])?;
        put_among(alloc, newer, &mut all)?;
    }
    Ok(all)
}

/// Versions of the runs as `all_versions` has them, among which are all of the keys from `from` on and before `to`.
pub(crate) fn all_around<D: Disk>(
    alloc: Global,
    disk: &mut D,
    runs: &[Indexed],
    from: &Bytes,
    to: &Bytes,
) -> Result<Vec<Version>, StoreError>
    requires indexed { D.is_told ≡ true → have_index (D.seen disk.old) runs.now }
    ensures value { D.is_told ≡ true → (end : ℕ) (lists : List (List SomeVersion)) → AreIndexed (D.seen disk.old) end runs.now lists → IfOk result (λ versions. AgreeWithin from.now to.now (versions_in versions.items) (layered lists)) }
    ensures in_order { IfOk result (λ versions. ascends versions.items ≡ true) }
    ensures never_bad { D.is_told ≡ true → (n : ℕ) → result ≡ Err (StoreError.BadRecord n) → ⊥ }
    ensures never_full { (n : ℕ) → result ≡ Err (StoreError.Full n) → ⊥ }
    ensures seen { OnOk result (D.seen disk.new ≡ D.seen disk.old) }
    ensures within { Within (D.may_leave disk.old) (D.may_leave disk.new) }
    ensures any_moment { LeavesOnly D.moment D.left_since disk.old disk.new (D.may_leave disk.old) }
    ensures cause { result ≡ Err StoreError.DiskFault → Rose (D.faults disk.old) (D.faults disk.new) }
    ensures later { D.faults disk.old ≤ D.faults disk.new }
    ensures lowers { OnOk result (LowersBy 0 (D.fuse_left disk.old) (D.fuse_left disk.new)) }
    ensures may_burn { MayBurn (D.fuse_left disk.old) (D.fuse_left disk.new) }
    ensures burns { D.fails_by_fuse disk.old ≡ true → result ≡ Err StoreError.DiskFault → Burns (D.fuse_left disk.old) (D.fuse_left disk.new) }
    ensures by_fuse { D.fails_by_fuse disk.old ≡ true → D.fails_by_fuse disk.new ≡ true }
{
    let mut all = Vec::new(alloc);
    let mut left = runs.len();
    while left > 0 {
        left -= 1;
        let newer = versions_around(alloc, disk, &runs[left], from, to)?;
        put_among(alloc, newer, &mut all)?;
    }
    Ok(all)
}

/// Puts newer versions among older ones.
fn put_among(
    alloc: Global,
    newer: Items<Version>,
    older: &mut Vec<Version>,
) -> Result<(), StoreError>
    requires newer { ascends newer ≡ true }
    requires older { ascends older.old.items ≡ true }
    ensures put { OnOk result (older.new.items ≡ merged newer older.old.items) }
    ensures memory { OnErr result (result ≡ Err StoreError.NoMemory) }
{
    match merge(alloc, newer.into_vec(), older) {
        Ok(()) => Ok(()),
        Err(NoMemory) => Err(StoreError::NoMemory),
    }
}
