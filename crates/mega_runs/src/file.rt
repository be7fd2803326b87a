//! A file of runs that is open.
ghost use Rattle.std.specs.Prelude.{◌≡◌, ◌+◌, ◌<◌, ◌≤◌, ◌^◌, ℕ, List, true, false, length};
ghost use Rattle.std.specs.List.{AllByRecursion-prop};
ghost use Rattle.std.proofs.Props.{props};
ghost use Rattle.mega_runs.specs.Fronts.{Standing};
ghost use Rattle.mega_runs.specs.Placed.{ArePlaced-prop};
ghost use Rattle.mega_chain.specs.Rest.{IsSettled};

use crate::among::{all_around, all_versions, found_in_runs};
use crate::append::put_run;
use crate::body::{Run, Version};
use crate::coding::write_body;
use crate::index::added_among;
use crate::lookup::Seen;
use crate::marking::mark_of_group;
use crate::opening::{Opened, open_file};
use crate::scan::rows_of;
use mega_base::{Bytes, GroupId, NoMemory, Position, Row};
use mega_disk::{Disk, StoreError};
use std::alloc::Global;

/// The length in bytes that no file passes.
pub(crate) const MAX_LENGTH: u64 = 1 << 40;

/// A file of runs that is open. After a run that could not be written it is spent: it reads, and takes no further run.
#[derive(Drop)]
pub struct RunFile<D: Disk> {
    disk: D,
    opened: Opened,
    spent: bool,
    ghost few: { opened.count ≤ opened.end },
    ghost room: { opened.end < 2 ^ 62 },
    ghost settled: { D.is_told ≡ true → spent ≡ false → IsSettled (D.seen disk) (D.may_leave disk) opened.end } by { Prim.hlevel (props, AllByRecursion-prop) },
    ghost standing: { D.is_told ≡ true → Standing (D.seen disk) (D.may_leave disk) opened.end opened.runs.items } by { Prim.hlevel (props, ArePlaced-prop) },
}

impl<D: Disk> RunFile<D> {
    ghost use Rattle.std.specs.Prelude.{IfOk, IfErr, OnOk, OnErr, Err, ◌⊎◌, None, Some, map};
    ghost use Rattle.mega_base.specs.Causes.{Rose};
    ghost use Rattle.mega_disk.specs.Images.{SameImages, Within, LeavesOnly};
    ghost use Rattle.mega_disk.specs.Fuse.{LowersBy, MayBurn, Burns, set_to};
    ghost use Rattle.mega_disk.specs.VersionMaps.{IsScan, mark_of};
    ghost use Rattle.mega_runs.specs.Bodies.{IsRun, ascends, run_text};
    ghost use Rattle.mega_chain.specs.Chain.{records_of};
    ghost use Rattle.mega_runs.specs.Files.{disk_of, opened_of, is_spent};
    ghost use Rattle.mega_runs.specs.Finding.{found_among};
    ghost use Rattle.mega_runs.specs.Fronts.{kept, kept_with, HoldsOr};
    ghost use Rattle.mega_runs.specs.Merging.{all_merged};
    ghost use Rattle.mega_runs.specs.Opening.{first_bad};
    ghost use Rattle.mega_runs.specs.Ranges.{AgreeWithin};
    ghost use Rattle.mega_runs.specs.Reads.{held_in, layered, mark_in, versions_in};
    ghost use Rattle.mega_chain.specs.Rest.{HoldsAs};
    ghost use Rattle.mega_runs.specs.Stores.{count_added, length_with};

    /// Opens a device that a crash may have left, reads its runs, and mends its end. A refusal hands the device back.
    pub fn open(alloc: Global, disk: D) -> Result<RunFile<D>, (StoreError, D)>
        ensures marks { D.is_told ≡ true → IfOk result (λ file. map mark_in (opened_of file).marks ≡ (held_in (D.seen disk)).marks) }
        ensures versions { D.is_told ≡ true → IfOk result (λ file. kept D.is_told (D.seen (disk_of file)) (opened_of file).end ≡ (held_in (D.seen disk)).lists) }
        ensures left { D.is_told ≡ true → IfOk result (λ file. (image : List ℕ) → D.may_leave (disk_of file) image → held_in image ≡ held_in (D.seen disk)) }
        ensures good { D.is_told ≡ true → IfOk result (λ _. first_bad 1 (records_of (D.seen disk)) ≡ None) }
        ensures bad { D.is_told ≡ true → IfErr result (λ refused. (n : ℕ) → refused.0 ≡ StoreError.BadRecord n → first_bad 1 (records_of (D.seen disk)) ≡ Some n) }
        ensures spent { IfOk result (λ file. is_spent file ≡ false) }
        ensures never_full { IfErr result (λ refused. (n : ℕ) → refused.0 ≡ StoreError.Full n → ⊥) }
        ensures any_moment { D.is_told ≡ true → IfOk result (λ file. LeavesOnly D.moment D.left_since disk (disk_of file) (HoldsAs (D.may_leave disk))) }
        ensures any_moment_err { D.is_told ≡ true → IfErr result (λ refused. LeavesOnly D.moment D.left_since disk refused.1 (HoldsAs (D.may_leave disk))) }
        ensures fault { IfErr result (λ refused. refused.0 ≡ StoreError.DiskFault → Rose (D.faults disk) (D.faults refused.1)) }
        ensures later { IfOk result (λ file. D.faults disk ≤ D.faults (disk_of file)) }
        ensures later_err { IfErr result (λ refused. D.faults disk ≤ D.faults refused.1) }
        ensures lowers { IfOk result (λ file. LowersBy 0 (D.fuse_left disk) (D.fuse_left (disk_of file))) }
        ensures may_burn { IfErr result (λ refused. MayBurn (D.fuse_left disk) (D.fuse_left refused.1)) }
        ensures burns { D.fails_by_fuse disk ≡ true → IfErr result (λ refused. refused.0 ≡ StoreError.DiskFault → Burns (D.fuse_left disk) (D.fuse_left refused.1)) }
        ensures by_fuse { D.fails_by_fuse disk ≡ true → IfOk result (λ file. D.fails_by_fuse (disk_of file) ≡ true) }
        ensures by_fuse_err { D.fails_by_fuse disk ≡ true → IfErr result (λ refused. D.fails_by_fuse refused.1 ≡ true) }
    {
        let mut disk = disk;
        match open_file(alloc, &mut disk) {
            Ok(opened) => Ok(RunFile {
                disk,
                opened,
                spent: false,
            }),
            Err(error) => Err((error, disk)),
        }
    }

    /// The device, as the file left it.
    pub fn close(self) -> D
        ensures { result ≡ disk_of self }
    {
        let RunFile { disk, .. } = self;
        disk
    }

    /// What the runs have of a key at a position: of its versions up to this one that of greatest position, of two with one position
    /// that of the newer run.
    pub fn found(&mut self, alloc: Global, key: &Bytes, at: Position) -> Result<Seen, StoreError>
        ensures value { D.is_told ≡ true → IfOk result (λ seen. seen ≡ found_among key.now at.0 (kept D.is_told (D.seen (disk_of self.old)) (opened_of self.old).end)) }
        ensures kept { kept D.is_told (D.seen (disk_of self.new)) (opened_of self.new).end ≡ kept D.is_told (D.seen (disk_of self.old)) (opened_of self.old).end }
        ensures opened { opened_of self.new ≡ opened_of self.old }
        ensures spent { is_spent self.new ≡ is_spent self.old }
        ensures never_bad { D.is_told ≡ true → (n : ℕ) → result ≡ Err (StoreError.BadRecord n) → ⊥ }
        ensures never_full { (n : ℕ) → result ≡ Err (StoreError.Full n) → ⊥ }
        ensures within { Within (D.may_leave (disk_of self.old)) (D.may_leave (disk_of self.new)) }
        ensures any_moment { LeavesOnly D.moment D.left_since (disk_of self.old) (disk_of self.new) (D.may_leave (disk_of self.old)) }
        ensures cause { result ≡ Err StoreError.DiskFault → Rose (D.faults (disk_of self.old)) (D.faults (disk_of self.new)) }
        ensures later { D.faults (disk_of self.old) ≤ D.faults (disk_of self.new) }
        ensures lowers { OnOk result (LowersBy 0 (D.fuse_left (disk_of self.old)) (D.fuse_left (disk_of self.new))) }
        ensures may_burn { MayBurn (D.fuse_left (disk_of self.old)) (D.fuse_left (disk_of self.new)) }
        ensures burns { D.fails_by_fuse (disk_of self.old) ≡ true → result ≡ Err StoreError.DiskFault → Burns (D.fuse_left (disk_of self.old)) (D.fuse_left (disk_of self.new)) }
        ensures by_fuse { D.fails_by_fuse (disk_of self.old) ≡ true → D.fails_by_fuse (disk_of self.new) ≡ true }
    {
        found_in_runs(alloc, &mut self.disk, self.opened.runs.as_slice(), key, at)
    }

    /// The versions of the runs in order, of two with one key and position that of the newer run.
    pub fn versions(&mut self, alloc: Global) -> Result<Vec<Version>, StoreError>
        ensures value { D.is_told ≡ true → IfOk result (λ versions. versions.items ≡ all_merged (kept D.is_told (D.seen (disk_of self.old)) (opened_of self.old).end)) }
        ensures in_order { IfOk result (λ versions. ascends versions.items ≡ true) }
        ensures kept { kept D.is_told (D.seen (disk_of self.new)) (opened_of self.new).end ≡ kept D.is_told (D.seen (disk_of self.old)) (opened_of self.old).end }
        ensures opened { opened_of self.new ≡ opened_of self.old }
        ensures spent { is_spent self.new ≡ is_spent self.old }
        ensures never_bad { D.is_told ≡ true → (n : ℕ) → result ≡ Err (StoreError.BadRecord n) → ⊥ }
        ensures never_full { (n : ℕ) → result ≡ Err (StoreError.Full n) → ⊥ }
        ensures within { Within (D.may_leave (disk_of self.old)) (D.may_leave (disk_of self.new)) }
        ensures any_moment { LeavesOnly D.moment D.left_since (disk_of self.old) (disk_of self.new) (D.may_leave (disk_of self.old)) }
        ensures cause { result ≡ Err StoreError.DiskFault → Rose (D.faults (disk_of self.old)) (D.faults (disk_of self.new)) }
        ensures later { D.faults (disk_of self.old) ≤ D.faults (disk_of self.new) }
        ensures lowers { OnOk result (LowersBy 0 (D.fuse_left (disk_of self.old)) (D.fuse_left (disk_of self.new))) }
        ensures may_burn { MayBurn (D.fuse_left (disk_of self.old)) (D.fuse_left (disk_of self.new)) }
        ensures burns { D.fails_by_fuse (disk_of self.old) ≡ true → result ≡ Err StoreError.DiskFault → Burns (D.fuse_left (disk_of self.old)) (D.fuse_left (disk_of self.new)) }
        ensures by_fuse { D.fails_by_fuse (disk_of self.old) ≡ true → D.fails_by_fuse (disk_of self.new) ≡ true }
    {
        all_versions(alloc, &mut self.disk, self.opened.runs.as_slice())
    }

    /// Versions of the runs as `versions` has them, among which are all of the keys from `from` on and before `to`.
    pub(crate) fn versions_around(
        &mut self,
        alloc: Global,
        from: &Bytes,
        to: &Bytes,
    ) -> Result<Vec<Version>, StoreError>
        ensures value { D.is_told ≡ true → IfOk result (λ versions. AgreeWithin from.now to.now (versions_in versions.items) (layered (kept D.is_told (D.seen (disk_of self.old)) (opened_of self.old).end))) }
        ensures in_order { IfOk result (λ versions. ascends versions.items ≡ true) }
        ensures kept { kept D.is_told (D.seen (disk_of self.new)) (opened_of self.new).end ≡ kept D.is_told (D.seen (disk_of self.old)) (opened_of self.old).end }
        ensures opened { opened_of self.new ≡ opened_of self.old }
        ensures spent { is_spent self.new ≡ is_spent self.old }
        ensures never_bad { D.is_told ≡ true → (n : ℕ) → result ≡ Err (StoreError.BadRecord n) → ⊥ }
        ensures never_full { (n : ℕ) → result ≡ Err (StoreError.Full n) → ⊥ }
        ensures within { Within (D.may_leave (disk_of self.old)) (D.may_leave (disk_of self.new)) }
        ensures any_moment { LeavesOnly D.moment D.left_since (disk_of self.old) (disk_of self.new) (D.may_leave (disk_of self.old)) }
        ensures cause { result ≡ Err StoreError.DiskFault → Rose (D.faults (disk_of self.old)) (D.faults (disk_of self.new)) }
        ensures later { D.faults (disk_of self.old) ≤ D.faults (disk_of self.new) }
        ensures lowers { OnOk result (LowersBy 0 (D.fuse_left (disk_of self.old)) (D.fuse_left (disk_of self.new))) }
        ensures may_burn { MayBurn (D.fuse_left (disk_of self.old)) (D.fuse_left (disk_of self.new)) }
        ensures burns { D.fails_by_fuse (disk_of self.old) ≡ true → result ≡ Err StoreError.DiskFault → Burns (D.fuse_left (disk_of self.old)) (D.fuse_left (disk_of self.new)) }
        ensures by_fuse { D.fails_by_fuse (disk_of self.old) ≡ true → D.fails_by_fuse (disk_of self.new) ≡ true }
    {
        all_around(alloc, &mut self.disk, self.opened.runs.as_slice(), from, to)
    }

    /// The rows that a read at a position sees of the keys from `from` on and before `to`, in order of key.
    pub fn scan(
        &mut self,
        alloc: Global,
        from: &Bytes,
        to: &Bytes,
        at: Position,
    ) -> Result<Vec<(Bytes, Row)>, StoreError>
        ensures value { D.is_told ≡ true → IfOk result (λ rows. IsScan (layered (kept D.is_told (D.seen (disk_of self.old)) (opened_of self.old).end)) from.now to.now at.0 rows.items) }
        ensures kept { kept D.is_told (D.seen (disk_of self.new)) (opened_of self.new).end ≡ kept D.is_told (D.seen (disk_of self.old)) (opened_of self.old).end }
        ensures opened { opened_of self.new ≡ opened_of self.old }
        ensures spent { is_spent self.new ≡ is_spent self.old }
        ensures never_bad { D.is_told ≡ true → (n : ℕ) → result ≡ Err (StoreError.BadRecord n) → ⊥ }
        ensures never_full { (n : ℕ) → result ≡ Err (StoreError.Full n) → ⊥ }
        ensures within { Within (D.may_leave (disk_of self.old)) (D.may_leave (disk_of self.new)) }
        ensures any_moment { LeavesOnly D.moment D.left_since (disk_of self.old) (disk_of self.new) (D.may_leave (disk_of self.old)) }
        ensures cause { result ≡ Err StoreError.DiskFault → Rose (D.faults (disk_of self.old)) (D.faults (disk_of self.new)) }
        ensures later { D.faults (disk_of self.old) ≤ D.faults (disk_of self.new) }
        ensures lowers { OnOk result (LowersBy 0 (D.fuse_left (disk_of self.old)) (D.fuse_left (disk_of self.new))) }
        ensures may_burn { MayBurn (D.fuse_left (disk_of self.old)) (D.fuse_left (disk_of self.new)) }
        ensures burns { D.fails_by_fuse (disk_of self.old) ≡ true → result ≡ Err StoreError.DiskFault → Burns (D.fuse_left (disk_of self.old)) (D.fuse_left (disk_of self.new)) }
        ensures by_fuse { D.fails_by_fuse (disk_of self.old) ≡ true → D.fails_by_fuse (disk_of self.new) ≡ true }
    {
        let versions = self.versions_around(alloc, from, to)?;
        match rows_of(alloc, versions.as_slice(), from, to, at) {
            Ok(rows) => Ok(rows),
            Err(NoMemory) => Err(StoreError::NoMemory),
        }
    }

    /// The mark of the group in the last run, 0 where it has none.
    pub fn mark(&self, group: &GroupId) -> Position
        ensures { result.0 ≡ mark_of group.now (map mark_in (opened_of self.now).marks) }
    {
        mark_of_group(self.opened.marks.as_slice(), group)
    }

    /// How many runs were added since the last base.
    pub(crate) fn added_count(&self) -> usize
        ensures { result ≡ count_added (opened_of self.now).runs.items }
    {
        added_among(self.opened.runs.as_slice())
    }

    /// The length that the file would have with this run.
    pub(crate) fn length_after(&self, alloc: Global, run: &Run) -> Result<u64, NoMemory>
        requires { IsRun run.now }
        ensures { IfOk result (λ n. n ≡ length_with (opened_of self.now).end run.now) }
    {
        let body = write_body(alloc, run)?;
        Ok(self.opened.end + 10 + body.len() as u64)
    }

    /// Sets a fuse on the device where there is one, as `Disk::fuse` does.
    pub fn fuse(&mut self, calls: u64, image: u8)
        ensures seen { D.seen (disk_of self.new) ≡ D.seen (disk_of self.old) }
        ensures opened { opened_of self.new ≡ opened_of self.old }
        ensures spent { is_spent self.new ≡ is_spent self.old }
        ensures same { SameImages D.moment D.may_leave D.left_since (disk_of self.old) (disk_of self.new) }
        ensures faults { D.faults (disk_of self.new) ≡ D.faults (disk_of self.old) }
        ensures fuse { D.fuse_left (disk_of self.new) ≡ set_to calls (D.fuse_left (disk_of self.old)) }
        ensures by_fuse { D.fails_by_fuse (disk_of self.new) ≡ D.fails_by_fuse (disk_of self.old) }
    {
        self.disk.fuse(calls, image);
    }

    /// Writes a run behind the others. It is refused where the file would be longer than 2^40 bytes, and where a run before could not
    /// be written. A crash at any moment leaves the runs from before, or these with the new one.
    pub fn add(&mut self, alloc: Global, run: Run) -> Result<(), StoreError>
        requires fits { IsRun run }
        requires in_order { ascends run.versions ≡ true }
        ensures kept { D.is_told ≡ true → OnOk result (kept D.is_told (D.seen (disk_of self.new)) (opened_of self.new).end ≡ (kept_with run (kept D.is_told (D.seen (disk_of self.old)) (opened_of self.old).end)).lists) }
        ensures kept_err { OnErr result (kept D.is_told (D.seen (disk_of self.new)) (opened_of self.new).end ≡ kept D.is_told (D.seen (disk_of self.old)) (opened_of self.old).end) }
        ensures marks { OnOk result ((opened_of self.new).marks ≡ run.marks) }
        ensures marks_err { OnErr result ((opened_of self.new).marks ≡ (opened_of self.old).marks) }
        ensures spent { OnOk result (is_spent self.new ≡ false) }
        ensures holds { D.is_told ≡ true → OnOk result ((image : List ℕ) → D.may_leave (disk_of self.new) image → held_in image ≡ kept_with run (kept D.is_told (D.seen (disk_of self.old)) (opened_of self.old).end)) }
        ensures any_moment { D.is_told ≡ true → LeavesOnly D.moment D.left_since (disk_of self.old) (disk_of self.new) (HoldsOr (D.may_leave (disk_of self.old)) (kept_with run (kept D.is_told (D.seen (disk_of self.old)) (opened_of self.old).end))) }
        ensures never_bad { (n : ℕ) → result ≡ Err (StoreError.BadRecord n) → ⊥ }
        ensures too_long { (n : ℕ) → result ≡ Err (StoreError.Full n) → (n ≡ (opened_of self.old).end + 10 + length (run_text run)) × (2 ^ 40 < n) }
        ensures short { OnOk result ((opened_of self.old).end + 10 + length (run_text run) ≤ 2 ^ 40) }
        ensures cause { result ≡ Err StoreError.DiskFault → Rose (D.faults (disk_of self.old)) (D.faults (disk_of self.new)) }
        ensures later { D.faults (disk_of self.old) ≤ D.faults (disk_of self.new) }
        ensures lowers { OnOk result (LowersBy 0 (D.fuse_left (disk_of self.old)) (D.fuse_left (disk_of self.new))) }
        ensures may_burn { MayBurn (D.fuse_left (disk_of self.old)) (D.fuse_left (disk_of self.new)) }
        ensures burns { D.fails_by_fuse (disk_of self.old) ≡ true → result ≡ Err StoreError.DiskFault → Burns (D.fuse_left (disk_of self.old)) (D.fuse_left (disk_of self.new)) }
        ensures by_fuse { D.fails_by_fuse (disk_of self.old) ≡ true → D.fails_by_fuse (disk_of self.new) ≡ true }
    {
        if self.spent {
            return Err(StoreError::NoMemory);
        }
        let body = match write_body(alloc, &run) {
            Ok(body) => body,
            Err(NoMemory) => return Err(StoreError::NoMemory),
        };
        let length = self.opened.end + 10 + body.len() as u64;
        if length > MAX_LENGTH {
            return Err(StoreError::Full { length });
        }
        self.spent = true;
        put_run(
            alloc,
            &mut self.disk,
            &mut self.opened,
            run,
            body.as_slice(),
        )?;
        self.spent = false;
        Ok(())
    }
}
