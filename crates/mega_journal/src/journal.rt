//! A list of records on one device, kept as one chain.
ghost use Rattle.std.specs.Prelude.{◌≡◌, ◌+◌, ◌<◌, ◌≤◌, ◌^◌, ◌↔◌, ◌⊎◌, true, false, length};
ghost use Rattle.std.specs.List.{AllByRecursion-prop};
ghost use Rattle.std.proofs.Props.{props};
ghost use Rattle.mega_journal.specs.Chain.{records_of};
ghost use Rattle.mega_journal.specs.Rest.{IsSettled};

use crate::append::put_record;
use crate::opening::open_chain;
use mega_base::Bytes;
use mega_disk::{Disk, DiskError, RecordError, Records};
use std::alloc::Global;

/// The length in bytes that no file passes.
const MAX_LENGTH: u64 = 1 << 40;

/// A list of records on one device, as one chain. It is never due for a replacement.
#[derive(Drop)]
pub struct Journal<D: Disk> {
    disk: D,
    end: u64,
    count: u64,
    spent: bool,
    opened: Vec<Bytes>,
    ghost few: { count ≤ end },
    ghost room: { end < 2 ^ 63 },
    ghost settled: { D.is_told ≡ true → spent ≡ false → IsSettled (D.seen disk) (D.may_leave disk) end } by { Prim.hlevel (props, AllByRecursion-prop) },
    ghost counted: { D.is_told ≡ true → spent ≡ false → count ≡ length (records_of (D.seen disk)) },
}

impl<D: Disk> Journal<D> {
    ghost use Rattle.std.specs.Prelude.{IfOk, IfErr, Err, ◌≢◌};
    ghost use Rattle.mega_base.specs.Causes.{Rose};
    ghost use Rattle.mega_disk.specs.Images.{LeavesOnly};
    ghost use Rattle.mega_disk.specs.Fuse.{LowersBy, MayBurn, Burns};
    ghost use Rattle.mega_journal.specs.Journals.{disk_of};
    ghost use Rattle.mega_journal.specs.Rest.{HoldsAs};

    /// Opens a device that a crash may have left, reads its records, and mends its end. It begins with
    /// a sync, and may itself be cut at any moment. A refusal, `DiskFault` or `NoMemory`, hands the
    /// device back.
    pub fn open(alloc: Global, disk: D) -> Result<Journal<D>, (RecordError, D)>
        ensures list { D.is_told ≡ true → IfOk result (λ journal. ⟦<Journal<D> as Records>⟧.list journal ≡ records_of (D.seen disk)) }
        ensures opened { D.is_told ≡ true → IfOk result (λ journal. ⟦<Journal<D> as Records>⟧.opened journal ≡ records_of (D.seen disk)) }
        ensures count { IfOk result (λ journal. ⟦<Journal<D> as Records>⟧.count_of journal ≡ length (⟦<Journal<D> as Records>⟧.opened journal)) }
        ensures spent { IfOk result (λ journal. ⟦<Journal<D> as Records>⟧.is_spent journal ≡ false) }

        // A crash at any moment leaves the records of an image that a crash before might have left.
        ensures any_moment { D.is_told ≡ true → IfOk result (λ journal. LeavesOnly D.moment D.left_since disk (disk_of journal) (HoldsAs (D.may_leave disk))) }
        ensures any_moment_err { D.is_told ≡ true → IfErr result (λ refused. LeavesOnly D.moment D.left_since disk refused.1 (HoldsAs (D.may_leave disk))) }

        ensures causes { IfErr result (λ refused. (refused.0 ≡ RecordError.DiskFault) ⊎ (refused.0 ≡ RecordError.NoMemory)) }
        ensures fault { IfErr result (λ refused. refused.0 ≡ RecordError.DiskFault → Rose (D.faults disk) (D.faults refused.1)) }
        ensures later { IfOk result (λ journal. D.faults disk ≤ D.faults (disk_of journal)) }
        ensures later_err { IfErr result (λ refused. D.faults disk ≤ D.faults refused.1) }
        ensures lowers { IfOk result (λ journal. LowersBy 0 (D.fuse_left disk) (D.fuse_left (disk_of journal))) }
        ensures may_burn { IfErr result (λ refused. MayBurn (D.fuse_left disk) (D.fuse_left refused.1)) }
        ensures burns { D.fails_by_fuse disk ≡ true → IfErr result (λ refused. refused.0 ≡ RecordError.DiskFault → Burns (D.fuse_left disk) (D.fuse_left refused.1)) }
        ensures by_fuse { D.fails_by_fuse disk ≡ true → IfOk result (λ journal. D.fails_by_fuse (disk_of journal) ≡ true) }
        ensures by_fuse_err { D.fails_by_fuse disk ≡ true → IfErr result (λ refused. D.fails_by_fuse refused.1 ≡ true) }
    {
        let mut disk = disk;
        match open_chain(alloc, &mut disk) {
            Ok(found) => Ok(Journal {
                disk,
                end: found.end as u64,
                count: found.records.len() as u64,
                spent: false,
                opened: found.records,
            }),
            Err(error) => Err((refusal(error), disk)),
        }
    }

    /// The device, as the journal left it.
    pub fn close(self) -> D
        ensures { result ≡ disk_of self }
    {
        let Journal { disk, .. } = self;
        disk
    }
}

/// What a journal answers where its device refused a call.
fn refusal(error: DiskError) -> RecordError
    ensures fault { (result ≡ RecordError.DiskFault) ↔ (error ≡ DiskError.Failed) }
    ensures memory { (result ≡ RecordError.NoMemory) ↔ (error ≡ DiskError.NoMemory) }
{
    match error {
        DiskError::Failed => RecordError::DiskFault,
        DiskError::NoMemory => RecordError::NoMemory,
    }
}

impl<D: Disk> Records for Journal<D> {
    ghost use Rattle.std.proofs.Common.{◌≡◌, ℕ, List, ◌∙◌, ap, sym};
    ghost use Rattle.mega_journal.specs.Chain.{records_of};
    ghost use Rattle.mega_journal.specs.Opened.{Opens, opens_only, opened_now};

    ghost is_told = { D.is_told };

    ghost list = { λ j. records_of (D.seen j.disk) };

    ghost may_open = { λ j. Opens (D.may_leave j.disk) };

    ghost moment = { λ j. D.moment j.disk };

    ghost opened_since = { λ j t. Opens (D.left_since j.disk t) };

    ghost faults = { λ j. D.faults j.disk };

    ghost fuse_left = { λ j. D.fuse_left j.disk };

    ghost fails_by_fuse = { λ j. D.fails_by_fuse j.disk };

    ghost by_four = { false };

    ghost fuse_image = { λ _. 0 };

    ghost count_of = { λ j. j.count };

    ghost opened = { λ j. j.opened.items };

    ghost is_spent = { λ j. j.spent };

    ghost is_due = { λ _. false };

    ghost length_with = { λ j n. j.end + 6 + n };

    ghost length_replaced = { λ _ _. 0 };

    ghost only = { λ j told ready. opens_only (D.seen j.disk) (D.may_leave j.disk) (j.settled told ready).durable };

    ghost counts = { λ j told ready. j.counted told ready };

    ghost counts_now = { λ j t found le now. opened_now (D.may_leave j.disk) (D.left_since j.disk t) found (λ image left. D.counts_now j.disk t image le left) now };

    ghost only_now = { λ j found left. opened_now (D.left_since j.disk (D.moment j.disk)) (D.may_leave j.disk) found (λ image. D.only_now j.disk image) left };

    fn append(&mut self, alloc: Global, body: &[u8]) -> Result<(), RecordError> {
        if self.spent {
            return Err(RecordError::Spent);
        }
        let length = self.end + 6 + body.len() as u64;
        if length > MAX_LENGTH {
            return Err(RecordError::Full { length });
        }
        self.spent = true;
        if let Err(error) = put_record(alloc, &mut self.disk, self.end, body) {
            return Err(refusal(error));
        }
        self.end = length - 1;
        self.count += 1;
        self.spent = false;
        Ok(())
    }

    fn count(&self) -> u64 {
        self.count
    }

    fn take_opened(&mut self) -> Vec<Bytes> {
        let none = Vec::new(*self.opened.allocator());
        std::mem::replace(&mut self.opened, none)
    }

    fn fuse(&mut self, calls: u64, image: u8) {
        self.disk.fuse(calls, image);
    }

    fn due(&self) -> bool {
        false
    }

    fn replace(&mut self, _alloc: Global, _body: &[u8]) -> Result<(), RecordError> {
        Err(RecordError::Spent)
    }
}
