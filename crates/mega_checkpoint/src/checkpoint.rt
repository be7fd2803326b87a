//! A list of records on one device, in two areas or, where the file was a chain, as that chain.
ghost use Rattle.std.specs.Prelude.{◌≡◌, ◌+◌, ◌<◌, ◌≤◌, ◌^◌, ◌↔◌, ◌⊎◌, true, false, length};
ghost use Rattle.std.specs.List.{AllByRecursion-prop};
ghost use Rattle.std.proofs.Props.{props};
ghost use Rattle.mega_checkpoint.specs.Format.{list_of};
ghost use Rattle.mega_areas.specs.Forms.{limit_of, pages_of};
ghost use Rattle.mega_checkpoint.specs.Held.{IsHeld, IsHeld-prop};

use crate::appending::add;
use crate::opening::open_file;
use crate::replacing::replace_area;
use mega_areas::{Form, MAX_LENGTH};
use mega_base::Bytes;
use mega_disk::{Disk, DiskError, RecordError, Records};
use std::alloc::Global;

/// A list of records on one device, in two areas: one counts, and the other takes the list that is put in its place.
#[derive(Drop)]
pub struct Checkpoint<D: Disk> {
    disk: D,
    form: Form,
    end: u64,
    count: u64,
    spent: bool,
    opened: Vec<Bytes>,
    ghost few: { count ≤ end },
    ghost room: { end < limit_of form },
    ghost small: { pages_of form < 2 ^ 50 },
    ghost held: { D.is_told ≡ true → spent ≡ false → IsHeld (D.seen disk) (D.may_leave disk) form end } by { Prim.hlevel (props, AllByRecursion-prop, IsHeld-prop) },
    ghost counted: { D.is_told ≡ true → spent ≡ false → count ≡ length (list_of (D.seen disk)) },
}

impl<D: Disk> Checkpoint<D> {
    ghost use Rattle.std.specs.Prelude.{IfOk, IfErr, Err};
    ghost use Rattle.mega_base.specs.Causes.{Rose};
    ghost use Rattle.mega_disk.specs.Images.{LeavesOnly};
    ghost use Rattle.mega_disk.specs.Fuse.{LowersBy, MayBurn, Burns};
    ghost use Rattle.mega_checkpoint.specs.Opened.{disk_of};
    ghost use Rattle.mega_checkpoint.specs.Held.{HoldsAs};

    /// Opens a device that a crash may have left. A file of at most one byte becomes one of areas, a chain goes on as
    /// a chain. It begins with a sync, and may itself be cut at any moment. A refusal, `DiskFault` or `NoMemory`, hands
    /// the device back.
    pub fn open(alloc: Global, disk: D) -> Result<Checkpoint<D>, (RecordError, D)>
        ensures list { D.is_told ≡ true → IfOk result (λ store. ⟦<Checkpoint<D> as Records>⟧.list store ≡ list_of (D.seen disk)) }
        ensures opened { D.is_told ≡ true → IfOk result (λ store. ⟦<Checkpoint<D> as Records>⟧.opened store ≡ list_of (D.seen disk)) }
        ensures count { IfOk result (λ store. ⟦<Checkpoint<D> as Records>⟧.count_of store ≡ length (⟦<Checkpoint<D> as Records>⟧.opened store)) }
        ensures spent { IfOk result (λ store. ⟦<Checkpoint<D> as Records>⟧.is_spent store ≡ false) }

        // A crash at any moment leaves the list of an image that a crash before might have left.
        ensures any_moment { D.is_told ≡ true → IfOk result (λ store. LeavesOnly D.moment D.left_since disk (disk_of store) (HoldsAs (D.may_leave disk))) }
        ensures any_moment_err { D.is_told ≡ true → IfErr result (λ refused. LeavesOnly D.moment D.left_since disk refused.1 (HoldsAs (D.may_leave disk))) }

        ensures causes { IfErr result (λ refused. (refused.0 ≡ RecordError.DiskFault) ⊎ (refused.0 ≡ RecordError.NoMemory)) }
        ensures fault { IfErr result (λ refused. refused.0 ≡ RecordError.DiskFault → Rose (D.faults disk) (D.faults refused.1)) }
        ensures later { IfOk result (λ store. D.faults disk ≤ D.faults (disk_of store)) }
        ensures later_err { IfErr result (λ refused. D.faults disk ≤ D.faults refused.1) }
        ensures lowers { IfOk result (λ store. LowersBy 0 (D.fuse_left disk) (D.fuse_left (disk_of store))) }
        ensures may_burn { IfErr result (λ refused. MayBurn (D.fuse_left disk) (D.fuse_left refused.1)) }
        ensures burns { D.fails_by_fuse disk ≡ true → IfErr result (λ refused. refused.0 ≡ RecordError.DiskFault → Burns (D.fuse_left disk) (D.fuse_left refused.1)) }
        ensures by_fuse { D.fails_by_fuse disk ≡ true → IfOk result (λ store. D.fails_by_fuse (disk_of store) ≡ true) }
        ensures by_fuse_err { D.fails_by_fuse disk ≡ true → IfErr result (λ refused. D.fails_by_fuse refused.1 ≡ true) }
    {
        let mut disk = disk;
        match open_file(alloc, &mut disk) {
            Ok(found) => Ok(Checkpoint {
                disk,
                form: found.form,
                end: found.end,
                count: found.records.len() as u64,
                spent: false,
                opened: found.records,
            }),
            Err(error) => Err((refusal(error), disk)),
        }
    }

    /// The device, as the store left it.
    pub fn close(self) -> D
        ensures { result ≡ disk_of self }
    {
        let Checkpoint { disk, .. } = self;
        disk
    }
}

/// What a store answers where its device refused a call.
fn refusal(error: DiskError) -> RecordError
    ensures fault { (result ≡ RecordError.DiskFault) ↔ (error ≡ DiskError.Failed) }
    ensures memory { (result ≡ RecordError.NoMemory) ↔ (error ≡ DiskError.NoMemory) }
{
    match error {
        DiskError::Failed => RecordError::DiskFault,
        DiskError::NoMemory => RecordError::NoMemory,
    }
}

impl<D: Disk> Records for Checkpoint<D> {
    ghost use Rattle.std.proofs.Common.{◌≡◌, ℕ, List, ◌∙◌, ap, sym};
    ghost use Rattle.mega_checkpoint.specs.Format.{list_of};
    ghost use Rattle.mega_areas.specs.Forms.{is_due, length_with, length_replaced};
    ghost use Rattle.mega_checkpoint.specs.Held.{durable_of};
    ghost use Rattle.mega_checkpoint.specs.Opened.{Opens, opens_only, opened_now};

    ghost is_told = { D.is_told };

    ghost list = { λ s. list_of (D.seen s.disk) };

    ghost may_open = { λ s. Opens (D.may_leave s.disk) };

    ghost moment = { λ s. D.moment s.disk };

    ghost opened_since = { λ s t. Opens (D.left_since s.disk t) };

    ghost faults = { λ s. D.faults s.disk };

    ghost fuse_left = { λ s. D.fuse_left s.disk };

    ghost fails_by_fuse = { λ s. D.fails_by_fuse s.disk };

    ghost by_four = { false };

    ghost fuse_image = { λ _. 0 };

    ghost count_of = { λ s. s.count };

    ghost opened = { λ s. s.opened.items };

    ghost is_spent = { λ s. s.spent };

    ghost is_due = { λ s. is_due s.form s.count };

    ghost length_with = { λ s n. length_with s.form s.end n };

    ghost length_replaced = { λ s n. length_replaced s.form n };

    ghost only = { λ s told ready. opens_only (D.seen s.disk) (D.may_leave s.disk) (durable_of (D.seen s.disk) (D.may_leave s.disk) s.form s.end (s.held told ready)) };

    ghost counts = { λ s told ready. s.counted told ready };

    ghost counts_now = { λ s t found le now. opened_now (D.may_leave s.disk) (D.left_since s.disk t) found (λ image left. D.counts_now s.disk t image le left) now };

    ghost only_now = { λ s found left. opened_now (D.left_since s.disk (D.moment s.disk)) (D.may_leave s.disk) found (λ image. D.only_now s.disk image) left };

    fn append(&mut self, alloc: Global, body: &[u8]) -> Result<(), RecordError> {
        if self.spent {
            return Err(RecordError::Spent);
        }
        let length = self.form.length_with(self.end, body.len() as u64);
        if length > MAX_LENGTH {
            return Err(RecordError::Full { length });
        }
        self.spent = true;
        match add(alloc, &mut self.disk, self.form, self.end, body) {
            Ok(form) => self.form = form,
            Err(error) => return Err(refusal(error)),
        }
        self.end += 5 + body.len() as u64;
        self.count += 1;
        self.spent = false;
        Ok(())
    }

    fn count(&self) -> u64 {
        self.count
    }

    fn take_opened(&mut self) -> Vec<Bytes> {
        let none = Vec::new(*self.opened.allocator());
        std::mem::replace(&mut self.opened, none)
    }

    fn fuse(&mut self, calls: u64, image: u8) {
        self.disk.fuse(calls, image);
    }

    fn due(&self) -> bool {
        self.form.is_due(self.count)
    }

    fn replace(&mut self, alloc: Global, body: &[u8]) -> Result<(), RecordError> {
        let Form::InAreas(areas) = self.form else {
            return Err(RecordError::Spent);
        };
        if self.spent || !self.form.is_due(self.count) {
            return Err(RecordError::Spent);
        }
        let length = self.form.length_replaced(body.len() as u64);
        if length > MAX_LENGTH {
            return Err(RecordError::Full { length });
        }
        self.spent = true;
        match replace_area(alloc, &mut self.disk, areas, self.end, body) {
            Ok(areas) => self.form = Form::InAreas(areas),
            Err(error) => return Err(refusal(error)),
        }
        self.end = 5 + body.len() as u64;
        self.count = 1;
        self.spent = false;
        Ok(())
    }
}
