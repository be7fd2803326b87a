//! A list of records in memory, which no crash takes away, with a fuse that cuts appends.
ghost use Rattle.std.specs.Prelude.{◌≡◌, ◌+◌, ◌≤◌, ◌++◌, [], ◌∷◌, true, false, length, nat_le, if◌then◌else◌, refl, IfOk, OnOk, OnErr};
ghost use Rattle.std.proofs.Common.{inl};
ghost use Rattle.mega_disk.specs.Fuse.{Unset};
ghost use Rattle.mega_disk.specs.MemDisk.{fuse_of, image_of};
ghost use Rattle.mega_disk.specs.Images.{Only, SameImages};
ghost use Rattle.mega_disk.specs.MemRecords.{Keeps};
ghost use Rattle.mega_disk.specs.Past.{LeftSince, TimePasses, left_now};

use crate::fuse::{SetFuse, spend_append};
use crate::past::Past;
use crate::records::{RecordError, Records};
use mega_base::{Bytes, Copied, NoMemory};
use std::alloc::Global;

/// How many records stand behind the last replacement before the list is due for the next.
const DUE: u64 = 4096;

/// A list of records in memory, which no crash takes away. A fuse counts four calls an append, as a chain on a device makes them
/// (the record behind a closed gate, a sync, the gate, a sync), and none for an opening: with fewer than four left it burns in
/// the append, whose record is kept where the gate was written and the image keeps what is pending.
#[derive(Drop)]
pub struct MemRecords {
    alloc: Global,
    list: Vec<Bytes>,
    opened: Vec<Bytes>,
    past: Past<Vec<Bytes>>,
    since: u64,
    spent: bool,
    count: u64,
    fuse: Option<SetFuse>,
    faults: u64,
    ghost counted: { spent ≡ false → count ≡ length list.items },
}

impl MemRecords {
    /// An empty list.
    pub fn new(alloc: Global) -> MemRecords
        ensures empty { ⟦<MemRecords as Records>⟧.list result ≡ [] }
        ensures opened { ⟦<MemRecords as Records>⟧.opened result ≡ [] }
        ensures spent { ⟦<MemRecords as Records>⟧.is_spent result ≡ false }
        ensures due { ⟦<MemRecords as Records>⟧.is_due result ≡ false }
        ensures unset { ⟦<MemRecords as Records>⟧.fuse_left result ≡ Unset }
    {
        MemRecords {
            alloc,
            list: Vec::new(alloc),
            opened: Vec::new(alloc),
            past: Past::new(),
            since: 0,
            spent: false,
            count: 0,
            fuse: None,
            faults: 0,
        }
    }

    /// Opens the list again, as after a restart; a refusal leaves it as it was.
    pub fn reopen(&mut self) -> Result<(), NoMemory>
        ensures opened { OnOk result (⟦<MemRecords as Records>⟧.opened self.new ≡ ⟦<MemRecords as Records>⟧.list self.old) }
        ensures spent { OnOk result (⟦<MemRecords as Records>⟧.is_spent self.new ≡ false) }
        ensures list { ⟦<MemRecords as Records>⟧.list self.new ≡ ⟦<MemRecords as Records>⟧.list self.old }
        ensures due { ⟦<MemRecords as Records>⟧.is_due self.new ≡ ⟦<MemRecords as Records>⟧.is_due self.old }
        ensures fuse { ⟦<MemRecords as Records>⟧.fuse_left self.new ≡ ⟦<MemRecords as Records>⟧.fuse_left self.old }
        ensures image { ⟦<MemRecords as Records>⟧.fuse_image self.new ≡ ⟦<MemRecords as Records>⟧.fuse_image self.old }
        ensures err { OnErr result (self.new ≡ self.old) }
    {
        self.opened = copies(self.alloc, self.list.as_slice())?;
        self.count = self.list.len() as u64;
        self.spent = false;
        Ok(())
    }
}

/// Equal records in fresh memory.
fn copies(alloc: Global, records: &[Bytes]) -> Result<Vec<Bytes>, NoMemory>
    ensures { IfOk result (λ made. made.items ≡ records.now) }
{
    let mut made = Vec::new(alloc);
    for record in records {
        made.push(record.copy(alloc)?)?;
    }
    Ok(made)
}

impl Records for MemRecords {
    ghost is_told = { true };

    ghost list = { λ m. m.list.items };

    ghost may_open = { λ m. Keeps m.list };

    ghost moment = { λ m. length m.past.states };

    ghost opened_since = { λ m. LeftSince Keeps m.list m.past.states };

    ghost faults = { λ m. m.faults };

    ghost fuse_left = { λ m. fuse_of m.fuse };

    ghost fails_by_fuse = { λ _. true };

    ghost by_four = { true };

    ghost fuse_image = { λ m. image_of m.fuse };

    ghost count_of = { λ m. m.count };

    ghost opened = { λ m. m.opened.items };

    ghost is_spent = { λ m. m.spent };

    ghost is_due = { λ m. nat_le 4096 m.since };

    ghost length_with = { λ _ _. 0 };

    ghost length_replaced = { λ _ _. 0 };

    ghost only = { λ m told ready found is. is };

    ghost counts = { λ m told ready. m.counted ready };

    ghost counts_now = { λ m t found le now. inl now };

    ghost only_now = { λ m found left. left_now Keeps m.list m.past.states found left };

    fn append(&mut self, _alloc: Global, body: &[u8]) -> Result<(), RecordError> {
        if self.spent {
            return Err(RecordError::Spent);
        }
        self.spent = true;
        if let Some(kept) = spend_append(&mut self.fuse) {
            self.faults = self.faults.saturating_add(1);
            add_if(kept, self.alloc, &mut self.list, &mut self.past, body)?;
            return Err(RecordError::DiskFault);
        }
        add(self.alloc, &mut self.list, &mut self.past, body)?;
        self.since = self.since.saturating_add(1);
        self.count = self.list.len() as u64;
        self.spent = false;
        Ok(())
    }

    fn count(&self) -> u64 {
        self.count
    }

    fn take_opened(&mut self) -> Vec<Bytes> {
        std::mem::replace(&mut self.opened, Vec::new(self.alloc))
    }

    fn fuse(&mut self, calls: u64, image: u8) {
        self.fuse = Some(SetFuse { calls, image });
    }

    fn due(&self) -> bool {
        self.since >= DUE
    }

    fn replace(&mut self, _alloc: Global, body: &[u8]) -> Result<(), RecordError> {
        if self.since < DUE || self.spent {
            return Err(RecordError::Spent);
        }
        self.spent = true;
        replace_all(self.alloc, &mut self.list, &mut self.past, body)?;
        self.since = 0;
        self.count = 1;
        self.spent = false;
        Ok(())
    }
}

/// Adds a record at the end, and notes the list before it.
fn add(
    alloc: Global,
    list: &mut Vec<Bytes>,
    past: &mut Past<Vec<Bytes>>,
    body: &[u8],
) -> Result<(), NoMemory>
    ensures ok { OnOk result (list.new.items ≡ list.old.items ++ body.now ∷ []) }
    ensures err { OnErr result (list.new.items ≡ list.old.items) }
    ensures time { TimePasses Keeps list.old past.old.states list.new past.new.states }
{
    *past = past.and(list);
    let record = Bytes::from_slice(alloc, body)?;
    list.push(record)?;
    Ok(())
}

/// Adds a record at the end where it is kept, and notes the list before it.
fn add_if(
    kept: bool,
    alloc: Global,
    list: &mut Vec<Bytes>,
    past: &mut Past<Vec<Bytes>>,
    body: &[u8],
) -> Result<(), NoMemory>
    ensures ok { OnOk result (list.new.items ≡ (if kept then list.old.items ++ body.now ∷ [] else list.old.items)) }
    ensures err { OnErr result (list.new.items ≡ list.old.items) }
    ensures time { TimePasses Keeps list.old past.old.states list.new past.new.states }
{
    if kept {
        return add(alloc, list, past, body);
    }
    *past = past.and(list);
    Ok(())
}

/// Puts one record in place of all, and notes the list before it.
fn replace_all(
    alloc: Global,
    list: &mut Vec<Bytes>,
    past: &mut Past<Vec<Bytes>>,
    body: &[u8],
) -> Result<(), NoMemory>
    ensures ok { OnOk result (list.new.items ≡ body.now ∷ []) }
    ensures err { OnErr result (list.new.items ≡ list.old.items) }
    ensures time { TimePasses Keeps list.old past.old.states list.new past.new.states }
{
    *past = past.and(list);
    let mut one = Vec::new(alloc);
    let record = Bytes::from_slice(alloc, body)?;
    one.push(record)?;
    *list = one;
    Ok(())
}
