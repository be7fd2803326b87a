//! A voter's logs over a store in two areas.
ghost use Rattle.std.specs.Prelude.{◌≡◌, []};
ghost use Rattle.mega_wal.specs.Compaction.{IsOfFormat};

use crate::asserted::same;
use crate::device::{opened, records_on};
use mega_checkpoint::Checkpoint;
use mega_disk::{MemDisk, Records};
use mega_wal::Logs;
use std::alloc::Global;
use std::process::Abort;

/// Logs over a new store.
fn fresh(rt: &impl Abort, alloc: Global) -> Logs<Checkpoint<MemDisk>>
    ensures staged { result.staged.items ≡ [] }
    ensures format { IsOfFormat result.kept }
{
    let store = opened(rt, alloc, MemDisk::new(alloc));
    let Ok(logs) = Logs::open(alloc, store) else {
        panic!(rt; "refused");
    };
    logs
}

/// Starts once more, and makes a record of it.
fn start<R: Records>(rt: &impl Abort, alloc: Global, logs: &mut Logs<R>)
    requires staged { logs.old.staged.items ≡ [] }
    requires format { IsOfFormat logs.old.kept }
    ensures staged { logs.new.staged.items ≡ [] }
    ensures format { IsOfFormat logs.new.kept }
{
    if logs.starts() == u32::MAX {
        panic!(rt; "too many starts");
    }
    let Ok(()) = logs.begin(alloc) else {
        panic!(rt; "refused");
    };
    let Ok(()) = logs.flush(alloc) else {
        panic!(rt; "refused");
    };
}

/// Logs with so many starts, each a record of its own.
fn started(rt: &impl Abort, alloc: Global, starts: u32) -> Logs<Checkpoint<MemDisk>>
    ensures staged { result.staged.items ≡ [] }
    ensures format { IsOfFormat result.kept }
{
    let mut logs = fresh(rt, alloc);
    for _ in 0..starts {
        start(rt, alloc, &mut logs);
    }
    logs
}

/// Compacts the records, which are due for it.
fn compact<R: Records>(rt: &impl Abort, alloc: Global, logs: &mut Logs<R>)
    requires staged { logs.old.staged.items ≡ [] }
    requires format { IsOfFormat logs.old.kept }
{
    if !logs.due() {
        panic!(rt; "not due");
    }
    logs.compact(alloc).expect(rt, "refused");
}

#[test]
fn many_starts_become_one_record(rt: HostRuntime) {
    let alloc = rt.alloc();
    let mut logs = started(&rt, alloc, 4096);
    compact(&rt, alloc, &mut logs);
    same(&rt, logs.starts(), 4096);
    same(&rt, logs.due(), false);
    let found = records_on(&rt, alloc, &mut logs.close().close());
    let [record] = found.as_slice() else {
        panic!(rt; "not one record");
    };
    let wanted: &[u8] = &[0, 0, 0, 1, 7, 0, 0, 0x10, 0];
    same(&rt, record.as_slice(), wanted);
}
