//! The log of a node, which is opened to be read: no start is counted.
ghost use Rattle.std.specs.Prelude.{◌≡◌, ◌≢◌, ◌≤◌, ℕ, List, None, Some, Err, true, false, IfOk, IfErr};
ghost use Rattle.mega_base.specs.Causes.{Rose};
ghost use Rattle.mega_checkpoint.specs.Format.{list_of};
ghost use Rattle.mega_wal.specs.declared.item.JournalItem.{JournalItem as Item};
ghost use Rattle.mega_wal.specs.Compaction.{IsOfFormat};
ghost use Rattle.mega_wal.specs.Kept.{Represents};
ghost use Rattle.mega_wal.specs.Records.{first_bad, history_of};
ghost use Rattle.mega_backup_words.specs.Backing.{AreHeld, log_ending, records_ending};
ghost use Rattle.mega_backup_words.specs.Endings.{Ends, end_status, is_cut};
ghost use Rattle.mega_backup_words.specs.Stops.{IsLogStop, IsOpeningStop, IsWriteStop, device_stop_of, log_stop_of};

use crate::stop::Stop;
use mega_backup::write;
use mega_base::{GroupId, Position};
use mega_checkpoint::Checkpoint;
use mega_disk::{Disk, RecordError, Records};
use mega_io::Sink;
use mega_wal::{LogFault, Logs};
use std::alloc::Global;

/// Why a device was not opened. An opening is refused for two causes alone.
fn device_stop(error: RecordError) -> Stop
    ensures exact { result ≡ device_stop_of error }
    ensures device { result ≡ Stop.Device → error ≡ RecordError.DiskFault }
    ensures only { IsOpeningStop result }
    ensures good { result ≢ Stop.BadRecord }
{
    match error {
        RecordError::DiskFault => Stop::Device,
        RecordError::Full { .. } | RecordError::Spent | RecordError::NoMemory => Stop::NoMemory,
    }
}

/// Why logs were not opened. An opening is refused for two causes alone.
fn log_stop(fault: LogFault) -> Stop
    ensures exact { result ≡ log_stop_of fault }
    ensures bad { result ≡ Stop.BadRecord → (n : ℕ) × (fault ≡ LogFault.BadRecord n) }
    ensures only { IsOpeningStop result }
    ensures device { result ≢ Stop.Device }
{
    match fault {
        LogFault::BadRecord { .. } => Stop::BadRecord,
        LogFault::DiskFault | LogFault::Full { .. } | LogFault::Spent | LogFault::NoMemory => {
            Stop::NoMemory
        }
    }
}

/// Opens the log of a device, and counts no start. A refusal hands the device back.
fn open<D: Disk>(alloc: Global, log: D) -> Result<Logs<Checkpoint<D>>, (Stop, D)>
    ensures opened { IfOk result (λ logs. (records : List (List ℕ)) × AreHeld D.is_told (D.seen log) records × (first_bad records ≡ None) × Represents logs.kept (history_of records)) }
    ensures format { IfOk result (λ logs. IsOfFormat logs.kept) }
    ensures list { D.is_told ≡ true → IfOk result (λ logs. ⟦<Checkpoint<D> as Records>⟧.list logs.records ≡ list_of (D.seen log)) }
    ensures later { IfOk result (λ logs. D.faults log ≤ ⟦<Checkpoint<D> as Records>⟧.faults logs.records) }
    ensures bad { IfErr result (λ refused. refused.0 ≡ Stop.BadRecord → (records : List (List ℕ)) × AreHeld D.is_told (D.seen log) records × ((n : ℕ) × (first_bad records ≡ Some n))) }
    ensures bad_list { D.is_told ≡ true → IfErr result (λ refused. refused.0 ≡ Stop.BadRecord → list_of (D.seen refused.1) ≡ list_of (D.seen log)) }
    ensures device { IfErr result (λ refused. refused.0 ≡ Stop.Device → Rose (D.faults log) (D.faults refused.1)) }
    ensures only { IfErr result (λ refused. IsOpeningStop refused.0) }
    ensures later_err { IfErr result (λ refused. D.faults log ≤ D.faults refused.1) }
{
    match Checkpoint::open(alloc, log) {
        Ok(store) => open_records(alloc, store),
        Err((error, log)) => Err((device_stop(error), log)),
    }
}

/// Opens the log that a store of records tells. A refusal hands the device back.
fn open_records<D: Disk>(
    alloc: Global,
    store: Checkpoint<D>,
) -> Result<Logs<Checkpoint<D>>, (Stop, D)>
    ensures opened { IfOk result (λ logs. (first_bad (⟦<Checkpoint<D> as Records>⟧.opened store) ≡ None) × Represents logs.kept (history_of (⟦<Checkpoint<D> as Records>⟧.opened store))) }
    ensures format { IfOk result (λ logs. IsOfFormat logs.kept) }
    ensures list { IfOk result (λ logs. ⟦<Checkpoint<D> as Records>⟧.list logs.records ≡ ⟦<Checkpoint<D> as Records>⟧.list store) }
    ensures faults { IfOk result (λ logs. ⟦<Checkpoint<D> as Records>⟧.faults logs.records ≡ ⟦<Checkpoint<D> as Records>⟧.faults store) }
    ensures bad { IfErr result (λ refused. refused.0 ≡ Stop.BadRecord → (n : ℕ) × (first_bad (⟦<Checkpoint<D> as Records>⟧.opened store) ≡ Some n)) }
    ensures bad_list { IfErr result (λ refused. list_of (D.seen refused.1) ≡ ⟦<Checkpoint<D> as Records>⟧.list store) }
    ensures bad_faults { IfErr result (λ refused. D.faults refused.1 ≡ ⟦<Checkpoint<D> as Records>⟧.faults store) }
    ensures device { IfErr result (λ refused. refused.0 ≢ Stop.Device) }
    ensures only { IfErr result (λ refused. IsOpeningStop refused.0) }
{
    match Logs::open(alloc, store) {
        Ok(logs) => Ok(logs),
        Err((fault, store)) => Err((log_stop(fault), store.close())),
    }
}

/// Writes the first so many entries of a group's log.
fn write_log<R: Records, O: Sink>(
    alloc: Global,
    logs: &Logs<R>,
    group: &GroupId,
    through: Position,
    out: &mut O,
) -> Result<(), Stop>
    requires { IsOfFormat logs.now.kept }
    ensures ends { (items : List Item) → Represents logs.now.kept items → Ends (log_ending group.now through.0 items) (O.held out.old) (O.held out.new) result }
    ensures sink { result ≡ Err Stop.Sink → Rose (O.faults out.old) (O.faults out.new) }
    ensures only { IfErr result IsWriteStop }
    ensures count { O.faults out.old ≤ O.faults out.new }
{
    match write(alloc, logs, group, through, out) {
        Ok(()) => Ok(()),
        Err(fault) => Err(Stop::from(fault)),
    }
}

/// Writes a backup of a group, the first so many entries of its log on a device, which is handed back as it was.
pub fn back_up<O: Sink, D: Disk>(
    alloc: Global,
    group: &GroupId,
    through: Position,
    out: &mut O,
    log: D,
) -> (Result<(), Stop>, D)
    ensures ends { (records : List (List ℕ)) × AreHeld D.is_told (D.seen log) records × Ends (records_ending group.now through.0 (first_bad records) (history_of records)) (O.held out.old) (O.held out.new) result.0 }
    ensures kept { D.is_told ≡ true → is_cut (end_status result.0) ≡ false → list_of (D.seen result.1) ≡ list_of (D.seen log) }
    ensures sink { result.0 ≡ Err Stop.Sink → Rose (O.faults out.old) (O.faults out.new) }
    ensures device { result.0 ≡ Err Stop.Device → Rose (D.faults log) (D.faults result.1) }
    ensures only { IfErr result.0 IsLogStop }
    ensures outs { O.faults out.old ≤ O.faults out.new }
    ensures devices { D.faults log ≤ D.faults result.1 }
{
    match open(alloc, log) {
        Ok(logs) => {
            let ended = write_log(alloc, &logs, group, through, out);
            let store = logs.close();
            (ended, store.close())
        }
        Err((stop, log)) => (Err(stop), log),
    }
}
