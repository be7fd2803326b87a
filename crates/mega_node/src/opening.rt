//! The logs that a log device holds.
ghost use Rattle.std.specs.Prelude.{◌≡◌, ◌≤◌, ◌⊎◌, ℕ, List, [], Some, true, IfErr, IfOk};
ghost use Rattle.mega_base.specs.Causes.{Rose};
ghost use Rattle.mega_checkpoint.specs.Format.{list_of};
ghost use Rattle.mega_wal.specs.Records.{first_bad};
ghost use Rattle.mega_node.specs.Logs.{AreOpened};
ghost use Rattle.mega_node.specs.Stops.{IsOpeningStop};

use crate::stop::Stop;
use mega_checkpoint::Checkpoint;
use mega_disk::{Disk, RecordError, Records};
use mega_voter::Voter;
use mega_wal::{LogFault, Logs};
use std::alloc::Global;

/// Why a log device was not opened.
fn device_stop(error: RecordError) -> Stop
    ensures device { result ≡ Stop.Device → error ≡ RecordError.DiskFault }
    ensures only { (result ≡ Stop.Device) ⊎ (result ≡ Stop.NoMemory) }
{
    match error {
        RecordError::DiskFault => Stop::Device,
        _ => Stop::NoMemory,
    }
}

/// Why logs were not opened.
fn logs_stop(fault: LogFault) -> Stop
    ensures bad { (n : ℕ) → result ≡ Stop.BadRecord n → fault ≡ LogFault.BadRecord n }
    ensures only { (result ≡ Stop.NoMemory) ⊎ ((n : ℕ) × (result ≡ Stop.BadRecord n)) }
{
    match fault {
        LogFault::BadRecord { number } => Stop::BadRecord { number },
        _ => Stop::NoMemory,
    }
}

/// Opens the logs that a device holds. A refusal hands the device back.
pub(crate) fn open_logs<D: Disk + Drop>(
    alloc: Global,
    log: D,
) -> Result<Voter<Checkpoint<D>>, (Stop, D)>
    ensures opened { IfOk result (λ voter. (found : List (List ℕ)) × AreOpened D.Disk ⟦<Checkpoint<D> as Records>⟧ log voter.logs.kept voter.logs.records found) }
    ensures staged { IfOk result (λ voter. voter.logs.staged.items ≡ []) }
    ensures device { IfErr result (λ refused. refused.0 ≡ Stop.Device → Rose (D.faults log) (D.faults refused.1)) }
    ensures bad { IfErr result (λ refused. (n : ℕ) → refused.0 ≡ Stop.BadRecord n → D.is_told ≡ true → first_bad (list_of (D.seen log)) ≡ Some n) }
    ensures only { IfErr result (λ refused. IsOpeningStop refused.0) }
    ensures later { IfErr result (λ refused. D.faults log ≤ D.faults refused.1) }
{
    let store = match Checkpoint::open(alloc, log) {
        Ok(store) => store,
        Err((error, log)) => return Err((device_stop(error), log)),
    };
    match Logs::open(alloc, store) {
        Ok(logs) => Ok(Voter::new(logs)),
        Err((fault, store)) => Err((logs_stop(fault), store.close())),
    }
}
