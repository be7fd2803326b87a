//! The backup that the words ask for, from the log among a node's devices.
ghost use Rattle.std.specs.Prelude.{◌≡◌, ◌≤◌};
ghost use Rattle.mega_backup_words.specs.Stops.{IsBackupStatus};
ghost use Rattle.mega_base.specs.Causes.{Rose};
ghost use Rattle.mega_replay.specs.Run.{HasBackedUp};

use crate::ended::Ended;
use mega_backup_words::run_backup;
use mega_base::{GroupId, Position};
use mega_disk::{Disk, Pair};
use mega_io::{Sink, Source};
use std::alloc::Global;

/// Writes the backup of a group through a position, and gives the status with which the program then ends.
pub fn back_up<I: Source, O: Sink, D: Disk + Drop>(
    alloc: Global,
    number: u8,
    group: &GroupId,
    through: Position,
    input: &mut I,
    out: &mut O,
    devices: Pair<D>,
) -> Ended<D>
    ensures backup { HasBackedUp D.Disk number group.now through.0 (I.left input.old) devices result.devices (O.held out.old) (O.held out.new) result.status }
    ensures source { result.status ≡ 5 → Rose (I.faults input.old) (I.faults input.new) }
    ensures sink { result.status ≡ 6 → Rose (O.faults out.old) (O.faults out.new) }
    ensures only { IsBackupStatus result.status }
    ensures inputs { I.faults input.old ≤ I.faults input.new }
    ensures outs { O.faults out.old ≤ O.faults out.new }
{
    let Pair { log, runs } = devices;
    let outcome = run_backup(alloc, number, group, through, input, out, log);
    Ended {
        status: outcome.status,
        devices: Some(Pair {
            log: outcome.log,
            runs,
        }),
    }
}
