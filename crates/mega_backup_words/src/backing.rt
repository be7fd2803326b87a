//! The word `backup`: the first entries of a group's log, as a node's device holds it.
ghost use Rattle.std.specs.Prelude.{◌≡◌, ◌≤◌, Err, IfErr, true, false};
ghost use Rattle.std.specs.Io.KnownBytes.{Appends};
ghost use Rattle.mega_base.specs.Causes.{Rose};
ghost use Rattle.mega_io.specs.Pieces.{AppendsFront};
ghost use Rattle.mega_checkpoint.specs.Format.{list_of};
ghost use Rattle.mega_backup_words.specs.Backing.{BacksUp};
ghost use Rattle.mega_backup_words.specs.Endings.{Ends, end_status, is_cut};
ghost use Rattle.mega_backup_words.specs.Stops.{IsBackupStatus, IsBackupStop};

use crate::ending::finish;
use crate::header::read_header;
use crate::logs::back_up;
use crate::stop::Stop;
use mega_base::{GroupId, Position};
use mega_disk::Disk;
use mega_io::{Sink, Source};
use std::alloc::Global;

/// How a backup ended: the status, and the device of the log.
#[derive(Drop)]
pub struct Outcome<D: Disk> {
    pub status: u8,
    pub log: D,
}

/// Writes a backup of a group through a position, from the log on a node's device, where no start is counted. The input is a header
/// of at least as many nodes as the node's number. The status is 0 where the backup was written; 3 where the header breaks a rule, 13
/// where fewer entries are decided, and then one line that says so is the whole output; 16 where a record of the log is none; 5, 6
/// and 7 where the source, the sink or the device failed; 8 for want of memory. A front of the output was written in each case.
pub fn run_backup<I: Source, O: Sink, D: Disk>(
    alloc: Global,
    number: u8,
    group: &GroupId,
    through: Position,
    input: &mut I,
    out: &mut O,
    log: D,
) -> Outcome<D>
    ensures whole { is_cut result.status ≡ false → BacksUp group.now through.0 number (I.left input.old) D.is_told (D.seen log) (λ ending. (result.status ≡ ending.status) × Appends (O.held out.old) (O.held out.new) ending.text) }
    ensures front { BacksUp group.now through.0 number (I.left input.old) D.is_told (D.seen log) (λ ending. AppendsFront (O.held out.old) (O.held out.new) ending.text) }
    ensures kept { D.is_told ≡ true → is_cut result.status ≡ false → list_of (D.seen result.log) ≡ list_of (D.seen log) }
    ensures source { result.status ≡ 5 → Rose (I.faults input.old) (I.faults input.new) }
    ensures sink { result.status ≡ 6 → Rose (O.faults out.old) (O.faults out.new) }
    ensures device { result.status ≡ 7 → Rose (D.faults log) (D.faults result.log) }
    ensures only { IsBackupStatus result.status }
    ensures inputs { I.faults input.old ≤ I.faults input.new }
    ensures outs { O.faults out.old ≤ O.faults out.new }
    ensures devices { D.faults log ≤ D.faults result.log }
{
    let (ended, log) = back_up_behind(alloc, number, group, through, input, out, log);
    let status = finish(alloc, ended, out);
    Outcome { status, log }
}

/// Writes a backup behind a header, up to the last line that tells of a stop.
fn back_up_behind<I: Source, O: Sink, D: Disk>(
    alloc: Global,
    number: u8,
    group: &GroupId,
    through: Position,
    input: &mut I,
    out: &mut O,
    log: D,
) -> (Result<(), Stop>, D)
    ensures ends { BacksUp group.now through.0 number (I.left input.old) D.is_told (D.seen log) (λ ending. Ends ending (O.held out.old) (O.held out.new) result.0) }
    ensures kept { D.is_told ≡ true → is_cut (end_status result.0) ≡ false → list_of (D.seen result.1) ≡ list_of (D.seen log) }
    ensures source { result.0 ≡ Err Stop.Source → Rose (I.faults input.old) (I.faults input.new) }
    ensures sink { result.0 ≡ Err Stop.Sink → Rose (O.faults out.old) (O.faults out.new) }
    ensures device { result.0 ≡ Err Stop.Device → Rose (D.faults log) (D.faults result.1) }
    ensures only { IfErr result.0 IsBackupStop }
    ensures inputs { I.faults input.old ≤ I.faults input.new }
    ensures outs { O.faults out.old ≤ O.faults out.new }
    ensures devices { D.faults log ≤ D.faults result.1 }
{
    match read_header(alloc, number, input) {
        Ok(()) => back_up(alloc, group, through, out, log),
        Err(stop) => (Err(stop), log),
    }
}
