//! Writes a backup: the first entries of a group's decided log, each as a line.
ghost use Rattle.std.specs.Prelude.{◌≡◌, ◌≤◌, ◌<◌, ◌++◌, List, Err, take, IfOk, OnOk, OnErr, IfErr};
ghost use Rattle.std.specs.Io.KnownBytes.{Appends, Keeps};
ghost use Rattle.hex.specs.Hex.{encode_lower};
ghost use Rattle.mega_base.specs.Causes.{Rose};
ghost use Rattle.mega_base.specs.declared.names.Position.{Position as At};
ghost use Rattle.mega_io.specs.Pieces.{AppendsFront};
ghost use Rattle.mega_entry.specs.Entries.{IsEntry};
ghost use Rattle.mega_wal.specs.declared.item.JournalItem.{JournalItem as Item};
ghost use Rattle.mega_wal.specs.Compaction.{IsOfFormat};
ghost use Rattle.mega_wal.specs.History.{decided_of, prefix_of};
ghost use Rattle.mega_wal.specs.Kept.{Represents};
ghost use Rattle.mega_replica.specs.Stored.{entries_from, log_in};
ghost use Rattle.mega_backup.specs.Faults.{IsShortOrStop, IsStop};
ghost use Rattle.mega_backup.specs.Texts.{backup_text, entries_text, entry_line, head_line};

use crate::fault::BackupFault;
use itoa::Buffer;
use mega_backup_rows::entry_behind;
use mega_base::{Bytes, GroupId, NoMemory, Position};
use mega_disk::Records;
use mega_entry::{Entry, encode};
use mega_io::{Sink, SinkError, put};
use mega_wal::Logs;
use std::alloc::Global;

/// Appends bytes in hex.
fn put_hex(alloc: Global, out: &mut Bytes, bytes: &[u8]) -> Result<(), NoMemory>
    ensures { OnOk result (out.new ≡ out.old ++ encode_lower bytes.now) }
{
    let text = hex::encode(alloc, bytes)?;
    out.extend_from_slice(text.as_bytes())
}

/// The head of a backup of so many entries.
fn head_line(alloc: Global, group: &GroupId, count: u64) -> Result<Bytes, NoMemory>
    ensures { IfOk result (λ line. line ≡ head_line group.now count) }
{
    let mut line = Bytes::from_slice(alloc, b"backup ")?;
    put_hex(alloc, &mut line, group.key.as_slice())?;
    line.push(b' ')?;
    let mut buffer = Buffer::new();
    line.extend_from_slice(buffer.format(count).as_bytes())?;
    line.push(b'\n')?;
    Ok(line)
}

/// The line of an entry.
fn entry_line(alloc: Global, entry: &Entry) -> Result<Bytes, NoMemory>
    requires { IsEntry entry.now }
    ensures { IfOk result (λ line. line ≡ entry_line entry.now) }
{
    let mut text = Bytes::new(alloc);
    encode(entry, &mut text)?;
    let mut line = Bytes::from_slice(alloc, b"entry ")?;
    put_hex(alloc, &mut line, text.as_slice())?;
    line.push(b'\n')?;
    Ok(line)
}

/// Writes a line to the sink; after a refusal a front of it is there.
fn put_line<O: Sink>(out: &mut O, line: &[u8]) -> Result<(), BackupFault>
    ensures ok { OnOk result (Appends (O.held out.old) (O.held out.new) line.now) }
    ensures err { OnErr result (AppendsFront (O.held out.old) (O.held out.new) line.now) }
    ensures only { IfErr result IsStop }
    ensures cause { result ≡ Err BackupFault.SinkFault → Rose (O.faults out.old) (O.faults out.new) }
    ensures count { O.faults out.old ≤ O.faults out.new }
{
    match put(out, line) {
        Ok(()) => Ok(()),
        Err(SinkError::Failed) => Err(BackupFault::SinkFault),
        Err(SinkError::NoMemory) => Err(BackupFault::NoMemory),
    }
}

/// Writes the line of an entry.
fn write_entry<O: Sink>(alloc: Global, entry: &Entry, out: &mut O) -> Result<(), BackupFault>
    requires { IsEntry entry.now }
    ensures ok { OnOk result (Appends (O.held out.old) (O.held out.new) (entry_line entry.now)) }
    ensures err { OnErr result (AppendsFront (O.held out.old) (O.held out.new) (entry_line entry.now)) }
    ensures only { IfErr result IsStop }
    ensures cause { result ≡ Err BackupFault.SinkFault → Rose (O.faults out.old) (O.faults out.new) }
    ensures count { O.faults out.old ≤ O.faults out.new }
{
    match entry_line(alloc, entry) {
        Ok(line) => put_line(out, line.as_slice()),
        Err(NoMemory) => Err(BackupFault::NoMemory),
    }
}

/// Writes the lines of the entries from position 1 on, at most so many, up to the first position without one.
fn write_entries<R: Records, O: Sink>(
    alloc: Global,
    logs: &Logs<R>,
    group: &GroupId,
    most: u64,
    out: &mut O,
) -> Result<(), BackupFault>
    requires { IsOfFormat logs.now.kept }
    ensures ok { OnOk result ((items : List Item) → Represents logs.now.kept items →
        Appends (O.held out.old) (O.held out.new) (entries_text (entries_from (decided_of items group.now) most 1))) }
    ensures err { OnErr result ((items : List Item) → Represents logs.now.kept items →
        AppendsFront (O.held out.old) (O.held out.new) (entries_text (entries_from (decided_of items group.now) most 1))) }
    ensures only { IfErr result IsStop }
    ensures cause { result ≡ Err BackupFault.SinkFault → Rose (O.faults out.old) (O.faults out.new) }
    ensures count { O.faults out.old ≤ O.faults out.new }
{
    for n in 0..most {
        match entry_behind(logs, group, n) {
            Some(entry) => write_entry(alloc, entry, out)?,
            None => return Ok(()),
        }
    }
    Ok(())
}

/// Writes a backup of a group through a position: the first so many entries of its decided log. `Short` comes exactly where
/// fewer are decided, and then nothing is written; after any other fault the sink holds a front of the text more.
pub fn write<R: Records, O: Sink>(
    alloc: Global,
    logs: &Logs<R>,
    group: &GroupId,
    through: Position,
    out: &mut O,
) -> Result<(), BackupFault>
    requires { IsOfFormat logs.now.kept }
    ensures whole { OnOk result ((items : List Item) → Represents logs.now.kept items → (through.0 ≤ prefix_of items group.now)
        × Appends (O.held out.old) (O.held out.new) (backup_text group.now through.0 (take through.0 (log_in items group.now)))) }
    ensures short { (has : At) → result ≡ Err (BackupFault.Short has) → (items : List Item) → Represents logs.now.kept items →
        (has.0 ≡ prefix_of items group.now) × (has.0 < through.0) × Keeps (O.held out.old) (O.held out.new) }
    ensures stopped { IfErr result (λ fault. IsStop fault → (items : List Item) → Represents logs.now.kept items → (through.0 ≤ prefix_of items group.now)
        × AppendsFront (O.held out.old) (O.held out.new) (backup_text group.now through.0 (take through.0 (log_in items group.now)))) }
    ensures only { IfErr result IsShortOrStop }
    ensures cause { result ≡ Err BackupFault.SinkFault → Rose (O.faults out.old) (O.faults out.new) }
    ensures count { O.faults out.old ≤ O.faults out.new }
{
    let has = logs.prefix(group);
    if has.0 < through.0 {
        return Err(BackupFault::Short { has });
    }
    let line = head_line(alloc, group, through.0)?;
    put_line(out, line.as_slice())?;
    write_entries(alloc, logs, group, through.0, out)
}
