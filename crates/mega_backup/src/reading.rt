//! Reads the lines of a backup.
ghost use Rattle.std.specs.Prelude.{◌≡◌, Some, IfOk, length, take};
ghost use Rattle.mega_backup.specs.Faults.{Reads};
ghost use Rattle.mega_backup.specs.Lines.{backup_in, behind_head, counted, entries_from, entry_in, entry_of};

use crate::fault::BackupFault;
use crate::heads::{Head, head_in};
use crate::words::{behind, hex_in};
use mega_base::{Bytes, FieldFault, GroupId, Items, NoMemory};
use mega_entry::{Entry, decode};
use std::alloc::Global;

/// A group, and the first entries of its log.
#[derive(Drop)]
pub struct Backup {
    pub group: GroupId,
    pub entries: Items<Entry>,
}

/// The entry whose text this is.
fn entry_of(alloc: Global, bytes: &[u8]) -> Result<Option<Entry>, NoMemory>
    ensures { IfOk result (λ entry. entry ≡ entry_of bytes.now) }
{
    match decode(alloc, bytes) {
        Ok(entry) => Ok(Some(entry)),
        Err(FieldFault::Malformed { .. }) => Ok(None),
        Err(FieldFault::NoMemory) => Err(NoMemory),
    }
}

/// The entry that a line is.
fn entry_in(alloc: Global, line: &[u8]) -> Result<Option<Entry>, NoMemory>
    ensures { IfOk result (λ entry. entry ≡ entry_in line.now) }
{
    let Some(digits) = behind(b"entry ", line) else {
        return Ok(None);
    };
    match hex_in(alloc, digits)? {
        Some(bytes) => entry_of(alloc, bytes.as_slice()),
        None => Ok(None),
    }
}

/// The entries that lines are, the first of which has the number 2.
fn entries_of(alloc: Global, lines: &[Bytes]) -> Result<Items<Entry>, BackupFault>
    ensures { Reads result (entries_from 2 lines.now) }
{
    let mut entries = Items::new(alloc);
    let mut number = 2;
    for line in lines {
        match entry_in(alloc, line.as_slice())? {
            Some(entry) => entries.push(entry)?,
            None => return Err(BackupFault::Malformed { line: number }),
        }
        number += 1;
    }
    Ok(entries)
}

/// The first so many lines, or all where these are fewer.
fn first(lines: &[Bytes], count: u64) -> &[Bytes]
    ensures { result.now ≡ take count lines.now }
{
    if lines.len() as u64 <= count {
        return lines;
    }
    lines.split_at(count as usize).0
}

/// Exactly so many entries.
fn counted(alloc: Global, count: u64, lines: &[Bytes]) -> Result<Items<Entry>, BackupFault>
    ensures { Reads result (counted count (length lines.now) (entries_from 2 (take count lines.now))) }
{
    let entries = entries_of(alloc, first(lines, count))?;
    let have = lines.len() as u64;
    if have == count {
        return Ok(entries);
    }
    let last = if count < have { count } else { have };
    Err(BackupFault::Malformed { line: last + 2 })
}

/// The entries behind a head.
fn behind_head(alloc: Global, head: Head, lines: &[Bytes]) -> Result<Backup, BackupFault>
    ensures { Reads result (behind_head (Some head) lines.now) }
{
    let Head { group, count } = head;
    let entries = counted(alloc, count, lines)?;
    Ok(Backup { group, entries })
}

/// The backup that lines are, of which the head is the first: `Malformed` at the first line that is none of it, or behind the
/// last line where one is missing.
pub fn backup_in(alloc: Global, lines: &[Bytes]) -> Result<Backup, BackupFault>
    ensures { Reads result (backup_in lines.now) }
{
    match lines {
        [] => Err(BackupFault::Malformed { line: 1 }),
        [line, lines @ ..] => match head_in(alloc, line.as_slice())? {
            Some(head) => behind_head(alloc, head, lines),
            None => Err(BackupFault::Malformed { line: 1 }),
        },
    }
}
