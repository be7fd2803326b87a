//! The puts that bring rows back, one for each row that fits a table of the group.
ghost use Rattle.std.specs.Prelude.{◌≡◌, ◌++◌, ◌∷◌, [], IfOk, OnOk, OnErr, Some, Err, false};
ghost use Rattle.mega_outcome.specs.Answers.{is_outside};
ghost use Rattle.mega_backup.specs.Faults.{GivesOrKey};
ghost use Rattle.mega_backup.specs.Restoring.{Adds, AddsPut, is_large, is_large_turn, puts_of};

use crate::fault::BackupFault;
use crate::rows::Rows;
use mega_backup_rows::put_in;
use mega_base::{Bytes, Copied, GroupId, NoMemory, Position, Row};
use mega_disk::MemVersions;
use mega_outcome::{Transaction, Turn, run};
use mega_schema::Schema;
use std::alloc::Global;

/// Whether a put was refused as too large. A refusal that tells of the store says nothing, and a store in memory has none.
fn is_too_large(turn: Turn) -> Result<bool, NoMemory>
    ensures inside { IfOk result (λ large. is_outside turn ≡ false) }
    ensures exact { IfOk result (λ large. large ≡ is_large_turn (Err turn)) }
{
    match turn {
        Turn::TooLarge { .. } => Ok(true),
        Turn::OtherGroup { .. }
        | Turn::BadRow { .. }
        | Turn::CheckFailed { .. }
        | Turn::NoRow { .. }
        | Turn::Overflow { .. } => Ok(false),
        Turn::DiskFault | Turn::Full { .. } | Turn::BadRecord { .. } | Turn::NoMemory => {
            Err(NoMemory)
        }
    }
}

/// Whether a put alone on an empty group is refused as too large.
fn is_large(alloc: Global, schema: &Schema, txn: &Transaction) -> Result<bool, NoMemory>
    ensures { IfOk result (λ large. large ≡ is_large schema.now txn.now) }
{
    let mut rows = MemVersions::new(alloc);
    match run(alloc, schema, txn, &mut rows, Position(0)) {
        Ok(_) => Ok(false),
        Err(turn) => {
            let large = is_too_large(turn)?;
            Ok(large)
        }
    }
}

/// Puts a transaction behind the others.
fn push(txns: &mut Vec<Transaction>, txn: Transaction) -> Result<(), BackupFault>
    ensures ok { OnOk result (txns.new.items ≡ txns.old.items ++ txn ∷ []) }
    ensures memory { OnErr result (result ≡ Err BackupFault.NoMemory) }
{
    match txns.push(txn) {
        Ok(()) => Ok(()),
        Err(_) => Err(BackupFault::NoMemory),
    }
}

/// Adds a put; `TooLarge` where it is too large.
fn add(
    alloc: Global,
    schema: &Schema,
    key: &Bytes,
    txn: Transaction,
    txns: &mut Vec<Transaction>,
) -> Result<(), BackupFault>
    ensures { AddsPut schema.now key.now (Some txn) txns.old.items txns.new.items result }
{
    match is_large(alloc, schema, &txn) {
        Ok(false) => push(txns, txn),
        Ok(true) => {
            drop(txn);
            let key = key.copy(alloc)?;
            Err(BackupFault::TooLarge { key })
        }
        Err(NoMemory) => {
            drop(txn);
            Err(BackupFault::NoMemory)
        }
    }
}

/// Adds the put of a row, if there is one; `TooLarge` where it is too large.
fn add_put(
    alloc: Global,
    schema: &Schema,
    group: &GroupId,
    key: &Bytes,
    row: &Row,
    txns: &mut Vec<Transaction>,
) -> Result<(), BackupFault>
    ensures { Adds schema.now group.now key.now row.now txns.old.items txns.new.items result }
{
    match put_in(alloc, schema, group, key, row)? {
        Some(txn) => add(alloc, schema, key, txn, txns),
        None => Ok(()),
    }
}

/// The puts of rows, in order of key. `TooLarge` comes exactly with the first key whose put is too large.
pub fn puts_of(
    alloc: Global,
    schema: &Schema,
    group: &GroupId,
    rows: &Rows,
) -> Result<Vec<Transaction>, BackupFault>
    ensures { GivesOrKey (λ txns. txns.items) result (puts_of schema.now group.now rows.now.entries) }
{
    let mut txns = Vec::new(alloc);
    for (key, row) in rows {
        add_put(alloc, schema, group, key, row, &mut txns)?;
    }
    Ok(txns)
}
