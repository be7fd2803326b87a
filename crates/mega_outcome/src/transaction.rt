//! A transaction on one entity group: its checks, reads, writes and sends.
use mega_base::{Copied, GroupId, Items, NoMemory, Row, Value};
use mega_index::mega_entry::Send;
use std::alloc::Global;

/// A row, by its table's number and the values of its whole primary key.
#[derive(PartialEq, Debug, Drop)]
pub struct RowRef {
    pub table: u8,
    pub key: Items<Value>,
}

/// What a transaction wants to be so before it writes: a row is there, is not there, or has these
/// values of a property.
#[derive(PartialEq, Debug, Drop)]
pub enum Check {
    There(RowRef),
    Gone(RowRef),
    Is(RowRef, u8, Items<Value>),
}

/// A write of a transaction: a row put in place, a row deleted, or a number added to a property.
#[derive(PartialEq, Debug, Drop)]
pub enum Change {
    Put(u8, Row),
    Delete(RowRef),
    Add(RowRef, u8, i64),
}

/// A transaction on one entity group. Its items are numbered from 0 through checks, reads, writes
/// and sends.
#[derive(PartialEq, Debug, Drop)]
pub struct Transaction {
    pub group: GroupId,
    pub checks: Items<Check>,
    pub reads: Items<RowRef>,
    pub writes: Items<Change>,
    pub sends: Items<Send>,
}

impl Copied for RowRef {
    fn copy(&self, alloc: Global) -> Result<RowRef, NoMemory> {
        let key = self.key.copy(alloc)?;
        Ok(RowRef {
            table: self.table,
            key,
        })
    }
}

impl Copied for Check {
    fn copy(&self, alloc: Global) -> Result<Check, NoMemory> {
        match self {
            Check::There(row) => Ok(Check::There(row.copy(alloc)?)),
            Check::Gone(row) => Ok(Check::Gone(row.copy(alloc)?)),
            Check::Is(row, property, values) => {
                let row = row.copy(alloc)?;
                Ok(Check::Is(row, *property, values.copy(alloc)?))
            }
        }
    }
}

impl Copied for Change {
    fn copy(&self, alloc: Global) -> Result<Change, NoMemory> {
        match self {
            Change::Put(table, row) => Ok(Change::Put(*table, row.copy(alloc)?)),
            Change::Delete(row) => Ok(Change::Delete(row.copy(alloc)?)),
            Change::Add(row, property, by) => Ok(Change::Add(row.copy(alloc)?, *property, *by)),
        }
    }
}

impl Copied for Transaction {
    fn copy(&self, alloc: Global) -> Result<Transaction, NoMemory> {
        let group = self.group.copy(alloc)?;
        let checks = self.checks.copy(alloc)?;
        let reads = self.reads.copy(alloc)?;
        let writes = self.writes.copy(alloc)?;
        let sends = self.sends.copy(alloc)?;
        Ok(Transaction {
            group,
            checks,
            reads,
            writes,
            sends,
        })
    }
}
