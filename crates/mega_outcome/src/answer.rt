//! What transactions, batches and operations come to: replies, refusals and answers.
use mega_base::{Copied, GroupId, Items, NoMemory, NodeKind, OpId, Position, Row, Text};
use mega_index::Found;
use mega_index::mega_entry::{Cut, Send, Write};
use std::alloc::Global;

/// A row that a read shows, with its table's number.
#[derive(PartialEq, Debug, Drop)]
pub struct Shown {
    pub table: u8,
    pub row: Row,
}

/// What a transaction comes to: one reply a read, its writes with those of local indexes, its sends.
#[derive(PartialEq, Debug, Drop)]
pub struct Done {
    pub replies: Items<Option<Shown>>,
    pub writes: Items<Write>,
    pub sends: Items<Send>,
}

/// What a batch comes to: one result a transaction, and what those that were taken write and send.
#[derive(PartialEq, Debug, Drop)]
pub struct Batch {
    pub results: Items<Result<Items<Option<Shown>>, Turn>>,
    pub writes: Items<Write>,
    pub sends: Items<Send>,
    pub cuts: Items<Cut>,
}

/// Why a transaction is turned away; `item` is the number of the first item that fails.
#[derive(Clone, Copy, PartialEq, Debug, Drop)]
pub enum Turn {
    /// Its row or key is of another group.
    OtherGroup { item: u32 },
    /// Its table, property, value, key or queue does not fit the schema.
    BadRow { item: u32 },
    /// Its check is false.
    CheckFailed { item: u32 },
    /// It deletes or adds to a row that is not there.
    NoRow { item: u32 },
    /// Its sum leaves the property's type.
    Overflow { item: u32 },
    /// The longest entry that comes of the transaction has this many bytes, more than 32,768.
    TooLarge { bytes: u64 },
    /// A device of the rows failed.
    DiskFault,
    /// A device file would have this length, more than 2^40.
    Full { length: u64 },
    /// The bytes read of this run are none of the format.
    BadRecord { number: u64 },
    NoMemory,
}

/// A position of a group.
#[derive(PartialEq, Debug, Drop)]
pub struct Mark {
    pub group: GroupId,
    pub position: Position,
}

/// How an operation ends.
#[derive(PartialEq, Debug, Drop)]
pub enum Answer {
    /// Its entry is decided at this position.
    Committed {
        position: Position,
        replies: Items<Option<Shown>>,
    },
    /// Another operation's entry, or a no-op, is decided at this position.
    Conflict {
        position: Position,
        other: Option<OpId>,
    },
    /// A transaction, read or find that does not fit or whose check is false.
    Turned(Turn),
    /// Patience ended after a message with its entry was sent.
    Unknown,
    /// Patience ended before one was sent; it is never committed.
    TimedOut,
    /// The rows that a read asked for, at this position.
    Read {
        position: Position,
        rows: Items<Option<Shown>>,
    },
    /// What a find found, at these positions.
    Found {
        marks: Items<Mark>,
        rows: Items<Found>,
    },
    /// The positions to which the global indexes were brought.
    Refreshed {
        marks: Items<Mark>,
    },
    /// The log has reached its limit at this position.
    LogFull {
        position: Position,
    },
    /// As many operations are open at the node as may be.
    Busy {
        count: u64,
    },
    /// The node has begun as many operations in this start as it can name.
    Worn,
    /// A node of this kind does not serve the operation.
    NotHere {
        kind: NodeKind,
    },
    /// No queue message waits for the pump in the groups at these positions.
    NothingToDo {
        marks: Items<Mark>,
    },
    /// The queue has no handler.
    NoHandler {
        queue: Text,
    },
    /// A batch's entry is decided at this position, with these results.
    Batched {
        position: Position,
        results: Items<Result<Items<Option<Shown>>, Turn>>,
    },
    /// Every transaction of a batch was turned away, and nothing is proposed.
    AllTurned {
        results: Items<Result<Items<Option<Shown>>, Turn>>,
    },
}

impl Copied for Shown {
    fn copy(&self, alloc: Global) -> Result<Shown, NoMemory> {
        let row = self.row.copy(alloc)?;
        Ok(Shown {
            table: self.table,
            row,
        })
    }
}

impl Copied for Mark {
    fn copy(&self, alloc: Global) -> Result<Mark, NoMemory> {
        let group = self.group.copy(alloc)?;
        Ok(Mark {
            group,
            position: self.position,
        })
    }
}
