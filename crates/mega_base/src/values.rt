//! The values that rows hold: kinds, values, cells, rows, and the shapes of row keys.
ghost use Rattle.std.specs.Prelude.{◌≡◌, IfOk};

use crate::bytes::Bytes;
use crate::copied::{Copied, NoMemory};
use crate::items::Items;
use crate::shared::Shared;
use crate::text::Text;
use std::alloc::Global;

/// The kind of a property's values.
#[derive(Clone, Copy, PartialEq, Eq, Debug, Drop)]
pub enum Kind {
    Int32,
    Int64,
    Bool,
    Str,
    Raw,
}

/// What a node of the cluster does: a full node votes and keeps rows, a witness only votes, a
/// read-only node only keeps rows (CIDR 2011, replica types).
#[derive(Clone, Copy, PartialEq, Eq, Debug, Drop)]
pub enum NodeKind {
    Full,
    Witness,
    Read,
}

/// A value of a property.
#[derive(PartialEq, Debug, Drop)]
pub enum Value {
    Int32(i32),
    Int64(i64),
    Bool(bool),
    Str(Text),
    Raw(Bytes),
}

/// The values of one property of a row, under the property's number in its table.
#[derive(PartialEq, Debug, Drop)]
pub struct Cell {
    pub property: u8,
    pub values: Items<Value>,
}

/// A row: its properties that have values, in ascending order of number, which copies share.
#[derive(PartialEq, Debug, Drop)]
pub struct Row {
    pub cells: Shared<Items<Cell>>,
}

impl Row {
    /// The row of these cells, with no copy.
    pub fn new(alloc: Global, cells: Items<Cell>) -> Result<Row, NoMemory>
        ensures { IfOk result (λ made. made.cells ≡ cells) }
    {
        let cells = Shared::new(alloc, cells)?;
        Ok(Row { cells })
    }
}

/// How the row keys of a table are spelled: the first byte, the root's table number and the kinds of
/// its key, the table's own number and the kinds of the rest of its key, and whether two bytes that
/// scatter the groups stand before the root key.
#[derive(PartialEq, Debug, Drop)]
pub struct Shape {
    pub space: u8,
    pub root: u8,
    pub root_kinds: Items<Kind>,
    pub table: u8,
    pub rest_kinds: Items<Kind>,
    pub scatter: bool,
}

impl Copied for Kind {
    fn copy(&self, _alloc: Global) -> Result<Kind, NoMemory> {
        Ok(*self)
    }
}

impl Copied for NodeKind {
    fn copy(&self, _alloc: Global) -> Result<NodeKind, NoMemory> {
        Ok(*self)
    }
}

impl Copied for Value {
    fn copy(&self, alloc: Global) -> Result<Value, NoMemory> {
        match self {
            Value::Int32(number) => Ok(Value::Int32(*number)),
            Value::Int64(number) => Ok(Value::Int64(*number)),
            Value::Bool(truth) => Ok(Value::Bool(*truth)),
            Value::Str(text) => Ok(Value::Str(text.copy(alloc)?)),
            Value::Raw(bytes) => Ok(Value::Raw(bytes.copy(alloc)?)),
        }
    }
}

impl Copied for Cell {
    fn copy(&self, alloc: Global) -> Result<Cell, NoMemory> {
        let values = self.values.copy(alloc)?;
        Ok(Cell {
            property: self.property,
            values,
        })
    }
}

impl Copied for Row {
    fn copy(&self, alloc: Global) -> Result<Row, NoMemory> {
        let cells = self.cells.copy(alloc)?;
        Ok(Row { cells })
    }
}

impl Copied for Shape {
    fn copy(&self, alloc: Global) -> Result<Shape, NoMemory> {
        let root_kinds = self.root_kinds.copy(alloc)?;
        let rest_kinds = self.rest_kinds.copy(alloc)?;
        Ok(Shape {
            space: self.space,
            root: self.root,
            root_kinds,
            table: self.table,
            rest_kinds,
            scatter: self.scatter,
        })
    }
}
