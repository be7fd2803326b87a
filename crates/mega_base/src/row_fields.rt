//! The formats of a cell and of a row, whose cell numbers rise.
ghost use Rattle.std.specs.Prelude.{◌≤◌, ◌+◌};
ghost use Rattle.mega_base.specs.Faults.{Reads};
ghost use Rattle.mega_base.specs.Values.{cell_in, cells_at};

use crate::bytes::Bytes;
use crate::copied::NoMemory;
use crate::cursor::Cursor;
use crate::fault::FieldFault;
use crate::field::Field;
use crate::items::Items;
use crate::list_fields::{put_items, put_list, take_list};
use crate::values::{Cell, Row};
use crate::writers::put_u8;
use std::alloc::Global;

/// A number, and values, at least one.
impl Field for Cell {
    ghost use Rattle.mega_base.specs.Codec.{IsText};
    ghost use Rattle.mega_base.specs.Values.{cell_in, cell_text, IsCellIn};
    ghost use Rattle.mega_base.specs.NameLaws.{own_text};
    ghost use Rattle.mega_base.specs.ValueLaws.{any_cell_codec};

    ghost reads = { cell_in 0 255 };

    ghost spells = { cell_text };

    ghost opens = { IsText cell_text (IsCellIn 0 255) };

    ghost fits = { IsCellIn 0 255 };

    fn take(alloc: Global, cursor: &mut Cursor<'_>) -> Result<Cell, FieldFault> {
        take_cell(alloc, cursor, 0, 255)
    }

    #[tactic(auto, using(crate::proofs::Keeps::keeps_front))]
    fn put(&self, out: &mut Bytes) -> Result<(), NoMemory> {
        put_u8(out, self.property)?;
        put_list(&self.values, out)
    }

    ghost codec = { any_cell_codec };

    ghost opens_own = { own_text cell_text (IsCellIn 0 255) };
}

/// At most 255 cells, whose numbers rise.
impl Field for Row {
    ghost use Rattle.mega_base.specs.Codec.{IsText};
    ghost use Rattle.mega_base.specs.Values.{row_at, row_text, IsRow};
    ghost use Rattle.mega_base.specs.NameLaws.{own_text};
    ghost use Rattle.mega_base.specs.ValueLaws.{row_codec};

    ghost reads = { row_at };

    ghost spells = { row_text };

    ghost opens = { IsText row_text IsRow };

    ghost fits = { IsRow };

    #[tactic(auto, unfolding(crate::specs::Values::row_at))]
    fn take(alloc: Global, cursor: &mut Cursor<'_>) -> Result<Row, FieldFault> {
        let count = cursor.take_u8_between(0, u8::MAX)?;
        let cells = take_cells(alloc, cursor, count)?;
        Ok(Row::new(alloc, cells)?)
    }

    #[tactic(auto, using(crate::proofs::Keeps::keeps_front, crate::specs::ValueLaws::rising_each))]
    fn put(&self, out: &mut Bytes) -> Result<(), NoMemory> {
        put_u8(out, self.cells.len() as u8)?;
        put_items(self.cells.as_slice(), out)
    }

    ghost codec = { row_codec };

    ghost opens_own = { own_text row_text IsRow };
}

/// A cell with a number from `low` to `high`.
#[tactic(auto, unfolding(crate::specs::Values::cell_in))]
fn take_cell(alloc: Global, cursor: &mut Cursor<'_>, low: u8, high: u8) -> Result<Cell, FieldFault>
    ensures { Reads result cursor.new (cell_in low high cursor.old) }
{
    let property = cursor.take_u8_between(low, high)?;
    let values = take_list(alloc, cursor, 1, u32::MAX)?;
    Ok(Cell { property, values })
}

/// `count` cells whose numbers rise.
fn take_cells(alloc: Global, cursor: &mut Cursor<'_>, count: u8) -> Result<Items<Cell>, FieldFault>
    ensures { Reads result cursor.new (cells_at count 0 cursor.old) }
{
    let mut cells = Items::new(alloc);
    let mut low = 0u16;
    for done in 0..count {
        let following = count - 1 - done;
        match take_cell(alloc, cursor, low as u8, 255 - following) {
            Ok(cell) => {
                low = u16::from(cell.property) + 1;
                cells.push(cell)?;
            }
            Err(fault) => return Err(fault),
        }
    }
    Ok(cells)
}
