//! What is left behind values, cells and rows.
ghost use Rattle.std.specs.Prelude.{◌≤◌};
ghost use Rattle.std.specs.List.{flat_map};
ghost use Rattle.mega_base.specs.Values.{Ascends, IsCellIn, cell_text};
ghost use Rattle.mega_well_formed.specs.Room.{Leaves};

use crate::formed::{Formed, room_behind_list};
use crate::names::{room_behind_string, room_behind_text};
use mega_base::{Cell, Row, Value};

impl Formed for Value {
    #[tactic(auto, using(mega_base::specs::Digits::length_number_text))]
    fn room_behind(&self, room: usize) -> Option<usize> {
        match self {
            Value::Int32(number) => {
                let _number = *number;
                room.checked_sub(5)
            }
            Value::Int64(number) => {
                let _number = *number;
                room.checked_sub(9)
            }
            Value::Bool(_) => room.checked_sub(2),
            Value::Str(text) => match room.checked_sub(1) {
                Some(left) => room_behind_text(text, 0, 65_536, left),
                None => None,
            },
            Value::Raw(bytes) => match room.checked_sub(1) {
                Some(left) => room_behind_string(bytes.as_slice(), left),
                None => None,
            },
        }
    }
}

/// What is left behind a cell whose number is `low` or more.
fn room_behind_cell(cell: &Cell, low: u16, room: usize) -> Option<usize>
    ensures { Leaves (IsCellIn low 255 cell.now) (cell_text cell.now) room result }
{
    if u16::from(cell.property) < low {
        return None;
    }
    match room.checked_sub(1) {
        Some(left) => room_behind_list(&cell.values, 1, left),
        None => None,
    }
}

/// What is left behind cells whose numbers rise.
fn room_behind_cells(cells: &[Cell], room: usize) -> Option<usize>
    ensures { Leaves (Ascends 0 cells.now) (flat_map cell_text cells.now) room result }
{
    let mut low = 0u16;
    let mut left = room;
    for cell in cells {
        match room_behind_cell(cell, low, left) {
            Some(less) => {
                low = u16::from(cell.property) + 1;
                left = less;
            }
            None => return None,
        }
    }
    Some(left)
}

impl Formed for Row {
    fn room_behind(&self, room: usize) -> Option<usize> {
        if 255 < self.cells.len() {
            return None;
        }
        match room.checked_sub(1) {
            Some(left) => room_behind_cells(self.cells.as_slice(), left),
            None => None,
        }
    }
}
