//! The cells and values of a row, and rows made of some of its properties.
ghost use Rattle.std.specs.Prelude.{◌≡◌, ◌==◌, [], ◌∷◌, ◌++◌, if◌then◌else◌, find, IfOk, OnOk};
ghost use Rattle.mega_base.specs.declared.values.Cell.{Cell};
ghost use Rattle.std.specs.Option.{option_copied};
ghost use Rattle.mega_row_writes.specs.Rows.{row_under};
ghost use Rattle.mega_index.specs.Cells.{values_of, cell_set, row_set, key_values, is_listed, row_with};

use mega_base::{Bytes, Cell, Copied, Items, NoMemory, Row, Value};
use std::alloc::Global;

/// The row's cell of the property with this number.
pub fn cell_of(row: &Row, property: usize) -> Option<&Cell>
    ensures { option_copied result ≡ find (λ (c : Cell). c.property == property) row.now.cells }
{
    row.cells
        .as_slice()
        .iter()
        .find(|cell| usize::from(cell.property) == property)
}

/// The values of the property with this number, none where the row has none.
pub fn values_of(row: &Row, property: u8) -> &[Value]
    ensures { result.now ≡ values_of row.now property }
{
    values_at(row, usize::from(property))
}

/// The same for any number.
pub fn values_at(row: &Row, property: usize) -> &[Value]
    ensures { result.now ≡ values_of row.now property }
{
    match cell_of(row, property) {
        Some(cell) => cell.values.as_slice(),
        None => &[],
    }
}

/// The row under a key, in rows that are in order of key.
pub fn row_under<'a>(rows: &'a [(Bytes, Row)], key: &[u8]) -> Option<&'a Row>
    ensures { option_copied result ≡ row_under rows.now key.now }
{
    for one in rows {
        if key.cmp(one.0.as_slice()).is_eq() {
            return Some(&one.1);
        }
    }
    None
}

/// A list of this one value.
fn one_value(alloc: Global, value: &Value) -> Result<Items<Value>, NoMemory>
    ensures { IfOk result (λ values. values ≡ value.now ∷ []) }
{
    let mut values = Items::new(alloc);
    values.push(value.copy(alloc)?)?;
    Ok(values)
}

/// A copy of the cell, or the property's new cell with this one value.
fn cell_set(alloc: Global, cell: &Cell, property: u8, value: &Value) -> Result<Cell, NoMemory>
    ensures { IfOk result (λ made. made ≡ cell_set property value.now cell.now) }
{
    if cell.property != property {
        return cell.copy(alloc);
    }
    let values = one_value(alloc, value)?;
    Ok(Cell { property, values })
}

/// A copy of the row, with this one value of a property that it has.
pub fn row_set(alloc: Global, row: &Row, property: u8, value: &Value) -> Result<Row, NoMemory>
    ensures { IfOk result (λ made. made ≡ row_set row.now property value.now) }
{
    let mut cells = Items::new(alloc);
    for cell in row.cells.as_slice() {
        cells.push(cell_set(alloc, cell, property, value)?)?;
    }
    Row::new(alloc, cells)
}

/// The values of the properties of a key, up to the first property that has not exactly one.
pub fn key_values(alloc: Global, numbers: &[u8], row: &Row) -> Result<Vec<Value>, NoMemory>
    ensures { IfOk result (λ key. key.items ≡ key_values numbers.now row.now) }
{
    let mut key = Vec::new(alloc);
    for number in numbers {
        match values_of(row, *number) {
            [value] => key.push(value.copy(alloc)?)?,
            _ => return Ok(key),
        }
    }
    Ok(key)
}

fn is_listed(numbers: &[u8], number: u8) -> bool
    ensures { result ≡ is_listed numbers.now number }
{
    numbers.iter().any(|listed| *listed == number)
}

fn push_listed(
    alloc: Global,
    cells: &mut Items<Cell>,
    numbers: &[u8],
    cell: &Cell,
) -> Result<(), NoMemory>
    ensures { OnOk result (cells.new ≡ cells.old ++ (if is_listed numbers.now cell.now.property then cell.now ∷ [] else [])) }
{
    if is_listed(numbers, cell.property) {
        cells.push(cell.copy(alloc)?)?;
    }
    Ok(())
}

/// The row of these properties alone.
pub fn row_with(alloc: Global, numbers: &[u8], row: &Row) -> Result<Row, NoMemory>
    ensures { IfOk result (λ made. made ≡ row_with numbers.now row.now) }
{
    let mut cells = Items::new(alloc);
    for cell in row.cells.as_slice() {
        push_listed(alloc, &mut cells, numbers, cell)?;
    }
    Row::new(alloc, cells)
}
