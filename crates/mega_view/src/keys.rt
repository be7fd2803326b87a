//! Row keys of bytes, and whether one is of a table and a group.
ghost use Rattle.std.specs.Prelude.{◌≡◌, ◌++◌, ◌∷◌, [], ℕ, Some, IfOk};
ghost use Rattle.mega_keys.specs.Answers.{group_key_of};
ghost use Rattle.mega_keys.specs.Spelling.{root_part};
ghost use Rattle.mega_schema.specs.Shaping.{shape_of};
ghost use Rattle.mega_schema.specs.declared.schema.Schema.{Schema as SchemaSeen};
ghost use Rattle.mega_schema.specs.declared.schema.Table.{Table as TableSeen};
ghost use Rattle.mega_index.specs.Fits.{numbered};
ghost use Rattle.mega_index.specs.Fitted.{is_key_of};
ghost use Rattle.mega_view.specs.Keys.{AreBytes};
ghost use Rattle.mega_view.specs.Scanning.{is_in, is_it, tail_of};

use mega_base::{Bytes, GroupId, NoMemory, Shape, Value};
use mega_keys::{KeyFault, group_of, read_key};
use mega_schema::{Schema, Table};
use std::alloc::Global;

/// The bytes of a group's key.
pub(crate) fn key_of(group: &GroupId) -> &[u8]
    ensures { result.now ≡ group.now.key }
{
    group.key.as_slice()
}

/// How the keys of the table with this number are spelled.
pub fn shape_of(
    alloc: Global,
    schema: &Schema,
    number: u8,
    table: &Table,
) -> Result<Shape, NoMemory>
    requires { numbered schema.now.tables number ≡ Some table.now }
    ensures { IfOk result (λ shape. shape ≡ shape_of schema.now number table.now) }
{
    let _table = table;
    schema.shape(alloc, number)
}

/// The root key values at the front of key values.
fn root_part<'a>(shape: &Shape, values: &'a [Value]) -> &'a [Value]
    ensures { result.now ≡ root_part shape.now values.now }
{
    let count = shape.root_kinds.len();
    if values.len() <= count {
        return values;
    }
    values.split_at(count).0
}

/// Whether the root key values at the front of key values spell this group.
fn is_it(alloc: Global, shape: &Shape, group: &[u8], values: &[Value]) -> Result<bool, NoMemory>
    ensures { IfOk result (λ is. is ≡ is_it group.now (group_key_of shape.now (root_part shape.now values.now))) }
{
    match group_of(alloc, shape, root_part(shape, values)) {
        Ok(own) => Ok(own.key.as_slice().cmp(group).is_eq()),
        Err(KeyFault::NoMemory) => Err(NoMemory),
        Err(_) => Ok(false),
    }
}

/// Whether the key is a row key of the table of this shape, in the group.
pub fn is_key_of(alloc: Global, shape: &Shape, group: &[u8], key: &[u8]) -> Result<bool, NoMemory>
    ensures exact { IfOk result (λ is. (s : SchemaSeen) (n : ℕ) (t : TableSeen) → shape.now ≡ shape_of s n t → is ≡ is_key_of s n t group.now key.now) }
    ensures bytes { AreBytes key.now }
{
    match read_key(alloc, shape, key) {
        Ok(values) => is_it(alloc, shape, group, values.as_slice()),
        Err(KeyFault::NoMemory) => Err(NoMemory),
        Err(_) => Ok(false),
    }
}

/// Whether the group is one of this root.
pub fn is_in(root: u8, group: &[u8]) -> bool
    ensures { result ≡ is_in root group.now }
{
    match group {
        [byte, ..] => *byte == root,
        [] => false,
    }
}

/// What follows the first byte of a group.
pub fn tail_of(group: &[u8]) -> &[u8]
    ensures { result.now ≡ tail_of group.now }
{
    match group {
        [_, tail @ ..] => tail,
        [] => group,
    }
}

/// A first byte, these bytes, and a last one.
pub fn between(alloc: Global, first: u8, bytes: &[u8], last: u8) -> Result<Bytes, NoMemory>
    ensures { IfOk result (λ made. made ≡ (first ∷ bytes.now) ++ last ∷ []) }
{
    let mut made = Bytes::new(alloc);
    made.push(first)?;
    made.extend_from_slice(bytes)?;
    made.push(last)?;
    Ok(made)
}
