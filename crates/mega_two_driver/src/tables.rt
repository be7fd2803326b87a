//! The tables that a schema must have: of plans, and for each root of a part those of its locks and ends.
ghost use Rattle.std.specs.Prelude.{◌≡◌, ◌++◌, IfOk, OnOk, find, Some};
ghost use Rattle.std.specs.List.{list_all, list_any};
ghost use Rattle.std.specs.Option.{option_copied, option_to_list};
ghost use Rattle.mega_index.specs.Fits.{numbered};
ghost use Rattle.mega_two_driver.specs.Tables.{are_properties, has_ends, has_locks, has_plans, has_tables, is_among, is_child_table, is_local_over, is_own_table, is_plan_table, is_property, is_required, is_root, is_table, key_properties, may_write, name_property, plan_properties, properties_at, required_property, root_has_tables, root_named, root_number, same_kind, same_names, table_is_free, table_named, with_end, with_name};

use crate::pieces::{end_table, lock_table};
use crate::words::same;
use mega_base::{Bytes, Copied, Items, Kind, NoMemory, Text};
use mega_index::{property_at, table_at};
use mega_schema::{Index, Need, Property, Schema, Table};
use std::alloc::Global;

fn same_kind(kind: Kind, other: Kind) -> bool
    ensures { result ≡ same_kind kind other }
{
    matches!(
        (kind, other),
        (Kind::Int32, Kind::Int32)
            | (Kind::Int64, Kind::Int64)
            | (Kind::Bool, Kind::Bool)
            | (Kind::Str, Kind::Str)
            | (Kind::Raw, Kind::Raw)
    )
}

fn is_required(need: Need) -> bool
    ensures { result ≡ is_required need }
{
    matches!(need, Need::Required)
}

/// A required property of this name and kind.
fn is_property(wanted: &Property, property: &Property) -> bool
    ensures { result ≡ is_property wanted.now property.now }
{
    same(property.name.as_bytes(), wanted.name.as_bytes())
        && is_required(property.need)
        && same_kind(property.kind, wanted.kind)
}

fn is_among(properties: &[Property], property: &Property) -> bool
    ensures { result ≡ is_among properties.now property.now }
{
    properties.iter().any(|other| is_property(other, property))
}

fn are_among(properties: &[Property], all: &[Property]) -> bool
    ensures { result ≡ list_all (is_among all.now) properties.now }
{
    properties.iter().all(|property| is_among(all, property))
}

/// Exactly these required properties, in any order.
fn are_properties(wanted: &[Property], properties: &[Property]) -> bool
    ensures { result ≡ are_properties wanted.now properties.now }
{
    properties.len() == wanted.len()
        && are_among(properties, wanted)
        && are_among(wanted, properties)
}

fn put_property(
    alloc: Global,
    made: &mut Items<Property>,
    property: Option<&Property>,
) -> Result<(), NoMemory>
    ensures { OnOk result (made.new ≡ made.old ++ option_to_list (option_copied property.entry)) }
{
    match property {
        Some(property) => made.push(property.copy(alloc)?),
        None => Ok(()),
    }
}

fn properties_at(
    alloc: Global,
    properties: &[Property],
    numbers: &[u8],
) -> Result<Items<Property>, NoMemory>
    ensures { IfOk result (λ made. made ≡ properties_at properties.now numbers.now) }
{
    let mut made = Items::new(alloc);
    for number in numbers {
        put_property(alloc, &mut made, property_at(properties, *number))?;
    }
    Ok(made)
}

/// The properties of a table's key, in order.
fn key_properties(alloc: Global, table: &Table) -> Result<Items<Property>, NoMemory>
    ensures { IfOk result (λ made. made ≡ key_properties table.now) }
{
    properties_at(alloc, table.properties.as_slice(), table.primary.as_slice())
}

fn same_names(properties: &[Property], others: &[Property]) -> bool
    ensures { result ≡ same_names properties.now others.now }
{
    match properties {
        [] => match others {
            [] => true,
            [..] => false,
        },
        [property, properties @ ..] => match others {
            [other, others @ ..] => {
                same(property.name.as_bytes(), other.name.as_bytes())
                    && same_names(properties, others)
            }
            [] => false,
        },
    }
}

/// A table with exactly these properties, and a key of these.
fn is_table(
    alloc: Global,
    wanted: &[Property],
    key: &[Property],
    table: &Table,
) -> Result<bool, NoMemory>
    ensures { IfOk result (λ is. is ≡ is_table wanted.now key.now table.now) }
{
    let own = key_properties(alloc, table)?;
    Ok(are_properties(wanted, table.properties.as_slice()) && same_names(own.as_slice(), key))
}

fn required_property(alloc: Global, name: &str, kind: Kind) -> Result<Property, NoMemory>
    ensures { IfOk result (λ made. made ≡ required_property name.now kind) }
{
    let name = Text::from_str(alloc, name)?;
    Ok(Property {
        name,
        need: Need::Required,
        kind,
    })
}

fn table_named<'a>(schema: &'a Schema, name: &[u8]) -> Option<&'a Table>
    ensures { option_copied result ≡ table_named schema.now name.now }
{
    schema
        .tables
        .as_slice()
        .iter()
        .find(|table| same(table.name.as_bytes(), name))
}

fn is_root(table: &Table) -> bool
    ensures { result ≡ is_root table.now }
{
    table.group.is_empty()
}

fn name_property(alloc: Global) -> Result<Property, NoMemory>
    ensures { IfOk result (λ made. made ≡ name_property) }
{
    required_property(alloc, "gid", Kind::Str)
}

fn plan_properties(alloc: Global) -> Result<Items<Property>, NoMemory>
    ensures { IfOk result (λ made. made ≡ plan_properties) }
{
    let mut made = Items::new(alloc);
    made.push(name_property(alloc)?)?;
    made.push(required_property(alloc, "state", Kind::Int32)?)?;
    made.push(required_property(alloc, "plan", Kind::Raw)?)?;
    Ok(made)
}

fn is_plan_table(alloc: Global, table: Option<&Table>) -> Result<bool, NoMemory>
    ensures { IfOk result (λ is. is ≡ is_plan_table (option_copied table.entry)) }
{
    let Some(table) = table else {
        return Ok(false);
    };
    let wanted = plan_properties(alloc)?;
    let mut key = Items::new(alloc);
    key.push(name_property(alloc)?)?;
    let is = is_table(alloc, wanted.as_slice(), key.as_slice(), table)?;
    Ok(is_root(table) && is)
}

/// Whether the schema has the table of plans.
#[tactic(auto, unfolding(crate::specs::Tables::has_plans))]
pub(crate) fn has_plans(alloc: Global, schema: &Schema) -> Result<bool, NoMemory>
    ensures { IfOk result (λ has. has ≡ has_plans schema.now) }
{
    is_plan_table(alloc, table_named(schema, b"TwoPlan"))
}

/// A child of the root with this number, with exactly these properties and a key of these.
fn is_child_table(
    alloc: Global,
    root: u8,
    wanted: &[Property],
    key: &[Property],
    table: Option<&Table>,
) -> Result<bool, NoMemory>
    ensures { IfOk result (λ is. is ≡ is_child_table root wanted.now key.now (option_copied table.entry)) }
{
    let Some(table) = table else {
        return Ok(false);
    };
    let is = is_table(alloc, wanted, key, table)?;
    Ok(!is_root(table) && table.root == root && is)
}

/// The key of a root, and the name of a change.
fn with_name(alloc: Global, key: &Items<Property>) -> Result<Items<Property>, NoMemory>
    ensures { IfOk result (λ made. made ≡ with_name key.now) }
{
    let mut made = key.copy(alloc)?;
    made.push(name_property(alloc)?)?;
    Ok(made)
}

/// That, and how the change ended.
fn with_end(alloc: Global, key: &Items<Property>) -> Result<Items<Property>, NoMemory>
    ensures { IfOk result (λ made. made ≡ with_end key.now) }
{
    let mut made = with_name(alloc, key)?;
    made.push(required_property(alloc, "commit", Kind::Bool)?)?;
    Ok(made)
}

/// Whether the schema has the table of a root's locks.
#[tactic(auto, unfolding(crate::specs::Tables::has_locks))]
fn has_locks(
    alloc: Global,
    schema: &Schema,
    number: u8,
    root: &str,
    key: &Items<Property>,
) -> Result<bool, NoMemory>
    ensures { IfOk result (λ has. has ≡ has_locks schema.now number root.now key.now) }
{
    let wanted = with_name(alloc, key)?;
    let name = lock_table(alloc, root)?;
    let table = table_named(schema, name.as_slice());
    is_child_table(alloc, number, wanted.as_slice(), key.as_slice(), table)
}

/// Whether the schema has the table of a root's ends.
#[tactic(auto, unfolding(crate::specs::Tables::has_ends))]
fn has_ends(
    alloc: Global,
    schema: &Schema,
    number: u8,
    root: &str,
    key: &Items<Property>,
) -> Result<bool, NoMemory>
    ensures { IfOk result (λ has. has ≡ has_ends schema.now number root.now key.now) }
{
    let wanted = with_end(alloc, key)?;
    let key = with_name(alloc, key)?;
    let name = end_table(alloc, root)?;
    let table = table_named(schema, name.as_slice());
    is_child_table(alloc, number, wanted.as_slice(), key.as_slice(), table)
}

fn root_has_tables(
    alloc: Global,
    schema: &Schema,
    number: u8,
    root: Option<&Table>,
) -> Result<bool, NoMemory>
    ensures { IfOk result (λ has. has ≡ root_has_tables schema.now number (option_copied root.entry)) }
{
    let Some(root) = root else {
        return Ok(false);
    };
    let key = key_properties(alloc, root)?;
    let locks = has_locks(alloc, schema, number, root.name.as_str(), &key)?;
    let ends = has_ends(alloc, schema, number, root.name.as_str(), &key)?;
    Ok(locks && ends)
}

/// The number of a group's root.
fn root_number(group: &[u8]) -> u8
    ensures { result ≡ root_number group.now }
{
    match group {
        [number, ..] => *number,
        [] => 0,
    }
}

/// Whether the schema has the tables of the root of this group.
#[tactic(auto, unfolding(crate::specs::Tables::has_tables))]
pub(crate) fn has_tables(alloc: Global, schema: &Schema, group: &[u8]) -> Result<bool, NoMemory>
    ensures { IfOk result (λ has. has ≡ has_tables schema.now group.now) }
{
    let number = root_number(group);
    root_has_tables(alloc, schema, number, table_at(schema, number))
}

fn is_local_over(number: u8, index: &Index) -> bool
    ensures { result ≡ is_local_over number index.now }
{
    !index.global && index.table == number
}

fn has_local_index(schema: &Schema, number: u8) -> bool
    ensures { result ≡ list_any (is_local_over number) schema.now.indexes }
{
    schema
        .indexes
        .as_slice()
        .iter()
        .any(|index| is_local_over(number, index))
}

/// Whether a table is one of those that changes write themselves.
fn is_own_table(alloc: Global, root: &str, name: &[u8]) -> Result<bool, NoMemory>
    ensures { IfOk result (λ is. is ≡ is_own_table root.now name.now) }
{
    let locks = lock_table(alloc, root)?;
    let ends = end_table(alloc, root)?;
    Ok(same(name, b"TwoPlan") || same(name, locks.as_slice()) || same(name, ends.as_slice()))
}

fn table_is_free(
    alloc: Global,
    schema: &Schema,
    root: &str,
    number: u8,
    table: Option<&Table>,
) -> Result<bool, NoMemory>
    ensures { IfOk result (λ is. is ≡ table_is_free schema.now root.now number (option_copied table.entry)) }
{
    let Some(table) = table else {
        return Ok(false);
    };
    let is_own = is_own_table(alloc, root, table.name.as_bytes())?;
    Ok(!is_own && !has_local_index(schema, number))
}

fn root_named(root: Option<&Table>) -> &str
    ensures { result.now ≡ root_named (option_copied root.entry) }
{
    match root {
        Some(root) => root.name.as_str(),
        None => "",
    }
}

/// Whether a part of this group may write the table with this number: none of those that changes write themselves, and
/// none with a local index.
#[tactic(auto, unfolding(crate::specs::Tables::may_write))]
pub(crate) fn may_write(
    alloc: Global,
    schema: &Schema,
    group: &[u8],
    number: u8,
) -> Result<bool, NoMemory>
    ensures { IfOk result (λ may. may ≡ may_write schema.now group.now number) }
{
    let root = root_named(table_at(schema, root_number(group)));
    table_is_free(alloc, schema, root, number, table_at(schema, number))
}
