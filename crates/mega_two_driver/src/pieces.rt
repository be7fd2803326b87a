//! The pieces of which a part's requests are put together.
ghost use Rattle.std.specs.Prelude.{◌≡◌, ◌++◌, option_map, IfOk, OnOk, Some};
ghost use Rattle.std.specs.Option.{option_copied};
ghost use Rattle.serde_json.specs.Find.{get};
ghost use Rattle.serde_json.specs.View.{view, items_view};
ghost use Rattle.mega_two_driver.specs.Texts.{after_commas, before_commas, deleted_text, deleted_texts, end_key, end_table, field_text, key_members, lock_key, lock_table, member_text, members_text, there_text, value_text};

use crate::joins::{bracketed, joined3, joined5, quoted};
use crate::root::{key_list, primary_of, root_table, root_values};
use mega_base::{Bytes, NoMemory};
use mega_floats::has_float;
use mega_index::property_at;
use mega_schedule::values::properties_of;
use mega_schema::{Property, Schema};
use serde_json::Value as Json;
use std::alloc::Global;

/// A value with no space in it.
fn put_value(alloc: Global, value: &Json, out: &mut Bytes) -> Result<(), NoMemory>
    ensures { OnOk result (out.new ≡ out.old ++ value_text (view value.now)) }
{
    if has_float(value) {
        return Ok(());
    }
    let text = value.to_string(alloc)?;
    out.extend_from_slice(text.as_bytes())
}

fn value_text(alloc: Global, value: &Json) -> Result<Bytes, NoMemory>
    ensures { IfOk result (λ text. text ≡ value_text (view value.now)) }
{
    let mut out = Bytes::new(alloc);
    put_value(alloc, value, &mut out)?;
    Ok(out)
}

/// Values with a comma before each.
pub(crate) fn put_after_commas(
    alloc: Global,
    values: &[Json],
    out: &mut Bytes,
) -> Result<(), NoMemory>
    ensures { OnOk result (out.new ≡ out.old ++ after_commas (items_view values.now)) }
{
    for value in values {
        out.push(b',')?;
        put_value(alloc, value, out)?;
    }
    Ok(())
}

/// Values with a comma behind each.
pub(crate) fn put_before_commas(
    alloc: Global,
    values: &[Json],
    out: &mut Bytes,
) -> Result<(), NoMemory>
    ensures { OnOk result (out.new ≡ out.old ++ before_commas (items_view values.now)) }
{
    for value in values {
        put_value(alloc, value, out)?;
        out.push(b',')?;
    }
    Ok(())
}

/// A value under a property's name, and a comma.
fn member_text(alloc: Global, property: &Property, value: &Json) -> Result<Bytes, NoMemory>
    ensures { IfOk result (λ text. text ≡ member_text (Some property.now) (view value.now)) }
{
    let name = quoted(alloc, property.name.as_bytes())?;
    let value = value_text(alloc, value)?;
    let value = joined3(alloc, b":", value.as_slice(), b",")?;
    joined3(alloc, name.as_slice(), value.as_slice(), b"")
}

fn put_member(
    alloc: Global,
    property: Option<&Property>,
    value: &Json,
    out: &mut Bytes,
) -> Result<(), NoMemory>
    ensures { OnOk result (out.new ≡ out.old ++ member_text (option_copied property.entry) (view value.now)) }
{
    match property {
        Some(property) => {
            let text = member_text(alloc, property, value)?;
            out.extend_from_slice(text.as_slice())
        }
        None => Ok(()),
    }
}

/// Values under the names of the properties with these numbers.
fn put_members(
    alloc: Global,
    properties: &[Property],
    numbers: &[u8],
    values: &[Json],
    out: &mut Bytes,
) -> Result<(), NoMemory>
    ensures { OnOk result (out.new ≡ out.old ++ members_text properties.now numbers.now (items_view values.now)) }
{
    let mut left = values;
    for number in numbers {
        let [value, later @ ..] = left else {
            return Ok(());
        };
        put_member(alloc, property_at(properties, *number), value, out)?;
        left = later;
    }
    Ok(())
}

/// The key properties of the root, with their values in this group.
#[tactic(auto, unfolding(crate::specs::Texts::key_members))]
pub(crate) fn key_members(alloc: Global, schema: &Schema, part: &Json) -> Result<Bytes, NoMemory>
    ensures { IfOk result (λ text. text ≡ key_members schema.now (view part.now)) }
{
    let root = root_table(schema, part);
    let mut out = Bytes::new(alloc);
    put_members(
        alloc,
        properties_of(root),
        primary_of(root),
        root_values(part),
        &mut out,
    )?;
    Ok(out)
}

fn text_if(alloc: Global, value: Option<&Json>) -> Result<Bytes, NoMemory>
    ensures { IfOk result (λ text. text ≡ field_text (option_map (λ v. view v.now) value.entry)) }
{
    match value {
        Some(value) => value_text(alloc, value),
        None => Ok(Bytes::new(alloc)),
    }
}

/// The text of a field's value.
pub(crate) fn field_text(alloc: Global, object: &Json, name: &str) -> Result<Bytes, NoMemory>
    ensures { IfOk result (λ text. text ≡ field_text (get name.now (view object.now))) }
{
    text_if(alloc, object.get(name))
}

/// The key of a part's lock.
pub(crate) fn lock_key(alloc: Global, part: &Json) -> Result<Bytes, NoMemory>
    ensures { IfOk result (λ text. text ≡ lock_key (view part.now)) }
{
    text_if(alloc, key_list(part))
}

/// The key of a part's end.
#[tactic(auto, unfolding(crate::specs::Texts::end_key))]
pub(crate) fn end_key(alloc: Global, name: &[u8], part: &Json) -> Result<Bytes, NoMemory>
    ensures { IfOk result (λ text. text ≡ end_key name.now (view part.now)) }
{
    let name = quoted(alloc, name)?;
    let mut values = Bytes::new(alloc);
    put_before_commas(alloc, root_values(part), &mut values)?;
    values.extend_from_slice(name.as_slice())?;
    bracketed(alloc, values.as_slice())
}

/// The name of the table of locks.
pub(crate) fn lock_table(alloc: Global, root: &str) -> Result<Bytes, NoMemory>
    ensures { IfOk result (λ name. name ≡ lock_table root.now) }
{
    let mut name = Bytes::from_slice(alloc, root.as_bytes())?;
    name.extend_from_slice(b"Two")?;
    Ok(name)
}

/// The name of the table of ends.
pub(crate) fn end_table(alloc: Global, root: &str) -> Result<Bytes, NoMemory>
    ensures { IfOk result (λ name. name ≡ end_table root.now) }
{
    let mut name = Bytes::from_slice(alloc, root.as_bytes())?;
    name.extend_from_slice(b"Done")?;
    Ok(name)
}

/// The check that the row of a deletion is there, behind a comma.
fn there_text(alloc: Global, write: &Json) -> Result<Bytes, NoMemory>
    ensures { IfOk result (λ text. text ≡ there_text (view write.now)) }
{
    let key = field_text(alloc, write, "key")?;
    let table = field_text(alloc, write, "delete")?;
    joined5(
        alloc,
        br#",{"key":"#,
        key.as_slice(),
        br#","there":"#,
        table.as_slice(),
        b"}",
    )
}

fn put_there(alloc: Global, write: &Json, out: &mut Bytes) -> Result<(), NoMemory>
    ensures { OnOk result (out.new ≡ out.old ++ there_text (view write.now)) }
{
    let text = there_text(alloc, write)?;
    out.extend_from_slice(text.as_slice())
}

fn put_deleted(alloc: Global, write: &Json, out: &mut Bytes) -> Result<(), NoMemory>
    ensures { OnOk result (out.new ≡ out.old ++ deleted_text (view write.now)) }
{
    if write.get("put").is_some() {
        Ok(())
    } else if write.get("delete").is_some() {
        put_there(alloc, write, out)
    } else {
        Ok(())
    }
}

/// The checks that the rows of all deletions are there, each behind a comma.
pub(crate) fn put_all_deleted(
    alloc: Global,
    writes: &[Json],
    out: &mut Bytes,
) -> Result<(), NoMemory>
    ensures { OnOk result (out.new ≡ out.old ++ deleted_texts (items_view writes.now)) }
{
    for write in writes {
        put_deleted(alloc, write, out)?;
    }
    Ok(())
}
