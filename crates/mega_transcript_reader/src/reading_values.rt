//! Values are read from JSON as they are shown. What is the JSON of no value of a kind is read as another.
ghost use Rattle.std.specs.Prelude.{◌≡◌, ◌++◌, IfOk, Some, option_map};
ghost use Rattle.serde_json.specs.Data.{Data};
ghost use Rattle.serde_json.specs.View.{view, items_view};
ghost use Rattle.mega_schema.specs.declared.schema.Schema.{Schema as SchemaValue};
ghost use Rattle.mega_transcript_reader.specs.ReadingRows.{number_in, int32_in, int64_in, is_int32, truth_in, text_in, bytes_in, list_in, each_in, value_in, pair_of, triple_of};

use hex::FromHexError;
use mega_base::{Bytes, Items, Kind, NoMemory, Text, Value};
use mega_schema::Schema;
use serde_json::Value as Json;
use std::alloc::Global;

/// What is read from JSON as it is shown, with the names of a schema.
pub(crate) trait FromJson: Sized + Drop {
    ghost told: { SchemaValue → Data → Self };

    fn read(alloc: Global, schema: &Schema, value: &Json) -> Result<Self, NoMemory>
        ensures { IfOk result (λ made. made ≡ told schema.now (view value.now)) };
}

/// The items of a list, or none.
pub(crate) fn list_of(value: &Json) -> &[Json]
    ensures { items_view result.now ≡ list_in (view value.now) }
{
    match value.as_array() {
        Some(items) => items.as_slice(),
        None => &[],
    }
}

/// The items of a list, each read so.
pub(crate) fn each_of<T: FromJson>(
    alloc: Global,
    schema: &Schema,
    value: &Json,
) -> Result<Items<T>, NoMemory>
    ensures { IfOk result (λ made. made ≡ each_in (T.told schema.now) (list_in (view value.now))) }
{
    let mut made = Items::new(alloc);
    for item in list_of(value) {
        made.push(T::read(alloc, schema, item)?)?;
    }
    Ok(made)
}

/// The items of a list of two.
#[tactic(auto, using(crate::proofs::Parts::a_pair, crate::proofs::Parts::no_pair))]
pub(crate) fn pair_of(items: &[Json]) -> Option<(&Json, &Json)>
    ensures { option_map (λ pair. (view pair.0.now, view pair.1.now)) result ≡ pair_of (items_view items.now) }
{
    if items.len() == 2 {
        Some((&items[0], &items[1]))
    } else {
        None
    }
}

/// The items of a list of three.
#[tactic(auto, using(crate::proofs::Parts::a_triple, crate::proofs::Parts::no_triple))]
pub(crate) fn triple_of(items: &[Json]) -> Option<(&Json, &Json, &Json)>
    ensures { option_map (λ parts. (view parts.0.now, (view parts.1.now, view parts.2.now))) result ≡ triple_of (items_view items.now) }
{
    if items.len() == 3 {
        Some((&items[0], &items[1], &items[2]))
    } else {
        None
    }
}

/// A number up to `most`, or 0.
pub(crate) fn number_of(most: u64, value: &Json) -> u64
    ensures { result ≡ number_in most (view value.now) }
{
    match value.as_u64() {
        Some(number) => { if number <= most { number } else { 0 } }
        None => 0,
    }
}

fn is_int32(number: i64) -> bool
    ensures { result ≡ is_int32 number }
{
    -2_147_483_648 <= number && number < 2_147_483_648
}

/// A signed number of 32 bits, or 0.
fn int32_of(value: &Json) -> i32
    ensures { result ≡ int32_in (view value.now) }
{
    match value.as_i64() {
        Some(number) => { if is_int32(number) { number as i32 } else { 0 } }
        None => 0,
    }
}

/// A signed number of 64 bits, or 0.
#[tactic(auto, using(crate::proofs::Parts::whole))]
fn int64_of(value: &Json) -> i64
    ensures { result ≡ int64_in (view value.now) }
{
    match value.as_i64() {
        Some(number) => number,
        None => 0,
    }
}

/// A text, or the empty one.
#[tactic(auto, using(crate::proofs::Parts::utf8))]
pub(crate) fn text_of(value: &Json) -> &str
    ensures { result.now ≡ text_in (view value.now) }
{
    match value.as_str() {
        Some(text) => text,
        None => "",
    }
}

/// The bytes of a text in hex, or none.
pub(crate) fn bytes_of(alloc: Global, value: &Json) -> Result<Bytes, NoMemory>
    ensures { IfOk result (λ made. made ≡ bytes_in (view value.now)) }
{
    match hex::decode(alloc, text_of(value).as_bytes()) {
        Ok(bytes) => Ok(Bytes::from_vec(bytes)),
        Err(FromHexError::OutOfMemory) => Err(NoMemory),
        Err(_) => Ok(Bytes::new(alloc)),
    }
}

/// A value of this kind.
pub(crate) fn value_of(alloc: Global, kind: Kind, value: &Json) -> Result<Value, NoMemory>
    ensures { IfOk result (λ made. made ≡ value_in kind (view value.now)) }
{
    match kind {
        Kind::Int32 => Ok(Value::Int32(int32_of(value))),
        Kind::Int64 => Ok(Value::Int64(int64_of(value))),
        Kind::Bool => Ok(Value::Bool(value.as_bool().unwrap_or(false))),
        Kind::Str => Ok(Value::Str(Text::from_str(alloc, text_of(value))?)),
        Kind::Raw => Ok(Value::Raw(bytes_of(alloc, value)?)),
    }
}

/// Values of this kind, from a list.
pub(crate) fn each_value(alloc: Global, kind: Kind, value: &Json) -> Result<Items<Value>, NoMemory>
    ensures { IfOk result (λ made. made ≡ each_in (value_in kind) (list_in (view value.now))) }
{
    let mut made = Items::new(alloc);
    for item in list_of(value) {
        made.push(value_of(alloc, kind, item)?)?;
    }
    Ok(made)
}
