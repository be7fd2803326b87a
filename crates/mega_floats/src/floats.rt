//! Whether a number stands in a JSON value that is neither an i64 nor a u64.
ghost use Rattle.std.specs.Prelude.{◌≡◌};
ghost use Rattle.serde_json.specs.View.{view, items_view, members_view};
ghost use Rattle.serde_json.specs.Written.{has_float, items_have_float, members_have_float};

use serde_json::{Map, Value as Json};

/// Whether a number stands in the value that is neither an i64 nor a u64.
#[cycle(floats)]
pub fn has_float(value: &Json) -> bool
    ensures { result ≡ has_float (view value.now) }
{
    match value {
        Json::Number(number) => number.is_f64(),
        Json::Array(items) => items_have_float(items),
        Json::Object(members) => members_have_float(members),
        _ => false,
    }
}

#[cycle(floats)]
fn items_have_float(items: &Vec<Json>) -> bool
    ensures { result ≡ items_have_float (items_view items.now.items) }
{
    for item in items {
        if has_float(item) {
            return true;
        }
    }
    false
}

#[cycle(floats)]
fn members_have_float(members: &Map<String, Json>) -> bool
    ensures { result ≡ members_have_float (members_view members.now.entries) }
{
    for (_, member) in members.iter() {
        if has_float(member) {
            return true;
        }
    }
    false
}
