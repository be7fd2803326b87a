//! The root and the key values of a part's group.
ghost use Rattle.std.specs.Prelude.{◌≡◌, option_map};
ghost use Rattle.std.specs.Option.{option_copied};
ghost use Rattle.serde_json.specs.View.{view, items_view};
ghost use Rattle.mega_schedule.specs.Values.{primary_of};
ghost use Rattle.mega_two_driver.specs.Texts.{group_pair, root_name, root_table, root_values, second_of};

use mega_index::table_at;
use mega_schedule::fields::pair_of;
use mega_schedule::values::{list_in, list_of, table_number, text_of};
use mega_schema::{Schema, Table};
use serde_json::Value as Json;

/// The root's name and the key values of a part's group.
fn group_pair(part: &Json) -> Option<(&Json, &Json)>
    ensures { option_map (λ pair. (view pair.0.now, view pair.1.now)) result ≡ group_pair (view part.now) }
{
    pair_of(list_in(part, "group"))
}

/// The name of the root of a part's group.
pub(crate) fn root_name(part: &Json) -> &str
    ensures { result.now ≡ root_name (view part.now) }
{
    match group_pair(part) {
        Some((root, _)) => text_of(root),
        None => "",
    }
}

/// The list of a part's key values.
pub(crate) fn key_list(part: &Json) -> Option<&Json>
    ensures { option_map (λ v. view v.now) result ≡ second_of (group_pair (view part.now)) }
{
    match group_pair(part) {
        Some((_, values)) => Some(values),
        None => None,
    }
}

/// The key values of a part's group.
pub(crate) fn root_values(part: &Json) -> &[Json]
    ensures { items_view result.now ≡ root_values (view part.now) }
{
    match group_pair(part) {
        Some((_, values)) => list_of(values),
        None => &[],
    }
}

/// The root of a part's group.
pub(crate) fn root_table<'a>(schema: &'a Schema, part: &Json) -> Option<&'a Table>
    ensures { option_copied result ≡ root_table schema.now (view part.now) }
{
    table_at(schema, table_number(schema, root_name(part)))
}

/// The numbers of a table's key properties, or none where there is no such table.
pub(crate) fn primary_of(table: Option<&Table>) -> &[u8]
    ensures { result.now ≡ primary_of (option_copied table.entry) }
{
    match table {
        Some(table) => table.primary.as_slice(),
        None => &[],
    }
}
