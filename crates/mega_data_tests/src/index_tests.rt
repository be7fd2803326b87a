//! Entries of indexes follow their rows, and finds show the rows and the marks of their groups.

use crate::asserted::same;
use mega_base::{Bytes, Cell, Copied, Items, NodeId, Row, Text, Value};
use mega_entry::{Content, Entry, Write};
use mega_index::{
    Found, GlobalIndex, IndexFault, group_of, key_of, key_values, local_writes, row_fits, table_at,
};
use mega_schema::{Schema, parse};
use std::alloc::Global;
use std::process::Abort;

const PHOTOS: &str = "CREATE SCHEMA PhotoApp; \
CREATE TABLE User { required int64 user_id; required string name; } PRIMARY KEY(user_id), ENTITY GROUP ROOT; \
CREATE TABLE Photo { required int64 user_id; required int32 photo_id; required int64 time; required string full_url; \
optional string thumbnail_url; repeated string tag; } PRIMARY KEY(user_id, photo_id), IN TABLE User, \
ENTITY GROUP KEY(user_id) REFERENCES User; \
CREATE LOCAL INDEX PhotosByTime ON Photo(user_id, time); \
CREATE LOCAL INDEX PhotosByTag ON Photo(tag) STORING (thumbnail_url);";

fn photo_schema(rt: &impl Abort, alloc: Global) -> Schema {
    let text = Text::from_str(alloc, PHOTOS).expect(rt, "refused");
    parse(alloc, &text).expect(rt, "refused")
}

fn add(rt: &impl Abort, alloc: Global, cells: &mut Items<Cell>, property: u8, value: Value) {
    let mut values = Items::new(alloc);
    values.push(value).expect(rt, "refused");
    cells.push(Cell { property, values }).expect(rt, "refused");
}

fn text_value(rt: &impl Abort, alloc: Global, text: &str) -> Value {
    Value::Str(Text::from_str(alloc, text).expect(rt, "refused"))
}

fn texts(rt: &impl Abort, alloc: Global, texts: &[&str]) -> Items<Value> {
    let mut values = Items::new(alloc);
    for text in texts {
        values
            .push(text_value(rt, alloc, text))
            .expect(rt, "refused");
    }
    values
}

/// A photo of user 101 with the number 500, taken at this time, with these tags.
fn photo(rt: &impl Abort, alloc: Global, time: i64, tags: &[&str]) -> Row {
    photo_of(rt, alloc, 101, 500, time, tags)
}

/// A photo of this user with this number.
fn photo_of(
    rt: &impl Abort,
    alloc: Global,
    user: i64,
    number: i32,
    time: i64,
    tags: &[&str],
) -> Row {
    let mut cells = Items::new(alloc);
    add(rt, alloc, &mut cells, 1, Value::Int64(user));
    add(rt, alloc, &mut cells, 2, Value::Int32(number));
    add(rt, alloc, &mut cells, 3, Value::Int64(time));
    add(rt, alloc, &mut cells, 4, text_value(rt, alloc, "u"));
    if !tags.is_empty() {
        let values = texts(rt, alloc, tags);
        let tagged = Cell {
            property: 6,
            values,
        };
        cells.push(tagged).expect(rt, "refused");
    }
    Row::new(alloc, cells).expect(rt, "refused")
}

/// For each write the byte behind the group that tells the index, the first byte behind that, and
/// whether a row is put.
fn shown(writes: &[Write]) -> [(u8, u8, bool); 4] {
    let mut shown = [(0, 0, false); 4];
    for (slot, write) in shown.iter_mut().zip(writes) {
        let key = write.key.as_slice();
        if let (Some(number), Some(first)) = (key.get(9), key.get(10)) {
            *slot = (*number, *first, write.row.is_some());
        }
    }
    shown
}

/// The same schema, with both indexes global.
fn global_schema(rt: &impl Abort, alloc: Global) -> Schema {
    let mut schema = photo_schema(rt, alloc);
    let mut indexes = Items::new(alloc);
    for index in schema.indexes.as_slice() {
        let mut global = index.copy(alloc).expect(rt, "refused");
        global.global = true;
        indexes.push(global).expect(rt, "refused");
    }
    schema.indexes = indexes;
    schema
}

/// An entry that puts a row and nothing else.
fn entry(rt: &impl Abort, alloc: Global, key: Bytes, row: Row) -> Entry {
    let row = Some(row);
    let writes = Items::from_vec(vec![in alloc; Write { key, row }].expect(rt, "refused"));
    let content = Content {
        id: None,
        leader: NodeId(1),
        writes,
        sends: Items::new(alloc),
        enters: Items::new(alloc),
        handles: Items::new(alloc),
        cuts: Items::new(alloc),
    };
    Entry::new(alloc, content).expect(rt, "refused")
}

/// Refreshes the group of a photo by an entry that puts it, and gives the group's mark.
fn put(
    rt: &impl Abort,
    alloc: Global,
    index: &mut GlobalIndex,
    schema: &Schema,
    photo: Row,
) -> u64 {
    let Some(table) = table_at(schema, 2) else {
        panic!(rt; "no table");
    };
    let values = key_values(alloc, table.primary.as_slice(), &photo).expect(rt, "refused");
    let key = key_of(alloc, schema, 2, table, values.as_slice()).expect(rt, "refused");
    let group = group_of(alloc, schema, 2, table, values.as_slice()).expect(rt, "refused");
    let next = entry(rt, alloc, key, photo);
    index
        .refresh(alloc, schema, &group, &[next])
        .expect(rt, "refused");
    index.mark(&group).0
}

/// The numbers of the photos found.
fn numbers(found: &[Found]) -> [i32; 3] {
    let mut numbers = [0; 3];
    for (slot, one) in numbers.iter_mut().zip(found) {
        if let [Value::Int64(_), Value::Int32(number)] = one.key.as_slice() {
            *slot = *number;
        }
    }
    numbers
}

/// The photos with this tag.
fn tagged(
    rt: &impl Abort,
    alloc: Global,
    index: &GlobalIndex,
    schema: &Schema,
    tag: &str,
) -> [i32; 3] {
    let values = [text_value(rt, alloc, tag)];
    let found = index.find(alloc, schema, 2, &values).expect(rt, "refused");
    numbers(found.as_slice())
}

/// Puts a photo, and asserts the mark of its group behind it and the photos that are then found under Paris.
fn check_put(
    rt: &impl Abort,
    alloc: Global,
    index: &mut GlobalIndex,
    schema: &Schema,
    photo: Row,
    wanted: (u64, [i32; 3]),
) {
    let mark = put(rt, alloc, index, schema, photo);
    let found = tagged(rt, alloc, index, schema, "Paris");
    same(rt, (mark, found), wanted);
}

/// Puts three photos of two users.
fn put_three(rt: &impl Abort, alloc: Global, index: &mut GlobalIndex, schema: &Schema) {
    let dinner = photo_of(rt, alloc, 101, 500, 1000, &["Dinner", "Paris", "Paris"]);
    check_put(rt, alloc, index, schema, dinner, (1, [500, 0, 0]));
    let betty = photo_of(rt, alloc, 101, 502, 900, &["Betty", "Paris", "Z"]);
    check_put(rt, alloc, index, schema, betty, (2, [500, 502, 0]));
    let other = photo_of(rt, alloc, 102, 501, 950, &["A", "Paris", "Z"]);
    check_put(rt, alloc, index, schema, other, (1, [500, 502, 501]));
}

/// Puts two of the photos again, without the tag.
fn put_again(rt: &impl Abort, alloc: Global, index: &mut GlobalIndex, schema: &Schema) {
    let dinner = photo_of(rt, alloc, 101, 500, 1000, &["Dinner", "A", "B"]);
    check_put(rt, alloc, index, schema, dinner, (3, [502, 501, 0]));
    let other = photo_of(rt, alloc, 102, 501, 950, &["Parisian", "A", "Z"]);
    check_put(rt, alloc, index, schema, other, (2, [502, 0, 0]));
}

#[test]
fn a_find_shows_the_marks(rt: HostRuntime) {
    let alloc = rt.alloc();
    let schema = global_schema(&rt, alloc);
    let mut index = GlobalIndex::new(alloc);
    same(&rt, tagged(&rt, alloc, &index, &schema, "Paris"), [0, 0, 0]);
    put_three(&rt, alloc, &mut index, &schema);
    put_again(&rt, alloc, &mut index, &schema);
}

#[test]
fn photos_are_found_in_order_of_time(rt: HostRuntime) {
    let alloc = rt.alloc();
    let schema = global_schema(&rt, alloc);
    let mut index = GlobalIndex::new(alloc);
    let late = photo_of(&rt, alloc, 101, 500, 1000, &[]);
    put(&rt, alloc, &mut index, &schema, late);
    let early = photo_of(&rt, alloc, 101, 502, 900, &[]);
    put(&rt, alloc, &mut index, &schema, early);
    let found = index
        .find(alloc, &schema, 1, &[Value::Int64(101)])
        .expect(&rt, "refused");
    same(&rt, numbers(found.as_slice()), [502, 500, 0]);
}

#[test]
fn a_value_of_another_kind_is_refused(rt: HostRuntime) {
    let alloc = rt.alloc();
    let schema = global_schema(&rt, alloc);
    let index = GlobalIndex::new(alloc);
    let values = [Value::Int64(101), Value::Int32(1000)];
    let refused = index.find(alloc, &schema, 1, &values).err();
    same(&rt, refused, Some(IndexFault::Kind { place: 1 }));
}

/// Asserts what is written where a row takes the place of another: how many writes, and what they show.
fn check_writes(
    rt: &impl Abort,
    alloc: Global,
    old: Option<&Row>,
    new: Option<&Row>,
    count: usize,
    wanted: [(u8, u8, bool); 4],
) {
    let schema = photo_schema(rt, alloc);
    let writes = local_writes(alloc, &schema, 2, old, new).expect(rt, "refused");
    same(rt, writes.len(), count);
    same(rt, shown(writes.as_slice()), wanted);
}

#[test]
fn entries_follow_their_row(rt: HostRuntime) {
    let alloc = rt.alloc();
    let old = photo(&rt, alloc, 1000, &["b", "a", "a"]);
    let new = photo(&rt, alloc, 1000, &["b", "c"]);
    let first = [
        (128, 128, true),
        (129, b'a', true),
        (129, b'b', true),
        (0, 0, false),
    ];
    check_writes(&rt, alloc, None, Some(&old), 3, first);
    let second = [
        (129, b'a', false),
        (129, b'c', true),
        (0, 0, false),
        (0, 0, false),
    ];
    check_writes(&rt, alloc, Some(&old), Some(&new), 2, second);
    let schema = photo_schema(&rt, alloc);
    let last = local_writes(alloc, &schema, 2, Some(&new), None).expect(&rt, "refused");
    same(&rt, last.len(), 3);
}

/// A photo with no time.
fn part_of_a_photo(rt: &impl Abort, alloc: Global) -> Row {
    let mut cells = Items::new(alloc);
    add(rt, alloc, &mut cells, 1, Value::Int64(101));
    add(rt, alloc, &mut cells, 2, Value::Int32(500));
    Row::new(alloc, cells).expect(rt, "refused")
}

#[test]
fn a_photo_without_its_time_does_not_fit(rt: HostRuntime) {
    let alloc = rt.alloc();
    let schema = photo_schema(&rt, alloc);
    let Some(table) = table_at(&schema, 2) else {
        panic!(rt; "no table");
    };
    let whole = photo(&rt, alloc, 1000, &[]);
    let part = part_of_a_photo(&rt, alloc);
    same(&rt, row_fits(alloc, &schema, 2, table, &whole), Ok(true));
    same(&rt, row_fits(alloc, &schema, 2, table, &part), Ok(false));
}
