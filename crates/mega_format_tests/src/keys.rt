//! Keys of rows, groups and index entries, and where bytes are no key.
use crate::asserted::same;
use mega_base::{Bytes, Items, Kind, Shape, Text, Value};
use mega_keys::{KeyFault, group_of, index_key, read_key, row_key};
use std::alloc::Global;
use std::process::Abort;

fn photo(rt: &impl Abort, alloc: Global) -> Shape {
    Shape {
        space: 1,
        root: 1,
        root_kinds: Items::from_vec(vec![in alloc; Kind::Int64].expect(rt, "refused")),
        table: 2,
        rest_kinds: Items::from_vec(vec![in alloc; Kind::Int32].expect(rt, "refused")),
        scatter: false,
    }
}

fn scattered(rt: &impl Abort, alloc: Global) -> Shape {
    Shape {
        space: 1,
        root: 1,
        root_kinds: Items::from_vec(vec![in alloc; Kind::Str].expect(rt, "refused")),
        table: 1,
        rest_kinds: Items::new(alloc),
        scatter: true,
    }
}

/// The key of the photo 500 of the user 101.
const PHOTO: &[u8] = &[1, 128, 0, 0, 0, 0, 0, 0, 101, 2, 128, 0, 1, 244];

const PHOTO_VALUES: [Value; 2] = [Value::Int64(101), Value::Int32(500)];

#[test]
fn a_photo_has_this_key(rt: HostRuntime) {
    let alloc = rt.alloc();
    let shape = photo(&rt, alloc);
    let values = PHOTO_VALUES;
    let key = row_key(alloc, &shape, &values).expect(&rt, "refused");
    same(&rt, key.as_slice(), PHOTO);
    let read = read_key(alloc, &shape, PHOTO).expect(&rt, "refused");
    same(&rt, read.as_slice(), &values[..]);
}

#[test]
fn a_photo_is_in_this_group(rt: HostRuntime) {
    let alloc = rt.alloc();
    let shape = photo(&rt, alloc);
    let group = group_of(alloc, &shape, &[Value::Int64(101)]).expect(&rt, "refused");
    same(&rt, group.key.as_slice(), &PHOTO[..9]);
}

#[test]
fn a_photo_has_this_index_key(rt: HostRuntime) {
    let indexed = [Value::Int64(101), Value::Int64(1000)];
    let entry = index_key(rt.alloc(), 1, &PHOTO[..9], &indexed, &PHOTO_VALUES).expect(
        &rt, "refused",
    );
    let wanted: &[u8] = &[
        1, 128, 0, 0, 0, 0, 0, 0, 101, 128, 128, 0, 0, 0, 0, 0, 0, 101, 128, 0, 0, 0, 0, 0, 3, 232,
        128, 0, 0, 0, 0, 0, 0, 101, 128, 0, 1, 244,
    ];
    same(&rt, entry.as_slice(), wanted);
}

/// The key of the row "abc" where rows are scattered.
const SCATTERED: &[u8] = b"\x01\xbax\x61\x62\x63\x00\x01\x01";

fn text_value(rt: &impl Abort, alloc: Global, text: &str) -> [Value; 1] {
    [Value::Str(Text::from_str(alloc, text).expect(rt, "refused"))]
}

/// Asserts that the row of this text has this key.
fn check_scattered(rt: &impl Abort, alloc: Global, text: &str, wanted: &[u8]) {
    let shape = scattered(rt, alloc);
    let values = text_value(rt, alloc, text);
    let key = row_key(alloc, &shape, &values).expect(rt, "refused");
    same(rt, key.as_slice(), wanted);
}

#[test]
fn rows_are_scattered(rt: HostRuntime) {
    check_scattered(&rt, rt.alloc(), "abc", SCATTERED);
    check_scattered(&rt, rt.alloc(), "", b"\x01\xe3\xb0\x00\x01\x01");
}

#[test]
fn groups_are_scattered(rt: HostRuntime) {
    let alloc = rt.alloc();
    let shape = scattered(&rt, alloc);
    let abc = text_value(&rt, alloc, "abc");
    let group = group_of(alloc, &shape, &abc).expect(&rt, "refused");
    same(
        &rt,
        group.key.as_slice(),
        b"\x01\xbax\x61\x62\x63\x00\x01".as_slice(),
    );
}

#[test]
fn scattered_rows_are_read(rt: HostRuntime) {
    let alloc = rt.alloc();
    let shape = scattered(&rt, alloc);
    let abc = text_value(&rt, alloc, "abc");
    let read = read_key(alloc, &shape, SCATTERED).expect(&rt, "refused");
    same(&rt, read.as_slice(), &abc[..]);
    let wrong = read_key(alloc, &shape, b"\x01\xbay\x61\x62\x63\x00\x01\x01");
    same(&rt, wrong.err(), Some(KeyFault::NotKey { at: 2 }));
}

#[test]
fn values_that_make_no_key_have_their_places(rt: HostRuntime) {
    let alloc = rt.alloc();
    let shape = photo(&rt, alloc);
    let property = KeyFault::Kind { property: 1 };
    let kind = row_key(alloc, &shape, &[Value::Int64(1), Value::Bool(true)]);
    same(&rt, kind.err(), Some(property));
    let more = group_of(alloc, &shape, &[Value::Int64(1), Value::Int32(1)]);
    same(&rt, more.err(), Some(property));
    let missing = row_key(alloc, &shape, &[Value::Int64(1)]);
    same(&rt, missing.err(), Some(KeyFault::Missing { property: 1 }));
}

#[test]
fn a_zero_in_an_index_key_is_escaped(rt: HostRuntime) {
    let alloc = rt.alloc();
    let raw = [Value::Raw(Bytes::from_slice(alloc, &[97, 0]).expect(&rt, "refused"))];
    let zero = index_key(alloc, 1, &[], &raw, &[]).expect(&rt, "refused");
    same(&rt, zero.as_slice(), b"\x80\x61\x00\xff\x00\x01".as_slice());
}

#[test]
fn an_index_key_that_is_too_long_is_refused(rt: HostRuntime) {
    let alloc = rt.alloc();
    let long = [Value::Raw(Bytes::from_vec(vec![in alloc; 97; 1022].expect(&rt, "refused")))];
    let refused = index_key(alloc, 1, &[], &long, &[]);
    same(&rt, refused.err(), Some(KeyFault::TooLong { length: 1025 }));
}

#[test]
fn bytes_that_are_no_key_have_their_places(rt: HostRuntime) {
    let alloc = rt.alloc();
    let shape = photo(&rt, alloc);
    let trailing = read_key(
        alloc,
        &shape,
        &[1, 128, 0, 0, 0, 0, 0, 0, 101, 2, 128, 0, 1, 244, 0],
    );
    same(&rt, trailing.err(), Some(KeyFault::NotKey { at: 14 }));
    let short = read_key(alloc, &shape, &[1, 128, 0]);
    same(&rt, short.err(), Some(KeyFault::NotKey { at: 3 }));
}
