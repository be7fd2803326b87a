//! Versions of rows by key and position: reads, scans and a cleaning.
use mega_base::{Bytes, Cell, Items, Position, Row, Value};
use mega_disk::Versions;
use mega_rows::VersionedRows;
use std::alloc::Global;
use std::process::Abort;

/// Puts a row of one number under a key, or at the number 0 deletes the row.
fn put(
    rt: &impl Abort,
    alloc: Global,
    rows: &mut VersionedRows,
    key: &Bytes,
    at: u64,
    number: i32,
) {
    if number == 0 {
        rows.put(alloc, key, Position(at), None)
            .expect(rt, "refused");
        return;
    }
    let values = Items::from_vec(vec![in alloc; Value::Int32(number)].expect(rt, "refused"));
    let cell = Cell {
        property: 1,
        values,
    };
    let cells = Items::from_vec(vec![in alloc; cell].expect(rt, "refused"));
    let row = Row::new(alloc, cells).expect(rt, "refused");
    rows.put(alloc, key, Position(at), Some(row))
        .expect(rt, "refused");
}

/// The number of a row, 0 for none.
fn number_of(row: Option<Row>) -> i32 {
    let Some(row) = row else {
        return 0;
    };
    match row.cells.as_slice() {
        [cell] => match cell.values.as_slice() {
            [Value::Int32(number)] => *number,
            _ => -1,
        },
        _ => -1,
    }
}

#[test]
fn a_read_sees_the_version_at_or_below(rt: HostRuntime) {
    let key = Bytes::from_slice(rt.alloc(), b"k").expect(&rt, "refused");
    let mut rows = VersionedRows::new(rt.alloc());
    for (at, number) in [(3, 3), (1, 7), (1, 1), (5, 0)] {
        put(&rt, rt.alloc(), &mut rows, &key, at, number);
    }
    for (at, want) in [(0, 0), (1, 1), (2, 1), (3, 3), (4, 3), (5, 0), (9, 0)] {
        let row = rows
            .get(rt.alloc(), &key, Position(at))
            .expect(&rt, "refused");
        assert_eq!(rt; number_of(row), want, "at {at}");
    }
    assert!(rt;
        rows.latest(rt.alloc(), &key)
            .expect(&rt, "refused")
            .is_none()
    );
}

#[test]
fn a_scan_is_in_order_of_key(rt: HostRuntime) {
    let mut rows = VersionedRows::new(rt.alloc());
    for (key, number) in [(b"b".as_slice(), 4), (b"ab", 2), (b"a", 1), (b"c", 5)] {
        let key = Bytes::from_slice(rt.alloc(), key).expect(&rt, "refused");
        put(&rt, rt.alloc(), &mut rows, &key, 1, number);
    }
    let from = Bytes::from_slice(rt.alloc(), b"a").expect(&rt, "refused");
    let to = Bytes::from_slice(rt.alloc(), b"b").expect(&rt, "refused");
    let mut wanted = 1;
    for (_, row) in rows
        .scan(rt.alloc(), &from, &to, Position(1))
        .expect(&rt, "refused")
    {
        assert_eq!(rt; number_of(Some(row)), wanted);
        wanted = 2;
    }
    assert_eq!(rt; wanted, 2);
}

#[test]
fn a_cleaning_leaves_what_later_reads_see(rt: HostRuntime) {
    let key = Bytes::from_slice(rt.alloc(), b"k").expect(&rt, "refused");
    let end = Bytes::from_slice(rt.alloc(), b"l").expect(&rt, "refused");
    for (below, at_one) in [(0, 1), (1, 1), (2, 1), (3, 0), (9, 0)] {
        let mut rows = VersionedRows::new(rt.alloc());
        put(&rt, rt.alloc(), &mut rows, &key, 1, 1);
        put(&rt, rt.alloc(), &mut rows, &key, 3, 3);
        rows.clean(rt.alloc(), &key, &end, Position(below))
            .expect(&rt, "refused");
        let first = rows
            .get(rt.alloc(), &key, Position(1))
            .expect(&rt, "refused");
        assert_eq!(rt; number_of(first), at_one, "below {below}");
        let second = rows
            .get(rt.alloc(), &key, Position(3))
            .expect(&rt, "refused");
        assert_eq!(rt; number_of(second), 3, "below {below}");
    }
}
