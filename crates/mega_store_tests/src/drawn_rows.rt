//! Drawn calls of versioned rows beside a list that keeps everything.
use mega_base::{Bytes, Cell, Items, Position, Row, Value};
use mega_disk::Versions;
use mega_gen::DrawnNumbers;
use mega_rows::VersionedRows;
use std::alloc::Global;
use std::process::Abort;

/// A version in the list that keeps everything: key, position and number, 0 for a deletion.
#[derive(Drop)]
struct ListedVersion {
    key: u8,
    at: u64,
    number: i32,
}

/// The number that a read of the key at this position sees: of the versions of greatest position the one put last.
fn number_in(list: &[ListedVersion], key: u8, at: u64) -> i32 {
    let mut best = 0;
    let mut number = 0;
    for kept in list {
        if kept.key == key && kept.at <= at && kept.at >= best {
            best = kept.at;
            number = kept.number;
        }
    }
    number
}

/// A key of one or two bytes: key 0 is a prefix of key 1, and so on.
fn key_bytes(rt: &impl Abort, alloc: Global, key: u8) -> Bytes {
    let bytes = [b'a' + key / 2 % 8, b'b'];
    if key % 2 == 0 {
        return Bytes::from_slice(alloc, &bytes[..1]).expect(rt, "refused");
    }
    Bytes::from_slice(alloc, &bytes).expect(rt, "refused")
}

/// A row of one number.
fn row_of(rt: &impl Abort, alloc: Global, number: i32) -> Option<Row> {
    if number == 0 {
        return None;
    }
    let values = Items::from_vec(vec![in alloc; Value::Int32(number)].expect(rt, "refused"));
    let cell = Cell {
        property: 1,
        values,
    };
    let cells = Items::from_vec(vec![in alloc; cell].expect(rt, "refused"));
    Some(Row::new(alloc, cells).expect(rt, "refused"))
}

/// The number of a row, 0 for none.
fn number_of(row: Option<Row>) -> i32 {
    let Some(row) = row else {
        return 0;
    };
    match row.cells.as_slice() {
        [cell] => match cell.values.as_slice() {
            [Value::Int32(number)] => *number,
            _ => -1,
        },
        _ => -1,
    }
}

/// What a scan from one key to another gives, as one number.
fn scanned(
    rt: &impl Abort,
    alloc: Global,
    rows: &mut VersionedRows,
    from: u8,
    to: u8,
    at: u64,
) -> i64 {
    let from = key_bytes(rt, alloc, from);
    let to = key_bytes(rt, alloc, to);
    let mut sum = 0i64;
    for (_, row) in rows
        .scan(alloc, &from, &to, Position(at))
        .expect(rt, "refused")
    {
        sum = sum
            .wrapping_mul(31)
            .wrapping_add(i64::from(number_of(Some(row))));
    }
    sum
}

/// The same of the list that keeps everything.
fn scanned_in(list: &[ListedVersion], from: u8, to: u8, at: u64) -> i64 {
    let mut sum = 0i64;
    for key in from..to {
        let number = number_in(list, key, at);
        if number != 0 {
            sum = sum.wrapping_mul(31).wrapping_add(i64::from(number));
        }
    }
    sum
}

/// One drawn call of the rows, and of the list; what they answer, as two numbers.
fn call(
    rt: &impl Abort,
    alloc: Global,
    draws: &mut DrawnNumbers,
    rows: &mut VersionedRows,
    list: &mut Vec<ListedVersion>,
    cleaned: &mut u64,
) -> (i64, i64) {
    let key = draws.draw(12) as u8;
    let at = draws.draw(100);
    let bytes = key_bytes(rt, alloc, key);
    match draws.draw(8) {
        0..=3 => {
            let number = draws.draw(1000) as i32;
            rows.put(alloc, &bytes, Position(at), row_of(rt, alloc, number))
                .expect(rt, "refused");
            list.push(ListedVersion { key, at, number })
                .expect(rt, "refused");
            (0, 0)
        }
        4 => {
            let row = rows.latest(alloc, &bytes).expect(rt, "refused");
            (
                i64::from(number_of(row)),
                i64::from(number_in(list.as_slice(), key, u64::MAX)),
            )
        }
        5 => {
            let to = draws.draw(12) as u8;
            let at = at.max(*cleaned);
            (
                scanned(rt, alloc, rows, key, to, at),
                scanned_in(list.as_slice(), key, to, at),
            )
        }
        6 if at % 8 == 0 => {
            let end = key_bytes(rt, alloc, draws.draw(12) as u8);
            rows.clean(alloc, &bytes, &end, Position(at))
                .expect(rt, "refused");
            *cleaned = at.max(*cleaned);
            (0, 0)
        }
        _ => {
            let at = at.max(*cleaned);
            let row = rows.get(alloc, &bytes, Position(at)).expect(rt, "refused");
            (
                i64::from(number_of(row)),
                i64::from(number_in(list.as_slice(), key, at)),
            )
        }
    }
}

#[test]
fn ten_thousand_calls_beside_a_list_that_keeps_everything(rt: HostRuntime) {
    let alloc = rt.alloc();
    for seed in 1..=10u64 {
        let mut draws = DrawnNumbers::new(seed);
        let mut rows = VersionedRows::new(alloc);
        let mut list = Vec::new(alloc);
        let mut cleaned = 0;
        for number in 0..1000u32 {
            let (told, kept) = call(&rt, alloc, &mut draws, &mut rows, &mut list, &mut cleaned);
            assert_eq!(rt; told, kept, "call {number} of seed {seed}");
        }
    }
}
