//! What lines of operations ask for: names by their numbers, and values by the kinds of their places.

use super::begins::begun;
use std::alloc::Global;
use std::process::Abort;

/// Lines of operations, and behind an arrow what each asks for.
const REQUESTS: &str =
    r#"{"do":"txn","node":1,"group":["A",[1]],"checks":[],"reads":[],"writes":[{"put":"A","row":{"zz":"x","many":[1,2147483648],"id":-2147483648,"n":7,"raw":"0aff","b":true,"s":"0aff","yy":[],"many2":false}}],"sends":[]} => Txn(Transaction { group: GroupId { key: Bytes { items: [1, 128, 0, 0, 1] } }, checks: Items { items: [] }, reads: Items { items: [] }, writes: Items { items: [Put(1, Row { cells: Items { items: [Cell { property: 0, values: Items { items: [Bool(false)] } }, Cell { property: 0, values: Items { items: [Str(Text { string: "x" })] } }, Cell { property: 1, values: Items { items: [Int32(-2147483648)] } }, Cell { property: 2, values: Items { items: [Int64(7)] } }, Cell { property: 3, values: Items { items: [Raw(Bytes { items: [10, 255] })] } }, Cell { property: 4, values: Items { items: [Bool(true)] } }, Cell { property: 5, values: Items { items: [Str(Text { string: "0aff" })] } }, Cell { property: 6, values: Items { items: [Int32(1), Int64(2147483648)] } }] } })] }, sends: Items { items: [] } })
{"do":"txn","node":1,"group":["A",[1]],"checks":[],"reads":[],"writes":[{"put":"A","row":{"id":[1],"raw":["0AFF","0"],"b":1,"n":[]}},{"put":"Z","row":{"id":1}},{"delete":"B","key":[1,"00ff"]},{"add":"A","key":[1],"property":"m","by":-5}],"sends":[]} => Txn(Transaction { group: GroupId { key: Bytes { items: [1, 128, 0, 0, 1] } }, checks: Items { items: [] }, reads: Items { items: [] }, writes: Items { items: [Put(1, Row { cells: Items { items: [Cell { property: 1, values: Items { items: [Int32(1)] } }, Cell { property: 3, values: Items { items: [Str(Text { string: "0AFF" }), Str(Text { string: "0" })] } }, Cell { property: 4, values: Items { items: [Int64(1)] } }] } }), Put(0, Row { cells: Items { items: [Cell { property: 0, values: Items { items: [Int64(1)] } }] } }), Delete(RowRef { table: 2, key: Items { items: [Int32(1), Raw(Bytes { items: [0, 255] })] } }), Add(RowRef { table: 1, key: Items { items: [Int32(1)] } }, 0, -5)] }, sends: Items { items: [] } })
{"do":"txn","node":1,"group":["B",[1]],"checks":[{"there":"Z","key":[1]},{"gone":"B","key":[1,"00ff",2]},{"is":"A","key":["1"],"property":"many","values":[1]},{"is":"A","key":[],"property":"x","values":[1,"00"]}],"reads":[],"writes":[],"sends":[]} => Txn(Transaction { group: GroupId { key: Bytes { items: [] } }, checks: Items { items: [There(RowRef { table: 0, key: Items { items: [Int64(1)] } }), Gone(RowRef { table: 2, key: Items { items: [Int32(1), Raw(Bytes { items: [0, 255] }), Int64(2)] } }), Is(RowRef { table: 1, key: Items { items: [Str(Text { string: "1" })] } }, 6, Items { items: [Int32(1)] }), Is(RowRef { table: 1, key: Items { items: [] } }, 0, Items { items: [Int64(1), Str(Text { string: "00" })] })] }, reads: Items { items: [] }, writes: Items { items: [] }, sends: Items { items: [] } })
{"do":"txn","node":1,"group":["A",[1,2]],"checks":[],"reads":[{"row":"A","key":[2147483648]}],"writes":[],"sends":[{"to":["A",[-1]],"queue":"q","payload":"00ff"},{"to":["B",[1]],"queue":"","payload":""}]} => Txn(Transaction { group: GroupId { key: Bytes { items: [] } }, checks: Items { items: [] }, reads: Items { items: [RowRef { table: 1, key: Items { items: [Int64(2147483648)] } }] }, writes: Items { items: [] }, sends: Items { items: [Send { to: GroupId { key: Bytes { items: [1, 127, 255, 255, 255] } }, queue: Text { string: "q" }, payload: Bytes { items: [0, 255] } }, Send { to: GroupId { key: Bytes { items: [] } }, queue: Text { string: "" }, payload: Bytes { items: [] } }] } })
{"do":"batch","node":1,"group":["A",[1]],"txns":[{"checks":[],"reads":[{"row":"A","key":[1]}],"writes":[],"sends":[]},{"checks":[],"reads":[],"writes":[],"sends":[]}]} => Batch(GroupId { key: Bytes { items: [1, 128, 0, 0, 1] } }, Items { items: [Transaction { group: GroupId { key: Bytes { items: [1, 128, 0, 0, 1] } }, checks: Items { items: [] }, reads: Items { items: [RowRef { table: 1, key: Items { items: [Int32(1)] } }] }, writes: Items { items: [] }, sends: Items { items: [] } }, Transaction { group: GroupId { key: Bytes { items: [1, 128, 0, 0, 1] } }, checks: Items { items: [] }, reads: Items { items: [] }, writes: Items { items: [] }, sends: Items { items: [] } }] })
{"do":"read","node":1,"mode":"inconsistent","group":["A",["1"]],"rows":[{"row":"B","key":[1,"00"]}]} => Read(ReadRequest { mode: Inconsistent, group: GroupId { key: Bytes { items: [] } }, rows: Items { items: [RowRef { table: 2, key: Items { items: [Int32(1), Raw(Bytes { items: [0] })] } }] } })
{"do":"find","node":1,"index":"All","values":["00"]} => Find(FindRequest { mode: Snapshot, group: None, index: 2, values: Items { items: [Str(Text { string: "00" })] } })
{"do":"find","node":1,"index":"Own","values":[5,"00","x"],"mode":"current","group":["A",[1]]} => Find(FindRequest { mode: Current, group: Some(GroupId { key: Bytes { items: [1, 128, 0, 0, 1] } }), index: 1, values: Items { items: [Int64(5), Raw(Bytes { items: [0] }), Str(Text { string: "x" })] } })
{"do":"find","node":1,"index":"Own","values":[5],"mode":"current"} => Find(FindRequest { mode: Current, group: None, index: 0, values: Items { items: [Int64(5)] } })
{"do":"find","node":1,"index":"All","values":[5],"mode":"current","group":["A",[1]]} => Find(FindRequest { mode: Current, group: Some(GroupId { key: Bytes { items: [1, 128, 0, 0, 1] } }), index: 0, values: Items { items: [Int64(5)] } })
{"do":"find","node":1,"index":"Nil","values":[5]} => Find(FindRequest { mode: Snapshot, group: None, index: 0, values: Items { items: [Int64(5)] } })
{"do":"batch","node":9,"txns":[{"sends":[],"writes":[{"add":"A","key":[1],"property":"n","by":-30}],"reads":[],"checks":[{"gone":"B","key":[1,"00"]}]}],"group":["A",[1]]} => Batch(GroupId { key: Bytes { items: [1, 128, 0, 0, 1] } }, Items { items: [Transaction { group: GroupId { key: Bytes { items: [1, 128, 0, 0, 1] } }, checks: Items { items: [Gone(RowRef { table: 2, key: Items { items: [Int32(1), Raw(Bytes { items: [0] })] } })] }, reads: Items { items: [] }, writes: Items { items: [Add(RowRef { table: 1, key: Items { items: [Int32(1)] } }, 2, -30)] }, sends: Items { items: [] } }] })
{"do":"batch","node":1,"group":["A",["x"]],"txns":[{"checks":[],"reads":[],"writes":[],"sends":[]}]} => Batch(GroupId { key: Bytes { items: [] } }, Items { items: [Transaction { group: GroupId { key: Bytes { items: [] } }, checks: Items { items: [] }, reads: Items { items: [] }, writes: Items { items: [] }, sends: Items { items: [] } }] })
{"do":"read","node":1,"mode":"current","group":["A",[-2147483648]],"rows":[]} => Read(ReadRequest { mode: Current, group: GroupId { key: Bytes { items: [1, 0, 0, 0, 0] } }, rows: Items { items: [] } })
{"do":"read","node":1,"mode":"snapshot","group":["A",[2147483647]],"rows":[{"row":"A","key":[2147483647]},{"row":"Z","key":[]}]} => Read(ReadRequest { mode: Snapshot, group: GroupId { key: Bytes { items: [1, 255, 255, 255, 255] } }, rows: Items { items: [RowRef { table: 1, key: Items { items: [Int32(2147483647)] } }, RowRef { table: 0, key: Items { items: [] } }] } })
{"do":"read","node":1,"mode":"snapshot","group":["A",[2147483648]],"rows":[]} => Read(ReadRequest { mode: Snapshot, group: GroupId { key: Bytes { items: [] } }, rows: Items { items: [] } })
{"do":"pump","node":1,"what":"enter"} => PumpEnter
{"do":"pump","node":1,"what":"handle"} => PumpHandle
{"what":"handle","what":"enter","node":9,"do":"pump"} => PumpEnter
{"do":"refresh","node":1} => Refresh
{"node":9,"do":"refresh"} => Refresh
 { "do" : "refresh", "node" : 2 } => Refresh"#;

/// Asserts of a row, which is a line and a request, that the line asks for it.
fn check_request(rt: &impl Abort, alloc: Global, row: &str) {
    let (line, wanted) = row.split_once(" => ").expect(rt, "no arrow");
    let (request, _text) = begun(rt, alloc, line);
    let told = format!(in alloc; "{request:?}").expect(rt, "refused");
    assert_eq!(rt; told.as_str(), wanted);
}

#[test]
fn names_and_values_are_those_of_the_schema(rt: HostRuntime) {
    for row in REQUESTS.lines() {
        check_request(&rt, rt.alloc(), row);
    }
}
