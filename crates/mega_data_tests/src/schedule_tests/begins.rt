//! What lines of operations ask for, and the text with which they begin.

use super::schema;
use mega_base::Text;
use mega_outcome::Request;
use mega_schedule::{WorldEvent, event};
use std::alloc::Global;
use std::process::Abort;

/// Lines of operations, and behind an arrow the text with which each begins.
const TEXTS: &str =
    r#"{"do":"txn","node":1,"group":["A",[1]],"checks":[],"reads":[],"writes":[{"put":"A","row":{"s":"John","id":101}}],"sends":[]} => {"checks":[],"do":"txn","group":["A",[1]],"node":1,"reads":[],"sends":[],"writes":[{"put":"A","row":{"id":101,"s":"John"}}]}
{"do":"batch","node":1,"group":["Account",[1]],"txns":[{"checks":[],"reads":[],"writes":[{"add":"Account","key":[1],"property":"balance","by":-30}],"sends":[]},{"checks":[{"is":"Account","key":[1],"property":"balance","values":[100]}],"reads":[],"writes":[],"sends":[]}]} => {"do":"batch","group":["Account",[1]],"node":1,"txns":[{"checks":[],"reads":[],"sends":[],"writes":[{"add":"Account","by":-30,"key":[1],"property":"balance"}]},{"checks":[{"is":"Account","key":[1],"property":"balance","values":[100]}],"reads":[],"sends":[],"writes":[]}]}
{"do":"read","node":3,"mode":"current","group":["Account",[2]],"rows":[{"row":"Account","key":[2]}]} => {"do":"read","group":["Account",[2]],"mode":"current","node":3,"rows":[{"key":[2],"row":"Account"}]}
{"do":"find","node":1,"index":"PhotosByTime","values":[101],"mode":"snapshot","group":["User",[101]]} => {"do":"find","group":["User",[101]],"index":"PhotosByTime","mode":"snapshot","node":1,"values":[101]}
{"do":"find","node":1,"index":"PhotosByTag","values":["Paris"]} => {"do":"find","index":"PhotosByTag","node":1,"values":["Paris"]}
 { "what" : "enter" , "do" : "pump", "node":2 }  => {"do":"pump","node":2,"what":"enter"}
{"node":1,"do":"refresh"} => {"do":"refresh","node":1}
{"do":"find","index":"","node":1,"node":2,"values":[-9223372036854775808,9223372036854775807,true,"\u00fc\ud83d\ude00\u0001\/\b"]} => {"do":"find","index":"","node":2,"values":[-9223372036854775808,9223372036854775807,true,"ü😀\u0001/\b"]}
{"do":"txn","node":1,"group":["A",["\u00e9"]],"checks":[],"reads":[],"writes":[{"put":"A","row":{"\u00fc":1,"a":2,"B":3,"\u0001":"\b\f\n\r\t\u001F\"\\","":5,"aa":"\uD83D\uDE00","a":6}}],"sends":[]} => {"checks":[],"do":"txn","group":["A",["é"]],"node":1,"reads":[],"sends":[],"writes":[{"put":"A","row":{"":5,"\u0001":"\b\f\n\r\t\u001f\"\\","B":3,"a":6,"aa":"😀","ü":1}}]}"#;

/// The request and the text of a line that begins an operation.
pub fn begun(rt: &impl Abort, alloc: Global, line: &str) -> (Request, Text) {
    let schema = schema(rt, alloc);
    match event(alloc, line.as_bytes(), 1, &schema) {
        Ok(
            WorldEvent::Begin {
                node: _,
                request,
                text,
            },
        ) => (request, text),
        _ => panic!(rt; "no operation begins"),
    }
}

/// Asserts of a row, which is a line and a text, that the line's operation begins with the text.
fn check_text(rt: &impl Abort, alloc: Global, row: &str) {
    let (line, wanted) = row.split_once(" => ").expect(rt, "no arrow");
    let (_request, text) = begun(rt, alloc, line);
    assert_eq!(rt; text.as_str(), wanted);
}

#[test]
fn the_text_of_a_begin_is_compact_with_keys_in_order(rt: HostRuntime) {
    for row in TEXTS.lines() {
        check_text(&rt, rt.alloc(), row);
    }
}
