//! Lines that begin no change, and the reason.

use crate::driven::{reason_of, schema};
use crate::samples;

#[test]
fn lines_are_refused_for_their_first_reason(rt: HostRuntime) {
    let alloc = rt.alloc();
    let schema = schema(&rt, alloc);
    for row in samples::REFUSED.lines() {
        let (reason, line) = row.split_once(' ').expect(&rt, "no reason");
        let wanted = reason.parse::<u8>().expect(&rt, "refused");
        assert_eq!(rt; reason_of(alloc, &schema, line), wanted, "{row}");
    }
}
