//! Fields of a text in turn, and texts that are no UTF-8.
use crate::asserted::same;
use crate::changes::check_places;
use mega_base::{Bytes, Cursor, CursorFault, Text, put_bytes, put_u8, put_u32, put_u64};
use std::alloc::Global;
use std::process::Abort;

/// A field of each kind.
fn fields(rt: &impl Abort, alloc: Global) -> Bytes {
    let mut out = Bytes::new(alloc);
    put_u8(&mut out, 7).expect(rt, "refused");
    put_u32(&mut out, 0x0102_0304).expect(rt, "refused");
    put_u64(&mut out, 5).expect(rt, "refused");
    put_bytes(&mut out, b"ab").expect(rt, "refused");
    out
}

#[test]
fn fields_in_turn(rt: HostRuntime) {
    let out = fields(&rt, rt.alloc());
    let mut cursor = Cursor::new(out.as_slice());
    same(&rt, cursor.take_u8(), Ok(7));
    same(&rt, cursor.take_u32(), Ok(0x0102_0304));
    same(&rt, cursor.take_u64(), Ok(5));
    same(&rt, cursor.take_bytes(), Ok(b"ab".as_slice()));
    same(&rt, cursor.is_at_end(), true);
    same(&rt, cursor.take_u8(), Err(CursorFault::Short { at: 19 }));
}

#[test]
fn a_field_that_is_too_long_is_not_taken(rt: HostRuntime) {
    let mut long = Cursor::new(&[0, 1, 0, 1, 9]);
    let fault = CursorFault::Long {
        at: 3,
        length: 65_537,
    };
    same(&rt, long.take_bytes(), Err(fault));
    same(&rt, long.at(), 0);
}

/// Texts, each behind the place where it is refused, or behind 1000.
const TEXTS: &str = "1000 00000002c3a9
5 00000002c328
4 00000001c3a9
5 00000003eda080
5 00000004f4908080
7 0000000961e282
4 00000009ff
0 01";

#[test]
fn texts(rt: HostRuntime) {
    check_places::<Text>(&rt, rt.alloc(), TEXTS);
}
