//! Texts of a format in hex, cut short at each byte and changed at each byte, and where each is refused.
use mega_base::{Bytes, Field, FieldFault, decode, encode};
use std::alloc::{AllocError, Global};
use std::process::Abort;

/// Where the text is refused; 1000 where it is that of the value which it is read as.
fn place<T: Field>(rt: &impl Abort, alloc: Global, bytes: &[u8]) -> u64 {
    match decode::<T>(alloc, bytes) {
        Ok(value) => {
            let mut out = Bytes::new(alloc);
            encode(&value, &mut out).expect(rt, "refused");
            if out.as_slice() == bytes { 1000 } else { 0 }
        }
        Err(FieldFault::Malformed { at }) => at,
        Err(FieldFault::NoMemory) => 0,
    }
}

fn changed(alloc: Global, bytes: &[u8], place: usize, mask: u8) -> Result<Vec<u8>, AllocError> {
    let mut made = Vec::new(alloc);
    for (at, byte) in bytes.iter().enumerate() {
        made.push(if at == place { *byte ^ mask } else { *byte })?;
    }
    Ok(made)
}

/// The sum of the places where a text is refused, over its bytes and three changes of each.
fn sum_of_changes<T: Field>(rt: &impl Abort, alloc: Global, bytes: &[u8]) -> u64 {
    let mut sum = 0u64;
    for at in 0..bytes.len() {
        for mask in [1u8, 128, 255] {
            let text = changed(alloc, bytes, at, mask).expect(rt, "refused");
            sum = sum.wrapping_add(place::<T>(rt, alloc, text.as_slice()));
        }
    }
    sum
}

/// Asserts that a number is the one that its row begins with.
pub fn check_told(rt: &impl Abort, alloc: Global, told: u64, wanted: &str, text: &str) {
    let told = format!(in alloc; "{told}").expect(rt, "refused");
    assert_eq!(rt; told.as_str(), wanted, "{text}");
}

/// Asserts of a row, which is a place and a text, that the text is refused there.
fn check_place<T: Field>(rt: &impl Abort, alloc: Global, row: &str) {
    let (wanted, text) = row.split_once(' ').expect(rt, "no place");
    let bytes = hex::decode(alloc, text).expect(rt, "refused");
    let told = place::<T>(rt, alloc, bytes.as_slice());
    check_told(rt, alloc, told, wanted, text);
}

/// Asserts of each row, which is a place and a text, that the text is refused there.
pub fn check_places<T: Field>(rt: &impl Abort, alloc: Global, rows: &str) {
    for row in rows.lines() {
        check_place::<T>(rt, alloc, row);
    }
}

/// Asserts that a text is that of a value, and that what is cut short is refused at its end.
fn check_cuts<T: Field>(rt: &impl Abort, alloc: Global, bytes: &[u8]) {
    assert_eq!(rt; place::<T>(rt, alloc, bytes), 1000);
    for end in 0..bytes.len() {
        assert_eq!(rt; place::<T>(rt, alloc, &bytes[..end]), end as u64);
    }
}

/// Asserts of a row, which is a sum and a text, that its changes have that sum.
fn check_change<T: Field>(rt: &impl Abort, alloc: Global, row: &str) {
    let (wanted, text) = row.split_once(' ').expect(rt, "no sum");
    let bytes = hex::decode(alloc, text).expect(rt, "refused");
    let sum = sum_of_changes::<T>(rt, alloc, bytes.as_slice());
    check_told(rt, alloc, sum, wanted, text);
    check_cuts::<T>(rt, alloc, bytes.as_slice());
}

/// Asserts of each row, which is a sum and a text, that its changes have that sum.
pub fn check_changes<T: Field>(rt: &impl Abort, alloc: Global, rows: &str) {
    for row in rows.lines() {
        check_change::<T>(rt, alloc, row);
    }
}
