//! A plain reading of a file of records, byte by byte, to lay beside an opening.
use mega_base::{Bytes, NoMemory};
use std::alloc::Global;

const PAGE: u64 = 4096;

/// The byte at a place of the file or, where `first` is not 0, of the area that begins with this page.
fn byte(file: &[u8], first: u64, place: u64) -> Option<u8> {
    if first == 0 {
        return file.get(place as usize).copied();
    }
    let pages = (file.len() as u64).saturating_sub(PAGE) / (2 * PAGE);
    if place / PAGE >= pages {
        return None;
    }
    let page = (place / PAGE).saturating_mul(2).saturating_add(first);
    let at = page.saturating_mul(PAGE).saturating_add(place % PAGE);
    file.get(at as usize).copied()
}

/// The number in so many bytes from a place on.
fn number(file: &[u8], first: u64, place: u64, count: u64) -> Option<u64> {
    let mut value = 0u64;
    for i in 0..count {
        let byte = byte(file, first, place.saturating_add(i))?;
        value = value.wrapping_mul(256).wrapping_add(u64::from(byte));
    }
    Some(value)
}

/// The body of the record at a place, where it and the gate behind it lie whole there.
fn record(alloc: Global, file: &[u8], first: u64, place: u64) -> Result<Option<Bytes>, NoMemory> {
    if byte(file, first, place) != Some(1) {
        return Ok(None);
    }
    let Some(size) = number(file, first, place.saturating_add(1), 4) else {
        return Ok(None);
    };
    let start = place.saturating_add(5);
    if byte(file, first, start.saturating_add(size)).is_none() {
        return Ok(None);
    }
    let mut body = Bytes::new(alloc);
    for i in 0..size {
        let byte = byte(file, first, start.saturating_add(i)).unwrap_or(0);
        body.push(byte)?;
    }
    Ok(Some(body))
}

/// The bodies of the records from a place on.
fn chain(alloc: Global, file: &[u8], first: u64, start: u64) -> Result<Vec<Bytes>, NoMemory> {
    let mut found = Vec::new(alloc);
    let mut place = start;
    for _ in 0..file.len() {
        let Some(body) = record(alloc, file, first, place)? else {
            return Ok(found);
        };
        place = place.saturating_add(5).saturating_add(body.len() as u64);
        found.push(body)?;
    }
    Ok(found)
}

/// The generation of the area that begins with this page, where its gate is open.
fn generation(file: &[u8], first: u64) -> Option<u64> {
    if byte(file, first, 0) != Some(1) {
        return None;
    }
    number(file, first, 1, 8)
}

/// The records that the bytes of a file hold.
pub fn records_in(alloc: Global, file: &[u8]) -> Result<Vec<Bytes>, NoMemory> {
    let marked = file.len() >= 12288 && number(file, 0, 1, 3) == Some(0x474132);
    if !marked || byte(file, 0, 0) == Some(0) {
        return chain(alloc, file, 0, 0);
    }
    match (generation(file, 1), generation(file, 2)) {
        (None, None) => Ok(Vec::new(alloc)),
        (Some(odd), Some(even)) if even > odd => chain(alloc, file, 2, 9),
        (None, Some(_)) => chain(alloc, file, 2, 9),
        _ => chain(alloc, file, 1, 9),
    }
}
