//! A plain reading of a file of runs, to lay beside an opening.
use mega_base::{Bytes, Cursor, Field, NoMemory, Row};
use std::alloc::Global;

/// A version as its bytes spell it: the row is none or one behind the byte that tells which.
#[derive(Drop)]
pub struct Spelled {
    pub key: Bytes,
    pub at: u64,
    pub row: Bytes,
}

/// What the runs since the last base hold.
#[derive(Drop)]
pub struct Held {
    pub mark: u64,
    pub versions: Vec<Spelled>,
}

/// The number in so many bytes, and the bytes behind it.
fn number(bytes: &[u8], count: usize) -> Option<(u64, &[u8])> {
    let (front, rest) = bytes.split_at_checked(count)?;
    let mut value = 0u64;
    for byte in front {
        value = value.wrapping_mul(256).wrapping_add(u64::from(*byte));
    }
    Some((value, rest))
}

/// At most 65,536 bytes behind their length, and the bytes behind them.
fn text(bytes: &[u8]) -> Option<(&[u8], &[u8])> {
    let (size, rest) = number(bytes, 4)?;
    if size > 65_536 {
        return None;
    }
    rest.split_at_checked(size as usize)
}

/// How many bytes a row or none takes.
fn row_size(alloc: Global, bytes: &[u8]) -> Option<usize> {
    match number(bytes, 1)? {
        (0, _) => Some(1),
        (1, rest) => {
            let mut cursor = Cursor::new(rest);
            match Row::take(alloc, &mut cursor) {
                Ok(_) => Some((cursor.at() as usize).saturating_add(1)),
                Err(_) => None,
            }
        }
        _ => None,
    }
}

/// The mark of the group `b` in the marks, the first that it has, and the bytes behind them.
fn mark(bytes: &[u8]) -> Option<(u64, &[u8])> {
    let (count, mut rest) = number(bytes, 4)?;
    let mut mark = None;
    for _ in 0..count {
        let (group, behind) = text(rest)?;
        let (at, behind) = number(behind, 8)?;
        if group == b"b".as_slice() && mark.is_none() {
            mark = Some(at);
        }
        rest = behind;
    }
    Some((mark.unwrap_or(0), rest))
}

/// Whether a version stands in front of this key and position.
fn is_behind(versions: &[Spelled], key: &[u8], at: u64) -> bool {
    match versions.last() {
        Some(last) => last.key.as_slice().cmp(key).then(last.at.cmp(&at)).is_lt(),
        None => true,
    }
}

/// The versions of a list with no byte behind it, where they are in order.
fn versions(alloc: Global, bytes: &[u8]) -> Result<Option<Vec<Spelled>>, NoMemory> {
    let mut found = Vec::new(alloc);
    let Some((count, mut rest)) = number(bytes, 4) else {
        return Ok(None);
    };
    for _ in 0..count {
        let Some((key, behind)) = text(rest) else {
            return Ok(None);
        };
        let Some((at, behind)) = number(behind, 8) else {
            return Ok(None);
        };
        let Some(size) = row_size(alloc, behind) else {
            return Ok(None);
        };
        let Some((row, behind)) = behind.split_at_checked(size) else {
            return Ok(None);
        };
        if !is_behind(found.as_slice(), key, at) {
            return Ok(None);
        }
        let key = Bytes::from_slice(alloc, key)?;
        let row = Bytes::from_slice(alloc, row)?;
        found.push(Spelled { key, at, row })?;
        rest = behind;
    }
    Ok(rest.is_empty().then_some(found))
}

/// Puts a version in place of the one of its key and position, or behind the others.
fn put(held: &mut Vec<Spelled>, version: Spelled) -> Result<(), NoMemory> {
    for other in held.iter_mut() {
        if other.key == version.key && other.at == version.at {
            *other = version;
            return Ok(());
        }
    }
    held.push(version)?;
    Ok(())
}

/// Takes a run in; whether its body is one.
fn take_run(alloc: Global, held: &mut Held, body: &[u8]) -> Result<bool, NoMemory> {
    let Some((kind, rest)) = number(body, 1) else {
        return Ok(false);
    };
    let Some((mark, rest)) = mark(rest) else {
        return Ok(false);
    };
    let Some(versions) = versions(alloc, rest)? else {
        return Ok(false);
    };
    if kind == 2 {
        held.versions.clear();
    }
    held.mark = mark;
    for version in versions {
        put(&mut held.versions, version)?;
    }
    Ok(kind == 1 || kind == 2)
}

/// The body behind an open gate, where it and the next gate lie whole in the bytes, and the bytes behind it.
fn body(bytes: &[u8]) -> Option<(&[u8], &[u8])> {
    let (gate, rest) = number(bytes, 1)?;
    let (size, rest) = number(rest, 8)?;
    if gate != 1 || size >= rest.len() as u64 {
        return None;
    }
    rest.split_at_checked(size as usize)
}

/// What the bytes of a file hold, or the number of the first body that is no run.
pub fn held_in(alloc: Global, file: &[u8]) -> Result<Result<Held, u64>, NoMemory> {
    let mut held = Held {
        mark: 0,
        versions: Vec::new(alloc),
    };
    let mut rest = file;
    for number in 1..1000u64 {
        let Some((body, behind)) = body(rest) else {
            break;
        };
        if !take_run(alloc, &mut held, body)? {
            return Ok(Err(number));
        }
        rest = behind;
    }
    Ok(Ok(held))
}
