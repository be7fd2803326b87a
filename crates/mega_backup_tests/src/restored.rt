//! What a restore of a backup writes.

use mega_backup::{BackupFault, line, read};
use mega_base::{Bytes, NoMemory, Position, Text};
use mega_outcome::Transaction;
use mega_schema::{Schema, parse};
use std::alloc::Global;
use std::process::Abort;

/// The schema of a text.
pub fn schema(rt: &impl Abort, alloc: Global, text: &str) -> Schema {
    let text = Text::from_str(alloc, text).expect(rt, "refused");
    parse(alloc, &text).expect(rt, "refused")
}

/// The lines of a text.
pub fn lines_of(rt: &impl Abort, alloc: Global, text: &str) -> Vec<Bytes> {
    let mut lines = Vec::new(alloc);
    for line in text.lines() {
        lines
            .push(Bytes::from_slice(alloc, line.as_bytes()).expect(rt, "refused"))
            .expect(rt, "refused");
    }
    lines
}

/// The schedule lines of transactions, one after another.
fn shown(alloc: Global, schema: &Schema, txns: &[Transaction]) -> Result<Bytes, NoMemory> {
    let mut text = Bytes::new(alloc);
    for txn in txns {
        line(alloc, schema, txn, &mut text)?;
    }
    Ok(text)
}

/// The words of a refusal.
fn refusal(rt: &impl Abort, alloc: Global, fault: &BackupFault) -> Bytes {
    let words = match fault {
        BackupFault::Short { has } => format!(in alloc; "short {}", has.0).expect(rt, "refused"),
        BackupFault::Malformed { line } => format!(in alloc; "malformed {line}").expect(
            rt, "refused",
        ),
        _ => String::from_str(alloc, "another fault").expect(rt, "refused"),
    };
    Bytes::from_slice(alloc, words.as_bytes()).expect(rt, "refused")
}

/// What a restore of these lines at a position writes.
pub fn restored(
    rt: &impl Abort,
    alloc: Global,
    schema: &Schema,
    lines: &[Bytes],
    through: u64,
) -> Bytes {
    match read(alloc, schema, lines, Position(through)) {
        Ok(txns) => shown(alloc, schema, txns.as_slice()).expect(rt, "refused"),
        Err(fault) => refusal(rt, alloc, &fault),
    }
}
