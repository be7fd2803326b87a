//! The word `restore`: the schedule lines that bring back the rows of a backup.
ghost use Rattle.std.specs.Prelude.{◌≡◌, ◌≤◌, ◌++◌, ◌∷◌, [], Err, IfOk, IfErr, OnOk, OnErr, false};
ghost use Rattle.std.specs.Io.KnownBytes.{Appends};
ghost use Rattle.mega_base.specs.Causes.{Rose};
ghost use Rattle.mega_header.specs.Known.{IfKnown};
ghost use Rattle.mega_io.specs.Pieces.{AppendsFront};
ghost use Rattle.mega_backup.specs.Restoring.{read_of};
ghost use Rattle.mega_backup.specs.Spelling.{line_of};
ghost use Rattle.mega_backup_words.specs.Endings.{Ends, is_cut};
ghost use Rattle.mega_backup_words.specs.Inputs.{lines_text, read_ending, restore_of};
ghost use Rattle.mega_backup_words.specs.Stops.{IsRestoreStatus, IsRestoreStop, IsRowStop, IsSinkStop};

use crate::ending::finish;
use crate::header::read_parts;
use crate::stop::Stop;
use mega_backup::{line, read};
use mega_base::{Bytes, NoMemory, Position};
use mega_io::{Sink, SinkError, Source, put};
use mega_outcome::Transaction;
use mega_schema::Schema;
use std::alloc::Global;

/// The schedule line of a transaction, with its line feed.
fn line_text(alloc: Global, schema: &Schema, txn: &Transaction) -> Result<Bytes, NoMemory>
    ensures { IfOk result (λ text. text ≡ line_of schema.now txn.now ++ 10 ∷ []) }
{
    let mut text = Bytes::new(alloc);
    line(alloc, schema, txn, &mut text)?;
    text.push(b'\n')?;
    Ok(text)
}

/// Writes the schedule line of a transaction.
fn write_line<O: Sink>(
    alloc: Global,
    schema: &Schema,
    txn: &Transaction,
    out: &mut O,
) -> Result<(), Stop>
    ensures ok { OnOk result (Appends (O.held out.old) (O.held out.new) (line_of schema.now txn.now ++ 10 ∷ [])) }
    ensures err { OnErr result (AppendsFront (O.held out.old) (O.held out.new) (line_of schema.now txn.now ++ 10 ∷ [])) }
    ensures sink { result ≡ Err Stop.Sink → Rose (O.faults out.old) (O.faults out.new) }
    ensures only { IfErr result IsSinkStop }
    ensures count { O.faults out.old ≤ O.faults out.new }
{
    match line_text(alloc, schema, txn) {
        Ok(text) => match put(out, text.as_slice()) {
            Ok(()) => Ok(()),
            Err(SinkError::Failed) => Err(Stop::Sink),
            Err(SinkError::NoMemory) => Err(Stop::NoMemory),
        },
        Err(NoMemory) => Err(Stop::NoMemory),
    }
}

/// Writes the schedule lines of transactions.
fn write_lines<O: Sink>(
    alloc: Global,
    schema: &Schema,
    txns: &[Transaction],
    out: &mut O,
) -> Result<(), Stop>
    ensures ok { OnOk result (Appends (O.held out.old) (O.held out.new) (lines_text schema.now txns.now)) }
    ensures err { OnErr result (AppendsFront (O.held out.old) (O.held out.new) (lines_text schema.now txns.now)) }
    ensures sink { result ≡ Err Stop.Sink → Rose (O.faults out.old) (O.faults out.new) }
    ensures only { IfErr result IsSinkStop }
    ensures count { O.faults out.old ≤ O.faults out.new }
{
    for txn in txns {
        match write_line(alloc, schema, txn, out) {
            Ok(()) => {}
            Err(stop) => return Err(stop),
        }
    }
    Ok(())
}

/// Writes the schedule lines that bring back the rows of the backup that lines are, at a position.
fn restore_lines<O: Sink>(
    alloc: Global,
    schema: &Schema,
    lines: &[Bytes],
    at: Position,
    out: &mut O,
) -> Result<(), Stop>
    ensures ends { Ends (read_ending schema.now (read_of schema.now lines.now at.0)) (O.held out.old) (O.held out.new) result }
    ensures sink { result ≡ Err Stop.Sink → Rose (O.faults out.old) (O.faults out.new) }
    ensures only { IfErr result IsRowStop }
    ensures count { O.faults out.old ≤ O.faults out.new }
{
    match read(alloc, schema, lines, at) {
        Ok(txns) => write_lines(alloc, schema, txns.as_slice(), out),
        Err(fault) => Err(Stop::from(fault)),
    }
}

/// Restores the backup of an input, up to the last line that tells of a stop.
fn restore<I: Source, O: Sink>(
    alloc: Global,
    at: Position,
    input: &mut I,
    out: &mut O,
) -> Result<(), Stop>
    ensures ends { IfKnown (I.left input.old) (λ input. Ends (restore_of at.0 input) (O.held out.old) (O.held out.new) result) }
    ensures source { result ≡ Err Stop.Source → Rose (I.faults input.old) (I.faults input.new) }
    ensures sink { result ≡ Err Stop.Sink → Rose (O.faults out.old) (O.faults out.new) }
    ensures only { IfErr result IsRestoreStop }
    ensures inputs { I.faults input.old ≤ I.faults input.new }
    ensures outs { O.faults out.old ≤ O.faults out.new }
{
    match read_parts(alloc, input) {
        Ok(parts) => restore_lines(
            alloc,
            &parts.cluster.schema,
            parts.lines.as_slice(),
            at,
            out,
        ),
        Err(stop) => Err(stop),
    }
}

/// Writes a schedule line for each row of a backup at a position. The input is a header, the line `---` and the backup's lines, 2^30
/// bytes at most. The status is 0 where all lines were written; 3 where the header breaks a rule, 12 at the first line that is none of
/// a backup or is missing, 13 where the backup has fewer entries, 14 where the put of a row makes an entry that is too large, and
/// then one line that says so is the whole output; 5 and 6 where the source or the sink failed; 8 for want of memory. A front of the
/// output was written in each case.
pub fn run_restore<I: Source, O: Sink>(
    alloc: Global,
    at: Position,
    input: &mut I,
    out: &mut O,
) -> u8
    ensures whole { is_cut result ≡ false → IfKnown (I.left input.old) (λ input. (result ≡ (restore_of at.0 input).status) × Appends (O.held out.old) (O.held out.new) (restore_of at.0 input).text) }
    ensures front { IfKnown (I.left input.old) (λ input. AppendsFront (O.held out.old) (O.held out.new) (restore_of at.0 input).text) }
    ensures source { result ≡ 5 → Rose (I.faults input.old) (I.faults input.new) }
    ensures sink { result ≡ 6 → Rose (O.faults out.old) (O.faults out.new) }
    ensures only { IsRestoreStatus result }
    ensures inputs { I.faults input.old ≤ I.faults input.new }
    ensures outs { O.faults out.old ≤ O.faults out.new }
{
    let ended = restore(alloc, at, input, out);
    finish(alloc, ended, out)
}
