//! What is wrong with the reads, checks, writes and sends of a line.
ghost use Rattle.std.specs.Prelude.{◌≡◌, codes};
ghost use Rattle.serde_json.specs.View.{view, members_view};
ghost use Rattle.mega_schedule.specs.declared.verdict.Verdict.TheVariants.{Fine};
ghost use Rattle.mega_schedule.specs.Fields.{each};
ghost use Rattle.mega_schedule.specs.Parts.{row_check, read_check, is_check, check_fields, check_check, cell_check, worst_cell, cells_check, put_check, add_check, write_fields, write_check, send_fields, send_check, items_check, transaction_check};

use crate::fields::{
    Checked, GroupField, HexField, TextField, ValueField, ValuesField, WholeField, at_most, each,
    required,
};
use crate::verdict::Verdict;
use serde_json::{Map, Value as Json};

/// A table's name under this word, and a key.
fn row_check(object: &Json, word: &str) -> Verdict
    ensures { result ≡ row_check word.now (view object.now) }
{
    at_most(object, 2)
        .and(required::<TextField>(object, word))
        .and(required::<ValuesField>(object, "key"))
}

/// A read of a transaction or of a line.
pub(crate) struct ReadPart;

impl Checked for ReadPart {
    ghost checks = { read_check };

    fn check(value: &Json) -> Verdict {
        if value.is_object() {
            row_check(value, "row")
        } else {
            Verdict::WrongKind
        }
    }
}

fn is_check(object: &Json) -> Verdict
    ensures { result ≡ is_check (view object.now) }
{
    at_most(object, 4)
        .and(required::<TextField>(object, "is"))
        .and(required::<ValuesField>(object, "key"))
        .and(required::<TextField>(object, "property"))
        .and(required::<ValuesField>(object, "values"))
}

/// A check is told by the first word that it has; without any it lacks a field.
fn check_fields(object: &Json) -> Verdict
    ensures { result ≡ check_fields (view object.now) }
{
    if object.get("there").is_some() {
        row_check(object, "there")
    } else if object.get("gone").is_some() {
        row_check(object, "gone")
    } else if object.get("is").is_some() {
        is_check(object)
    } else {
        Verdict::Missing
    }
}

/// A check of a transaction.
pub(crate) struct CheckPart;

impl Checked for CheckPart {
    ghost checks = { check_check };

    fn check(value: &Json) -> Verdict {
        if value.is_object() {
            check_fields(value)
        } else {
            Verdict::WrongKind
        }
    }
}

/// One value, or a list of them.
fn cell_check(value: &Json) -> Verdict
    ensures { result ≡ cell_check (view value.now) }
{
    if value.is_array() {
        ValuesField::check(value)
    } else {
        ValueField::check(value)
    }
}

fn worst_cell(members: &Map<String, Json>) -> Verdict
    ensures { result ≡ worst_cell Fine (members_view members.now.entries) }
{
    let mut found = Verdict::Fine;
    for (_, value) in members.iter() {
        found = found.and(cell_check(value));
    }
    found
}

/// The row of a put.
struct CellsField;

impl Checked for CellsField {
    ghost checks = { cells_check };

    fn check(value: &Json) -> Verdict {
        match value.as_object() {
            Some(members) => worst_cell(members),
            None => Verdict::WrongKind,
        }
    }
}

fn put_check(object: &Json) -> Verdict
    ensures { result ≡ put_check (view object.now) }
{
    at_most(object, 2)
        .and(required::<TextField>(object, "put"))
        .and(required::<CellsField>(object, "row"))
}

fn add_check(object: &Json) -> Verdict
    ensures { result ≡ add_check (view object.now) }
{
    at_most(object, 4)
        .and(required::<TextField>(object, "add"))
        .and(required::<ValuesField>(object, "key"))
        .and(required::<TextField>(object, "property"))
        .and(required::<WholeField>(object, "by"))
}

/// A write is told by the first word that it has; without any it lacks a field.
fn write_fields(object: &Json) -> Verdict
    ensures { result ≡ write_fields (view object.now) }
{
    if object.get("put").is_some() {
        put_check(object)
    } else if object.get("delete").is_some() {
        row_check(object, "delete")
    } else if object.get("add").is_some() {
        add_check(object)
    } else {
        Verdict::Missing
    }
}

/// A write of a transaction.
pub(crate) struct WritePart;

impl Checked for WritePart {
    ghost checks = { write_check };

    fn check(value: &Json) -> Verdict {
        if value.is_object() {
            write_fields(value)
        } else {
            Verdict::WrongKind
        }
    }
}

fn send_fields(object: &Json) -> Verdict
    ensures { result ≡ send_fields (view object.now) }
{
    at_most(object, 3)
        .and(required::<GroupField>(object, "to"))
        .and(required::<TextField>(object, "queue"))
        .and(required::<HexField>(object, "payload"))
}

/// A send of a transaction.
pub(crate) struct SendPart;

impl Checked for SendPart {
    ghost checks = { send_check };

    fn check(value: &Json) -> Verdict {
        if value.is_object() {
            send_fields(value)
        } else {
            Verdict::WrongKind
        }
    }
}

/// The checks that a field lists.
pub struct ChecksField;

impl Checked for ChecksField {
    ghost checks = { each check_check };

    fn check(value: &Json) -> Verdict {
        each::<CheckPart>(value)
    }
}

/// The reads that a field lists.
pub(crate) struct ReadsField;

impl Checked for ReadsField {
    ghost checks = { each read_check };

    fn check(value: &Json) -> Verdict {
        each::<ReadPart>(value)
    }
}

/// The writes that a field lists.
pub struct WritesField;

impl Checked for WritesField {
    ghost checks = { each write_check };

    fn check(value: &Json) -> Verdict {
        each::<WritePart>(value)
    }
}

/// The sends that a field lists.
struct SendsField;

impl Checked for SendsField {
    ghost checks = { each send_check };

    fn check(value: &Json) -> Verdict {
        each::<SendPart>(value)
    }
}

/// The four lists of a transaction.
pub(crate) fn items_check(object: &Json) -> Verdict
    ensures { result ≡ items_check (view object.now) }
{
    required::<ChecksField>(object, "checks")
        .and(required::<ReadsField>(object, "reads"))
        .and(required::<WritesField>(object, "writes"))
        .and(required::<SendsField>(object, "sends"))
}

/// A transaction of a batch.
pub(crate) struct TransactionPart;

impl Checked for TransactionPart {
    ghost checks = { transaction_check };

    fn check(value: &Json) -> Verdict {
        if value.is_object() {
            at_most(value, 4).and(items_check(value))
        } else {
            Verdict::WrongKind
        }
    }
}
