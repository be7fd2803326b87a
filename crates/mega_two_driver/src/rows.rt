//! What the row that a read shows tells of a plan or of a lock.
ghost use Rattle.std.specs.Prelude.{◌≡◌, IfOk, option_map, option_and_then, Some};
ghost use Rattle.std.specs.Option.{option_copied};
ghost use Rattle.serde_json.specs.View.{view};
ghost use Rattle.mega_two_driver.specs.Rows.{data_in, first_row, holder_told, line_digits, list_in, lock_row_told, lock_told, number_in, plan_line, plan_row_told, plan_told, row_or_null, rows_in, state_told, text_in};

use crate::words::{has_word, same, unread_told};
use mega_base::{Bytes, NoMemory};
use mega_schedule::values::bytes_of;
use mega_two_moves::{RequestResult, State};
use serde_json::Value as Json;
use std::alloc::Global;

/// A reply from its first bracket on.
fn list_in(reply: &[u8]) -> &[u8]
    ensures { result.now ≡ list_in reply.now }
{
    match reply {
        [] => reply,
        [byte, text @ ..] => { if *byte == b'[' { reply } else { list_in(text) } }
    }
}

/// The JSON that a text is, if it is some.
fn data_in(alloc: Global, text: &[u8]) -> Result<Option<Json>, NoMemory>
    ensures { IfOk result (λ found. option_map view found ≡ data_in text.now) }
{
    match Json::from_slice(alloc, text) {
        Ok(value) => Ok(Some(value)),
        Err(error) => {
            if error.is_memory() {
                Err(NoMemory)
            } else {
                Ok(None)
            }
        }
    }
}

/// The rows of a reply to a read.
#[tactic(auto, unfolding(crate::specs::Rows::rows_in))]
fn rows_in(alloc: Global, reply: &[u8]) -> Result<Option<Json>, NoMemory>
    ensures { IfOk result (λ found. option_map view found ≡ rows_in reply.now) }
{
    if has_word(b"read", reply) {
        data_in(alloc, list_in(reply))
    } else {
        Ok(None)
    }
}

/// No row where null stands, else the object behind the table's name.
fn row_or_null(shown: &Json) -> Option<Option<&Json>>
    ensures { option_map (λ row. option_map (λ v. view v.now) row) result ≡ row_or_null (view shown.now) }
{
    if shown.is_null() {
        return Some(None);
    }
    match shown.get(1usize) {
        Some(row) => Some(Some(row)),
        None => None,
    }
}

/// The first of the rows: none where they cannot be read.
fn first_row(rows: Option<&Json>) -> Option<Option<&Json>>
    ensures { option_map (λ row. option_map (λ v. view v.now) row) result ≡ first_row (option_map view (option_copied rows.entry)) }
{
    match rows {
        Some(rows) => match rows.get(0usize) {
            Some(shown) => row_or_null(shown),
            None => None,
        },
        None => None,
    }
}

fn state_told(number: Option<u64>) -> RequestResult
    ensures { result ≡ state_told number }
{
    match number {
        Some(0) => RequestResult::StateIs(State::Undecided),
        Some(1) => RequestResult::StateIs(State::Made),
        Some(2) => RequestResult::StateIs(State::Dropped),
        _ => RequestResult::Again,
    }
}

fn number_in(row: &Json, name: &str) -> Option<u64>
    ensures { result ≡ number_in name.now (view row.now) }
{
    row.get(name).and_then(Json::as_u64)
}

fn text_in<'a>(row: &'a Json, name: &str) -> Option<&'a str>
    ensures { option_map (λ s. s.now) result ≡ text_in name.now (view row.now) }
{
    row.get(name).and_then(Json::as_str)
}

/// What a look at the plan tells.
#[tactic(auto, unfolding(crate::specs::Rows::plan_told))]
pub(crate) fn plan_told(alloc: Global, reply: &[u8]) -> Result<RequestResult, NoMemory>
    ensures { IfOk result (λ told. told ≡ plan_told reply.now) }
{
    let rows = rows_in(alloc, reply)?;
    match first_row(rows.as_ref()) {
        Some(Some(row)) => Ok(state_told(number_in(row, "state"))),
        Some(None) => Ok(RequestResult::NoPlan),
        None => Ok(unread_told(reply)),
    }
}

fn holder_told(name: &str, holder: Option<&str>) -> RequestResult
    ensures { result ≡ holder_told name.now (option_map (λ s. s.now) holder.entry) }
{
    match holder {
        Some(holder) => {
            if same(holder.as_bytes(), name.as_bytes()) {
                RequestResult::Held
            } else {
                RequestResult::Free
            }
        }
        None => RequestResult::Again,
    }
}

/// What a look at a lock tells the change with this name.
#[tactic(auto, unfolding(crate::specs::Rows::lock_told))]
pub(crate) fn lock_told(alloc: Global, name: &str, reply: &[u8]) -> Result<RequestResult, NoMemory>
    ensures { IfOk result (λ told. told ≡ lock_told name.now reply.now) }
{
    let rows = rows_in(alloc, reply)?;
    match first_row(rows.as_ref()) {
        Some(Some(row)) => Ok(holder_told(name, text_in(row, "gid"))),
        Some(None) => Ok(RequestResult::Free),
        None => Ok(unread_told(reply)),
    }
}

fn line_digits(row: Option<Option<&Json>>) -> &str
    ensures { result.now ≡ line_digits (option_map (λ row. option_map (λ v. view v.now) row) row.entry) }
{
    match row {
        Some(Some(row)) => text_in(row, "plan").unwrap_or(""),
        _ => "",
    }
}

/// The line that a plan holds, none where it shows none.
#[tactic(auto, unfolding(crate::specs::Rows::plan_line))]
pub(crate) fn plan_line(alloc: Global, reply: &[u8]) -> Result<Bytes, NoMemory>
    ensures { IfOk result (λ line. line ≡ plan_line reply.now) }
{
    let rows = rows_in(alloc, reply)?;
    let digits = line_digits(first_row(rows.as_ref()));
    bytes_of(alloc, digits)
}
