//! Whether a part fits a schema: its tables are there, and its finish may be done.
ghost use Rattle.std.specs.Prelude.{◌≡◌, [], IfOk, map, true, Some};
ghost use Rattle.std.specs.List.{list_all};
ghost use Rattle.serde_json.specs.View.{view};
ghost use Rattle.mega_index.specs.Rows.{same_key};
ghost use Rattle.mega_outcome.specs.Outcome.{entry_length};
ghost use Rattle.mega_two_driver.specs.Texts.{finish_text};
ghost use Rattle.mega_two_driver.specs.Begins.{group_key};
ghost use Rattle.mega_two_driver.specs.Fits.{are_apart, is_new, key_of, may_stand, no_transaction, own_of, part_fits, table_of, transaction_asked, transaction_fits, transaction_in, transaction_of};
ghost use Rattle.mega_two_driver.specs.Tables.{may_write};

use crate::parts::{finish_text, own_text};
use crate::places::writes_of;
use crate::tables::{has_tables, may_write};
use mega_base::{Bytes, GroupId, Items, NoMemory};
use mega_entry::Write;
use mega_outcome::lengths::{sum, writes_length};
use mega_outcome::{Change, Request, Transaction};
use mega_schedule::{Ask, LineFault, asked};
use mega_schema::Schema;
use serde_json::Value as Json;
use std::alloc::Global;

/// The most bytes that an entry may have.
const MOST_BYTES: u64 = 32_768;

/// A transaction of no group, which fits no schema.
fn no_transaction(alloc: Global) -> Result<Transaction, NoMemory>
    ensures { IfOk result (λ txn. txn ≡ no_transaction) }
{
    let group = GroupId::new(alloc, Bytes::new(alloc))?;
    Ok(Transaction {
        group,
        checks: Items::new(alloc),
        reads: Items::new(alloc),
        writes: Items::new(alloc),
        sends: Items::new(alloc),
    })
}

fn transaction_in(alloc: Global, request: Request) -> Result<Transaction, NoMemory>
    ensures { IfOk result (λ txn. txn ≡ transaction_in request) }
{
    match request {
        Request::Txn(txn) => Ok(txn),
        _ => no_transaction(alloc),
    }
}

/// The transaction that a text asks of a node.
#[tactic(auto, unfolding(crate::specs::Fits::transaction_of))]
fn transaction_of(alloc: Global, schema: &Schema, text: &[u8]) -> Result<Transaction, NoMemory>
    ensures { IfOk result (λ txn. txn ≡ transaction_of schema.now text.now) }
{
    match asked(alloc, text, 1, schema) {
        Ok(ask) => {
            let Ask { request, .. } = ask;
            transaction_in(alloc, request)
        }
        Err(LineFault::NoMemory) => Err(NoMemory),
        Err(LineFault::Refused { .. }) => no_transaction(alloc),
    }
}

/// The part alone, as a transaction.
pub(crate) fn own_of(alloc: Global, schema: &Schema, part: &Json) -> Result<Transaction, NoMemory>
    ensures { IfOk result (λ txn. txn ≡ own_of schema.now (view part.now)) }
{
    let text = own_text(alloc, part)?;
    transaction_of(alloc, schema, text.as_slice())
}

fn is_key(key: &[u8], other: &Write) -> bool
    ensures { result ≡ same_key key.now (key_of other.now) }
{
    key.cmp(other.key.as_slice()).is_eq()
}

fn is_new_write(write: &Write, writes: &[Write]) -> bool
    ensures { result ≡ is_new (key_of write.now) (map key_of writes.now) }
{
    for other in writes {
        if is_key(write.key.as_slice(), other) {
            return false;
        }
    }
    true
}

/// No two writes are of one row.
fn are_writes_apart(writes: &[Write]) -> bool
    ensures { result ≡ are_apart (map key_of writes.now) }
{
    match writes {
        [] => true,
        [write, writes @ ..] => is_new_write(write, writes) && are_writes_apart(writes),
    }
}

fn group_key(txn: &Transaction) -> &[u8]
    ensures { result.now ≡ group_key txn.now }
{
    txn.group.key.as_slice()
}

fn is_group(key: &[u8], other: &Transaction) -> bool
    ensures { result ≡ same_key key.now (group_key other.now) }
{
    key.cmp(group_key(other)).is_eq()
}

fn is_new_group(txn: &Transaction, txns: &[Transaction]) -> bool
    ensures { result ≡ is_new (group_key txn.now) (map group_key txns.now) }
{
    for other in txns {
        if is_group(group_key(txn), other) {
            return false;
        }
    }
    true
}

/// No two transactions are of one group.
pub(crate) fn are_groups_apart(txns: &[Transaction]) -> bool
    ensures { result ≡ are_apart (map group_key txns.now) }
{
    match txns {
        [] => true,
        [txn, txns @ ..] => is_new_group(txn, txns) && are_groups_apart(txns),
    }
}

/// The length of the entry that has these writes and nothing else.
#[tactic(auto, using(crate::proofs::Alone::writes_alone))]
fn entry_length(writes: &[Write]) -> Result<u64, NoMemory>
    ensures { IfOk result (λ n. n ≡ entry_length writes.now [] []) }
{
    sum(28, writes_length(writes)?)
}

fn may_stand(writes: &[Write]) -> Result<bool, NoMemory>
    ensures { IfOk result (λ may. may ≡ may_stand (Some writes.now)) }
{
    let bytes = entry_length(writes)?;
    Ok(are_writes_apart(writes) && bytes <= MOST_BYTES)
}

#[tactic(auto, unfolding(crate::specs::Fits::transaction_fits))]
fn transaction_fits(alloc: Global, schema: &Schema, txn: &Transaction) -> Result<bool, NoMemory>
    ensures { IfOk result (λ fits. fits ≡ transaction_fits schema.now txn.now) }
{
    let group = txn.group.key.as_slice();
    match writes_of(alloc, schema, group, txn.writes.as_slice())? {
        Some(writes) => may_stand(writes.as_slice()),
        None => Ok(false),
    }
}

fn table_of(change: &Change) -> u8
    ensures { result ≡ table_of change.now }
{
    match change {
        Change::Put(number, _) => *number,
        Change::Delete(row) | Change::Add(row, _, _) => row.table,
    }
}

/// Whether a part of this group may write the tables of all these changes.
fn may_write_all(
    alloc: Global,
    schema: &Schema,
    group: &[u8],
    changes: &[Change],
) -> Result<bool, NoMemory>
    ensures { IfOk result (λ may. may ≡ list_all (λ change. may_write schema.now group.now (table_of change)) changes.now) }
{
    for change in changes {
        if !may_write(alloc, schema, group, table_of(change))? {
            return Ok(false);
        }
    }
    Ok(true)
}

fn finish_fits(alloc: Global, schema: &Schema, name: &str, part: &Json) -> Result<bool, NoMemory>
    ensures { IfOk result (λ fits. fits ≡ transaction_fits schema.now (transaction_of schema.now (finish_text schema.now true name.now (view part.now)))) }
{
    let text = finish_text(alloc, schema, true, name.as_bytes(), part)?;
    let finish = transaction_of(alloc, schema, text.as_slice())?;
    transaction_fits(alloc, schema, &finish)
}

/// Whether a part fits: its tables are there, it writes none of them and none with a local index, and its finish fits.
#[tactic(auto, unfolding(crate::specs::Fits::part_fits))]
pub(crate) fn part_fits(
    alloc: Global,
    schema: &Schema,
    name: &str,
    own: &Transaction,
    part: &Json,
) -> Result<bool, NoMemory>
    ensures { IfOk result (λ fits. fits ≡ part_fits schema.now name.now own.now (view part.now)) }
{
    let group = own.group.key.as_slice();
    let tables = has_tables(alloc, schema, group)?;
    let writes = may_write_all(alloc, schema, group, own.writes.as_slice())?;
    let finish = finish_fits(alloc, schema, name, part)?;
    Ok(tables && writes && finish)
}
