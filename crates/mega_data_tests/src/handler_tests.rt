//! Handlers add to a number and copy a write, and a queue has one handler.

use crate::asserted::same;
use mega_base::{Bytes, Cell, GroupId, Items, Position, Row, Text, Value};
use mega_entry::{Enter, Name, Write};
use mega_handler::{Copy, Credit, Handler, HandlerFault, Handlers};
use mega_index::values_of;
use std::alloc::Global;
use std::process::Abort;

const KEY: [u8; 2] = [1, 7];

fn text(rt: &impl Abort, alloc: Global, text: &str) -> Text {
    Text::from_str(alloc, text).expect(rt, "refused")
}

/// Adds a cell of one value.
fn add(rt: &impl Abort, alloc: Global, cells: &mut Items<Cell>, property: u8, value: Value) {
    let mut values = Items::new(alloc);
    values.push(value).expect(rt, "refused");
    cells.push(Cell { property, values }).expect(rt, "refused");
}

/// The rows of a group with one account: its number 7, its balance, its owner.
fn rows(rt: &impl Abort, alloc: Global, balance: i64) -> Vec<(Bytes, Row)> {
    let mut cells = Items::new(alloc);
    add(rt, alloc, &mut cells, 1, Value::Int64(7));
    add(rt, alloc, &mut cells, 2, Value::Int64(balance));
    add(rt, alloc, &mut cells, 3, Value::Str(text(rt, alloc, "Ann")));
    let key = Bytes::from_slice(alloc, &KEY).expect(rt, "refused");
    let row = Row::new(alloc, cells).expect(rt, "refused");
    vec![in alloc; (key, row)].expect(rt, "refused")
}

fn message(rt: &impl Abort, alloc: Global, payload: Bytes) -> Enter {
    let key = Bytes::from_slice(alloc, &[1]).expect(rt, "refused");
    let group = GroupId::new(alloc, key).expect(rt, "refused");
    let name = Name {
        group,
        position: Position(3),
        place: 0,
    };
    let queue = text(rt, alloc, "credit");
    Enter {
        name,
        queue,
        payload,
    }
}

/// A payload that adds an amount to a property of the row under a key.
fn credit_of(rt: &impl Abort, alloc: Global, amount: i64, property: u8, key: &[u8]) -> Bytes {
    let mut payload = Bytes::from_slice(alloc, &amount.to_be_bytes()).expect(rt, "refused");
    payload.push(property).expect(rt, "refused");
    payload.extend_from_slice(key).expect(rt, "refused");
    payload
}

/// The balance that the first of these writes puts.
fn balance_in(writes: &[Write]) -> Option<i64> {
    let row = writes.first()?.row.as_ref()?;
    match values_of(row, 2) {
        [Value::Int64(number)] => Some(*number),
        _ => None,
    }
}

/// The balance that the first write of a handler puts.
fn put_balance(
    rt: &impl Abort,
    alloc: Global,
    handler: &mut Credit,
    payload: Bytes,
    balance: i64,
) -> Option<i64> {
    let rows = rows(rt, alloc, balance);
    let message = message(rt, alloc, payload);
    let (writes, _) = handler
        .handle(alloc, &message, rows.as_slice())
        .expect(rt, "refused");
    balance_in(writes.as_slice())
}

/// Asserts what balance is put where an amount is added to a property of the account, which has a hundred.
fn check_credit(
    rt: &impl Abort,
    alloc: Global,
    credit: &mut Credit,
    amount: i64,
    property: u8,
    expected: Option<i64>,
) {
    let payload = credit_of(rt, alloc, amount, property, &KEY);
    same(rt, put_balance(rt, alloc, credit, payload, 100), expected);
}

#[test]
fn credit_adds_to_a_number(rt: HostRuntime) {
    let alloc = rt.alloc();
    let mut credit = Credit::new(1);
    check_credit(&rt, alloc, &mut credit, 30, 2, Some(130));
    check_credit(&rt, alloc, &mut credit, -130, 2, Some(-30));
    let other = credit_of(&rt, alloc, 30, 2, &[1, 8]);
    same(&rt, put_balance(&rt, alloc, &mut credit, other, 100), None);
    let most = credit_of(&rt, alloc, 1, 2, &KEY);
    same(
        &rt,
        put_balance(&rt, alloc, &mut credit, most, i64::MAX),
        None,
    );
    check_credit(&rt, alloc, &mut credit, 30, 1, None);
    check_credit(&rt, alloc, &mut credit, 30, 3, None);
    same(&rt, credit.served(), 6);
}

/// Asserts how many writes a payload is taken for.
fn check_copy(rt: &impl Abort, alloc: Global, copy: &mut Copy, payload: &[u8], expected: usize) {
    let payload = Bytes::from_slice(alloc, payload).expect(rt, "refused");
    let message = message(rt, alloc, payload);
    let (writes, sends) = copy.handle(alloc, &message, &[]).expect(rt, "refused");
    same(rt, writes.len(), expected);
    same(rt, sends.is_empty(), true);
}

#[test]
fn copy_takes_one_write(rt: HostRuntime) {
    let mut copy = Copy::new();
    check_copy(&rt, rt.alloc(), &mut copy, &[0, 0, 0, 1, 7, 0], 1);
    check_copy(&rt, rt.alloc(), &mut copy, &[0, 0, 0, 1, 7], 0);
}

/// Whether a first handler of the queue is registered.
fn registers(rt: &impl Abort, alloc: Global, handlers: &mut Handlers) -> bool {
    let credit = Box::new(alloc, Credit::new(1)).expect(rt, "refused");
    handlers.register(text(rt, alloc, "credit"), credit).is_ok()
}

/// Whether a second handler of the queue is refused.
fn refuses(rt: &impl Abort, alloc: Global, handlers: &mut Handlers) -> bool {
    let copy = Box::new(alloc, Copy::new()).expect(rt, "refused");
    let second = handlers.register(text(rt, alloc, "credit"), copy);
    matches!(second, Err(HandlerFault::Present(_)))
}

/// Whether the handler of the queue is replaced.
fn replaces(rt: &impl Abort, alloc: Global, handlers: &mut Handlers) -> bool {
    let copy = Box::new(alloc, Copy::new()).expect(rt, "refused");
    handlers.replace(&text(rt, alloc, "credit"), copy).is_ok()
}

#[test]
fn a_queue_has_one_handler(rt: HostRuntime) {
    let alloc = rt.alloc();
    let mut handlers = Handlers::new(alloc);
    same(&rt, registers(&rt, alloc, &mut handlers), true);
    same(&rt, refuses(&rt, alloc, &mut handlers), true);
    same(&rt, replaces(&rt, alloc, &mut handlers), true);
    let queue = text(&rt, alloc, "credit");
    same(&rt, handlers.remove(&queue).is_some(), true);
    same(&rt, handlers.has(&queue), false);
}
