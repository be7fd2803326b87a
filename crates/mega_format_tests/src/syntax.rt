//! Texts with a token that cannot stand where it stands, and a text that is read.
use crate::asserted::same;
use mega_syntax::{Placed, Statement, SyntaxFault, offset, read};
use std::alloc::Global;
use std::process::Abort;

/// Texts, each with a mark before its first bad token.
const FAULTS: &str = "#
CREATE#
#create SCHEMA S;
CREATE SCHEMA #;
CREATE SCHEMA #1S;
CREATE SCHEMA S#
CREATE SCHEMA S; #TABLE
CREATE SCHEMA S; CREATE #INDEX
CREATE SCHEMA S; CREATE TABLE #{
CREATE SCHEMA S; CREATE TABLE A #(
CREATE SCHEMA S; CREATE TABLE A { #int64 x; }
CREATE SCHEMA S; CREATE TABLE A { required int64#; }
CREATE SCHEMA S; CREATE TABLE A { } PRIMARY #(
CREATE SCHEMA S; CREATE TABLE A { } PRIMARY KEY(#,)
CREATE SCHEMA S; CREATE TABLE A { } PRIMARY KEY(a #b)
CREATE SCHEMA S; CREATE TABLE A { } PRIMARY KEY(a), #;
CREATE SCHEMA S; CREATE TABLE A { } PRIMARY KEY(a), SCATTER, #SCATTER;
CREATE SCHEMA S; CREATE TABLE A { } PRIMARY KEY(a), ENTITY GROUP ROOT, #ENTITY GROUP ROOT;
CREATE SCHEMA S; CREATE TABLE A { } PRIMARY KEY(a), ENTITY GROUP #LEAF;
CREATE SCHEMA S; CREATE LOCAL INDEX I ON A(x) STORING #x;
CREATE SCHEMA S; ALTER TABLE A #{ }
CREATE SCHEMA S; #%";

/// Asserts that the text of a row is refused at the mark.
fn check_mark(rt: &impl Abort, alloc: Global, row: &str) {
    let (front, back) = row.split_once('#').expect(rt, "no mark");
    let text = format!(in alloc; "{front}{back}").expect(rt, "refused");
    let fault = read(alloc, text.as_bytes()).err();
    let at = front.len() as u64;
    same(rt, fault, Some(SyntaxFault::Token { at }));
}

#[test]
fn syntax_errors_have_their_places(rt: HostRuntime) {
    for row in FAULTS.lines() {
        check_mark(&rt, rt.alloc(), row);
    }
}

/// Whether a statement changes the table A.
fn changes_a(placed: &Placed<'_>) -> bool {
    match &placed.statement {
        Statement::Change(change) => change.table.is(b"A"),
        _ => false,
    }
}

#[test]
fn statements_are_read(rt: HostRuntime) {
    let text = "CREATE SCHEMA S; ALTER TABLE A ADD { repeated bytes x; };";
    let found = read(rt.alloc(), text.as_bytes()).expect(&rt, "refused");
    same(&rt, found.words.name.is(b"S"), true);
    same(&rt, found.tokens.len(), 15);
    let [placed] = found.words.statements.as_slice() else {
        panic!(rt; "not one statement");
    };
    same(&rt, placed.left, 11);
    same(&rt, offset(found.tokens.as_slice(), text.len(), 11), 17);
    same(&rt, changes_a(placed), true);
}
