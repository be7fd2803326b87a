//! Reads what a client's object asks of the node that serves it: the object of a line, without the node.
ghost use Rattle.std.specs.Prelude.{◌≡◌, codes, IfOk, Some, false, option_and_then};
ghost use Rattle.serde_json.specs.Find.{get, as_str};
ghost use Rattle.serde_json.specs.View.{view};
ghost use Rattle.serde_json.specs.Written.{has_float};
ghost use Rattle.mega_schedule.specs.declared.verdict.Verdict.TheVariants.{Fine};
ghost use Rattle.mega_schedule.specs.Answers.{GivesOrReason};
ghost use Rattle.mega_schedule.specs.Forms.{line_check};
ghost use Rattle.mega_schedule.specs.Verdicts.{◌⊓◌};
ghost use Rattle.mega_schedule.specs.Asking.{asked_in, asked_of, is_operation, named_check, of_do, of_operation, only_operation, operation_named, with_node};

use crate::form::{Form, form_named};
use crate::lines::line_check;
use crate::read::{object_of, request_in};
use crate::verdict::Verdict;
use crate::world_event::LineFault;
use mega_base::{NoMemory, Text};
use mega_outcome::Request;
use mega_schema::Schema;
use serde_json::Value as Json;
use std::alloc::Global;

/// What a client asks of a node: a request, and the text of its begin, which names the node.
#[derive(Drop)]
pub struct Ask {
    pub request: Request,
    pub text: Text,
}

/// What the bytes of a client ask of this node: names are looked up in the schema.
pub fn asked(alloc: Global, json: &[u8], node: u8, schema: &Schema) -> Result<Ask, LineFault>
    ensures { GivesOrReason result (asked_of schema.now node json.now) }
{
    let object = object_of(alloc, json)?;
    asked_by_object(alloc, schema, node, object)
}

/// What an object asks for, whose operation is told by the text of `do`.
fn asked_by_object(alloc: Global, schema: &Schema, node: u8, object: Json) -> Result<Ask, LineFault>
    ensures { GivesOrReason result (of_do schema.now node (view object) (get (codes "do") (view object))) }
{
    let Some(word) = object.get("do") else {
        return Err(LineFault::Refused { reason: 3 });
    };
    let Some(form) = operation_of(word) else {
        return Err(LineFault::Refused { reason: 2 });
    };
    asked_by_form(alloc, schema, node, form, object)
}

fn operation_of(word: &Json) -> Option<Form>
    ensures { result ≡ option_and_then operation_named (as_str (view word.now)) }
{
    match word.as_str() {
        Some(word) => operation_named(word),
        None => None,
    }
}

/// The form that a word names, where it begins an operation.
fn operation_named(word: &str) -> Option<Form>
    ensures { result ≡ operation_named word.now }
{
    match form_named(word) {
        Some(form) => only_operation(form),
        None => None,
    }
}

/// A form that begins an operation.
fn only_operation(form: Form) -> Option<Form>
    ensures { result ≡ only_operation form }
{
    match form {
        Form::Txn | Form::Batch | Form::Read | Form::Find | Form::Pump | Form::Refresh => {
            Some(form)
        }
        _ => None,
    }
}

/// A client names no node.
fn named_check(object: &Json) -> Verdict
    ensures { result ≡ named_check (get (codes "node") (view object.now)) }
{
    match object.get("node") {
        Some(_node) => Verdict::Extra,
        None => Verdict::Fine,
    }
}

/// The object, with the member that names the node.
fn with_node(alloc: Global, object: Json, node: u8) -> Result<Json, NoMemory>
    ensures { IfOk result (λ made. view made ≡ with_node node (view object)) }
{
    match object {
        Json::Object(members) => {
            let mut members = members;
            serde_json::put(&mut members, alloc, "node", Json::from(u64::from(node)))?;
            Ok(Json::Object(members))
        }
        other => Ok(other),
    }
}

/// What is wrong with an object of this form, of which this was told before it had the member that names the node.
fn checked(named: Verdict, form: Form, line: &Json) -> Verdict
    ensures value { result ≡ named ⊓ line_check form (view line.now) }
    ensures whole { result ≡ Fine → has_float (view line.now) ≡ false }
{
    let rest = line_check(form, line);
    match named {
        Verdict::Fine => rest,
        other => other.and(rest),
    }
}

/// What an object of this form asks for, or what is wrong with it.
fn asked_by_form(
    alloc: Global,
    schema: &Schema,
    node: u8,
    form: Form,
    object: Json,
) -> Result<Ask, LineFault>
    ensures { GivesOrReason result (of_operation schema.now node (view object) (Some form)) }
{
    let named = named_check(&object);
    let line = with_node(alloc, object, node)?;
    checked(named, form, &line).judge()?;
    let asked = asked_in(alloc, schema, form, &line)?;
    Ok(asked)
}

/// What a line without fault asks for. Its text is the object, with no space in it and its keys in ascending order.
fn asked_in(alloc: Global, schema: &Schema, form: Form, line: &Json) -> Result<Ask, NoMemory>
    requires { has_float (view line.now) ≡ false }
    ensures { IfOk result (λ made. made ≡ asked_in schema.now form (view line.now)) }
{
    let request = request_in(alloc, schema, form, line)?;
    let text = line.to_string(alloc)?;
    Ok(Ask {
        request,
        text: Text::from_string(text),
    })
}
