//! Reads the event that a line of a schedule tells.
ghost use Rattle.std.specs.Prelude.{◌≡◌, codes, IfOk, Some, false, option_and_then, Ok, Err};
ghost use Rattle.serde_json.specs.Find.{get, as_str};
ghost use Rattle.serde_json.specs.View.{view};
ghost use Rattle.serde_json.specs.Written.{has_float};
ghost use Rattle.mega_schedule.specs.Forms.{form_named};
ghost use Rattle.mega_schedule.specs.Events.{node_in, device_in, fuse_in, begun, request_in, event_in, object_of, of_form, of_word, of_object, event_of};
ghost use Rattle.mega_schedule.specs.Answers.{Gives, GivesOrReason};

use crate::form::{Form, device_named, form_named};
use crate::lines::line_check;
use crate::requests::{batch_of, find_request, pump_of, read_request};
use crate::rows::transaction_of;
use crate::values::{byte_in, number_in};
use crate::world_event::{LineFault, WorldEvent};
use mega_base::{NoMemory, NodeId, Text};
use mega_disk::Device;
use mega_outcome::Request;
use mega_schema::Schema;
use serde_json::Value as Json;
use std::alloc::Global;

/// The most bytes that a line may have.
const MOST_BYTES: usize = 65_536;

/// The number of the last line that a schedule may have.
const LAST_LINE: u64 = 1_000_000;

/// The event of the line with this number, counted from 1: names are looked up in the schema.
#[tactic(auto, unfolding(crate::specs::Events::event_of))]
pub fn event(
    alloc: Global,
    line: &[u8],
    number: u64,
    schema: &Schema,
) -> Result<WorldEvent, LineFault>
    ensures { GivesOrReason result (event_of schema.now number line.now) }
{
    if MOST_BYTES < line.len() {
        return Err(LineFault::Refused { reason: 7 });
    }
    if LAST_LINE < number {
        return Err(LineFault::Refused { reason: 8 });
    }
    let object = object_of(alloc, line)?;
    event_of_object(alloc, schema, &object)
}

/// The object that a line is.
pub fn object_of(alloc: Global, line: &[u8]) -> Result<Json, LineFault>
    ensures { Gives view result (object_of line.now) }
{
    match Json::from_slice(alloc, line) {
        Ok(value) => {
            if value.is_object() {
                Ok(value)
            } else {
                Err(LineFault::Refused { reason: 1 })
            }
        }
        Err(error) => {
            if error.is_memory() {
                Err(LineFault::NoMemory)
            } else {
                Err(LineFault::Refused { reason: 1 })
            }
        }
    }
}

/// The event of an object, whose form is told by the text of `do`.
fn event_of_object(alloc: Global, schema: &Schema, line: &Json) -> Result<WorldEvent, LineFault>
    ensures { GivesOrReason result (of_word schema.now (view line.now) (get (codes "do") (view line.now))) }
{
    let Some(word) = line.get("do") else {
        return Err(LineFault::Refused { reason: 3 });
    };
    let Some(form) = form_of(word) else {
        return Err(LineFault::Refused { reason: 2 });
    };
    event_of_form(alloc, schema, form, line)
}

fn form_of(word: &Json) -> Option<Form>
    ensures { result ≡ option_and_then form_named (as_str (view word.now)) }
{
    match word.as_str() {
        Some(word) => form_named(word),
        None => None,
    }
}

/// The event of a line of this form, or what is wrong with it.
fn event_of_form(
    alloc: Global,
    schema: &Schema,
    form: Form,
    line: &Json,
) -> Result<WorldEvent, LineFault>
    ensures { GivesOrReason result (of_form schema.now (view line.now) (Some form)) }
{
    line_check(form, line).judge()?;
    let event = event_in(alloc, schema, form, line)?;
    Ok(event)
}

fn node_in(line: &Json) -> NodeId
    ensures { result ≡ node_in (view line.now) }
{
    NodeId(byte_in(line, "node"))
}

/// The device of a line; the log where it has none.
fn device_in(line: &Json) -> Device
    ensures { result ≡ device_in (get (codes "device") (view line.now)) }
{
    match line.get("device").and_then(Json::as_str) {
        Some(word) => device_named(word).unwrap_or(Device::Log),
        None => Device::Log,
    }
}

/// A request is begun with the line's object as its text: no space in it, and its keys in ascending order.
fn begin(alloc: Global, line: &Json, request: Request) -> Result<WorldEvent, NoMemory>
    requires { has_float (view line.now) ≡ false }
    ensures { IfOk result (λ made. made ≡ begun (view line.now) request) }
{
    let text = line.to_string(alloc)?;
    Ok(WorldEvent::Begin {
        node: node_in(line),
        request,
        text: Text::from_string(text),
    })
}

fn fuse(line: &Json) -> WorldEvent
    ensures { result ≡ fuse_in (view line.now) }
{
    WorldEvent::Fuse {
        node: node_in(line),
        calls: number_in(line, "calls"),
        image: byte_in(line, "image"),
        device: device_in(line),
    }
}

/// What a line that begins an operation asks for.
pub(crate) fn request_in(
    alloc: Global,
    schema: &Schema,
    form: Form,
    line: &Json,
) -> Result<Request, NoMemory>
    ensures { IfOk result (λ made. made ≡ request_in schema.now form (view line.now)) }
{
    match form {
        Form::Txn => Ok(Request::Txn(transaction_of(alloc, schema, line, line)?)),
        Form::Batch => batch_of(alloc, schema, line),
        Form::Read => Ok(Request::Read(read_request(alloc, schema, line)?)),
        Form::Find => Ok(Request::Find(find_request(alloc, schema, line)?)),
        Form::Pump => Ok(pump_of(line)),
        _ => Ok(Request::Refresh),
    }
}

/// The event of a line of this form that has no fault.
fn event_in(alloc: Global, schema: &Schema, form: Form, line: &Json) -> Result<WorldEvent, NoMemory>
    requires { has_float (view line.now) ≡ false }
    ensures { IfOk result (λ made. made ≡ event_in schema.now form (view line.now)) }
{
    match form {
        Form::Tick => Ok(WorldEvent::Tick {
            node: node_in(line),
            now: number_in(line, "now"),
        }),
        Form::Deliver => Ok(WorldEvent::Deliver {
            message: number_in(line, "message"),
        }),
        Form::Drop => Ok(WorldEvent::Drop {
            message: number_in(line, "message"),
        }),
        Form::Drain => Ok(WorldEvent::Drain {
            most: number_in(line, "most"),
        }),
        Form::Crash => Ok(WorldEvent::Crash {
            node: node_in(line),
        }),
        Form::Start => Ok(WorldEvent::Start {
            node: node_in(line),
        }),
        Form::Fuse => Ok(fuse(line)),
        _ => {
            let request = request_in(alloc, schema, form, line)?;
            begin(alloc, line, request)
        }
    }
}
