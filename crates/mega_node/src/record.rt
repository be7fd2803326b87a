//! The record of a start: its lines, on their way to the sink.
ghost use Rattle.std.specs.Prelude.{◌≡◌, ◌≤◌, ◌++◌, ◌∷◌, All, map, Err, IfErr, IfOk, OnErr, OnOk};
ghost use Rattle.std.specs.Io.KnownBytes.{Appends};
ghost use Rattle.mega_base.specs.Causes.{Rose};
ghost use Rattle.mega_io.specs.Pieces.{AppendsFront};
ghost use Rattle.mega_promises.specs.Items.{number};
ghost use Rattle.mega_promises.specs.Served.{Noted};
ghost use Rattle.mega_serve.specs.Lines.{record_text};
ghost use Rattle.mega_server.specs.Forming.{notes_shown};
ghost use Rattle.mega_transcript.specs.Lines.{HasLine, line, lines as text_of};
ghost use Rattle.mega_transcript.specs.declared.item.Item.TheVariants.{Start as StartItem};
ghost use Rattle.mega_node.specs.Starting.{start_lines};
ghost use Rattle.mega_node.specs.Stops.{IsWriteStop};

use crate::stop::Stop;
use mega_base::{Bytes, Items, NoMemory, NodeId};
use mega_io::{Sink, SinkError, put};
use mega_schema::Schema;
use mega_serve::NodeFault;
use mega_server::items_of;
use mega_server::mega_core::mega_step_parts::Note;
use mega_transcript::{Item, text};
use std::alloc::Global;

/// The line of a start.
fn start_item(me: u8, start: u32) -> Item
    ensures { result ≡ StartItem (number me) start }
{
    Item::Start {
        node: NodeId(me),
        start,
    }
}

/// Appends the line of a start.
fn put_start(
    alloc: Global,
    schema: &Schema,
    me: u8,
    start: u32,
    out: &mut Bytes,
) -> Result<(), NoMemory>
    ensures { OnOk result (out.new ≡ out.old ++ line schema.now (StartItem (number me) start)) }
{
    let item = start_item(me, start);
    let told = text(alloc, schema, &item, out);
    drop(item);
    told
}

/// Appends the lines of items.
fn put_items(
    alloc: Global,
    schema: &Schema,
    items: &[Item],
    out: &mut Bytes,
) -> Result<(), NoMemory>
    requires { All HasLine items.now }
    ensures { OnOk result (out.new ≡ out.old ++ text_of schema.now items.now) }
{
    for item in items {
        text(alloc, schema, item, out)?;
    }
    Ok(())
}

/// The lines of a start and of what it shows.
fn start_text(
    alloc: Global,
    schema: &Schema,
    me: u8,
    start: u32,
    items: &[Item],
) -> Result<Bytes, NoMemory>
    requires { All HasLine items.now }
    ensures { IfOk result (λ told. told ≡ record_text schema.now (map Noted (StartItem (number me) start ∷ items.now))) }
{
    let mut told = Bytes::new(alloc);
    put_start(alloc, schema, me, start, &mut told)?;
    put_items(alloc, schema, items, &mut told)?;
    Ok(told)
}

/// Why what a start shows is not told.
fn items_stop(fault: NodeFault) -> Stop
    ensures { IsWriteStop result × (result ≡ Stop.Sink → ⊥) }
{
    match fault {
        NodeFault::Unformed => Stop::Unformed,
        _ => Stop::NoMemory,
    }
}

/// The lines of a start and of these notes.
fn notes_text(
    alloc: Global,
    schema: &Schema,
    me: u8,
    start: u32,
    notes: Items<Note>,
) -> Result<Bytes, Stop>
    ensures text { IfOk result (λ told. told ≡ record_text schema.now (start_lines me start notes)) }
    ensures only { IfErr result (λ stop. IsWriteStop stop × (stop ≡ Stop.Sink → ⊥)) }
{
    let items = match items_of(alloc, me, notes) {
        Ok(items) => items,
        Err(fault) => return Err(items_stop(fault)),
    };
    match start_text(alloc, schema, me, start, items.as_slice()) {
        Ok(told) => Ok(told),
        Err(NoMemory) => Err(Stop::NoMemory),
    }
}

/// Writes the record of a start. After a refusal the sink holds a front of it.
pub(crate) fn write_start<O: Sink>(
    alloc: Global,
    schema: &Schema,
    me: u8,
    start: u32,
    notes: Items<Note>,
    out: &mut O,
) -> Result<(), Stop>
    ensures ok { OnOk result (Appends (O.held out.old) (O.held out.new) (record_text schema.now (start_lines me start notes))) }
    ensures err { OnErr result (AppendsFront (O.held out.old) (O.held out.new) (record_text schema.now (start_lines me start notes))) }
    ensures sink { result ≡ Err Stop.Sink → Rose (O.faults out.old) (O.faults out.new) }
    ensures only { IfErr result IsWriteStop }
    ensures count { O.faults out.old ≤ O.faults out.new }
{
    let told = match notes_text(alloc, schema, me, start, notes) {
        Ok(told) => told,
        Err(stop) => return Err(stop),
    };
    match put(out, told.as_slice()) {
        Ok(()) => Ok(()),
        Err(SinkError::Failed) => Err(Stop::Sink),
        Err(SinkError::NoMemory) => Err(Stop::NoMemory),
    }
}
