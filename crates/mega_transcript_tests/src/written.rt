//! Writes a line of a transcript back as what it is read as.
ghost use Rattle.std.specs.Prelude.{◌≡◌, IfOk};
ghost use Rattle.mega_transcript.specs.Lines.{line, HasLine};

use mega_base::{Bytes, NoMemory};
use mega_schema::Schema;
use mega_transcript::{Item, text};
use mega_transcript_reader::{ItemFault, parse};
use std::alloc::Global;

/// The line of an item.
fn line_of(alloc: Global, schema: &Schema, item: &Item) -> Result<Bytes, NoMemory>
    requires { HasLine item.now }
    ensures { IfOk result (λ made. made ≡ line schema.now item.now) }
{
    let mut made = Bytes::new(alloc);
    match text(alloc, schema, item, &mut made) {
        Ok(()) => Ok(made),
        Err(refused) => Err(refused),
    }
}

/// The line of an item that is needed no more.
fn into_line(alloc: Global, schema: &Schema, item: Item) -> Result<Bytes, NoMemory>
    requires { HasLine item }
    ensures { IfOk result (λ made. made ≡ line schema.now item) }
{
    line_of(alloc, schema, &item)
}

/// What a line is read as, written back: the line itself.
#[tactic(auto, using(mega_transcript_reader::proofs::ItemLaws::HasLine_from_IsPlain))]
pub fn written_back(alloc: Global, schema: &Schema, read: &[u8]) -> Result<Bytes, ItemFault>
    ensures { IfOk result (λ made. made ≡ read.now) }
{
    let item = match parse(alloc, schema, read) {
        Ok(item) => item,
        Err(fault) => return Err(fault),
    };
    match into_line(alloc, schema, item) {
        Ok(made) => Ok(made),
        Err(_) => Err(ItemFault::NoMemory),
    }
}
