//! Reads the item whose line a text is, and tells where a text is the line of none.
ghost use Rattle.std.specs.Prelude.{◌≡◌, ◌≤◌, ◌-◌, Ok, IfOk, length, nat_eq, codes, ◌∷◌, ◌++◌, []};
ghost use Rattle.std.specs.List.{common_prefix_len};
ghost use Rattle.mega_syntax.specs.Names.{same};
ghost use Rattle.mega_transcript.specs.declared.item.Item.{Item as ItemValue};
ghost use Rattle.mega_transcript.specs.Lines.{line, HasLine};
ghost use Rattle.mega_transcript.specs.Plain.{IsPlain};
ghost use Rattle.mega_transcript_reader.specs.ReadingItems.{of_kind, item_at, whole_item, located, difference, parsed};
ghost use Rattle.mega_transcript_reader.specs.Taking.{Takes, Tells};
ghost use Rattle.mega_transcript_reader.specs.Telling.{Gives, Finds, is_same, fault_of};

use crate::fault::{Found, ItemFault, Refusal};
use crate::kinds::{LineKind, is, kind_of};
use crate::reading::Words;
use crate::reading_items::{
    apply, counts, crash, decide, dropped, forgets, grant, invalid, lapse, lost, sent, serving,
    start, taken, tick, unsent, valid,
};
use crate::reading_texts::{answered, begin};
use mega_base::Bytes;
use mega_schema::Schema;
use mega_transcript::{Item, text as put_line};
use std::alloc::Global;

/// The plain item whose line this is, with its line feed, by the names of the schema. It is `NotItem`
/// exactly where it is the line of none.
pub fn parse(alloc: Global, schema: &Schema, text: &[u8]) -> Result<Item, ItemFault>
    ensures found { IfOk result (λ item. IsPlain schema.now item × (text.now ≡ line schema.now item)) }
    ensures only { (item : ItemValue) → IsPlain schema.now item → text.now ≡ line schema.now item → Gives result (Ok item) }
    ensures exact { Gives result (parsed schema.now text.now) }
{
    parsed(alloc, schema, text)
}

/// The item that the words are taken for, or where they are refused.
#[tactic(auto, using(crate::proofs::ItemLaws::whole_fits))]
fn taken_for(alloc: Global, schema: &Schema, text: &[u8]) -> Result<Item, ItemFault>
    ensures read { Gives result (located (length text.now) (whole_item schema.now text.now)) }
    ensures plain { IfOk result (IsPlain schema.now) }
{
    match whole_item(alloc, schema, text) {
        Ok(item) => Ok(item),
        Err(Refusal::Word { left }) => {
            Err(ItemFault::NotItem {
                at: (text.len() as u64).saturating_sub(left),
            })
        }
        Err(Refusal::NoMemory) => Err(ItemFault::NoMemory),
    }
}

/// The item, where the text is its line.
#[tactic(auto, using(crate::proofs::Reparse::kept, crate::proofs::Reparse::refused_there, crate::proofs::Reparse::refused_words))]
fn parsed(alloc: Global, schema: &Schema, text: &[u8]) -> Result<Item, ItemFault>
    ensures { Gives result (parsed schema.now text.now) }
{
    let item = taken_for(alloc, schema, text)?;
    let found = difference(alloc, schema, &item, text);
    if is_same(found) {
        return Ok(item);
    }
    drop(item);
    Err(fault_of(found))
}

/// Whether no difference was found.
fn is_same(found: Found) -> bool
    ensures { result ≡ is_same found }
{
    matches!(found, Found::Same)
}

/// Why a text is not the line of the item that its words were taken for.
fn fault_of(found: Found) -> ItemFault
    ensures { result ≡ fault_of found }
{
    match found {
        Found::Same => ItemFault::NotItem { at: 0 },
        Found::Differs { at } => ItemFault::NotItem { at },
        Found::NoMemory => ItemFault::NoMemory,
    }
}

/// How many bytes at the front are the same.
fn common_len(line: &[u8], text: &[u8]) -> u64
    ensures { result ≡ common_prefix_len nat_eq line.now text.now }
{
    let shorter = line.len().min(text.len());
    for length in 0..shorter {
        if line[length] != text[length] {
            return length as u64;
        }
    }
    shorter as u64
}

/// Where the text differs from the item's line, if it does.
#[tactic(auto, using(crate::proofs::ItemLaws::HasLine_from_IsPlain))]
fn difference(alloc: Global, schema: &Schema, item: &Item, text: &[u8]) -> Found
    requires { IsPlain schema.now item.now }
    ensures { Finds result (difference (line schema.now item.now) text.now) }
{
    let mut line = Bytes::new(alloc);
    if put_line(alloc, schema, item, &mut line).is_err() {
        return Found::NoMemory;
    }
    if is(line.as_slice(), text) {
        Found::Same
    } else {
        Found::Differs {
            at: common_len(line.as_slice(), text),
        }
    }
}

/// The item that the words are taken for, behind which nothing is left.
#[tactic(auto, using(crate::proofs::ItemLaws::whole_fits), unfolding(crate::specs::ReadingItems::whole_item))]
fn whole_item(alloc: Global, schema: &Schema, text: &[u8]) -> Result<Item, Refusal>
    ensures { Tells result (whole_item schema.now text.now) }
{
    let mut words = Words::new(text);
    let item = item(alloc, schema, &mut words)?;
    if words.is_at_end() {
        return Ok(item);
    }
    drop(item);
    Err(Refusal::Word { left: words.len() })
}

/// An item at the front.
#[tactic(auto, unfolding(crate::specs::ReadingItems::item_at))]
fn item(alloc: Global, schema: &Schema, words: &mut Words<'_>) -> Result<Item, Refusal>
    ensures { Takes result words.new (item_at schema.now words.old) }
{
    if is(words.rest(), b"cut\n") {
        words.pass_all();
        return Ok(Item::Cut);
    }
    if is(words.rest(), b"unsafe\n") {
        words.pass_all();
        return Ok(Item::Unsafe);
    }
    let left = words.len();
    let word = words.word(b' ')?;
    match kind_of(word) {
        Some(kind) => of_kind(alloc, schema, kind, words),
        None => Err(Refusal::Word { left }),
    }
}

/// An item of this kind, behind its first word.
fn of_kind(
    alloc: Global,
    schema: &Schema,
    kind: LineKind,
    words: &mut Words<'_>,
) -> Result<Item, Refusal>
    ensures { Takes result words.new (of_kind schema.now kind words.old) }
{
    match kind {
        LineKind::Start => start(words),
        LineKind::Unsent => unsent(alloc, words),
        LineKind::Tick => tick(words),
        LineKind::Begin => begin(alloc, words),
        LineKind::Taken => taken(words),
        LineKind::Dropped => dropped(words),
        LineKind::Sent => sent(alloc, words),
        LineKind::Grant => grant(words),
        LineKind::Lapse => lapse(words),
        LineKind::Counts => counts(words),
        LineKind::Forgets => forgets(words),
        LineKind::Serving => serving(words),
        LineKind::Lost => lost(words),
        LineKind::Valid => valid(alloc, words),
        LineKind::Invalid => invalid(alloc, words),
        LineKind::Decide => decide(alloc, words),
        LineKind::Apply => apply(alloc, words),
        LineKind::Answer => answered(alloc, schema, words),
        LineKind::Crash => crash(words),
    }
}
