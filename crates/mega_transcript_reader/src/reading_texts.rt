//! Reads the text of a request, which is a compact JSON object with no float.
ghost use Rattle.std.specs.Prelude.{◌≡◌, IfOk, Some, None, option_and_then, if◌then◌else◌};
ghost use Rattle.serde_json.specs.View.{view};
ghost use Rattle.mega_syntax.specs.Names.{same};
ghost use Rattle.mega_transcript_reader.specs.Taking.{Takes};
ghost use Rattle.mega_transcript.specs.Requests.{compact_of, json_of, request_of, request_field};
ghost use Rattle.mega_transcript_reader.specs.ReadingItems.{begin_at, answered_at};

use crate::fault::Refusal;
use crate::kinds::is;
use crate::reading::Words;
use crate::reading_answers::answer;
use crate::reading_json::json_of;
use mega_base::{NoMemory, Text};
use mega_floats::has_float;
use mega_schema::Schema;
use mega_transcript::Item;
use serde_json::Value as Json;
use std::alloc::Global;

/// The compact text of an object with no float.
fn compact_of(alloc: Global, value: &Json) -> Result<Option<Text>, NoMemory>
    ensures { IfOk result (λ found. found ≡ compact_of (view value.now)) }
{
    match value {
        Json::Object(_) => {
            if has_float(value) {
                return Ok(None);
            }
            let text = value.to_string(alloc)?;
            Ok(Some(Text::from_string(text)))
        }
        _ => Ok(None),
    }
}

/// The compact text of the JSON that a text is, where it is an object with no float.
fn compacted(alloc: Global, text: &[u8]) -> Result<Option<Text>, NoMemory>
    ensures { IfOk result (λ found. found ≡ option_and_then compact_of (json_of text.now)) }
{
    match json_of(alloc, text)? {
        Some(value) => compact_of(alloc, &value),
        None => Ok(None),
    }
}

/// The text, where it is the compact text of an object.
#[tactic(auto, using(crate::proofs::Requesting::found_text, crate::proofs::Requesting::found_none))]
fn request_of(alloc: Global, word: &[u8]) -> Result<Option<Text>, NoMemory>
    ensures { IfOk result (λ found. found ≡ request_of word.now) }
{
    match compacted(alloc, word)? {
        Some(text) => Ok(same_text(text, word)),
        None => Ok(None),
    }
}

/// The text, where it has these bytes.
#[tactic(auto, using(crate::proofs::Requesting::same_one))]
fn same_text(text: Text, word: &[u8]) -> Option<Text>
    ensures { result ≡ (if same text word.now then Some word.now else None) }
{
    if is(text.as_bytes(), word) {
        Some(text)
    } else {
        None
    }
}

/// The text of a request, up to the end of the line.
#[tactic(auto, unfolding(mega_transcript::specs::Requests::request_field))]
fn request(alloc: Global, words: &mut Words<'_>) -> Result<Text, Refusal>
    ensures { Takes result words.new (request_field 10 words.old) }
{
    let left = words.len();
    let word = words.word(b'\n')?;
    match request_of(alloc, word)? {
        Some(text) => Ok(text),
        None => Err(Refusal::Word { left }),
    }
}

#[tactic(auto, unfolding(crate::specs::ReadingItems::begin_at))]
pub(crate) fn begin(alloc: Global, words: &mut Words<'_>) -> Result<Item, Refusal>
    ensures { Takes result words.new (begin_at words.old) }
{
    let op = words.op(b' ')?;
    let text = request(alloc, words)?;
    Ok(Item::Begin { op, text })
}

#[tactic(auto, unfolding(crate::specs::ReadingItems::answered_at))]
pub(crate) fn answered(
    alloc: Global,
    schema: &Schema,
    words: &mut Words<'_>,
) -> Result<Item, Refusal>
    ensures { Takes result words.new (answered_at schema.now words.old) }
{
    let op = words.op(b' ')?;
    let answer = answer(alloc, schema, words)?;
    Ok(Item::Answer { op, answer })
}
