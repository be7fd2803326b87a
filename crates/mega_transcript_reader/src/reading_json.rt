//! Reads a word that is JSON.
ghost use Rattle.std.specs.Prelude.{◌≡◌, IfOk, option_map};
ghost use Rattle.serde_json.specs.View.{view};
ghost use Rattle.mega_transcript.specs.Requests.{json_of};
ghost use Rattle.mega_transcript_reader.specs.ReadingAnswers.{json_field};
ghost use Rattle.mega_transcript_reader.specs.Taking.{TakesJson};

use crate::fault::Refusal;
use crate::reading::Words;
use mega_base::NoMemory;
use serde_json::Value as Json;
use std::alloc::Global;

/// The JSON that a text in UTF-8 is.
pub(crate) fn json_of(alloc: Global, text: &[u8]) -> Result<Option<Json>, NoMemory>
    ensures { IfOk result (λ found. option_map view found ≡ json_of text.now) }
{
    match Json::from_slice(alloc, text) {
        Ok(value) => Ok(Some(value)),
        Err(error) => {
            if error.is_memory() {
                Err(NoMemory)
            } else {
                Ok(None)
            }
        }
    }
}

/// A word that is JSON.
#[tactic(auto, unfolding(crate::specs::ReadingAnswers::json_field))]
pub(crate) fn json(alloc: Global, words: &mut Words<'_>, end: u8) -> Result<Json, Refusal>
    ensures { TakesJson result words.new (json_field end words.old) }
{
    let left = words.len();
    let word = words.word(end)?;
    match json_of(alloc, word)? {
        Some(value) => Ok(value),
        None => Err(Refusal::Word { left }),
    }
}
