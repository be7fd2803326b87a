//! The results of a batch are read from JSON as they are shown. What is the JSON of none is read as no rows.
ghost use Rattle.std.specs.Prelude.{◌≡◌, Some, None};
ghost use Rattle.serde_json.specs.View.{view};
ghost use Rattle.mega_transcript_reader.specs.ReadingRows.{number_in, turn_named, turned_or_none, committed_of, result_in};

use crate::kinds::is;
use crate::reading_values::{FromJson, each_of, list_of, number_of, pair_of, text_of, triple_of};
use mega_base::{Items, NoMemory};
use mega_outcome::{Shown, Turn};
use mega_schema::Schema;
use serde_json::Value as Json;
use std::alloc::Global;

/// A number of 32 bits, or 0.
fn u32_of(value: &Json) -> u32
    ensures { result ≡ number_in 4294967295 (view value.now) }
{
    match value.as_u64() {
        Some(number) => {
            if number <= 4_294_967_295 {
                number as u32
            } else {
                0
            }
        }
        None => 0,
    }
}

/// The turn of this word, with its number.
fn turn_named(word: &[u8], number: &Json) -> Option<Turn>
    ensures { result ≡ turn_named word.now (view number.now) }
{
    if is(word, b"othergroup") {
        Some(Turn::OtherGroup {
            item: u32_of(number),
        })
    } else if is(word, b"badrow") {
        Some(Turn::BadRow {
            item: u32_of(number),
        })
    } else if is(word, b"check") {
        Some(Turn::CheckFailed {
            item: u32_of(number),
        })
    } else if is(word, b"norow") {
        Some(Turn::NoRow {
            item: u32_of(number),
        })
    } else if is(word, b"overflow") {
        Some(Turn::Overflow {
            item: u32_of(number),
        })
    } else if is(word, b"toolarge") {
        Some(Turn::TooLarge {
            bytes: number_of(u64::MAX, number),
        })
    } else {
        None
    }
}

impl FromJson for Result<Items<Option<Shown>>, Turn> {
    ghost told = { result_in };

    fn read(
        alloc: Global,
        schema: &Schema,
        value: &Json,
    ) -> Result<Result<Items<Option<Shown>>, Turn>, NoMemory> {
        let items = list_of(value);
        if let Some((_, word, number)) = triple_of(items) {
            return match turn_named(text_of(word).as_bytes(), number) {
                Some(turn) => Ok(Err(turn)),
                None => Ok(Ok(Items::new(alloc))),
            };
        }
        match pair_of(items) {
            Some((_, rows)) => Ok(Ok(each_of(alloc, schema, rows)?)),
            None => Ok(Ok(Items::new(alloc))),
        }
    }
}
