//! The items that lines tell.
ghost use Rattle.std.specs.Prelude.{◌≡◌, ◌≤◌, ◌++◌, ◌∷◌, [], IfOk, length};
ghost use Rattle.picture.specs.Stops.{Gives};
ghost use Rattle.picture.specs.Drawings.{told_of, told_from};

use crate::refusal::{Refusal, line_at};
use crate::stop::Stop;
use mega_base::{Bytes, Items, NoMemory};
use mega_picture::ItemLine;
use mega_schema::Schema;
use mega_transcript_reader::{ItemFault, parse};
use std::alloc::Global;

/// A line with its line feed.
fn fed(alloc: Global, line: &[u8]) -> Result<Bytes, NoMemory>
    ensures { IfOk result (λ fed. fed ≡ line.now ++ 10 ∷ []) }
{
    let mut fed = Bytes::from_slice(alloc, line)?;
    fed.push(b'\n')?;
    Ok(fed)
}

/// The item that a line of this number tells; the line is copied.
#[tactic(auto, unfolding(crate::specs::Drawings::told_of))]
fn told_of(alloc: Global, schema: &Schema, number: u64, line: &[u8]) -> Result<ItemLine, Stop>
    ensures { Gives result (told_of schema.now number line.now) }
{
    let Ok(kept) = Bytes::from_slice(alloc, line) else {
        return Err(Stop::NoMemory);
    };
    let Ok(fed) = fed(alloc, line) else {
        return Err(Stop::NoMemory);
    };
    match parse(alloc, schema, fed.as_slice()) {
        Ok(item) => Ok(ItemLine { line: kept, item }),
        Err(ItemFault::NotItem { .. }) => Err(Stop::Refused {
            refusal: Refusal::NotItem { line: number },
        }),
        Err(ItemFault::NoMemory) => Err(Stop::NoMemory),
    }
}

/// The items of these lines; the first one has this number.
#[tactic(auto, using(crate::proofs::Reading::told_on, crate::proofs::Reading::told_not, crate::proofs::Reading::told_all, crate::proofs::Reading::longer))]
pub fn told_of_lines(
    alloc: Global,
    schema: &Schema,
    first: u64,
    lines: &[Bytes],
) -> Result<Items<ItemLine>, Stop>
    requires { length lines.now ≤ 4000 }
    ensures value { Gives result (told_from schema.now first 0 lines.now) }
    ensures few { IfOk result (λ told. length told ≤ 4000) }
{
    let mut told = Items::new(alloc);
    for (index, line) in lines.iter().enumerate() {
        let number = line_at(first, index as u32);
        let one = match told_of(alloc, schema, number, line.as_slice()) {
            Ok(one) => one,
            Err(stop) => return Err(stop),
        };
        if told.push(one).is_err() {
            return Err(Stop::NoMemory);
        }
    }
    Ok(told)
}
