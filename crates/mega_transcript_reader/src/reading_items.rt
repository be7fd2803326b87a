//! Reads the items of a transcript from the words of their lines, by the kind of the line.
ghost use Rattle.std.specs.Prelude.{◌≡◌};
ghost use Rattle.mega_transcript_reader.specs.Taking.{Takes};
ghost use Rattle.mega_transcript_reader.specs.ReadingItems.{start_at, tick_at, taken_at, dropped_at, grant_at, lapse_at, counts_at, forgets_at, serving_at, lost_at, valid_at, invalid_at, decide_at, apply_at, crash_at, unsent_at, sent_at};

use crate::fault::Refusal;
use crate::reading::Words;
use mega_transcript::Item;
use std::alloc::Global;

#[tactic(auto, unfolding(crate::specs::ReadingItems::start_at))]
pub(crate) fn start(words: &mut Words<'_>) -> Result<Item, Refusal>
    ensures { Takes result words.new (start_at words.old) }
{
    let node = words.node(b' ')?;
    let start = words.u32(b'\n')?;
    Ok(Item::Start { node, start })
}

#[tactic(auto, unfolding(crate::specs::ReadingItems::tick_at))]
pub(crate) fn tick(words: &mut Words<'_>) -> Result<Item, Refusal>
    ensures { Takes result words.new (tick_at words.old) }
{
    let node = words.node(b' ')?;
    let now = words.u64(b'\n')?;
    Ok(Item::Tick { node, now })
}

#[tactic(auto, unfolding(crate::specs::ReadingItems::taken_at))]
pub(crate) fn taken(words: &mut Words<'_>) -> Result<Item, Refusal>
    ensures { Takes result words.new (taken_at words.old) }
{
    let number = words.u64(b'\n')?;
    Ok(Item::Taken { number })
}

#[tactic(auto, unfolding(crate::specs::ReadingItems::dropped_at))]
pub(crate) fn dropped(words: &mut Words<'_>) -> Result<Item, Refusal>
    ensures { Takes result words.new (dropped_at words.old) }
{
    let number = words.u64(b'\n')?;
    Ok(Item::Dropped { number })
}

#[tactic(auto, unfolding(crate::specs::ReadingItems::grant_at))]
pub(crate) fn grant(words: &mut Words<'_>) -> Result<Item, Refusal>
    ensures { Takes result words.new (grant_at words.old) }
{
    let cell = words.u8(b' ')?;
    let node = words.node(b' ')?;
    let epoch = words.epoch(b'\n')?;
    Ok(Item::Grant { cell, node, epoch })
}

#[tactic(auto, unfolding(crate::specs::ReadingItems::lapse_at))]
pub(crate) fn lapse(words: &mut Words<'_>) -> Result<Item, Refusal>
    ensures { Takes result words.new (lapse_at words.old) }
{
    let cell = words.u8(b' ')?;
    let node = words.node(b' ')?;
    let epoch = words.epoch(b'\n')?;
    Ok(Item::Lapse { cell, node, epoch })
}

#[tactic(auto, unfolding(crate::specs::ReadingItems::counts_at))]
pub(crate) fn counts(words: &mut Words<'_>) -> Result<Item, Refusal>
    ensures { Takes result words.new (counts_at words.old) }
{
    let node = words.node(b' ')?;
    let cell = words.u8(b' ')?;
    let epoch = words.epoch(b'\n')?;
    Ok(Item::Counts { node, cell, epoch })
}

#[tactic(auto, unfolding(crate::specs::ReadingItems::forgets_at))]
pub(crate) fn forgets(words: &mut Words<'_>) -> Result<Item, Refusal>
    ensures { Takes result words.new (forgets_at words.old) }
{
    let node = words.node(b' ')?;
    let cell = words.u8(b' ')?;
    let epoch = words.epoch(b'\n')?;
    Ok(Item::Forgets { node, cell, epoch })
}

#[tactic(auto, unfolding(crate::specs::ReadingItems::serving_at))]
pub(crate) fn serving(words: &mut Words<'_>) -> Result<Item, Refusal>
    ensures { Takes result words.new (serving_at words.old) }
{
    let node = words.node(b' ')?;
    let epoch = words.epoch(b'\n')?;
    Ok(Item::Serving { node, epoch })
}

#[tactic(auto, unfolding(crate::specs::ReadingItems::lost_at))]
pub(crate) fn lost(words: &mut Words<'_>) -> Result<Item, Refusal>
    ensures { Takes result words.new (lost_at words.old) }
{
    let node = words.node(b' ')?;
    let epoch = words.epoch(b'\n')?;
    Ok(Item::Lost { node, epoch })
}

#[tactic(auto, unfolding(crate::specs::ReadingItems::valid_at))]
pub(crate) fn valid(alloc: Global, words: &mut Words<'_>) -> Result<Item, Refusal>
    ensures { Takes result words.new (valid_at words.old) }
{
    let node = words.node(b' ')?;
    let group = words.group(alloc, b' ')?;
    let position = words.position(b'\n')?;
    Ok(Item::Valid {
        node,
        group,
        position,
    })
}

#[tactic(auto, unfolding(crate::specs::ReadingItems::invalid_at))]
pub(crate) fn invalid(alloc: Global, words: &mut Words<'_>) -> Result<Item, Refusal>
    ensures { Takes result words.new (invalid_at words.old) }
{
    let node = words.node(b' ')?;
    let group = words.group(alloc, b' ')?;
    let position = words.position(b'\n')?;
    Ok(Item::Invalid {
        node,
        group,
        position,
    })
}

#[tactic(auto, unfolding(crate::specs::ReadingItems::decide_at))]
pub(crate) fn decide(alloc: Global, words: &mut Words<'_>) -> Result<Item, Refusal>
    ensures { Takes result words.new (decide_at words.old) }
{
    let node = words.node(b' ')?;
    let group = words.group(alloc, b' ')?;
    let position = words.position(b' ')?;
    let entry = words.entry(alloc, b'\n')?;
    Ok(Item::Decide {
        node,
        group,
        position,
        entry,
    })
}

#[tactic(auto, unfolding(crate::specs::ReadingItems::apply_at))]
pub(crate) fn apply(alloc: Global, words: &mut Words<'_>) -> Result<Item, Refusal>
    ensures { Takes result words.new (apply_at words.old) }
{
    let node = words.node(b' ')?;
    let group = words.group(alloc, b' ')?;
    let position = words.position(b'\n')?;
    Ok(Item::Apply {
        node,
        group,
        position,
    })
}

#[tactic(auto, unfolding(crate::specs::ReadingItems::crash_at))]
pub(crate) fn crash(words: &mut Words<'_>) -> Result<Item, Refusal>
    ensures { Takes result words.new (crash_at words.old) }
{
    let node = words.node(b'\n')?;
    Ok(Item::Crash { node })
}

#[tactic(auto, unfolding(crate::specs::ReadingItems::unsent_at))]
pub(crate) fn unsent(alloc: Global, words: &mut Words<'_>) -> Result<Item, Refusal>
    ensures { Takes result words.new (unsent_at words.old) }
{
    let node = words.node(b' ')?;
    words.word(b' ')?;
    let message = words.message(alloc, b'\n')?;
    Ok(Item::Unsent { node, message })
}

#[tactic(auto, unfolding(crate::specs::ReadingItems::sent_at))]
pub(crate) fn sent(alloc: Global, words: &mut Words<'_>) -> Result<Item, Refusal>
    ensures { Takes result words.new (sent_at words.old) }
{
    let number = words.u64(b' ')?;
    words.word(b' ')?;
    words.word(b' ')?;
    words.word(b' ')?;
    let message = words.message(alloc, b'\n')?;
    Ok(Item::Sent { number, message })
}
