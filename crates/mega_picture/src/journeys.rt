//! An index of the rows in which each message is first sent, taken and dropped.
ghost use Rattle.std.specs.Prelude.{◌≡◌, ◌≤◌, ℕ, IfOk, OnOk, length, List};
ghost use Rattle.std.specs.Ordering.{nat_cmp};
ghost use Rattle.std.specs.BTreeMap.{get};
ghost use Rattle.std.specs.Option.{option_copied};
ghost use Rattle.mega_picture.specs.Ways.{number_on, is_number, first_row, message_of, message_at};
ghost use Rattle.mega_schema.specs.Named.{or_place};

use crate::item_line::ItemLine;
use mega_base::NoMemory;
use mega_transcript::Item;
use mega_wire::Message;
use std::alloc::Global;
use std::collections::BTreeMap;

/// What may happen to a message.
#[derive(Clone, Copy, Drop)]
pub enum Way {
    Sent,
    Taken,
    Dropped,
}

/// The number of the message to which this happens in an item.
pub fn number_on(way: Way, item: &Item) -> Option<u64>
    ensures { result ≡ number_on way item.now }
{
    match (way, item) {
        (Way::Sent, Item::Sent { number, .. }) => Some(*number),
        (Way::Taken, Item::Taken { number }) => Some(*number),
        (Way::Dropped, Item::Dropped { number }) => Some(*number),
        _ => None,
    }
}

/// Notes the row of a message, where there is one that has none yet.
fn note(rows: &mut BTreeMap<u64, u32>, number: Option<u64>, row: u32) -> Result<(), NoMemory>
    ensures { OnOk result ((n : ℕ) → get nat_cmp rows.new n ≡ or_place (get nat_cmp rows.old n) (is_number n number) row) }
{
    let Some(number) = number else {
        return Ok(());
    };
    if rows.contains_key(&number) {
        return Ok(());
    }
    rows.insert(number, row)?;
    Ok(())
}

/// The row in which this first happens to each message.
#[tactic(auto, using(crate::proofs::Indexing::first_row_on))]
pub fn first_rows(
    alloc: Global,
    way: Way,
    told: &[ItemLine],
) -> Result<BTreeMap<u64, u32>, NoMemory>
    requires { length told.now ≤ 4000 }
    ensures { IfOk result (λ rows. (n : ℕ) → get nat_cmp rows n ≡ first_row way n told.now) }
{
    let mut rows = BTreeMap::new(alloc);
    for (index, one) in told.iter().enumerate() {
        note(&mut rows, number_on(way, &one.item), index as u32)?;
    }
    Ok(rows)
}

/// Where each message is first sent, taken and dropped.
#[derive(Drop)]
pub struct Journeys {
    sent: BTreeMap<u64, u32>,
    taken: BTreeMap<u64, u32>,
    dropped: BTreeMap<u64, u32>,
}

impl Journeys {
    ghost use Rattle.mega_picture.specs.Rows.{Follows};
    ghost use Rattle.mega_picture.specs.declared.item_line.ItemLine.{ItemLine as ItemLineValue};
    ghost use Rattle.mega_picture.specs.declared.journeys.Way.TheVariants.{Sent, Taken, Dropped};

    /// Those of the lines drawn.
    pub fn new(alloc: Global, told: &[ItemLine]) -> Result<Journeys, NoMemory>
        requires { length told.now ≤ 4000 }
        ensures { IfOk result (λ journeys. Follows journeys told.now) }
    {
        let sent = first_rows(alloc, Way::Sent, told)?;
        let taken = first_rows(alloc, Way::Taken, told)?;
        let dropped = first_rows(alloc, Way::Dropped, told)?;
        Ok(Journeys {
            sent,
            taken,
            dropped,
        })
    }

    /// The row in which a message is sent.
    pub fn sent(&self, number: u64) -> Option<u32>
        ensures { (told : List ItemLineValue) → Follows self.now told → result ≡ first_row Sent number told }
    {
        self.sent.get(&number).copied()
    }

    /// The row in which a message is first taken.
    pub fn taken(&self, number: u64) -> Option<u32>
        ensures { (told : List ItemLineValue) → Follows self.now told → result ≡ first_row Taken number told }
    {
        self.taken.get(&number).copied()
    }

    /// The row in which a message is first dropped.
    pub fn dropped(&self, number: u64) -> Option<u32>
        ensures { (told : List ItemLineValue) → Follows self.now told → result ≡ first_row Dropped number told }
    {
        self.dropped.get(&number).copied()
    }
}

/// The message that an item sends.
fn message_of(item: &Item) -> Option<&Message>
    ensures { option_copied result ≡ message_of item.now }
{
    match item {
        Item::Sent { message, .. } => Some(message),
        _ => None,
    }
}

/// The message that is sent in a row.
pub fn message_at(told: &[ItemLine], row: Option<u32>) -> Option<&Message>
    ensures { option_copied result ≡ message_at told.now row }
{
    let Some(row) = row else {
        return None;
    };
    match told.get(row as usize) {
        Some(one) => message_of(&one.item),
        None => None,
    }
}
