//! The entity groups of a page, numbered from 1 in the order in which marks name them first.
ghost use Rattle.std.specs.Prelude.{◌≡◌, ◌<◌, ◌≤◌, ◌+◌, ◌++◌, ◌∷◌, [], List, ℕ, IfOk, OnOk, length, is_some};
ghost use Rattle.std.specs.Ordering.{nat_cmp};
ghost use Rattle.std.specs.Cmp.Lexicographic.{slice_cmp};
ghost use Rattle.std.specs.BTreeMap.{get};
ghost use Rattle.std.specs.Option.{option_copied};
ghost use Rattle.mega_syntax.specs.Names.{same};
ghost use Rattle.mega_schema.specs.Named.{or_place};
ghost use Rattle.mega_picture.specs.Groups.{key_in, place_of, number_in, with_key, with_named};
ghost use Rattle.mega_picture.specs.Named.{keys_of};

use crate::item_line::ItemLine;
use mega_base::{Bytes, Copied, GroupId, Items, NoMemory};
use mega_transcript::Item;
use std::alloc::Global;
use std::collections::BTreeMap;
use std::marker::Model;

/// The key of the group that an item's mark names.
fn key_in(item: &Item) -> Option<&Bytes>
    ensures { option_copied result ≡ key_in item.now }
{
    match item {
        Item::Valid { group, .. } => Some(&*group.key),
        Item::Invalid { group, .. } => Some(&*group.key),
        Item::Decide { group, .. } => Some(&*group.key),
        Item::Apply { group, .. } => Some(&*group.key),
        _ => None,
    }
}

/// Keeps the number of a group that has none.
fn note(
    alloc: Global,
    numbers: &mut BTreeMap<Bytes, u32>,
    key: &Bytes,
    number: u32,
) -> Result<(), NoMemory>
    ensures { OnOk result ((n : List ℕ) → get (slice_cmp nat_cmp) numbers.new n ≡ or_place (get (slice_cmp nat_cmp) numbers.old n) (same key.now n) number) }
{
    if !numbers.contains_key(key) {
        numbers.insert(key.copy(alloc)?, number)?;
    }
    Ok(())
}

/// The entity groups of a page: their keys, in order of their numbers.
#[derive(Drop)]
pub struct Groups {
    numbers: BTreeMap<Bytes, u32>,
    keys: Items<Bytes>,
}

impl Model for Groups {
    ghost use Rattle.std.specs.Prelude.{List, ℕ};
    ghost use Rattle.mega_picture.specs.Groups.{Numbers};

    ghost Value = { List (List ℕ) };

    ghost view = { λ g. g.keys };

    ghost invariant = { λ g. Numbers g.numbers g.keys };
}

impl Groups {
    /// Those that the marks of the lines drawn name.
    #[tactic(auto, using(crate::proofs::Numbering::keys_on, crate::proofs::Numbering::short_on))]
    pub fn new(alloc: Global, told: &[ItemLine]) -> Result<Groups, NoMemory>
        requires { length told.now ≤ 4000 }
        ensures value { IfOk result (λ groups. groups ≡ keys_of told.now) }
        ensures few { IfOk result (λ groups. length groups ≤ 4000) }
    {
        let mut groups = Groups::none(alloc);
        for one in told {
            groups = groups.with_named(alloc, key_in(&one.item))?;
        }
        Ok(groups)
    }

    fn none(alloc: Global) -> Groups
        ensures { result ≡ [] }
    {
        Groups {
            numbers: BTreeMap::new(alloc),
            keys: Items::new(alloc),
        }
    }

    /// The groups with one more that is named, where it has no number yet.
    fn with_named(self, alloc: Global, key: Option<&Bytes>) -> Result<Groups, NoMemory>
        requires { length self < 4000 }
        ensures { IfOk result (λ after. after ≡ with_named self (option_copied key.entry)) }
    {
        match key {
            Some(key) => self.with_key(alloc, key),
            None => Ok(self),
        }
    }

    /// The groups with one more, where it has no number yet.
    fn with_key(self, alloc: Global, key: &Bytes) -> Result<Groups, NoMemory>
        requires { length self < 4000 }
        ensures { IfOk result (λ after. after ≡ with_key self key.now) }
    {
        if self.has(key) {
            Ok(self)
        } else {
            self.with_new(alloc, key)
        }
    }

    fn has(&self, key: &Bytes) -> bool
        ensures { result ≡ is_some (place_of self.now key.now) }
    {
        self.numbers.contains_key(key)
    }

    /// The groups with one more behind them.
    fn with_new(self, alloc: Global, key: &Bytes) -> Result<Groups, NoMemory>
        requires { length self < 4000 }
        ensures { IfOk result (λ after. after ≡ self ++ key.now ∷ []) }
    {
        let Groups {
            mut numbers,
            mut keys,
        } = self;
        note(alloc, &mut numbers, key, keys.len() as u32 + 1)?;
        keys.push(key.copy(alloc)?)?;
        Ok(Groups { numbers, keys })
    }

    /// The number of a group, 0 where it has none.
    pub fn number(&self, group: &GroupId) -> u32
        ensures { result ≡ number_in self.now group.now.key }
    {
        self.numbers.get(&*group.key).copied().unwrap_or(0)
    }

    /// The keys of the groups, in order of their numbers.
    pub fn keys(&self) -> &[Bytes]
        ensures { result.now ≡ self.now }
    {
        self.keys.as_slice()
    }
}
