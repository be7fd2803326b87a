//! A string of bytes that contracts see as a list.
ghost use Rattle.std.specs.Prelude.{◌≡◌, [], ◌++◌, ◌+◌, ◌<◌, ◌≤◌, drop, IfOk, IfSome, OnOk, OnErr, length, nat_eq, refl, Some, take, ◌∷◌, ◌==◌};
ghost use Rattle.mega_base.specs.Codec.{number_text};
ghost use Rattle.std.specs.Ordering.{nat_cmp};
ghost use Rattle.std.specs.Cmp.Lexicographic.{pointwise, slice_cmp, nat_list_eq_equiv, nat_list_cmp_total, texts_ties, texts_po};
ghost use Rattle.std.specs.Cmp.{partial_equiv_from_equiv};

use crate::copied::{Copied, NoMemory};
use std::alloc::Global;
use std::cmp::Ordering;
use std::marker::Model;

/// A string of bytes, which contracts see as a list.
#[derive(Debug, Drop)]
pub struct Bytes {
    items: Vec<u8>,
}

impl Model for Bytes {
    ghost use Rattle.std.specs.Prelude.{List, ℕ};

    ghost Value = { List ℕ };

    ghost view = { λ b. b.items.items };
}

impl Bytes {
    /// The empty string of bytes.
    pub fn new(alloc: Global) -> Bytes
        ensures { result ≡ [] }
    {
        Bytes {
            items: Vec::new(alloc),
        }
    }

    /// A copy of these bytes.
    pub fn from_slice(alloc: Global, bytes: &[u8]) -> Result<Bytes, NoMemory>
        ensures { IfOk result (λ made. made ≡ bytes.now) }
    {
        let items = Vec::from_slice(alloc, bytes)?;
        Ok(Bytes { items })
    }

    /// These bytes, with no copy.
    pub fn from_vec(items: Vec<u8>) -> Bytes
        ensures { result ≡ items.items }
    {
        Bytes { items }
    }

    /// The bytes, with no copy.
    pub fn into_vec(self) -> Vec<u8>
        ensures { result.items ≡ self }
    {
        let Bytes { items } = self;
        items
    }

    pub fn as_slice(&self) -> &[u8]
        ensures { result.now ≡ self.now }
    {
        self.items.as_slice()
    }

    pub fn len(&self) -> usize
        ensures { result ≡ length self.now }
    {
        self.items.len()
    }

    pub fn is_empty(&self) -> bool
        ensures { result ≡ (length self.now == 0) }
    {
        self.items.is_empty()
    }

    /// Adds one byte at the end; a refusal leaves the bytes.
    pub fn push(&mut self, byte: u8) -> Result<(), NoMemory>
        ensures ok { OnOk result (self.new ≡ self.old ++ byte ∷ []) }
        ensures err { OnErr result (self.new ≡ self.old) }
    {
        self.items.push(byte)?;
        Ok(())
    }

    /// Adds these bytes at the end; a refusal leaves the bytes.
    pub fn extend_from_slice(&mut self, bytes: &[u8]) -> Result<(), NoMemory>
        ensures ok { OnOk result (self.new ≡ self.old ++ bytes.now) }
        ensures err { OnErr result (self.new ≡ self.old) }
    {
        self.items.extend_from_slice(bytes)?;
        Ok(())
    }

    /// Keeps the first `length` bytes, or all where there are fewer.
    pub fn truncate(&mut self, length: usize)
        ensures { self.new ≡ take length self.old }
    {
        self.items.truncate(length);
    }

    /// Writes a number of four bytes, the highest first, over those at `at`.
    #[tactic(auto, unfolding(crate::specs::Codec::number_text))]
    pub fn set_u32(&mut self, at: usize, number: u32)
        requires { at + 4 ≤ length self.old }
        ensures { self.new ≡ take at self.old ++ (number_text 4 number ++ drop (at + 4) self.old) }
    {
        self.items[at..at + 4].copy_from_slice(&number.to_be_bytes());
    }

    /// Drops all bytes and keeps their memory.
    pub fn clear(&mut self)
        ensures { self.new ≡ [] }
    {
        self.items.clear();
    }
}

impl Copied for Bytes {
    fn copy(&self, alloc: Global) -> Result<Bytes, NoMemory> {
        Bytes::from_slice(alloc, self.as_slice())
    }
}

impl PartialEq for Bytes {
    ghost eq = { pointwise nat_eq };

    ghost laws = { partial_equiv_from_equiv nat_list_eq_equiv };

    fn eq(&self, other: &Bytes) -> bool {
        self.as_slice() == other.as_slice()
    }
}

impl Eq for Bytes {
    ghost laws = { nat_list_eq_equiv };
}

impl PartialOrd for Bytes {
    ghost partial_cmp = { λ x y. Some (slice_cmp nat_cmp x y) };

    ghost laws = { texts_po };

    fn partial_cmp(&self, other: &Bytes) -> Option<Ordering> {
        Some(self.cmp(other))
    }
}

impl Ord for Bytes {
    ghost cmp = { slice_cmp nat_cmp };

    ghost total = { nat_list_cmp_total };

    ghost matches_partial_cmp = { λ x y. refl };

    ghost matches_eq = { texts_ties };

    fn cmp(&self, other: &Bytes) -> Ordering {
        order(self.as_slice(), other.as_slice())
    }
}

/// What is left of two byte strings behind eight bytes that are the same, where both begin with such.
fn behind_same<'a>(one: &'a [u8], other: &'a [u8]) -> Option<(&'a [u8], &'a [u8])>
    ensures { IfSome result (λ left. (slice_cmp nat_cmp left.0.now left.1.now ≡ slice_cmp nat_cmp one.now other.now) × (length left.0.now < length one.now)) }
{
    match one.split_first_chunk::<8>() {
        Some((front, behind)) => match other.split_first_chunk::<8>() {
            Some((beginning, after)) => {
                if front == beginning {
                    return Some((behind, after));
                }
                None
            }
            None => None,
        },
        None => None,
    }
}

/// How two byte strings compare. Most keys begin alike, so eight bytes are passed at once where they are the same.
fn order(a: &[u8], b: &[u8]) -> Ordering
    ensures { result ≡ slice_cmp nat_cmp a.now b.now }
{
    let mut one = a;
    let mut other = b;
    while let Some((behind, after)) = behind_same(one, other) {
        one = behind;
        other = after;
    }
    by_bytes(one, other)
}

/// How two byte strings compare, byte by byte. Keys are short, so this costs less than the comparison of slices, which looks for long equal fronts first.
fn by_bytes(a: &[u8], b: &[u8]) -> Ordering
    ensures { result ≡ slice_cmp nat_cmp a.now b.now }
{
    let both = a.len().min(b.len());
    for i in 0..both {
        let found = a[i].cmp(&b[i]);
        if found.is_ne() {
            return found;
        }
    }
    a.len().cmp(&b.len())
}
