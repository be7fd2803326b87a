//! The numbers of the messages that wait, kept by receiver.
ghost use Rattle.std.specs.Prelude.{◌≡◌, ◌<◌, ◌==◌, ◌&&◌, ◌||◌, not, ℕ, Bool, length, OnOk};
ghost use Rattle.std.specs.BTreeSet.{contains};
ghost use Rattle.std.specs.Ordering.{nat_cmp};
ghost use Rattle.mega_verdicts.specs.Least.{IsLeast};
ghost use Rattle.mega_verdicts.specs.Waiting.{waits_for};

use mega_base::NoMemory;
use std::alloc::Global;
use std::collections::BTreeSet;

/// Makes room for the numbers of a receiver, which are none at first.
fn widen(waiting: &mut Vec<BTreeSet<u64>>, alloc: Global, to: u8) -> Result<(), NoMemory>
    ensures room { OnOk result (to < length waiting.new.items) }
    ensures same { OnOk result ((other n : ℕ) → waits_for waiting.new.items other n ≡ waits_for waiting.old.items other n) }
{
    let count = waiting.as_slice().len();
    for _receiver in count..usize::from(to) + 1 {
        waiting.push(BTreeSet::new(alloc))?;
    }
    Ok(())
}

/// Puts a number among those of a receiver that is there.
fn put(waiting: &mut Vec<BTreeSet<u64>>, to: usize, number: u64) -> Result<(), NoMemory>
    requires { to < length waiting.old.items }
    ensures { OnOk result ((other n : ℕ) → waits_for waiting.new.items other n ≡ ((to == other && number == n) || waits_for waiting.old.items other n)) }
{
    waiting[to].insert(number)?;
    Ok(())
}

/// Takes a number, if it is there, from those of a receiver that is there.
fn take_out(waiting: &mut Vec<BTreeSet<u64>>, to: usize, number: u64)
    requires { to < length waiting.old.items }
    ensures { (other n : ℕ) → waits_for waiting.new.items other n ≡ (not (to == other && number == n) && waits_for waiting.old.items other n) }
{
    waiting[to].remove(&number);
}

/// A message waits for a receiver.
pub fn keep(
    waiting: &mut Vec<BTreeSet<u64>>,
    alloc: Global,
    to: u8,
    number: u64,
) -> Result<(), NoMemory>
    ensures { OnOk result ((other n : ℕ) → waits_for waiting.new.items other n ≡ ((to == other && number == n) || waits_for waiting.old.items other n)) }
{
    widen(waiting, alloc, to)?;
    put(waiting, usize::from(to), number)?;
    Ok(())
}

/// A message that waited for a receiver, if it did, waits no more.
pub fn forget(waiting: &mut Vec<BTreeSet<u64>>, to: u8, number: u64)
    ensures { (other n : ℕ) → waits_for waiting.new.items other n ≡ (not (to == other && number == n) && waits_for waiting.old.items other n) }
{
    let receiver = usize::from(to);
    if receiver >= waiting.as_slice().len() {
        return;
    }
    take_out(waiting, receiver, number);
}

/// The least of these numbers, if there are any.
fn least_of(numbers: &BTreeSet<u64>) -> Option<u64>
    ensures { IsLeast (contains nat_cmp numbers.now) result }
{
    match numbers.first() {
        Some(least) => Some(*least),
        None => None,
    }
}

/// The least number of a message that waits for a receiver, if any does.
pub fn first_for(waiting: &[BTreeSet<u64>], to: usize) -> Option<u64>
    ensures { IsLeast (waits_for waiting.now to) result }
{
    match waiting.get(to) {
        Some(numbers) => least_of(numbers),
        None => None,
    }
}

/// The lesser of two numbers, of those that are there.
pub fn lesser(one: Option<u64>, other: Option<u64>) -> Option<u64>
    ensures { (p q : ℕ → Bool) → IsLeast p one → IsLeast q other → IsLeast (λ n. p n || q n) result }
{
    let first = match one {
        Some(first) => first,
        None => return other,
    };
    let second = match other {
        Some(second) => second,
        None => return one,
    };
    if second < first {
        return other;
    }
    one
}
