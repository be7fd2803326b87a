//! Which positions of a group one node decided.
ghost use Rattle.std.specs.Prelude.{◌≡◌, ◌+◌, ◌<◌, ◌^◌, ◌||◌, ℕ, Bool, max, OnOk, IfOk, false};
ghost use Rattle.std.specs.Ordering.{is_eq, nat_cmp};
ghost use Rattle.std.specs.BTreeSet.{contains};
ghost use Rattle.mega_base.specs.Climbing.{climb};
ghost use Rattle.mega_tally.specs.Reaching.{Reaches, bounds_with, with_position};

use mega_base::NoMemory;
use std::alloc::Global;
use std::collections::BTreeSet;

/// How far the decided positions of a group go at a node: the greatest, and the last through which all are.
#[derive(Clone, Copy, Debug, Drop)]
pub(crate) struct Bounds {
    pub(crate) greatest: u64,
    pub(crate) prefix: u64,
}

/// The positions of a group that a node decided, and how far they go.
#[derive(Drop)]
pub(crate) struct Reach {
    positions: BTreeSet<u64>,
    bounds: Bounds,
}

/// No positions.
fn no_positions(alloc: Global) -> BTreeSet<u64>
    ensures { (n : ℕ) → contains nat_cmp result n ≡ false }
{
    BTreeSet::new(alloc)
}

/// A position is decided too.
fn put(positions: &mut BTreeSet<u64>, position: u64) -> Result<(), NoMemory>
    ensures { OnOk result ((n : ℕ) → contains nat_cmp positions.new n ≡ (is_eq (nat_cmp position n) || contains nat_cmp positions.old n)) }
{
    positions.insert(position)?;
    Ok(())
}

/// Whether a position is decided.
fn is_decided(positions: &BTreeSet<u64>, position: u64) -> bool
    ensures { result ≡ contains nat_cmp positions.now position }
{
    positions.contains(&position)
}

/// How far all positions are decided: from one that is reached, in at most so many steps.
#[tactic(auto, using(mega_base::proofs::Climbs::climb_on, mega_base::proofs::Climbs::climb_stop, mega_base::proofs::Climbs::climb_end))]
fn climbed(positions: &BTreeSet<u64>, from: u64, steps: u64) -> u64
    requires { from + steps < 2 ^ 64 }
    ensures { result ≡ climb (contains nat_cmp positions.now) steps from }
{
    let mut prefix = from;
    for _step in 0..steps {
        if !is_decided(positions, prefix + 1) {
            return prefix;
        }
        prefix += 1;
    }
    prefix
}

/// How far the positions go once one is decided too.
fn bounds_with(positions: &BTreeSet<u64>, before: Bounds, position: u64) -> Bounds
    ensures { result ≡ bounds_with positions.now before position }
{
    let greatest = before.greatest.max(position);
    let steps = greatest.saturating_sub(before.prefix);
    Bounds {
        greatest,
        prefix: climbed(positions, before.prefix, steps),
    }
}

impl Reach {
    /// No position is decided.
    pub(crate) fn new(alloc: Global) -> Reach
        ensures { (test : ℕ → Bool) → ((n : ℕ) → test n ≡ false) → Reaches result test 0 }
    {
        Reach {
            positions: no_positions(alloc),
            bounds: Bounds {
                greatest: 0,
                prefix: 0,
            },
        }
    }

    /// A position is decided; gives through which one all are then.
    pub(crate) fn decide(&mut self, position: u64) -> Result<u64, NoMemory>
        ensures reaches { OnOk result ((test : ℕ → Bool) (most : ℕ) → Reaches self.old test most → Reaches self.new (with_position position test) (max most position)) }
        ensures prefix { IfOk result (λ prefix. self.new.bounds.prefix ≡ prefix) }
    {
        put(&mut self.positions, position)?;
        self.bounds = bounds_with(&self.positions, self.bounds, position);
        Ok(self.bounds.prefix)
    }
}
