//! What follows from the rule of a cell over any list of calls, as contracts of functions that do nothing.

ghost use Rattle.std.specs.Prelude.{◌≡◌, ◌≤◌, [], ◌∷◌, ◌++◌, ℕ, List, None};
ghost use Rattle.mega_base.specs.declared.names.Epoch.{Epoch};
ghost use Rattle.mega_locks.specs.History.{Asks, Call, Ticks, first_tick, held_for, lapse_for};
ghost use Rattle.mega_locks.specs.Laws.{IsEnded, IsRising, StaysEnded, due_epoch, grants, marks, standing};

/// What is held for a node is the epoch of its last grant, where no lapse follows it. So no two epochs
/// are held for one node.
pub fn held_is_the_last_grant()
    ensures { (calls : List Call) (node : ℕ) → held_for calls node ≡ standing (marks calls node) }
{}

/// Each grant is of an epoch above all that were granted to the node before, and each lapse ends the
/// epoch that is held.
pub fn grants_rise()
    ensures { (calls : List Call) (node : ℕ) → IsRising (marks calls node) }
{}

/// No epoch is granted twice.
pub fn granted_once()
    ensures { (calls : List Call) (node : ℕ) (epoch : Epoch) → grants epoch (marks calls node) ≤ 1 }
{}

/// An epoch that was granted and is no longer held is never held or granted again.
pub fn ended_for_good()
    ensures { (later before : List Call) (node : ℕ) (epoch : Epoch) → IsEnded before node epoch → StaysEnded (later ++ before) node epoch }
{}

/// An epoch lapses at the first tick at or past the end of its time. The time counts from its last grant
/// or renewal, where that came in this start at or after the first tick, and else from the first tick.
pub fn lapses_at_its_time()
    ensures { (calls : List Call) (now keep node : ℕ) → lapse_for calls now keep node ≡ due_epoch calls now keep node }
{}

/// The first tick of a start ends no epoch.
pub fn first_tick_ends_none()
    ensures { (calls : List Call) (now keep node : ℕ) → first_tick calls ≡ None → 1 ≤ keep → lapse_for calls now keep node ≡ None }
{}

/// An epoch may end: one granted at the clock reading 0 for 120 ends at the tick at 120.
pub fn an_epoch_may_end()
    ensures { (start count : ℕ) → IsEnded (Ticks 120 120 ∷ Asks 3 (record { start = start; count = count }) 0 120 ∷ Ticks 0 120 ∷ []) 3 (record { start = start; count = count }) }
{}
