//! What follows from the rule of a coordinator over any list of calls, as contracts of functions that do
//! nothing.

ghost use Rattle.std.specs.Prelude.{◌≡◌, ℕ, List, [], ◌∷◌, true, false, Some};
ghost use Rattle.mega_base.specs.declared.names.Epoch.{Epoch};
ghost use Rattle.mega_base.specs.declared.names.GroupId.{GroupId};
ghost use Rattle.mega_coordinator.specs.History.{Call, Grants, Validates, ends, epoch_after, is_valid, serving};
ghost use Rattle.mega_coordinator.specs.Laws.{ServesAlone, ValidatedAbove, endings, epoch_at, is_counted};

/// The present epoch is the start with the number of epochs that ended in it; there is none once the
/// epoch with count 2^32 - 1 ended.
pub fn epoch_counts_endings()
    ensures { (start cells : ℕ) (calls : List Call) → epoch_after start cells calls ≡ epoch_at start (endings start cells calls) }
{}

/// At any moment at most one epoch serves, the present one, with a majority of the cells counted.
pub fn one_epoch_serves()
    ensures { (start cells : ℕ) (calls : List Call) (epoch : Epoch) → serving start cells calls ≡ Some epoch → ServesAlone start cells calls epoch }
{}

/// While an epoch serves no cell is counted that was not counted before.
pub fn serving_counts_no_new_cell()
    ensures { (start cells : ℕ) (call : Call) (before : List Call) (epoch : Epoch) (cell : ℕ) → serving start cells before ≡ Some epoch → ends start cells before call ≡ false → is_counted start cells (call ∷ before) cell ≡ true → is_counted start cells before cell ≡ true }
{}

/// A group that is valid was validated in the present epoch, which serves, at a position at least that of
/// every invalidate of it in this epoch.
pub fn valid_is_validated()
    ensures { (start cells : ℕ) (calls : List Call) (group : GroupId) → is_valid start cells calls group ≡ true → ValidatedAbove start cells calls group }
{}

/// An epoch may serve, and a group be valid in it: with one cell, after a grant and a validate.
pub fn a_group_may_be_valid()
    ensures { (group : GroupId) → is_valid 1 1 (Validates group 5 (record { start = 1; count = 0 }) ∷ Grants 1 (record { start = 1; count = 0 }) 100 0 ∷ []) group ≡ true }
{}
