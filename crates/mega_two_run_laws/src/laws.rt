//! Laws of a change that is driven over a link, as contracts of functions that do nothing.

ghost use Rattle.std.specs.Prelude.{◌≡◌, ℕ, List, Option, Some, true, length, nat_lt};
ghost use Rattle.mega_link.specs.Datagrams.{Datagram};
ghost use Rattle.mega_two_driver.specs.of_moves.declared.phase.Ended.TheVariants as endings;
ghost use Rattle.mega_two_driver.specs.of_moves.declared.phase.Phase.TheVariants as phases;
ghost use Rattle.mega_two_driver.specs.declared.two.Two.{Two};
ghost use Rattle.mega_two_driver_laws.specs.Runs.{closes, run, shows_made, was};
ghost use Rattle.mega_two_turns.specs.Turns.{driven, ending, start};
ghost use Rattle.mega_two_run_laws.specs.TurnResults.{tolds};

/// Where a change is after its turns follows from what it was told in them.
pub fn changes_go_by_what_they_are_told()
    ensures { (node patience : ℕ) (two : Two) (given : List (ℕ × Option Datagram)) → two.phase ≡ phases.Begins
        → (driven node patience (start two) given).two.phase ≡ run (length two.plan.parts) phases.Begins (tolds node patience (start two) given) }
{}

/// A change that ends as committed was told by a reply that its plan is made, and of each part that it is finished; one that is recovered, of each
/// part of the plan that it read.
pub fn committed_runs_saw_it()
    ensures begun { (node patience : ℕ) (two : Two) (given : List (ℕ × Option Datagram)) → two.phase ≡ phases.Begins
        → ending (driven node patience (start two) given).two ≡ Some endings.Committed
        → (was shows_made (length two.plan.parts) phases.Begins (tolds node patience (start two) given) ≡ true)
        × ((part : ℕ) → nat_lt part (length two.plan.parts) ≡ true → was (closes part) (length two.plan.parts) phases.Begins (tolds node patience (start two) given) ≡ true) }
    ensures recovered { (node patience : ℕ) (two : Two) (given : List (ℕ × Option Datagram)) → two.phase ≡ phases.Recovers
        → ending (driven node patience (start two) given).two ≡ Some endings.Committed
        → (was shows_made (length (driven node patience (start two) given).two.plan.parts) phases.Recovers (tolds node patience (start two) given) ≡ true)
        × ((part : ℕ) → nat_lt part (length (driven node patience (start two) given).two.plan.parts) ≡ true
        → was (closes part) (length (driven node patience (start two) given).two.plan.parts) phases.Recovers (tolds node patience (start two) given) ≡ true) }
{}

/// A change keeps its name in its turns.
pub fn driven_changes_keep_their_names()
    ensures { (node patience : ℕ) (two : Two) (given : List (ℕ × Option Datagram)) → (driven node patience (start two) given).two.plan.name ≡ two.plan.name }
{}
