//! What holds of each change, as contracts of functions that do nothing.

ghost use Rattle.std.specs.Prelude.{◌≡◌, List, length, is_none, is_some, true, ℕ};
ghost use Rattle.mega_two_moves.specs.declared.phase.Phase.{Phase};
ghost use Rattle.mega_two_driver.specs.declared.plan.Plan.{Plan};
ghost use Rattle.mega_two_driver.specs.declared.two.Two.{Two};
ghost use Rattle.mega_two_driver.specs.Driver.{IsSound, asked_in, lost, taken};
ghost use Rattle.mega_two_moves.specs.Moves.{ended_in, is_within};

/// A change that is at one of its parts stays so, whatever it takes.
pub fn changes_stay_at_their_parts()
    ensures taken { (two : Two) (reply : List ℕ) → IsSound two → IsSound (taken two reply) }
    ensures lost { (two : Two) → IsSound two → IsSound (lost two) }
{}

/// And has a request exactly until it has ended.
pub fn changes_ask_until_they_end()
    ensures { (plan : Plan) (phase : Phase) → is_within (length plan.parts) phase ≡ true → is_none (asked_in plan phase) ≡ is_some (ended_in phase) }
{}

/// And keeps its name.
pub fn changes_keep_their_names()
    ensures taken { (two : Two) (reply : List ℕ) → (taken two reply).plan.name ≡ two.plan.name }
    ensures lost { (two : Two) → (lost two).plan.name ≡ two.plan.name }
{}
