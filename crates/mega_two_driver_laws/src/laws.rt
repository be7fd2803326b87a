//! Laws of a change that is driven, as contracts of functions that do nothing.

ghost use Rattle.std.specs.Prelude.{◌≡◌, ℕ, List, true, length, nat_lt};
ghost use Rattle.mega_two_laws.specs.Parts.{Part};
ghost use Rattle.mega_two_laws.specs.World.{Text, Reply, Event};
ghost use Rattle.mega_two_laws.specs.Driver.{IsReachable, MayReply, IsHistory, asks, next, parts_read};
ghost use Rattle.mega_two_laws.specs.Atomic.{EndsTruly};
ghost use Rattle.mega_two_driver.specs.of_moves.declared.phase.Phase.{Phase};
ghost use Rattle.mega_two_driver.specs.of_moves.declared.phase.Phase.TheVariants as phases;
ghost use Rattle.mega_two_driver.specs.of_moves.declared.phase.Ended.{Ended};
ghost use Rattle.mega_two_driver.specs.of_moves.declared.phase.Ended.TheVariants as endings;
ghost use Rattle.mega_two_driver.specs.of_moves.declared.request_result.RequestResult.{RequestResult};
ghost use Rattle.mega_two_driver.specs.Moves.{is_within, moved};
ghost use Rattle.mega_two_driver_laws.specs.Runs.{closes, gives_up, run, shows_made, was};
ghost use Rattle.mega_two_driver_laws.specs.Joined.{driver_in, ending_in, phase_in, told_in};

/// A change is always at one of its parts, whatever it is told.
pub fn changes_stay_within()
    ensures { (count : ℕ) (phase : Phase) (told : RequestResult) → is_within count phase ≡ true → is_within count (moved count phase told) ≡ true }
{}

/// What a reply of the world makes of a change is what it makes of its driver there; one that recovers takes the parts of the plan that it reads.
pub fn changes_move_as_drivers()
    ensures { (name : Text) (parts : List Part) (phase : Phase) (reply : Reply) → is_within (length parts) phase ≡ true
        → next (driver_in name parts phase) reply ≡ driver_in name (parts_read parts (phase_in parts phase) reply) (moved (length (parts_read parts (phase_in parts phase) reply)) phase (told_in name reply)) }
{}

/// So a driver that may be there may be there behind the next reply.
pub fn changes_stay_reached()
    ensures { (events : List Event) (name : Text) (parts : List Part) (phase : Phase) (reply : Reply) → is_within (length parts) phase ≡ true
        → IsReachable events (driver_in name parts phase) → MayReply events (asks (driver_in name parts phase)) reply
        → IsReachable events (driver_in name (parts_read parts (phase_in parts phase) reply) (moved (length (parts_read parts (phase_in parts phase) reply)) phase (told_in name reply))) }
{}

/// A change that ended as committed or aborted ended as its plan is decided.
pub fn changes_end_truly()
    ensures { (events : List Event) → IsHistory events → (name : Text) (parts : List Part) (ending : Ended)
        → IsReachable events (driver_in name parts (phases.Over ending)) → EndsTruly events name (ending_in ending) }
{}

/// A change that ends as committed saw its plan made, and each part finished.
pub fn committed_changes_saw_it()
    ensures begun { (count : ℕ) (told : List RequestResult) → run count phases.Begins told ≡ phases.Over endings.Committed
        → (was shows_made count phases.Begins told ≡ true) × ((part : ℕ) → nat_lt part count ≡ true → was (closes part) count phases.Begins told ≡ true) }
    ensures recovered { (count : ℕ) (told : List RequestResult) → run count phases.Recovers told ≡ phases.Over endings.Committed
        → (was shows_made count phases.Recovers told ≡ true) × ((part : ℕ) → nat_lt part count ≡ true → was (closes part) count phases.Recovers told ≡ true) }
{}

/// Behind a prepare that was lost or turned down no commit is ever asked.
pub fn lost_prepares_are_not_committed()
    ensures { (count : ℕ) (told : List RequestResult) → was gives_up count phases.Begins told ≡ true → run count phases.Begins told ≡ phases.Decides true → ⊥ }
{}
