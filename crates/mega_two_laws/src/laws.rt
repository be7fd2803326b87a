//! The laws of changes of several groups, as contracts of functions that do nothing.

ghost use Rattle.std.specs.Prelude.{◌≡◌, List};
ghost use Rattle.mega_two_laws.specs.World.{Event, Text};
ghost use Rattle.mega_two_laws.specs.Driver.{Driver, Ended, Ending, IsHistory, IsReachable};
ghost use Rattle.mega_two_laws.specs.Atomic.{EndsTruly, IsAtomic};

/// Whatever any number of drivers ask, and whenever that is run, again and again or never, each change is made whole or not at all.
pub fn changes_are_atomic()
    ensures { (events : List Event) → IsHistory events → (name : Text) → IsAtomic events name }
{}

/// A driver that ends as committed or aborted ends as the change's plan is decided.
pub fn drivers_end_truly()
    ensures { (events : List Event) → IsHistory events → (d : Driver) (ending : Ending) → IsReachable events d → d.phase ≡ Ended ending → EndsTruly events d.name ending }
{}
