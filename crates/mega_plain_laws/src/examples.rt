//! A run that the laws are about, as the contract of a function that does nothing.

ghost use Rattle.std.specs.Prelude.{All, [], ◌∷◌, map};
ghost use Rattle.mega_rules.specs.Examples.{cluster};
ghost use Rattle.mega_promises.specs.Runs.{Whole, goes_on, opening};
ghost use Rattle.mega_promises.specs.Worked.{happens, tick};
ghost use Rattle.mega_format_laws.specs.Histories.{IsCluster};
ghost use Rattle.mega_plain_laws.specs.Answers.{IsNamed};
ghost use Rattle.mega_plain_laws.specs.Formed.{AreFormed};
ghost use Rattle.mega_field_ranges.specs.Held.{HoldsItem};

/// Three nodes that start, and a tick at which node 1 asks the cells, meet the premises of the laws.
pub fn a_tick_meets_the_premises()
    ensures formed { IsCluster cluster }
    ensures named { IsNamed cluster.schema }
    ensures asked { AreFormed (map happens (tick 1 10 ∷ [])) }
    ensures held { All HoldsItem (goes_on cluster (λ now me calls. Whole) (opening cluster []) (map happens (tick 1 10 ∷ []))).tape }
{}
