//! What the laws are about, and why they ask for a schema that was declared, as contracts of functions that do nothing.

ghost use Rattle.std.specs.Prelude.{◌≡◌, [], ◌∷◌, None, Some, Ok, map};
ghost use Rattle.mega_run_laws.specs.of_tape_laws.of_promises.of_schedule.declared.world_event.WorldEvent.TheVariants.{Deliver};
ghost use Rattle.mega_index.specs.Rows.{no_rows};
ghost use Rattle.mega_outcome.specs.Changes.{all_changes};
ghost use Rattle.mega_outcome.specs.Places.{key_in};
ghost use Rattle.mega_outcome.specs.declared.transaction.Change.TheVariants.{Put};
ghost use Rattle.mega_run_laws.specs.of_tape_laws.of_promises.Runs.{Whole, goes_on, opening, refusal};
ghost use Rattle.mega_run_laws.specs.of_tape_laws.of_promises.Worked.{happens, put_at};
ghost use Rattle.mega_run_laws.specs.of_tape_laws.Examples.{asks_put};
ghost use Rattle.mega_run_laws.specs.of_tape_laws.IndexExamples.{named_cluster};
ghost use Rattle.mega_run_laws.specs.of_tape_laws.Indexed.{IsDeclared};
ghost use Rattle.mega_run_laws.specs.Usages.{Fits};
ghost use Rattle.mega_row_laws.specs.Examples.{mixed, of_photo, of_user, photo, shared, tag};

/// A put, and the delivery of its first message, meet all that the laws ask, in a cluster whose users have an index by name.
pub fn a_put_meets_the_premises()
    ensures declared { IsDeclared named_cluster.schema }
    ensures fits { Fits asks_put (map happens (put_at 1 ∷ Deliver 1 ∷ [])) }
    ensures begins { refusal named_cluster (opening named_cluster []) (put_at 1) ≡ None }
    ensures takes { refusal named_cluster (goes_on named_cluster (λ now me calls. Whole) (opening named_cluster []) (map happens (put_at 1 ∷ []))) (Deliver 1) ≡ None }
{}

/// Where the root of a table is no root, an item of one group names a key under which a transaction of another group writes.
pub fn a_root_that_is_none_mixes_groups()
    ensures names { key_in mixed of_user.key 0 1 photo ≡ Ok shared }
    ensures writes { all_changes mixed of_photo.key no_rows 0 (Put 3 tag ∷ []) ≡ Ok (record { key = shared; row = Some tag } ∷ []) }
    ensures undeclared { IsDeclared mixed → ⊥ }
{}
