//! That the premises can be met, as contracts of functions that do nothing.

ghost use Rattle.std.specs.Prelude.{◌≡◌, [], ◌∷◌, map, reverse, Some, Ok};
ghost use Rattle.mega_index.specs.Rows.{after, no_rows};
ghost use Rattle.mega_outcome.specs.declared.request.Request.TheVariants.{Read, Txn};
ghost use Rattle.mega_outcome.specs.Outcome.{outcome};
ghost use Rattle.mega_leased_laws.specs.of_run_laws.of_tape_laws.of_promises.of_rules.Examples.{cluster, entry_of, group, user};
ghost use Rattle.mega_leased_laws.specs.of_run_laws.of_tape_laws.of_promises.Calm.{Ends, IsCalm, IsCalmAt};
ghost use Rattle.mega_leased_laws.specs.of_run_laws.of_tape_laws.of_promises.Promises.{log_of, rows_shown};
ghost use Rattle.mega_leased_laws.specs.of_run_laws.of_tape_laws.of_promises.Runs.{by_fuse};
ghost use Rattle.mega_leased_laws.specs.of_run_laws.of_tape_laws.of_promises.Worked.{answers, committed_at, crashes, op, told};
ghost use Rattle.mega_calm_laws.specs.Examples.{opened, put_user, started_again, user_read, whole_read};

/// Three nodes that have opened stand calm, and a current read that begins there meets the premises: its drain is not cut, and its rows fit.
pub fn a_read_may_begin_in_a_calm_cluster()
    ensures calm { IsCalm cluster opened group }
    ensures ends { Ends cluster [] by_fuse opened 1 (Read whole_read) [] 50 }
    ensures fits { rows_shown cluster.schema whole_read (log_of opened.tape group) whole_read.rows ≡ Ok [] }
{}

/// So does a transaction that begins there: the next position is the first, its drain is not cut, and its outcome takes it.
pub fn a_transaction_may_begin_in_a_calm_cluster()
    ensures calm { IsCalmAt cluster opened group 1 }
    ensures ends { Ends cluster [] by_fuse opened 1 (Txn put_user) [] 50 }
    ensures taken { outcome cluster.schema put_user (after (log_of opened.tape group) no_rows) ≡ Ok (record { writes = (entry_of 1).writes; sends = []; replies = [] }) }
{}

/// So does a cluster of which a node crashed: a put was committed and each node applied it, node 2 crashed and was started again, and no message is left. A
/// current read may begin there, and shows the put, or a transaction, whose next position is the second: their drains are not cut.
pub fn a_cluster_that_crashed_stands_calm()
    ensures committed { answers (reverse started_again.tape) ≡ told (op 1 1 1) (committed_at 1) ∷ [] }
    ensures applied { map (λ node. (started_again.node node).stored group) (1 ∷ 2 ∷ 3 ∷ []) ≡ 1 ∷ 1 ∷ 1 ∷ [] }
    ensures crashed { crashes (reverse started_again.tape) ≡ 2 ∷ [] }
    ensures calm { IsCalm cluster started_again group }
    ensures calm_at { IsCalmAt cluster started_again group 2 }
    ensures read_ends { Ends cluster [] by_fuse started_again 1 (Read user_read) [] 50 }
    ensures fits { rows_shown cluster.schema user_read (log_of started_again.tape group) user_read.rows ≡ Ok (Some (record { table = 1; row = user }) ∷ []) }
    ensures ends { Ends cluster [] by_fuse started_again 1 (Txn put_user) [] 50 }
    ensures taken { outcome cluster.schema put_user (after (log_of started_again.tape group) no_rows) ≡ Ok (record { writes = (entry_of 1).writes; sends = []; replies = [] }) }
{}
