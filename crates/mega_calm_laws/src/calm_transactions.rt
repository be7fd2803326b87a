//! Laws of transactions and pumps that begin in calm clusters, whatever their node lacks of the log.

ghost use Rattle.std.specs.Prelude.{◌≡◌, ℕ, ◌≤◌, true, false, List, length, Some, Ok};
ghost use Rattle.mega_base.specs.declared.names.GroupId.{GroupId as Group};
ghost use Rattle.mega_cluster.specs.declared.cluster.Cluster.{Cluster};
ghost use Rattle.mega_entry.specs.declared.content.Enter.{Enter};
ghost use Rattle.mega_handler.specs.Named.{Meanings, has};
ghost use Rattle.mega_index.specs.Rows.{after, no_rows};
ghost use Rattle.mega_outcome.specs.declared.answer.Answer.TheVariants.{Committed};
ghost use Rattle.mega_outcome.specs.declared.answer.Done.{Done};
ghost use Rattle.mega_outcome.specs.declared.request.Request.TheVariants.{PumpEnter, PumpHandle, Txn};
ghost use Rattle.mega_outcome.specs.declared.transaction.Transaction.{Transaction};
ghost use Rattle.mega_outcome.specs.Outcome.{outcome};
ghost use Rattle.mega_leased_laws.specs.of_run_laws.of_tape_laws.of_promises.of_rules.Acting.{applied_logs};
ghost use Rattle.mega_leased_laws.specs.of_run_laws.of_tape_laws.of_promises.of_rules.Queues.{Posted, enter_entry, is_named, names_entered, next_to_enter, next_to_handle, oldest_unhandled};
ghost use Rattle.mega_leased_laws.specs.of_run_laws.of_tape_laws.of_promises.of_rules.Steps.{op_of};
ghost use Rattle.mega_leased_laws.specs.of_run_laws.of_tape_laws.of_promises.of_transcript.declared.item.Item.TheVariants.{Answer, Decide};
ghost use Rattle.mega_leased_laws.specs.of_run_laws.of_tape_laws.of_promises.Calm.{Ends, IsCalmAt, IsCalmComplete, drained, first_now};
ghost use Rattle.mega_leased_laws.specs.of_run_laws.of_tape_laws.of_promises.Items.{number};
ghost use Rattle.mega_leased_laws.specs.of_run_laws.of_tape_laws.of_promises.Promises.{Stands, handled_by, log_of};
ghost use Rattle.mega_leased_laws.specs.of_run_laws.of_tape_laws.of_promises.Runs.{Cuts, Happening, Standing, setting};
ghost use Rattle.mega_leased_laws.specs.of_run_laws.of_tape_laws.Writes.{Usage};
ghost use Rattle.mega_leased_laws.specs.of_run_laws.Usages.{Fits};
ghost use Rattle.mega_calm_laws.specs.Next.{run_of};
ghost use Rattle.mega_calm_laws.specs.Ready.{IsReady};
ghost use Rattle.mega_calm_laws.specs.Stocked.{IsStocked};
ghost use Rattle.mega_calm_laws.specs.Waiting.{IsNumbered};

/// Under the four conditions of calm a transaction that its outcome takes, and that begins alone at a full node, is committed at the next position by the end of a drain that is not cut: where
/// the group is valid at its node it reads at once, and else it polls; it fetches what its node lacks of the log, and proposes behind it.
pub fn a_calm_transaction_is_committed()
    ensures { (c : Cluster) (h : Meanings) (cuts : Cuts) (now : Standing) (me n most : ℕ) (transaction : Transaction) (text : List ℕ) (done : Done) → IsNumbered now.tape → IsStocked c now transaction.group →
        IsReady c now me transaction.group (log_of now.tape transaction.group) → IsCalmAt c now transaction.group n → Ends c h cuts now me (Txn transaction) text most →
        outcome c.schema transaction (after (log_of now.tape transaction.group) no_rows) ≡ Ok done →
        Stands (Answer (op_of (setting c h me) (now.node me).met) (Committed (record { 0 = n }) done.replies)) (drained c h cuts now me (Txn transaction) text most).tape }
{}

/// So is the entry of a pump that enters the message which it picks, where the log does not have it.
pub fn a_calm_pump_enters()
    ensures { (c : Cluster) (h : Meanings) (cuts : Cuts) (now : Standing) (me n most : ℕ) (text : List ℕ) (one : Posted) → IsNumbered now.tape → IsStocked c now one.to →
        IsReady c now me one.to (log_of now.tape one.to) → next_to_enter (op_of (setting c h me) (now.node me).met) (applied_logs (first_now now me)) ≡ Some one → IsCalmAt c now one.to n →
        Ends c h cuts now me PumpEnter text most → is_named (one.message).name (names_entered (log_of now.tape one.to)) ≡ false →
        Stands (Decide (number me) one.to (record { 0 = n }) (enter_entry (op_of (setting c h me) (now.node me).met) one.message)) (drained c h cuts now me PumpEnter text most).tape }
{}

/// And the entry of a pump that handles: it handles the oldest message of the log of the group which it picks, where that has a handler.
pub fn a_calm_pump_handles()
    ensures { (c : Cluster) (h : Meanings) (cuts : Cuts) (now : Standing) (me n most : ℕ) (text : List ℕ) (group : Group) (message : Enter) → IsNumbered now.tape → IsStocked c now group →
        IsReady c now me group (log_of now.tape group) → next_to_handle (applied_logs (first_now now me)) ≡ Some group → IsCalmAt c now group n → Ends c h cuts now me PumpHandle text most →
        oldest_unhandled (log_of now.tape group) ≡ Some message → has h message.queue ≡ true →
        Stands (Decide (number me) group (record { 0 = n }) (handled_by c.schema h group (op_of (setting c h me) (now.node me).met) message (log_of now.tape group))) (drained c h cuts now me PumpHandle text most).tape }
{}

/// In every run of at most nine nodes and five cells, no more cells than nodes, where each text means the request that begins with it, and under the four conditions of calm: a transaction that its
/// outcome takes, and that begins alone at a full node, is committed at the next position by the end of a drain that is not cut.
pub fn calm_transactions_are_committed()
    ensures { (c : Cluster) (usage : Usage) (cuts : Cuts) (first h : Meanings) (events : List Happening) (me n most : ℕ) (transaction : Transaction) (text : List ℕ) (done : Done) →
        length c.nodes ≤ 9 → c.cells ≤ 5 → c.cells ≤ length c.nodes → Fits usage events → IsCalmAt c (run_of c cuts first events) transaction.group n → Ends c h cuts (run_of c cuts first events) me (Txn transaction) text most →
        outcome c.schema transaction (after (log_of (run_of c cuts first events).tape transaction.group) no_rows) ≡ Ok done →
        Stands (Answer (op_of (setting c h me) ((run_of c cuts first events).node me).met) (Committed (record { 0 = n }) done.replies)) (drained c h cuts (run_of c cuts first events) me (Txn transaction) text most).tape }
{}

/// So is the entry of a pump that enters the message which it picks, where the log of its receiver does not have it.
pub fn calm_pumps_enter()
    ensures { (c : Cluster) (usage : Usage) (cuts : Cuts) (first h : Meanings) (events : List Happening) (me n most : ℕ) (text : List ℕ) (one : Posted) →
        length c.nodes ≤ 9 → c.cells ≤ 5 → c.cells ≤ length c.nodes → Fits usage events → next_to_enter (op_of (setting c h me) ((run_of c cuts first events).node me).met) (applied_logs (first_now (run_of c cuts first events) me)) ≡ Some one →
        IsCalmAt c (run_of c cuts first events) one.to n → Ends c h cuts (run_of c cuts first events) me PumpEnter text most →
        is_named (one.message).name (names_entered (log_of (run_of c cuts first events).tape one.to)) ≡ false →
        Stands (Decide (number me) one.to (record { 0 = n }) (enter_entry (op_of (setting c h me) ((run_of c cuts first events).node me).met) one.message)) (drained c h cuts (run_of c cuts first events) me PumpEnter text most).tape }
{}

/// And the entry of a pump that handles: it handles the oldest message of the log of the group which it picks, where that has a handler.
pub fn calm_pumps_handle()
    ensures { (c : Cluster) (usage : Usage) (cuts : Cuts) (first h : Meanings) (events : List Happening) (me n most : ℕ) (text : List ℕ) (group : Group) (message : Enter) →
        length c.nodes ≤ 9 → c.cells ≤ 5 → c.cells ≤ length c.nodes → Fits usage events → next_to_handle (applied_logs (first_now (run_of c cuts first events) me)) ≡ Some group →
        IsCalmAt c (run_of c cuts first events) group n → Ends c h cuts (run_of c cuts first events) me PumpHandle text most →
        oldest_unhandled (log_of (run_of c cuts first events).tape group) ≡ Some message → has h message.queue ≡ true →
        Stands (Decide (number me) group (record { 0 = n }) (handled_by c.schema h group (op_of (setting c h me) ((run_of c cuts first events).node me).met) message (log_of (run_of c cuts first events).tape group)))
        (drained c h cuts (run_of c cuts first events) me PumpHandle text most).tape }
{}

/// So calm clusters answer, whole: in every run of at most nine nodes and five cells, no more cells than nodes, where each text means the request that begins with it.
pub fn runs_are_calm_complete()
    ensures { (c : Cluster) (usage : Usage) (cuts : Cuts) (first h : Meanings) (events : List Happening) → length c.nodes ≤ 9 → c.cells ≤ 5 → c.cells ≤ length c.nodes → Fits usage events →
        IsCalmComplete c h cuts (run_of c cuts first events) }
{}
