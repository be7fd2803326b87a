//! Laws of calm clusters, as contracts of functions that do nothing.

ghost use Rattle.std.specs.Prelude.{◌≡◌, ℕ, ◌+◌, ◌≤◌, ◌||◌, true, false, List, [], length, Option, IsSome, Some, Ok};
ghost use Rattle.mega_base.specs.declared.names.GroupId.{GroupId as Group};
ghost use Rattle.mega_cluster.specs.declared.cluster.Cluster.{Cluster};
ghost use Rattle.mega_entry.specs.declared.content.Enter.{Enter};
ghost use Rattle.mega_handler.specs.Named.{Meanings, has};
ghost use Rattle.mega_index.specs.Rows.{after, no_rows};
ghost use Rattle.mega_outcome.specs.declared.answer.Answer.TheVariants.{Committed};
ghost use Rattle.mega_outcome.specs.declared.answer.Done.{Done};
ghost use Rattle.mega_outcome.specs.declared.answer.Shown.{Shown};
ghost use Rattle.mega_outcome.specs.declared.request.ReadRequest.{ReadRequest};
ghost use Rattle.mega_outcome.specs.declared.request.Request.{Request};
ghost use Rattle.mega_outcome.specs.declared.request.Request.TheVariants.{PumpEnter, PumpHandle, Read, Txn};
ghost use Rattle.mega_outcome.specs.declared.transaction.Transaction.{Transaction};
ghost use Rattle.mega_outcome.specs.Outcome.{outcome};
ghost use Rattle.mega_leased_laws.specs.of_run_laws.of_tape_laws.of_promises.of_rules.Coordinators.{valid_at};
ghost use Rattle.mega_leased_laws.specs.of_run_laws.of_tape_laws.of_promises.of_rules.Logs.{decided, log_of as log_at, prefix_of, top_of};
ghost use Rattle.mega_leased_laws.specs.of_run_laws.of_tape_laws.of_promises.of_rules.Members.{is_full, is_voter};
ghost use Rattle.mega_leased_laws.specs.of_run_laws.of_tape_laws.of_promises.of_rules.Queues.{Posted, enter_entry, is_named, names_entered, next_to_enter, next_to_handle, oldest_unhandled};
ghost use Rattle.mega_leased_laws.specs.of_run_laws.of_tape_laws.of_promises.of_rules.Steps.{is_current, op_of};
ghost use Rattle.mega_leased_laws.specs.of_run_laws.of_tape_laws.of_promises.of_rules.Voting.{acts};
ghost use Rattle.mega_leased_laws.specs.of_run_laws.of_tape_laws.of_promises.of_transcript.declared.item.Item.TheVariants.{Answer, Decide};
ghost use Rattle.mega_leased_laws.specs.of_run_laws.of_tape_laws.of_promises.of_transcript.Tape.{is_sent, is_taken};
ghost use Rattle.mega_leased_laws.specs.of_run_laws.of_tape_laws.of_promises.of_rules.Acting.{applied_logs, committed};
ghost use Rattle.mega_leased_laws.specs.of_run_laws.of_tape_laws.of_promises.Calm.{Ends, IsCalm, IsCalmAt, begun, drained, first_now, is_cut};
ghost use Rattle.mega_leased_laws.specs.of_run_laws.of_tape_laws.of_promises.Items.{number};
ghost use Rattle.mega_leased_laws.specs.of_run_laws.of_tape_laws.of_promises.Messages.{is_dropped};
ghost use Rattle.mega_leased_laws.specs.of_run_laws.of_tape_laws.of_promises.Promises.{Stands, handled_by, log_of, rows_shown};
ghost use Rattle.mega_leased_laws.specs.of_run_laws.of_tape_laws.of_promises.Runs.{Cuts, Happening, Standing, drained as drained_on, setting};
ghost use Rattle.mega_leased_laws.specs.of_run_laws.of_tape_laws.Writes.{Usage};
ghost use Rattle.mega_leased_laws.specs.of_run_laws.Usages.{Fits};
ghost use Rattle.mega_calm_laws.specs.Answered.{AllWaited, IsRead, IsReadOrAwaits, all_delivered};
ghost use Rattle.mega_calm_laws.specs.Next.{HasAtHand, IsNextAt, run_of};
ghost use Rattle.mega_calm_laws.specs.Proposed.{Asked, IsProposedAlone};
ghost use Rattle.mega_calm_laws.specs.Ready.{HasLeader, IsReady};
ghost use Rattle.mega_calm_laws.specs.Stocked.{IsStocked};
ghost use Rattle.mega_calm_laws.specs.Waiting.{IsNumbered};

/// A current read that begins alone at a full node of a calm group, and whose rows fit, is answered with rows by the end of a drain that is not cut.
pub fn a_read_of_a_calm_group_is_answered()
    ensures { (c : Cluster) (h : Meanings) (cuts : Cuts) (now : Standing) (me most : ℕ) (request : ReadRequest) (text : List ℕ) (rows : List (Option Shown)) → IsNumbered now.tape → IsStocked c now request.group →
        is_current request.mode ≡ true → IsCalm c now request.group → Ends c h cuts now me (Read request) text most → rows_shown c.schema request (log_of now.tape request.group) request.rows ≡ Ok rows →
        IsRead (op_of (setting c h me) (now.node me).met) (drained c h cuts now me (Read request) text most).tape }
{}

/// However the messages are delivered, one by one and in any order, such a read was answered, or it awaits a message that was sent and neither taken nor dropped.
pub fn an_open_read_awaits_a_message()
    ensures { (c : Cluster) (h : Meanings) (cuts : Cuts) (now : Standing) (me : ℕ) (request : ReadRequest) (text numbers : List ℕ) (rows : List (Option Shown)) → IsNumbered now.tape → IsStocked c now request.group →
        is_current request.mode ≡ true → IsCalm c now request.group → is_full c me ≡ true → rows_shown c.schema request (log_of now.tape request.group) request.rows ≡ Ok rows →
        AllWaited c h cuts (begun c h cuts now me (Read request) text) numbers →
        IsReadOrAwaits (op_of (setting c h me) (now.node me).met) (all_delivered c h cuts (begun c h cuts now me (Read request) text) numbers).tape }
{}

/// Where the group is valid at its node, and the node decided each position up to the greatest that it accepted, such a read is answered in the step in which it begins.
pub fn a_valid_group_is_read_at_once()
    ensures { (c : Cluster) (h : Meanings) (cuts : Cuts) (now : Standing) (me : ℕ) (request : ReadRequest) (text : List ℕ) (rows : List (Option Shown)) → IsNumbered now.tape → IsStocked c now request.group →
        is_current request.mode ≡ true → IsCalm c now request.group → is_full c me ≡ true → rows_shown c.schema request (log_of now.tape request.group) request.rows ≡ Ok rows →
        valid_at c (now.node me).met request.group ≡ true → ((n : ℕ) → 1 ≤ n → n ≤ top_of (now.node me).met request.group → IsSome (decided (now.node me).met request.group n)) →
        IsRead (op_of (setting c h me) (now.node me).met) (begun c h cuts now me (Read request) text).tape }
{}

/// Where one operation has asked the leader of a position, nothing else waits, and nothing was accepted there, its own entry is committed by the end of a drain that is not cut: each voter
/// accepts it, so that a majority did and every full node is covered (CIDR 2011, write algorithm).
pub fn a_proposal_made_alone_is_committed()
    ensures decided { (c : Cluster) (h : Meanings) (cuts : Cuts) (now : Standing) (a : Asked) (most : ℕ) → IsProposedAlone c now a → is_cut (drained_on c h cuts now most).tape ≡ false →
        Stands (Decide a.operation.id.node a.group (record { 0 = a.position }) a.entry) (drained_on c h cuts now most).tape }
    ensures answered { (c : Cluster) (h : Meanings) (cuts : Cuts) (now : Standing) (a : Asked) (most : ℕ) → IsProposedAlone c now a → a.entry.id ≡ Some a.operation.id → is_cut (drained_on c h cuts now most).tape ≡ false →
        Stands (Answer a.operation.id (committed a.position a.promised)) (drained_on c h cuts now most).tape }
{}

/// A transaction that begins alone at a full node where its group is valid, whose node's log reaches as far as it accepted, is committed right behind that log by the end of a drain that is
/// not cut, where its outcome on the log is taken.
pub fn a_transaction_of_a_valid_group_is_committed()
    ensures { (c : Cluster) (h : Meanings) (cuts : Cuts) (now : Standing) (me n leader most : ℕ) (transaction : Transaction) (text : List ℕ) (done : Done) → IsNumbered now.tape → IsCalm c now transaction.group →
        Ends c h cuts now me (Txn transaction) text most → valid_at c (now.node me).met transaction.group ≡ true → IsNextAt c now me transaction.group n leader →
        outcome c.schema transaction (after (log_at (now.node me).met transaction.group) no_rows) ≡ Ok done →
        Stands (Answer (op_of (setting c h me) (now.node me).met) (Committed (record { 0 = n }) done.replies)) (drained c h cuts now me (Txn transaction) text most).tape }
{}

/// A pump that picks a message whose group is valid at its node, where it is not entered yet, has its enter decided right behind the log of that group, under the same conditions.
pub fn a_pump_enters_into_a_valid_group()
    ensures { (c : Cluster) (h : Meanings) (cuts : Cuts) (now : Standing) (me n leader most : ℕ) (text : List ℕ) (one : Posted) → IsNumbered now.tape → IsCalm c now one.to →
        Ends c h cuts now me PumpEnter text most → valid_at c (now.node me).met one.to ≡ true → IsNextAt c now me one.to n leader →
        next_to_enter (op_of (setting c h me) (now.node me).met) (applied_logs (first_now now me)) ≡ Some one → is_named one.message.name (names_entered (log_at (now.node me).met one.to)) ≡ false →
        Stands (Decide (number me) one.to (record { 0 = n }) (enter_entry (op_of (setting c h me) (now.node me).met) one.message)) (drained c h cuts now me PumpEnter text most).tape }
{}

/// A pump that picks a group which is valid at its node has the group's oldest message handled right behind its log, where its queue has a handler, under the same conditions.
pub fn a_pump_handles_in_a_valid_group()
    ensures { (c : Cluster) (h : Meanings) (cuts : Cuts) (now : Standing) (me n leader most : ℕ) (text : List ℕ) (group : Group) (message : Enter) → IsNumbered now.tape → IsCalm c now group →
        Ends c h cuts now me PumpHandle text most → valid_at c (now.node me).met group ≡ true → IsNextAt c now me group n leader →
        next_to_handle (applied_logs (first_now now me)) ≡ Some group → oldest_unhandled (log_at (now.node me).met group) ≡ Some message → has h message.queue ≡ true →
        Stands (Decide (number me) group (record { 0 = n }) (handled_by c.schema h group (op_of (setting c h me) (now.node me).met) message (log_at (now.node me).met group))) (drained c h cuts now me PumpHandle text most).tape }
{}

/// In every run the messages that were sent have the numbers from 1 on, and no others were taken or dropped.
pub fn messages_are_numbered()
    ensures { (c : Cluster) (cuts : Cuts) (first : Meanings) (events : List Happening) → IsNumbered (run_of c cuts first events).tape }
{}

/// Where a run stands calm for a group, and each text means the request that begins with it, each position up to the greatest that a voter accepted or decided is
/// decided at some voter.
pub fn calm_groups_are_stocked()
    ensures { (c : Cluster) (usage : Usage) (cuts : Cuts) (first : Meanings) (events : List Happening) (group : Group) → Fits usage events → IsCalm c (run_of c cuts first events) group → IsStocked c (run_of c cuts first events) group }
{}

/// So in every run where each text means the request that begins with it: where it stands calm for a group, a current read of it that begins alone at a full node, and
/// whose rows fit, is answered with rows by the end of a drain that is not cut.
pub fn current_reads_are_answered()
    ensures { (c : Cluster) (usage : Usage) (cuts : Cuts) (first h : Meanings) (events : List Happening) (me most : ℕ) (request : ReadRequest) (text : List ℕ) (rows : List (Option Shown)) → Fits usage events →
        is_current request.mode ≡ true → IsCalm c (run_of c cuts first events) request.group → Ends c h cuts (run_of c cuts first events) me (Read request) text most →
        rows_shown c.schema request (log_of (run_of c cuts first events).tape request.group) request.rows ≡ Ok rows →
        IsRead (op_of (setting c h me) ((run_of c cuts first events).node me).met) (drained c h cuts (run_of c cuts first events) me (Read request) text most).tape }
{}

/// In every run of a cluster of no more cells than nodes: where it stands calm, any request that begins alone at a full node leaves no message, by the end of a drain that is not cut, that was
/// neither taken nor dropped.
pub fn calm_clusters_fall_quiet()
    ensures { (c : Cluster) (cuts : Cuts) (first h : Meanings) (events : List Happening) (me most : ℕ) (request : Request) (text : List ℕ) (group : Group) (k : ℕ) → c.cells ≤ length c.nodes →
        IsCalm c (run_of c cuts first events) group → Ends c h cuts (run_of c cuts first events) me request text most → is_sent (drained c h cuts (run_of c cuts first events) me request text most).tape k ≡ true →
        (is_taken (drained c h cuts (run_of c cuts first events) me request text most).tape k || is_dropped (drained c h cuts (run_of c cuts first events) me request text most).tape k) ≡ true }
{}

/// In every run that stands calm with no message that speaks of a position, no voter made anything there, and no node decided it.
pub fn calm_positions_are_free()
    ensures acts { (c : Cluster) (cuts : Cuts) (first : Meanings) (events : List Happening) (group : Group) (n : ℕ) → IsCalmAt c (run_of c cuts first events) group n →
        (node : ℕ) → acts ((run_of c cuts first events).node node).met group n ≡ [] }
    ensures decides { (c : Cluster) (cuts : Cuts) (first : Meanings) (events : List Happening) (group : Group) (n : ℕ) → IsCalmAt c (run_of c cuts first events) group n →
        (node : ℕ) → decided ((run_of c cuts first events).node node).met group n ≡ None }
{}

/// There the log of a node that reaches through the position below is the whole log of the group.
pub fn a_log_at_hand_is_the_whole_log()
    ensures { (c : Cluster) (cuts : Cuts) (first : Meanings) (events : List Happening) (group : Group) (n me : ℕ) → IsCalmAt c (run_of c cuts first events) group n →
        n ≡ prefix_of ((run_of c cuts first events).node me).met group + 1 → log_at ((run_of c cuts first events).node me).met group ≡ log_of (run_of c cuts first events).tape group }
{}

/// So in every run under the four conditions of calm, at a full node that has all of the group at hand: a transaction that its outcome over the log takes, and that begins alone, is committed at
/// the next position by the end of a drain that is not cut.
pub fn transactions_at_hand_are_committed()
    ensures { (c : Cluster) (cuts : Cuts) (first h : Meanings) (events : List Happening) (me n leader most : ℕ) (transaction : Transaction) (text : List ℕ) (done : Done) →
        IsCalmAt c (run_of c cuts first events) transaction.group n → HasAtHand c (run_of c cuts first events) me transaction.group n leader → Ends c h cuts (run_of c cuts first events) me (Txn transaction) text most →
        outcome c.schema transaction (after (log_of (run_of c cuts first events).tape transaction.group) no_rows) ≡ Ok done →
        Stands (Answer (op_of (setting c h me) ((run_of c cuts first events).node me).met) (Committed (record { 0 = n }) done.replies)) (drained c h cuts (run_of c cuts first events) me (Txn transaction) text most).tape }
{}

/// And pumps do there what they pick: the enter of a message that is not entered yet is decided at the next position, and the handling of the oldest message that is not handled, where there is
/// a handler.
pub fn pumps_at_hand_do_what_they_pick()
    ensures enters { (c : Cluster) (cuts : Cuts) (first h : Meanings) (events : List Happening) (me n leader most : ℕ) (text : List ℕ) (one : Posted) →
        next_to_enter (op_of (setting c h me) ((run_of c cuts first events).node me).met) (applied_logs (first_now (run_of c cuts first events) me)) ≡ Some one →
        IsCalmAt c (run_of c cuts first events) one.to n → HasAtHand c (run_of c cuts first events) me one.to n leader → Ends c h cuts (run_of c cuts first events) me PumpEnter text most →
        is_named one.message.name (names_entered (log_of (run_of c cuts first events).tape one.to)) ≡ false →
        Stands (Decide (number me) one.to (record { 0 = n }) (enter_entry (op_of (setting c h me) ((run_of c cuts first events).node me).met) one.message)) (drained c h cuts (run_of c cuts first events) me PumpEnter text most).tape }
    ensures handles { (c : Cluster) (cuts : Cuts) (first h : Meanings) (events : List Happening) (me n leader most : ℕ) (text : List ℕ) (group : Group) (message : Enter) →
        next_to_handle (applied_logs (first_now (run_of c cuts first events) me)) ≡ Some group →
        IsCalmAt c (run_of c cuts first events) group n → HasAtHand c (run_of c cuts first events) me group n leader → Ends c h cuts (run_of c cuts first events) me PumpHandle text most →
        oldest_unhandled (log_of (run_of c cuts first events).tape group) ≡ Some message → has h message.queue ≡ true →
        Stands (Decide (number me) group (record { 0 = n }) (handled_by c.schema h group (op_of (setting c h me) ((run_of c cuts first events).node me).met) message (log_of (run_of c cuts first events).tape group))) (drained c h cuts (run_of c cuts first events) me PumpHandle text most).tape }
{}

/// In every run of a cluster of no more cells than nodes, with a voter, where each text means the request that begins with it, there is a leader behind the log of each group, and it is a voter: each
/// entry names the node of the operation that proposed it, and only full nodes have such operations.
pub fn logs_have_leaders()
    ensures { (c : Cluster) (usage : Usage) (cuts : Cuts) (first : Meanings) (events : List Happening) (group : Group) (voter : ℕ) → Fits usage events → c.cells ≤ length c.nodes → is_voter c voter ≡ true →
        HasLeader c (log_of (run_of c cuts first events).tape group) }
{}

/// In every run of at most nine nodes and five cells, and no more cells than nodes, where each text means the request that begins with it: where it stands under the four conditions of calm, it is
/// ready to write behind the log of the group: what voters decided is the log's, most of them know its end, as does a node at which the group is valid, and nothing was made behind it.
pub fn calm_runs_are_ready()
    ensures { (c : Cluster) (usage : Usage) (cuts : Cuts) (first : Meanings) (events : List Happening) (group : Group) (n me : ℕ) → Fits usage events → length c.nodes ≤ 9 → c.cells ≤ 5 → c.cells ≤ length c.nodes →
        IsCalmAt c (run_of c cuts first events) group n → is_full c me ≡ true → IsReady c (run_of c cuts first events) me group (log_of (run_of c cuts first events).tape group) }
{}
