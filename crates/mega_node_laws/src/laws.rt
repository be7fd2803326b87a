//! What follows from what a node met, as contracts of functions that do nothing.

ghost use Rattle.std.specs.Prelude.{[], ◌≡◌, ◌≤◌, ◌++◌, ◌∷◌, false, fold, length, map, ℕ, List, Option, Some, All, take};
ghost use Rattle.mega_base.specs.declared.names.Epoch.{Epoch};
ghost use Rattle.mega_base.specs.declared.names.GroupId.{GroupId};
ghost use Rattle.mega_cluster.specs.declared.cluster.Cluster.{Cluster};
ghost use Rattle.mega_entry.specs.declared.content.Content.{Content};
ghost use Rattle.mega_wire.specs.declared.message.Body.{Body};
ghost use Rattle.mega_wire.specs.declared.message.Message.{Message};
ghost use Rattle.mega_disk.specs.VersionMaps.{Versions};
ghost use Rattle.mega_schema.specs.declared.schema.Schema.{Schema};
ghost use Rattle.mega_index.specs.Rows.{after, no_rows};
ghost use Rattle.mega_outcome.specs.Answers.{rows_at};
ghost use Rattle.mega_outcome.specs.Group.{AgreeIn};
ghost use Rattle.mega_outcome.specs.Outcome.{batch_outcome, outcome};
ghost use Rattle.mega_outcome.specs.Reads.{read_rows};
ghost use Rattle.mega_outcome.specs.declared.transaction.RowRef.{RowRef};
ghost use Rattle.mega_outcome.specs.declared.transaction.Transaction.{Transaction};
ghost use Rattle.mega_wal.specs.declared.kept.Kept.{Kept};
ghost use Rattle.mega_wal.specs.Same.{same_group};
ghost use Rattle.mega_voter.specs.of_read.of_propose.declared.round.Proposal.{Proposal};
ghost use Rattle.mega_voter.specs.of_read.of_propose.declared.round.Site.{Site};
ghost use Rattle.mega_voter.specs.of_read.of_propose.Rounds.{asks, completes, due, takes};
ghost use Rattle.mega_voter.specs.of_read.declared.reading.Reader.{Reader};
ghost use Rattle.mega_voter.specs.of_read.declared.reading.Reading.{Reading};
ghost use Rattle.mega_voter.specs.of_read.Catching.{falls_due, hears, local_read, polled_read, seeks};
ghost use Rattle.mega_replica.specs.Applying.{after_portion, after_read, applied, writes_of};
ghost use Rattle.mega_voter.specs.of_rules.Acting.{completes_read, goes_on};
ghost use Rattle.mega_voter.specs.of_rules.Coordinators.{acquires_at};
ghost use Rattle.mega_voter.specs.of_rules.Logs.{decided, groups_of, log_of, newest_of, prefix_of};
ghost use Rattle.mega_voter.specs.of_rules.Met.{Met, Decides, Sends};
ghost use Rattle.mega_voter.specs.of_rules.Operations.{Node, Now, Operation, Setting};
ghost use Rattle.mega_voter.specs.of_rules.Replies.{reply_to};
ghost use Rattle.mega_voter.specs.of_rules.Steps.{Decision, Event, Heard, acts_in_turn, all_act, background, begins, does_due, hears_message, news, onto, step, ticked};
ghost use Rattle.mega_replica.specs.declared.progress.Progress.{Progress};
ghost use Rattle.mega_replica.specs.Following.{Follows};
ghost use Rattle.mega_replica.specs.Stored.{Counts, GroupLogs, log_in};
ghost use Rattle.mega_voter.specs.Journal.{journal_of};
ghost use Rattle.mega_voter.specs.Telling.{IsAnswer, Tells};
ghost use Rattle.mega_node_laws.specs.About.{IsAbout};
ghost use Rattle.mega_node_laws.specs.Acted.{acted_on, own_item};
ghost use Rattle.mega_node_laws.specs.Asking.{Asks};
ghost use Rattle.mega_node_laws.specs.Deciding.{IsNoDecision, SameLogs, is_decision};
ghost use Rattle.mega_node_laws.specs.Own.{HasOwnRows};
ghost use Rattle.mega_node_laws.specs.Sending.{IsUnmade, MaySend};

/// The decided prefix of a group is that of the journal.
#[tactic(auto, using(crate::proofs::Logs::log_is))]
pub fn logs_are_those_of_the_journal()
    ensures { (met : List Met) (group : GroupId) → log_of met group ≡ log_in (journal_of met) group }
{}

/// What is no decision leaves what is decided, and all that is read from it.
#[tactic(auto, using(crate::proofs::Logs::decided_stays, crate::proofs::Logs::log_stays, crate::proofs::Logs::prefix_stays, crate::proofs::Logs::newest_stays, crate::proofs::Logs::groups_stay))]
pub fn only_decisions_change_logs()
    ensures decisions { (one : Met) (met : List Met) (group : GroupId) (n : ℕ) → is_decision one ≡ false → decided (one ∷ met) group n ≡ decided met group n }
    ensures logs { (one : Met) (met : List Met) (group : GroupId) → is_decision one ≡ false → log_of (one ∷ met) group ≡ log_of met group }
    ensures prefixes { (one : Met) (met : List Met) (group : GroupId) → is_decision one ≡ false → prefix_of (one ∷ met) group ≡ prefix_of met group }
    ensures newest { (one : Met) (met : List Met) (group : GroupId) → is_decision one ≡ false → newest_of (one ∷ met) group ≡ newest_of met group }
    ensures groups { (one : Met) (met : List Met) → is_decision one ≡ false → groups_of (one ∷ met) ≡ groups_of met }
{}

/// So does a list of things that are no decisions.
#[tactic(auto, using(crate::proofs::Logs::decided_after, crate::proofs::Logs::log_after, crate::proofs::Logs::prefix_after, crate::proofs::Logs::newest_after, crate::proofs::Logs::groups_after))]
pub fn only_decisions_among_many_change_logs()
    ensures decisions { (items met : List Met) (group : GroupId) (n : ℕ) → All IsNoDecision items → decided (onto items met) group n ≡ decided met group n }
    ensures logs { (items met : List Met) (group : GroupId) → All IsNoDecision items → log_of (onto items met) group ≡ log_of met group }
    ensures prefixes { (items met : List Met) (group : GroupId) → All IsNoDecision items → prefix_of (onto items met) group ≡ prefix_of met group }
    ensures newest { (items met : List Met) (group : GroupId) → All IsNoDecision items → newest_of (onto items met) group ≡ newest_of met group }
    ensures groups { (items met : List Met) → All IsNoDecision items → groups_of (onto items met) ≡ groups_of met }
{}

/// Whatever is met, a log begins with what it was before.
#[tactic(auto, using(crate::proofs::Logs::log_more, crate::proofs::Logs::log_front, crate::proofs::Logs::prefix_grows))]
pub fn what_is_met_only_extends_logs()
    ensures grown { (one : Met) (met : List Met) (group : GroupId) → (more : List Content) × (log_of (one ∷ met) group ≡ log_of met group ++ more) }
    ensures front { (one : Met) (met : List Met) (group : GroupId) → take (prefix_of met group) (log_of (one ∷ met) group) ≡ log_of met group }
    ensures prefixes { (one : Met) (met : List Met) (group : GroupId) → prefix_of met group ≤ prefix_of (one ∷ met) group }
{}

/// So it is over a list of things that are met.
#[tactic(auto, using(crate::proofs::Logs::log_more_after, crate::proofs::Logs::log_front_after, crate::proofs::Logs::prefix_grows_after))]
pub fn all_that_is_met_only_extends_logs()
    ensures grown { (items met : List Met) (group : GroupId) → (more : List Content) × (log_of (onto items met) group ≡ log_of met group ++ more) }
    ensures front { (items met : List Met) (group : GroupId) → take (prefix_of met group) (log_of (onto items met) group) ≡ log_of met group }
    ensures prefixes { (items met : List Met) (group : GroupId) → prefix_of met group ≤ prefix_of (onto items met) group }
{}

/// A decision extends the log of its own group alone, and no log where its position was decided before.
#[tactic(auto, using(crate::proofs::Logs::decision_more, crate::proofs::Logs::other_decided, crate::proofs::Logs::other_log, crate::proofs::Logs::again_decided, crate::proofs::Logs::again_log))]
pub fn a_decision_extends_its_log()
    ensures grown { (g : GroupId) (p : ℕ) (e : Content) (met : List Met) (group : GroupId) → (more : List Content) × (log_of (Decides g p e ∷ met) group ≡ log_of met group ++ more) }
    ensures others { (g : GroupId) (p : ℕ) (e : Content) (met : List Met) (group : GroupId) (n : ℕ) → same_group g group ≡ false → decided (Decides g p e ∷ met) group n ≡ decided met group n }
    ensures other_logs { (g : GroupId) (p : ℕ) (e : Content) (met : List Met) (group : GroupId) → same_group g group ≡ false → log_of (Decides g p e ∷ met) group ≡ log_of met group }
    ensures again { (g : GroupId) (p : ℕ) (e found : Content) (met : List Met) (group : GroupId) (n : ℕ) → decided met g p ≡ Some found → decided (Decides g p e ∷ met) group n ≡ decided met group n }
    ensures again_logs { (g : GroupId) (p : ℕ) (e found : Content) (met : List Met) (group : GroupId) → decided met g p ≡ Some found → log_of (Decides g p e ∷ met) group ≡ log_of met group }
{}

/// Rows that follow a node's logs follow them once it met more: what is decided since is not stored yet.
pub fn rows_follow_what_is_met()
    ensures { (version : Versions) (progress : GroupId → Progress) (one : Met) (met : List Met) (stored : Counts) →
        Follows version progress (log_of met) stored → Follows version progress (log_of (one ∷ met)) stored }
{}

/// So it is over a list of things that are met.
pub fn rows_follow_all_that_is_met()
    ensures { (version : Versions) (progress : GroupId → Progress) (items met : List Met) (stored : Counts) →
        Follows version progress (log_of met) stored → Follows version progress (log_of (onto items met)) stored }
{}

/// A node that met nothing has logs with rows of their own.
#[tactic(auto, using(crate::proofs::Owned::owned_first))]
pub fn first_logs_have_own_rows()
    ensures { (schema : Schema) → HasOwnRows schema (log_of []) }
{}

/// Where longer logs have rows of their own, their fronts have.
pub fn shorter_logs_have_own_rows()
    ensures { (schema : Schema) (log longer more : GroupLogs) → ((group : GroupId) → longer group ≡ log group ++ more group) → HasOwnRows schema longer → HasOwnRows schema log }
{}

/// So what a node met before has, where what it met by now has.
#[tactic(auto, using(crate::proofs::Owned::owned_before))]
pub fn earlier_logs_have_own_rows()
    ensures { (schema : Schema) (one : Met) (met : List Met) → HasOwnRows schema (log_of (one ∷ met)) → HasOwnRows schema (log_of met) }
{}

/// And before a list of things that are met.
#[tactic(auto, using(crate::proofs::Owned::owned_before_all))]
pub fn logs_before_all_have_own_rows()
    ensures { (schema : Schema) (items met : List Met) → HasOwnRows schema (log_of (onto items met)) → HasOwnRows schema (log_of met) }
{}

/// At a position that is applied, the rows that a group's items can name are those that the entries through it wrote.
pub fn a_group_reads_its_log()
    ensures { (version : Versions) (progress : GroupId → Progress) (log : GroupLogs) (stored : Counts) (schema : Schema) (group : GroupId) (p : ℕ) →
        Follows version progress log stored → HasOwnRows schema log → p ≤ applied (log group) (stored group) →
        AgreeIn schema group.key (rows_at version p) (after (take p (log group)) no_rows) }
{}

/// So a transaction, a batch and a read of a group come there to what they come to over its log.
pub fn what_a_group_does_is_of_its_log()
    ensures alone { (version : Versions) (progress : GroupId → Progress) (log : GroupLogs) (stored : Counts) (schema : Schema) (group : GroupId) (p : ℕ) →
        Follows version progress log stored → HasOwnRows schema log → p ≤ applied (log group) (stored group) →
        (txn : Transaction) → txn.group ≡ group → outcome schema txn (rows_at version p) ≡ outcome schema txn (after (take p (log group)) no_rows) }
    ensures batched { (version : Versions) (progress : GroupId → Progress) (log : GroupLogs) (stored : Counts) (schema : Schema) (group : GroupId) (p : ℕ) →
        Follows version progress log stored → HasOwnRows schema log → p ≤ applied (log group) (stored group) →
        (own : GroupId) (txns : List Transaction) → own ≡ group → batch_outcome schema own txns (rows_at version p) ≡ batch_outcome schema own txns (after (take p (log group)) no_rows) }
    ensures reads { (version : Versions) (progress : GroupId → Progress) (log : GroupLogs) (stored : Counts) (schema : Schema) (group : GroupId) (p : ℕ) →
        Follows version progress log stored → HasOwnRows schema log → p ≤ applied (log group) (stored group) →
        (refs : List RowRef) → read_rows schema group refs (rows_at version p) ≡ read_rows schema group refs (after (take p (log group)) no_rows) }
{}

/// Once all that a read needs is stored, all entries through its position are applied.
#[tactic(auto, using(crate::proofs::Applied::read_applies))]
pub fn what_a_read_needs_is_applied()
    ensures { (p : ℕ) (log : List Content) (stored : ℕ) → p ≤ length log → p ≤ applied log (after_read p log stored) }
{}

/// As more of a log is stored, no less of it is applied, and never more than there is.
#[tactic(auto, using(crate::proofs::Applied::applied_more, crate::proofs::Applied::applied_within))]
pub fn applied_positions_only_rise()
    ensures rise { (log : List Content) (stored more : ℕ) → stored ≤ more → applied log stored ≤ applied log more }
    ensures within { (log : List Content) (stored : ℕ) → applied log stored ≤ length log }
{}

/// A read and a portion store no less than what was stored, and no more than there is.
#[tactic(auto, using(crate::proofs::Applied::read_keeps, crate::proofs::Applied::read_within, crate::proofs::Applied::portion_keeps, crate::proofs::Applied::portion_within, crate::proofs::Applied::read_applied_keeps, crate::proofs::Applied::portion_applied_keeps))]
pub fn storing_takes_nothing_away()
    ensures read { (p : ℕ) (log : List Content) (stored : ℕ) → stored ≤ after_read p log stored }
    ensures read_within { (p : ℕ) (log : List Content) (stored : ℕ) → stored ≤ length (writes_of log) → after_read p log stored ≤ length (writes_of log) }
    ensures read_applied { (p : ℕ) (log : List Content) (stored : ℕ) → applied log stored ≤ applied log (after_read p log stored) }
    ensures portion { (most : ℕ) (log : List Content) (stored : ℕ) → stored ≤ length (writes_of log) → stored ≤ after_portion most log stored }
    ensures portion_within { (most : ℕ) (log : List Content) (stored : ℕ) → after_portion most log stored ≤ length (writes_of log) }
    ensures portion_applied { (most : ℕ) (log : List Content) (stored : ℕ) → stored ≤ length (writes_of log) → applied log stored ≤ applied log (after_portion most log stored) }
{}

/// A round sends neither promises nor votes.
pub fn rounds_only_ask()
    ensures begun { (s : Site) (leader : ℕ) (own : Content) (now : ℕ) → All Asks (asks s leader own now).sends }
    ensures completed { (s : Site) (own : Content) (now : ℕ) → All Asks (completes s own now).sends }
    ensures heard { (s : Site) (p : Proposal) (from now : ℕ) (body : Body) → All Asks (takes s p from now body).sends }
    ensures ticked { (s : Site) (p : Proposal) (retry now : ℕ) → All Asks (due s p retry now).sends }
{}

/// Nor does a current read.
pub fn reads_only_ask()
    ensures local { (asked : List ℕ) (top : ℕ) → All Asks (local_read asked top).sends }
    ensures polled { (who : Reader) (noted : Option Epoch) (asked : List ℕ) (now : ℕ) → All Asks (polled_read who noted asked now).sends }
    ensures heard { (who : Reader) (r : Reading) (from now : ℕ) (body : Body) → All Asks (hears who r from now body).sends }
    ensures ticked { (who : Reader) (r : Reading) (retry now : ℕ) → All Asks (falls_due who r retry now).sends }
    ensures sought { (who : Reader) (r : Reading) (least now : ℕ) → All Asks (seeks who r least now).sends }
{}

/// Nor does an open operation that hears a message, or does what is due at a tick.
pub fn operations_only_ask()
    ensures heard { (s : Setting) (now : ℕ) (m : Message) (o : Operation) → All Asks (hears_message s now m o).sends }
    ensures ticked { (s : Setting) (now : ℕ) (o : Operation) → All Asks (does_due s now o).sends }
{}

/// Nor does a node that tells of a decision, fetches what it lacks, or asks for its epoch.
pub fn nodes_only_ask()
    ensures news { (s : Setting) (d : Option Decision) → All Asks (news s d) }
    ensures background { (s : Setting) (met : List Met) (now : ℕ) → All Asks (background s met now) }
    ensures acquires { (c : Cluster) (me : ℕ) (met : List Met) (now : ℕ) → All Asks (acquires_at c me met now) }
{}

/// Nor does an operation that goes on or begins: where all that is to be sent so far asks, all does then.
pub fn acting_only_asks()
    ensures completes_read { (s : Setting) (now : Now) (group : GroupId) (r : Reading) (p : ℕ) → All Asks now.sends → All Asks (completes_read s now group r p).sends }
    ensures goes_on { (s : Setting) (now : Now) (o : Operation) → All Asks now.sends → All Asks (goes_on s now o).sends }
    ensures begins { (s : Setting) (now : Now) (o : Operation) → All Asks now.sends → All Asks (begins s now o).sends }
    ensures in_turn { (s : Setting) (now : Now) (t : Heard) → All Asks t.sends → All Asks now.sends → All Asks (acts_in_turn s now t).sends }
    ensures ticked { (s : Setting) (clock : ℕ) (now : Now) (o : Operation) → All Asks now.sends → All Asks (ticked s clock now o).sends }
{}

/// Nor do all open operations, one after another.
pub fn all_that_act_only_ask()
    ensures heard { (s : Setting) (ts : List Heard) (now : Now) → All (λ (t : Heard). All Asks t.sends) ts → All Asks now.sends → All Asks (all_act s now ts).sends }
    ensures ticked { (s : Setting) (clock : ℕ) (os : List Operation) (now : Now) → All Asks now.sends → All Asks (fold (ticked s clock) now os).sends }
{}

/// Where two histories decide the same, rows follow both, and both have rows of their own or neither.
pub fn same_logs_serve_alike()
    ensures items { (items base met : List Met) → All IsNoDecision items → SameLogs base met → SameLogs base (onto items met) }
    ensures rows { (version : Versions) (progress : GroupId → Progress) (old new : List Met) (stored : Counts) →
        SameLogs old new → Follows version progress (log_of old) stored → Follows version progress (log_of new) stored }
    ensures own { (schema : Schema) (old new : List Met) → SameLogs old new → HasOwnRows schema (log_of old) → HasOwnRows schema (log_of new) }
    ensures back { (schema : Schema) (old new : List Met) → SameLogs old new → HasOwnRows schema (log_of new) → HasOwnRows schema (log_of old) }
{}

/// Operations that act decide nothing.
pub fn acting_decides_nothing()
    ensures completes_read { (s : Setting) (now : Now) (group : GroupId) (r : Reading) (p : ℕ) → SameLogs now.met (completes_read s now group r p).met }
    ensures goes_on { (s : Setting) (now : Now) (o : Operation) → SameLogs now.met (goes_on s now o).met }
    ensures begins { (s : Setting) (now : Now) (o : Operation) → SameLogs now.met (begins s now o).met }
    ensures in_turn { (s : Setting) (now : Now) (t : Heard) → All Asks t.sends → SameLogs now.met (acts_in_turn s now t).met }
    ensures ticked { (s : Setting) (clock : ℕ) (now : Now) (o : Operation) → SameLogs now.met (ticked s clock now o).met }
{}

/// Once a read through a decided position is complete, all entries through it are applied, and of each group no fewer than before.
pub fn a_completed_read_is_applied()
    ensures through { (s : Setting) (now : Now) (group : GroupId) (r : Reading) (p : ℕ) → p ≤ prefix_of now.met group →
        p ≤ applied (log_of (completes_read s now group r p).met group) ((completes_read s now group r p).stored group) }
    ensures others { (s : Setting) (now : Now) (group : GroupId) (r : Reading) (p : ℕ) (other : GroupId) →
        applied (log_of now.met other) (now.stored other) ≤ applied (log_of (completes_read s now group r p).met other) ((completes_read s now group r p).stored other) }
{}

/// A step ends with what it notes and sends met, and with the logs on which its operations acted.
pub fn a_step_ends_with_its_logs()
    ensures met { (s : Setting) (node : Node) (event : Event) → (step s node event).node.met ≡ onto (map Sends (step s node event).sends) (onto (step s node event).notes (own_item s node event ∷ node.met)) }
    ensures logs { (s : Setting) (node : Node) (event : Event) → SameLogs (acted_on s node event) (step s node event).node.met }
{}

/// An operation reads, and proposes in, the group of its request.
pub fn operations_stay_about_their_groups()
    ensures heard { (s : Setting) (now : ℕ) (m : Message) (o : Operation) → IsAbout o → IsAbout (hears_message s now m o).operation }
    ensures due { (s : Setting) (now : ℕ) (o : Operation) → IsAbout o → IsAbout (does_due s now o).operation }
    ensures goes_on { (s : Setting) (now : Now) (o : Operation) → IsAbout o → All IsAbout now.kept → All IsAbout (goes_on s now o).kept }
    ensures begins { (s : Setting) (now : Now) (o : Operation) → All IsAbout now.kept → All IsAbout (begins s now o).kept }
    ensures in_turn { (s : Setting) (now : Now) (t : Heard) → All Asks t.sends → IsAbout t.operation → All IsAbout now.kept → All IsAbout (acts_in_turn s now t).kept }
    ensures ticked { (s : Setting) (clock : ℕ) (now : Now) (o : Operation) → IsAbout o → All IsAbout now.kept → All IsAbout (ticked s clock now o).kept }
{}

/// What asks may always be sent, and what may be sent still may once anything was met that is no message.
pub fn what_may_be_sent()
    ensures asks { (met : List Met) (m : Message) → Asks m → IsAnswer met m.body }
    ensures all { (met : List Met) (sends : List Message) → All Asks sends → MaySend met sends }
    ensures later { (items met : List Met) (body : Body) → All IsUnmade items → IsAnswer met body → IsAnswer (onto items met) body }
    ensures reply { (c : Cluster) (me : ℕ) (items met : List Met) (m : Message) (rest : List Message) → All IsUnmade items → All Asks rest → MaySend (onto items met) (reply_to c me met m ++ rest) }
{}

/// Each message of a step may be sent where it is: behind what the step notes, and one after another.
pub fn what_a_step_sends_may_be_sent()
    ensures { (s : Setting) (node : Node) (event : Event) → MaySend (onto (step s node event).notes (own_item s node event ∷ node.met)) (step s node event).sends }
{}

/// What is kept still tells what was met, once messages that ask are sent.
pub fn what_is_met_stays_told()
    ensures one { (kept : Kept) (met : List Met) (m : Message) → Asks m → Tells kept met → Tells kept (Sends m ∷ met) }
    ensures all { (kept : Kept) (sends : List Message) (met : List Met) → All Asks sends → Tells kept met → Tells kept (onto (map Sends sends) met) }
{}
