//! Laws of the message format, as contracts of functions that do nothing.

ghost use Rattle.std.specs.Prelude.{All, ◌≡◌, ◌≤◌, codes, ℕ, List, [], length, Ok, Option, Some, true};
ghost use Rattle.mega_base.specs.declared.names.Epoch.{Epoch};
ghost use Rattle.mega_entry.specs.declared.content.Content.{Content};
ghost use Rattle.mega_wire.specs.declared.message.Body.{Body};
ghost use Rattle.mega_wire.specs.Messages.{IsBody, IsMessage};
ghost use Rattle.mega_voter.specs.of_rules.of_read.of_propose.declared.round.Proposal.{Proposal};
ghost use Rattle.mega_voter.specs.of_rules.of_read.of_propose.declared.round.Site.{Site};
ghost use Rattle.mega_voter.specs.of_rules.of_read.of_propose.Rounds.{asks, completes, due, settled, takes};
ghost use Rattle.mega_voter.specs.of_rules.of_read.declared.reading.Reader.{Reader};
ghost use Rattle.mega_voter.specs.of_rules.of_read.declared.reading.Reading.{Reading};
ghost use Rattle.mega_voter.specs.of_rules.of_read.Catching.{falls_due, first_reading, hears, local_read, no_op, polled_read, read_settled, seeks};
ghost use Rattle.mega_cluster.specs.declared.cluster.Cluster.{Cluster};
ghost use Rattle.mega_wire.specs.declared.message.Message.{Message};
ghost use Rattle.mega_voter.specs.of_rules.Met.{Met};
ghost use Rattle.mega_voter.specs.of_rules.Replies.{reply_to};
ghost use Rattle.mega_voter.specs.of_rules.Coordinators.{acquires_at};
ghost use Rattle.mega_voter.specs.of_rules.Operations.{Node, Setting};
ghost use Rattle.mega_voter.specs.of_rules.Steps.{Decision, Event, background, crashed, news, start, step};
ghost use Rattle.mega_base.specs.Names.{IsU32};
ghost use Rattle.mega_cluster.specs.Header.{read_of};
ghost use Rattle.mega_handler.specs.Effects.{copy_writes, credit_writes};
ghost use Rattle.mega_voter.specs.of_rules.Queues.{enter_entry, is_short};
ghost use Rattle.mega_voter.specs.of_rules.Acting.{handling, table_rows};
ghost use Rattle.mega_base.specs.declared.names.GroupId.{GroupId};
ghost use Rattle.mega_base.specs.declared.names.OpId.{OpId};
ghost use Rattle.mega_entry.specs.declared.content.Enter.{Enter};
ghost use Rattle.mega_entry.specs.Entries.{IsEnter};
ghost use Rattle.mega_schema.specs.declared.schema.Schema.{Schema};
ghost use Rattle.mega_index.specs.Rows.{after, list_after, no_rows};
ghost use Rattle.mega_outcome.specs.declared.answer.Done.{Done};
ghost use Rattle.mega_outcome.specs.declared.transaction.Transaction.{Transaction};
ghost use Rattle.mega_outcome.specs.Outcome.{batch_outcome, entry_of_batch, entry_of_done, outcome};
ghost use Rattle.mega_wal.specs.Items.{IsItem as IsJournalItem};
ghost use Rattle.mega_voter.specs.Journal.{items_in, journal_of};
ghost use Rattle.serde_json.specs.Data.{Data};
ghost use Rattle.serde_json.specs.Events.{items_len};
ghost use Rattle.serde_json.specs.Find.{get};
ghost use Rattle.mega_outcome.specs.declared.request.Request.TheVariants.{Find, Read, Txn};
ghost use Rattle.mega_schedule.specs.Requests.{batch_of, find_request, read_request};
ghost use Rattle.mega_schedule.specs.Rows.{transaction_of};
ghost use Rattle.mega_schedule.specs.Values.{list_in};
ghost use Rattle.mega_format_laws.specs.Requests.{IsEntered, IsMeaning, IsRequest, IsTransaction, IsTypedRequest};
ghost use Rattle.mega_format_laws.specs.Nodes.{IsEvent, IsNode, IsSetting, IsStep};
ghost use Rattle.mega_format_laws.specs.Decisions.{AreDecided};
ghost use Rattle.mega_format_laws.specs.Histories.{IsClock, IsCluster, IsMet};
ghost use Rattle.mega_format_laws.specs.Rounds.{AreMessages, Each, IsMember, IsMove, IsPlace, IsProposal, IsSender, IsShort, IsSite};
ghost use Rattle.mega_format_laws.specs.Reads.{IsReadMove, IsReader, IsReading, IsTop};

/// A round at a position of the format sends only messages of the format, whatever it takes of them and whenever it is due, and the entry
/// that it settles can stand in a message.
pub fn rounds_are_of_the_format()
    ensures asks { (s : Site) (leader : ℕ) (own : Content) (now : ℕ) → IsSite s → IsMember leader → IsShort own → IsMove (asks s leader own now) }
    ensures completes { (s : Site) (own : Content) (now : ℕ) → IsSite s → IsShort own → IsMove (completes s own now) }
    ensures takes { (s : Site) (p : Proposal) (from now : ℕ) (body : Body) → IsSite s → IsProposal p → IsBody body → IsMove (takes s p from now body) }
    ensures due { (s : Site) (p : Proposal) (retry now : ℕ) → IsSite s → IsProposal p → IsMove (due s p retry now) }
    ensures settles { (p : Proposal) (entry : Content) → IsProposal p → settled p ≡ Some entry → IsShort entry }
{}

/// A current read of a group of the format sends only messages of the format, whatever it takes of them and whenever it is due; the
/// positions through which it reads and those that it completes are of the format, and so is the entry that it settles.
pub fn reads_are_of_the_format()
    ensures first { (now : ℕ) → IsReading (first_reading now) }
    ensures local_one { (asked : List ℕ) (top : ℕ) → IsTop top → IsReadMove (local_read asked top) }
    ensures polled { (who : Reader) (noted : Option Epoch) (asked : List ℕ) (now : ℕ) → IsReader who → IsReadMove (polled_read who noted asked now) }
    ensures hears { (who : Reader) (r : Reading) (from now : ℕ) (body : Body) → IsReader who → IsReading r → IsBody body → IsReadMove (hears who r from now body) }
    ensures due { (who : Reader) (r : Reading) (retry now : ℕ) → IsReader who → IsReading r → IsReadMove (falls_due who r retry now) }
    ensures seeks { (who : Reader) (r : Reading) (least now : ℕ) → IsReader who → IsReading r → IsPlace least → IsReadMove (seeks who r least now) }
    ensures settles { (r : Reading) (found : ℕ × Content) → IsReading r → read_settled r ≡ Some found → IsPlace found.0 × IsShort found.1 }
{}

/// The reply to a message of the format, the telling of a decision, what is fetched in the background and what the cells are asked for are
/// messages of the format, where all that their node met is.
pub fn replies_are_of_the_format()
    ensures replies { (c : Cluster) (me : ℕ) (met : List Met) (m : Message) → IsMember me → IsMet met → IsMessage m → AreMessages (reply_to c me met m) }
    ensures news { (s : Setting) (d : Option Decision) → IsCluster s.cluster → IsMember s.me → AreDecided d → AreMessages (news s d) }
    ensures background { (s : Setting) (met : List Met) (now : ℕ) → IsCluster s.cluster → IsMember s.me → IsMet met → AreMessages (background s met now) }
    ensures acquires { (c : Cluster) (me : ℕ) (met : List Met) (now : ℕ) → IsCluster c → IsMember me → IsMet met → IsClock now → AreMessages (acquires_at c me met now) }
{}

/// What an operation proposes can stand in a message: the entry of a transaction or of a batch over the rows that a log leaves, a no-op,
/// the entry that enters a message that is short enough, and the one that handles a message that a log entered.
pub fn outcomes_are_of_the_format()
    ensures transactions { (s : Schema) (t : Transaction) (log : List Content) (op : OpId) (done : Done) → IsTransaction t → Each IsShort log → IsSender op → outcome s t (after log no_rows) ≡ Ok done → IsShort (entry_of_done op done) }
    ensures batches { (s : Schema) (group : GroupId) (ts : List Transaction) (log : List Content) (op : OpId) → length ts ≤ 16 → Each IsTransaction ts → Each IsShort log → IsSender op → IsShort (entry_of_batch op (batch_outcome s group ts (after log no_rows))) }
    ensures nothing { (who : Reader) → IsReader who → IsShort (no_op who) }
    ensures entering { (op : OpId) (enter : Enter) → IsSender op → IsEnter enter → is_short (enter_entry op enter) ≡ true → IsShort (enter_entry op enter) }
    ensures handling { (s : Setting) (op : OpId) (group : GroupId) (enter : Enter) (log : List Content) → IsSetting s → IsSender op → IsEntered enter → Each IsShort log → IsShort (handling s op group enter (table_rows s.cluster.schema group (list_after log []))) }
{}

/// A node of the format stays of the format, whatever it takes that is: in each step it sends only messages of the format, decides only
/// entries that can stand in a message, and what it met and its open operations are of the format then.
pub fn steps_stay_of_the_format()
    ensures { (s : Setting) (node : Node) (event : Event) → IsSetting s → IsNode node → IsEvent event → IsStep (step s node event) }
{}

/// A start of a node that met only what is of the format, with what it finds of a step that was cut before it, and a crash leave the
/// node of the format.
pub fn starts_are_of_the_format()
    ensures begins { (s : Setting) (number : ℕ) (owed met : List Met) → IsU32 number → IsMet owed → IsMet met → IsNode (start s number owed met) }
    ensures crashes { (node : Node) → IsNode node → IsNode (crashed node) }
{}

/// A cluster that was read from the text of a header is of the format.
pub fn clusters_are_of_the_format()
    ensures { (least : ℕ) (text : List ℕ) (c : Cluster) → read_of least text ≡ Ok c → IsCluster c }
{}

/// The handlers that the store brings make only what an entry can hold.
pub fn handlers_are_of_the_format()
    ensures copies { IsMeaning (λ message rows. (copy_writes message.payload, [])) }
    ensures credits { (key_property : ℕ) → IsMeaning (λ message rows. (credit_writes key_property message.payload rows, [])) }
{}

/// What a line of a schedule asks for is of the format, where the request keeps what its types say, and a batch has at most 16 transactions,
/// as a line without fault has.
pub fn lines_are_of_the_format()
    ensures transactions { (schema : Schema) (group : Option Data) (d : Data) → IsTypedRequest (Txn (transaction_of schema group d)) → IsRequest (Txn (transaction_of schema group d)) }
    ensures batches { (schema : Schema) (d : Data) → items_len (list_in (get (codes "txns") d)) ≤ 16 → IsTypedRequest (batch_of schema d) → IsRequest (batch_of schema d) }
    ensures reads { (schema : Schema) (d : Data) → IsRequest (Read (read_request schema d)) }
    ensures finds { (schema : Schema) (d : Data) → IsRequest (Find (find_request schema d)) }
{}

/// What a voter's journal holds of what its node met has a text, where all that was met is of the format; so has what a promise or a vote
/// puts there.
pub fn journals_are_of_the_format()
    ensures whole { (met : List Met) → IsMet met → All IsJournalItem (journal_of met) }
    ensures votes { (body : Body) → IsBody body → All IsJournalItem (items_in body) }
{}
