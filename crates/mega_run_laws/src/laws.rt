//! Laws of every run, as contracts of functions that do nothing.

ghost use Rattle.std.specs.Prelude.{◌≡◌, ℕ, ◌≤◌, true, List, None, Ok, Option, Some, slice_get, take};
ghost use Rattle.mega_base.specs.declared.names.GroupId.{GroupId as Group};
ghost use Rattle.mega_base.specs.declared.names.NodeId.{NodeId as Node};
ghost use Rattle.mega_base.specs.declared.names.OpId.{OpId};
ghost use Rattle.mega_base.specs.declared.names.Position.{Position as Index};
ghost use Rattle.mega_cluster.specs.declared.cluster.Cluster.{Cluster};
ghost use Rattle.mega_wire.specs.declared.message.Body.{Body};
ghost use Rattle.mega_tape_laws.specs.of_transcript.declared.item.Item.{Item};
ghost use Rattle.mega_tape_laws.specs.of_transcript.declared.item.Item.TheVariants.{Answer, Begin, Decide};
ghost use Rattle.mega_tape_laws.specs.of_read.of_propose.declared.round.Proposal.{Proposal};
ghost use Rattle.mega_tape_laws.specs.of_read.of_propose.Rounds.{due, settled, takes};
ghost use Rattle.mega_entry.specs.declared.content.Content.{Content};
ghost use Rattle.mega_tape_laws.specs.of_rules.Met.{Met};
ghost use Rattle.mega_tape_laws.specs.of_rules.Replies.{answer_to};
ghost use Rattle.mega_tape_laws.specs.Places.{Place, Took};
ghost use Rattle.mega_handler.specs.Named.{Meanings};
ghost use Rattle.mega_tape_laws.specs.of_promises.Promises.{Agree, AreMessages, IsSerial, Stands, StoodBefore, asked_for, comes_to, group_written, is_write, log_of, rows_shown};
ghost use Rattle.mega_tape_laws.specs.of_promises.Runs.{Calls, Fate, Happening, IsRun, MayBecome, Standing, Whole, fate_of};
ghost use Rattle.mega_tape_laws.specs.Lawful.{Lawful, MayMake, MaySend, message};
ghost use Rattle.mega_tape_laws.specs.Polls.{ArePolls, IsPolled};
ghost use Rattle.mega_tape_laws.specs.Writes.{LawfulWrites, Usage};
ghost use Rattle.mega_tape_laws.specs.Answers.{LawfulAnswers};
ghost use Rattle.mega_outcome.specs.declared.answer.Answer.TheVariants.{Read as ReadAnswer};
ghost use Rattle.mega_outcome.specs.declared.answer.Shown.{Shown};
ghost use Rattle.mega_outcome.specs.declared.request.ReadRequest.{ReadRequest};
ghost use Rattle.mega_outcome.specs.declared.request.Request.TheVariants.{Read as ReadRequested};
ghost use Rattle.mega_tape_laws.specs.of_rules.Steps.{is_current};
ghost use Rattle.mega_outcome.specs.declared.request.Request.{Request};
ghost use Rattle.mega_run_laws.specs.Usages.{Fits};
ghost use Rattle.mega_run_laws.specs.Shows.{Shows};
ghost use Rattle.mega_run_laws.specs.Justified.{Chosen, Goes, Justified, here};

/// The reply of a node to a request that it took is one that a lawful tape may go on with, sent or shown as unsent, as long as the tape
/// shows what the node made and decided (Lamport 2001, the acceptor).
pub fn replies_are_allowed()
    ensures { (c : Cluster) (tape : List Item) (me from : ℕ) (met : List Met) → Shows tape me met → (asked : Body) → Took tape (message from me asked) → (answer : Body) → answer_to c me met from asked ≡ Some answer → MaySend c tape (message me from answer) answer × MayMake tape (message me from answer) answer }
{}

/// A round that is justified sends only what a lawful tape may go on with, whatever it takes and whenever it is due, and is justified
/// afterwards; what it settled was accepted by a majority at one ballot (Lamport 2001, the proposer).
pub fn rounds_are_allowed()
    ensures takes { (c : Cluster) (tape : List Item) (op : OpId) (p : Place) (asked : List ℕ) (proposal : Proposal) (from now : ℕ) (body : Body) → Justified c tape op p proposal → Took tape (message from op.node.0 body) → Goes c tape op p (takes (here c op p asked) proposal from now body) }
    ensures due { (c : Cluster) (tape : List Item) (op : OpId) (p : Place) (asked : List ℕ) (proposal : Proposal) (retry now : ℕ) → Justified c tape op p proposal → Goes c tape op p (due (here c op p asked) proposal retry now) }
    ensures settles { (c : Cluster) (tape : List Item) (op : OpId) (p : Place) (proposal : Proposal) (entry : Content) → Justified c tape op p proposal → settled proposal ≡ Some entry → Chosen c tape op p entry }
{}

/// What becomes of a step or a start in a run is always what may become of it; and whatever may become of it does, where the run's cuts say so. Where no fuse is
/// set, all is whole.
pub fn fates_may_become()
    ensures allowed { (now : Standing) (me : ℕ) (calls : Calls) (cut : Fate) → MayBecome now me calls (fate_of now me calls cut) }
    ensures all { (now : Standing) (me : ℕ) (calls : Calls) (cut : Fate) → MayBecome now me calls cut → fate_of now me calls cut ≡ cut }
    ensures whole { (now : Standing) (me : ℕ) (calls : Calls) (cut : Fate) → now.log_fuse me ≡ None → now.data_fuse me ≡ None → fate_of now me calls cut ≡ Whole }
{}

/// Every run is lawful, of every cluster and with any handlers, events and fuses: messages that are lost, repeated or taken in any order,
/// crashes, restarts, and steps and starts that a fuse cuts with their record kept or lost are among them.
pub fn runs_are_lawful()
    ensures { (c : Cluster) (first : Meanings) (events : List Happening) (tape : List Item) → IsRun c first events tape → Lawful c tape }
{}

/// All decides of one position of a group show one entry, in every run of every cluster (Lamport 2001).
pub fn runs_agree()
    ensures { (c : Cluster) (first : Meanings) (events : List Happening) (tape : List Item) → IsRun c first events tape → Agree tape }
{}

/// In every run voters answer polls as the law of polls asks, so a poll of a majority of them sees each position that was decided anywhere
/// before its operation began, whether leases are safe or not (CIDR 2011, current reads).
pub fn runs_poll()
    ensures polls { (c : Cluster) (first : Meanings) (events : List Happening) (tape : List Item) → IsRun c first events tape → ArePolls tape }
    ensures sees { (c : Cluster) (first : Meanings) (events : List Happening) (tape : List Item) → IsRun c first events tape → (op : OpId) (text : List ℕ) (group : Group) (n p : Index) (node : Node) (entry : Content) → StoodBefore (Decide node group n entry) (Begin op text) tape → IsPolled c tape op group p → n.0 ≤ p.0 }
{}

/// In every run each entry that is proposed is an operation's own over the entries that its node decided below, where each text means the
/// request that begins with it and the handlers of each event are there at some moment; so the logs are as of one thread (CIDR 2011,
/// transactions): an entry with the id of a transaction or a batch is its outcome over the entries below, and an id stands once.
pub fn runs_write()
    ensures written { (c : Cluster) (usage : Usage) (first : Meanings) (events : List Happening) (tape : List Item) → IsRun c first events tape → Fits usage events → LawfulWrites c usage tape }
    ensures entries { (c : Cluster) (usage : Usage) (first : Meanings) (events : List Happening) (tape : List Item) → IsRun c first events tape → Fits usage events → (group : Group) (n : ℕ) (entry : Content) (op : OpId) (request : Request) → slice_get (log_of tape group) n ≡ Some entry → entry.id ≡ Some op → asked_for usage.meaning tape op ≡ Some request → is_write request ≡ true → (group_written request ≡ Some group) × (comes_to c.schema op request (take n (log_of tape group)) ≡ Some entry) }
    ensures once { (c : Cluster) (usage : Usage) (first : Meanings) (events : List Happening) (tape : List Item) → IsRun c first events tape → Fits usage events → (g h : Group) (m n : ℕ) (d e : Content) (op : OpId) → slice_get (log_of tape g) m ≡ Some d → slice_get (log_of tape h) n ≡ Some e → d.id ≡ Some op → e.id ≡ Some op → (g ≡ h) × (m ≡ n) }
{}

/// In every run each answer has its cause where each text means the request that begins with it, so the store is serial (CIDR 2011,
/// transactions): answers show what an operation came to at its place in the log, and one that was answered negatively is decided nowhere, at
/// any time. A current read shows the rows of its group's log through the position that it answers with.
pub fn runs_answer()
    ensures answered { (c : Cluster) (usage : Usage) (first : Meanings) (events : List Happening) (tape : List Item) → IsRun c first events tape → Fits usage events → LawfulAnswers c usage tape }
    ensures serial { (c : Cluster) (usage : Usage) (first : Meanings) (events : List Happening) (tape : List Item) → IsRun c first events tape → Fits usage events → IsSerial c.schema usage.meaning tape }
    ensures reads { (c : Cluster) (usage : Usage) (first : Meanings) (events : List Happening) (tape : List Item) → IsRun c first events tape → Fits usage events → (op : OpId) (text : List ℕ) (request : ReadRequest) (p : Index) (rows : List (Option Shown)) → Stands (Begin op text) tape → usage.meaning text ≡ Some (ReadRequested request) → is_current request.mode ≡ true → Stands (Answer op (ReadAnswer p rows)) tape → rows_shown c.schema request (take p.0 (log_of tape request.group)) request.rows ≡ Ok rows }
{}

/// In every run with the same handlers throughout, messages are entered once and handled once, the oldest first, as they were sent
/// (CIDR 2011, queues).
pub fn runs_deliver()
    ensures { (c : Cluster) (usage : Usage) (handlers first : Meanings) (events : List Happening) (tape : List Item) → ((moment : List Item) → usage.handlers moment ≡ handlers) → IsRun c first events tape → Fits usage events → AreMessages c.schema handlers tape }
{}
