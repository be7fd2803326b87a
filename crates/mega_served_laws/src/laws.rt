//! Laws of a node by itself, as contracts of functions that do nothing.

ghost use Rattle.std.specs.Prelude.{◌≡◌, ◌+◌, ◌++◌, ◌≤◌, ℕ, length, filter_map, reverse, List};
ghost use Rattle.mega_cluster.specs.declared.cluster.Cluster.{Cluster};
ghost use Rattle.mega_handler.specs.Named.{Meanings};
ghost use Rattle.mega_transcript.specs.declared.item.Item.{Item};
ghost use Rattle.mega_wal.specs.declared.item.JournalItem.{JournalItem};
ghost use Rattle.mega_rules.specs.Members.{nodes};
ghost use Rattle.mega_rules.specs.Met.{Met};
ghost use Rattle.mega_rules.specs.Operations.{Node, Setting};
ghost use Rattle.mega_rules.specs.Steps.{Event, step};
ghost use Rattle.mega_promises.specs.NodeRuns.{Input, met_of};
ghost use Rattle.mega_promises.specs.Records.{AreNodeCalls, NodeCall};
ghost use Rattle.mega_promises.specs.Runs.{Happening, IsRun};
ghost use Rattle.mega_promises.specs.Served.{IsCompacted, kept_of, put_in};
ghost use Rattle.mega_served_laws.specs.Alike.{KeptAlike, SaySame};
ghost use Rattle.mega_served_laws.specs.Calls.{all_called, found, left_by, lines_of, sends_of};
ghost use Rattle.mega_served_laws.specs.Lives.{AreOfNine, Befalls, IsLife, IsOfNodeRun};
ghost use Rattle.mega_served_laws.specs.Pasts.{SameSince, run_over};

/// Of what a node met before a start, what it does behind it rests on what is kept alone: two pasts that agree in that lead by the same inputs to
/// the same notes, messages and answers, and to the same open operations.
pub fn what_is_kept_is_enough()
    ensures { (c : Cluster) (me number : ℕ) (first : Meanings) (past other : List Met) (inputs : List Input) → KeptAlike past other →
        SameSince (run_over c me first number past inputs) past (run_over c me first number other inputs) other }
{}

/// A journal that tells what is kept of what a node met goes on telling it, with the items of each step behind it; and journals that say the same
/// tell the same, as a journal does that was compacted.
pub fn a_journal_tells_what_is_kept()
    ensures steps { (s : Setting) (node : Node) (event : Event) (journal : List JournalItem) → KeptAlike node.met (met_of s.me journal) →
        KeptAlike (step s node event).node.met (met_of s.me (reverse (kept_of (step s node event)) ++ journal)) }
    ensures same { (me : ℕ) (journal other : List JournalItem) → SaySame journal other → KeptAlike (met_of me journal) (met_of me other) }
    ensures compacted { (journal after : List JournalItem) → IsCompacted journal after → SaySame journal after }
{}

/// A list of calls of a node on the same devices is one run of that node over all its starts, each under the cluster of its own header: it goes on
/// from all that it met, and not from a journal. Their records are its record, what they put out is what it puts out, and the journal that the last
/// one left says what its own says, however often logs were compacted between.
pub fn calls_are_one_run()
    ensures record_is { (me : ℕ) (before : List JournalItem) (calls : List NodeCall) → AreNodeCalls me before calls →
        (all_called me (found me before) calls).lines ≡ lines_of calls }
    ensures sends_are { (me : ℕ) (before : List JournalItem) (calls : List NodeCall) → AreNodeCalls me before calls →
        sends_of calls ≡ filter_map put_in (lines_of calls) }
    ensures journal_says { (me : ℕ) (before : List JournalItem) (calls : List NodeCall) → AreNodeCalls me before calls →
        SaySame (all_called me (found me before) calls).journal (left_by before calls) }
{}

/// What concerns a node on the tape of a run is its life: each of its starts makes it anew from its journal alone, and what it is given then leads
/// to what the tape tells of it, line by line, whatever fuses cut. It holds where what is asked of cells comes from, and is about, the nine nodes
/// that a cluster can have, and there are fewer nodes and events than 2^32.
pub fn a_tape_tells_the_life_of_each_node()
    ensures { (c : Cluster) (first : Meanings) (events : List Happening) (tape : List Item) → IsRun c first events tape →
        AreOfNine tape → length (nodes c) + length events ≤ 4294967295 → (me : ℕ) → 1 ≤ me → IsLife c me tape }
{}

/// In a life, a start and what is given behind it is a node run from the journal that was left before.
pub fn each_start_is_a_node_run()
    ensures { (c : Cluster) (me : ℕ) (before : List Befalls) (first : Meanings) (inputs : List Input) → IsOfNodeRun c me before first inputs }
{}
