//! Laws of cleaning, as contracts of functions that do nothing.

ghost use Rattle.std.specs.Prelude.{◌≡◌, ◌⊎◌, ℕ, ◌≤◌, ◌<◌, List, [], Option, take};
ghost use Rattle.mega_base.specs.declared.names.GroupId.{GroupId as Group};
ghost use Rattle.mega_base.specs.declared.values.Row.{Row};
ghost use Rattle.mega_base.specs.declared.names.NodeId.{NodeId as Node};
ghost use Rattle.mega_base.specs.declared.names.OpId.{OpId};
ghost use Rattle.mega_base.specs.declared.names.Position.{Position as Index};
ghost use Rattle.mega_cluster.specs.declared.cluster.Cluster.{Cluster};
ghost use Rattle.mega_disk.specs.VersionMaps.{Cleaned, Drops, IsAbove, IsLatest, IsScan, IsWithin, Versions, row_at};
ghost use Rattle.mega_rows.specs.Trims.{trimmed};
ghost use Rattle.mega_entry.specs.declared.content.Content.{Content};
ghost use Rattle.mega_index.specs.Rows.{Listed, after, list_after, no_rows, written};
ghost use Rattle.mega_handler.specs.Named.{Meanings};
ghost use Rattle.mega_outcome.specs.declared.request.FindRequest.{FindRequest};
ghost use Rattle.mega_outcome.specs.declared.request.Mode.TheVariants.{Snapshot};
ghost use Rattle.mega_outcome.specs.declared.request.ReadRequest.{ReadRequest};
ghost use Rattle.mega_fresh_laws.specs.of_leased_laws.of_settled_laws.of_run_laws.of_tape_laws.of_promises.of_transcript.declared.item.Item.{Item};
ghost use Rattle.mega_fresh_laws.specs.of_leased_laws.of_settled_laws.of_run_laws.of_tape_laws.of_promises.of_transcript.declared.item.Item.TheVariants.{Decide};
ghost use Rattle.mega_replica.specs.Applying.{applied, stored_writes};
ghost use Rattle.mega_replica.specs.declared.progress.Progress.{Progress};
ghost use Rattle.mega_replica.specs.Following.{Follows};
ghost use Rattle.mega_replica.specs.Stored.{Counts, GroupLogs, IsOwn, IsUnwritten};
ghost use Rattle.mega_fresh_laws.specs.of_leased_laws.of_settled_laws.of_run_laws.of_tape_laws.of_promises.of_rules.Acting.{Rests, ends, listed_at, read_answer, rows_at};
ghost use Rattle.mega_fresh_laws.specs.of_leased_laws.of_settled_laws.of_run_laws.of_tape_laws.of_promises.of_rules.Finding.{local_found};
ghost use Rattle.mega_fresh_laws.specs.of_leased_laws.of_settled_laws.of_run_laws.of_tape_laws.of_promises.of_rules.Logs.{top_of};
ghost use Rattle.mega_fresh_laws.specs.of_leased_laws.of_settled_laws.of_run_laws.of_tape_laws.of_promises.of_rules.Met.{Met};
ghost use Rattle.mega_fresh_laws.specs.of_leased_laws.of_settled_laws.of_run_laws.of_tape_laws.of_promises.of_rules.Operations.{Now, Operation, Setting};
ghost use Rattle.mega_fresh_laws.specs.of_leased_laws.of_settled_laws.of_run_laws.of_tape_laws.of_promises.of_rules.Steps.{applied_at, local_find_begins, read_begins};
ghost use Rattle.mega_fresh_laws.specs.of_leased_laws.of_settled_laws.of_run_laws.of_tape_laws.of_promises.Promises.{Stands};
ghost use Rattle.mega_fresh_laws.specs.of_leased_laws.of_settled_laws.of_run_laws.of_tape_laws.of_promises.Runs.{Happening, IsRun};
ghost use Rattle.mega_fresh_laws.specs.of_leased_laws.of_settled_laws.of_run_laws.of_tape_laws.Writes.{Usage};
ghost use Rattle.mega_fresh_laws.specs.of_leased_laws.of_settled_laws.of_run_laws.Usages.{Fits};
ghost use Rattle.mega_fresh_laws.specs.of_leased_laws.Items.{Are};
ghost use Rattle.mega_fresh_laws.specs.Covering.{before_begin};
ghost use Rattle.mega_clean_laws.specs.Keeping.{KeepsFrom, OneKey, put_at};
ghost use Rattle.mega_clean_laws.specs.Reaching.{IsReachingItem, Reaches, applied_by};

/// In every run, where each text means the request that begins with it, each answer shows what it shows of the first entries of a log, which the operation's node
/// decided, through a position at or above each that this node had decided before the operation began; and each entry that an operation proposes as its own stands
/// right above such a position. So it is of current reads and finds, transactions, batches and pumps, whether leases are safe or not.
pub fn operations_read_what_their_node_had_decided()
    ensures { (c : Cluster) (usage : Usage) (first : Meanings) (events : List Happening) (tape : List Item) → IsRun c first events tape → Fits usage events → Are (IsReachingItem c usage) tape }
{}

/// What a node of a run has applied it decided, and the tape shows each such decision; so a position that reaches what an operation's node had decided before the
/// operation began is at or above the one through which the node had applied the group by then.
pub fn what_is_applied_is_reached()
    ensures decided { (c : Cluster) (usage : Usage) (first : Meanings) (events : List Happening) (tape : List Item) → (run : IsRun c first events tape) → Fits usage events → (node : Node) (group : Group) (n : Index) →
        0 < n.0 → n.0 ≤ applied_by c first events tape run node group → (entry : Content) × Stands (Decide node group n entry) tape }
    ensures reached { (c : Cluster) (usage : Usage) (first : Meanings) (earlier : List Happening) (tape : List Item) (op : OpId) (group : Group) (p : ℕ) → (run : IsRun c first earlier (before_begin tape op)) → Fits usage earlier →
        Reaches tape op group p → applied_by c first earlier (before_begin tape op) run op.node group ≤ p }
{}

/// A read that is local reads through the greatest position that its node accepted or decided: at or above the one through which the node has applied the group at
/// that moment, also where a pump picks the group after it began.
pub fn local_reads_reach_what_is_applied()
    ensures { (met : List Met) (stored : Group → ℕ) (group : Group) → applied_at met stored group ≤ top_of met group }
{}

/// A snapshot, of rows or of an index of a group, looks at the rows at the very position that its node has applied as it begins.
pub fn snapshots_read_what_is_applied()
    ensures reads { (s : Setting) (now : Now) (o : Operation) (request : ReadRequest) → let p = applied_at now.met now.stored request.group in
        read_begins s now o request Snapshot ≡ Rests (ends now o.id (read_answer s request p (rows_at now request.group p) (listed_at now request.group p))) }
    ensures finds { (s : Setting) (now : Now) (o : Operation) (request : FindRequest) (group : Group) → let p = applied_at now.met now.stored group in
        local_find_begins s now o request group Snapshot ≡ Rests (ends now o.id (local_found (s.cluster).schema request p (listed_at now group p))) }
{}

/// Where of one key the versions below the one that a read at a position sees are let go, each read at or above the position sees what it saw; and so it
/// stays as versions are put at or above it, and as versions are let go up to a higher one. What a cleaning may drop is of that kind.
pub fn reads_above_a_cleaning_stay()
    ensures trimmed { (below : ℕ) (all : OneKey) → KeepsFrom below all (trimmed below all) }
    ensures higher { (below higher : ℕ) (all kept : OneKey) → KeepsFrom below all kept → below ≤ higher → KeepsFrom higher all (trimmed higher kept) }
    ensures put { (below at : ℕ) (row : Option Row) (all kept : OneKey) → KeepsFrom below all kept → below ≤ at → KeepsFrom below (put_at at row all) (put_at at row kept) }
    ensures dropped { (cleaned : List Cleaned) (old new : Versions) (key : List ℕ) (below : ℕ) → Drops cleaned old new → ((p : ℕ) → below ≤ p → IsAbove cleaned key p) → KeepsFrom below (old key) (new key) }
{}

/// So cleaning changes no answer: where rows follow the logs but for versions that were let go below a position, a read, or a scan of a range of the group, at
/// or above the position and at one that is applied, sees what the entries through it wrote, and the newest row of a key is what all stored writes made of it.
pub fn cleaning_changes_no_answer()
    ensures reads { (version kept : Versions) (progress : Group → Progress) (log : GroupLogs) (stored : Counts) (group : Group) (key : List ℕ) (below p : ℕ) → Follows version progress log stored → IsOwn log group key → KeepsFrom below (version key) (kept key) →
        below ≤ p → p ≤ applied (log group) (stored group) → row_at kept key p ≡ after (take p (log group)) no_rows key }
    ensures scans { (version kept : Versions) (progress : Group → Progress) (log : GroupLogs) (stored : Counts) (group : Group) (from to : List ℕ) (below p : ℕ) (rows : Listed) → Follows version progress log stored →
        ((key : List ℕ) → IsWithin from to key → IsOwn log group key) → ((key : List ℕ) → IsWithin from to key ⊎ IsUnwritten key (log group)) → ((key : List ℕ) → IsWithin from to key → KeepsFrom below (version key) (kept key)) →
        below ≤ p → p ≤ applied (log group) (stored group) → IsScan kept from to p rows → rows ≡ list_after (take p (log group)) [] }
    ensures newest { (version kept : Versions) (progress : Group → Progress) (log : GroupLogs) (stored : Counts) (group : Group) (key : List ℕ) (below : ℕ) (row : Option Row) → Follows version progress log stored → IsOwn log group key → KeepsFrom below (version key) (kept key) →
        IsLatest (kept key) row → row ≡ written (stored_writes (log group) (stored group)) no_rows key }
{}
