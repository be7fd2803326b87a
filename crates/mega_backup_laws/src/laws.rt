//! The laws of backups, as the contracts of functions that do nothing.

ghost use Rattle.std.specs.Prelude.{◌≡◌, ℕ, ◌≤◌, All, List, Ok, length, take};
ghost use Rattle.hex.specs.Hex.{IsBytes};
ghost use Rattle.mega_base.specs.declared.names.GroupId.{GroupId as Group};
ghost use Rattle.mega_cluster.specs.declared.cluster.Cluster.{Cluster};
ghost use Rattle.mega_entry.specs.declared.content.Content.{Content};
ghost use Rattle.mega_schema.specs.declared.schema.Schema.{Schema};
ghost use Rattle.mega_index.specs.Rows.{after, no_rows};
ghost use Rattle.mega_outcome.specs.declared.transaction.Transaction.{Transaction};
ghost use Rattle.mega_transcript.specs.declared.item.Item.{Item};
ghost use Rattle.mega_transcript.specs.Plain.{IsWritten};
ghost use Rattle.mega_promises.specs.Promises.{log_of};
ghost use Rattle.mega_tape_laws.specs.Indexed.{AskValues, IsDeclared};
ghost use Rattle.mega_tape_laws.specs.Writes.{LawfulWrites, Usage};
ghost use Rattle.mega_backup.specs.declared.reading.Backup.{Backup};
ghost use Rattle.mega_backup.specs.Lines.{backup_in};
ghost use Rattle.mega_backup.specs.Restoring.{read_of, restored, restoring};
ghost use Rattle.mega_backup.specs.Texts.{backup_text};
ghost use Rattle.mega_backup_laws.specs.Made.{AreMade};
ghost use Rattle.mega_backup_laws.specs.Written.{HasNoFeed, backup_lines, lines_text};

/// On a lawful tape, under a schema that can be declared, and with requests that hold values of the program: where the first entries of a
/// group's log are restored, the outcomes of the transactions, one after another over nothing, leave under each key what these entries leave,
/// index rows among them.
pub fn backups_bring_back_their_rows()
    ensures { (c : Cluster) (usage : Usage) (tape : List Item) → LawfulWrites c usage tape → IsDeclared c.schema → AskValues usage tape → (group : Group) (entries : ℕ) (txns : List Transaction)
        → restoring c.schema group (log_of tape group) entries ≡ Ok txns → (key : List ℕ) → restored c.schema txns key ≡ after (take entries (log_of tape group)) no_rows key }
{}

/// Under a schema that can be declared, of entries each of which is made on the rows that those before it leave: where lines are a backup of
/// them and are read, the outcomes of the transactions, one after another over nothing, leave under each key what the first entries leave,
/// index rows among them.
pub fn made_entries_come_back()
    ensures restored { (s : Schema) → IsDeclared s → (group : Group) (entries : List Content) → AreMade s group no_rows entries → (through : ℕ) (txns : List Transaction)
        → restoring s group entries through ≡ Ok txns → (key : List ℕ) → restored s txns key ≡ after (take through entries) no_rows key }
    ensures read { (s : Schema) → IsDeclared s → (lines : List (List ℕ)) (backup : Backup) → backup_in lines ≡ Ok backup → AreMade s backup.group no_rows backup.entries → (through : ℕ) (txns : List Transaction)
        → read_of s lines through ≡ Ok txns → (key : List ℕ) → restored s txns key ≡ after (take through backup.entries) no_rows key }
{}

/// The text that is written of a group and entries parts at its line feeds into lines that are read as this group and these entries.
pub fn what_is_written_is_read()
    ensures text { (group : Group) (entries : List Content) → lines_text (backup_lines group entries) ≡ backup_text group (length entries) entries }
    ensures parted { (group : Group) (entries : List Content) → IsBytes group.key → length entries ≤ 1000000 → All IsWritten entries → All HasNoFeed (backup_lines group entries) }
    ensures read { (group : Group) (entries : List Content) → IsBytes group.key → 1 ≤ length group.key → length group.key ≤ 1024 → length entries ≤ 1000000 → All IsWritten entries
        → backup_in (backup_lines group entries) ≡ Ok (record { group = group; entries = entries }) }
{}
