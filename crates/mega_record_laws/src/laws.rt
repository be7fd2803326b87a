//! Laws of the record of a served node, as contracts of functions that do nothing.

ghost use Rattle.std.specs.Prelude.{◌≡◌, ◌++◌, All, ℕ, List, [], Some, take};
ghost use Rattle.mega_io.specs.TextLines.{ended_lines};
ghost use Rattle.mega_schema.specs.declared.schema.Schema.{Schema};
ghost use Rattle.mega_promises.specs.Records.{record_line, record_text};
ghost use Rattle.mega_promises.specs.Served.{Line};
ghost use Rattle.mega_serve.specs.Lines.{record_text as served_text};
ghost use Rattle.mega_record_laws.specs.Plain.{IsPlainLine};
ghost use Rattle.mega_record_laws.specs.Reading.{read_line, read_record};

/// Each plain line is read back from its text, and what is read is a plain line that has this text.
pub fn lines_are_read_back()
    ensures read { (schema : Schema) (line : Line) → IsPlainLine schema line → read_line schema (record_line schema line) ≡ Some line }
    ensures found { (schema : Schema) (text : List ℕ) (line : Line) → read_line schema text ≡ Some line → IsPlainLine schema line × (text ≡ record_line schema line) }
{}

/// A record of plain lines is read back from its text, and of any front of the text a front of the record. What is read of a text is a record of plain lines
/// whose text it is, as far as its last line feed.
pub fn records_are_read_back()
    ensures read { (schema : Schema) (lines : List Line) → All (IsPlainLine schema) lines → read_record schema (record_text schema lines) ≡ Some lines }
    ensures fronts { (schema : Schema) (lines : List Line) → All (IsPlainLine schema) lines → (n : ℕ) → (k : ℕ) × (read_record schema (take n (record_text schema lines)) ≡ Some (take k lines)) }
    ensures found { (schema : Schema) (text : List ℕ) (lines : List Line) → read_record schema text ≡ Some lines →
        All (IsPlainLine schema) lines × ((rest : List ℕ) × ((text ≡ record_text schema lines ++ rest) × (ended_lines rest ≡ []))) }
{}

/// So the text of a record tells its lines: two records of plain lines that have one text under one schema are equal.
pub fn text_tells_record()
    ensures { (schema : Schema) (lines others : List Line) → All (IsPlainLine schema) lines → All (IsPlainLine schema) others → record_text schema lines ≡ record_text schema others → lines ≡ others }
{}

/// The text that a served node writes of its record is this text.
pub fn what_is_served_is_this_text()
    ensures { (schema : Schema) (lines : List Line) → served_text schema lines ≡ record_text schema lines }
{}
