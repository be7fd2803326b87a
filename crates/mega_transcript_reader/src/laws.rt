//! Laws of lines.
ghost use Rattle.std.specs.Prelude.{◌≡◌, List, All};
ghost use Rattle.mega_schema.specs.declared.schema.Schema.{Schema as SchemaValue};
ghost use Rattle.mega_transcript.specs.declared.item.Item.{Item as ItemValue};
ghost use Rattle.mega_transcript.specs.Lines.{lines};
ghost use Rattle.mega_transcript.specs.Plain.{IsPlain};

/// Two tapes of plain items that have one text under one schema are equal.
pub fn text_tells_tape()
    ensures { (schema : SchemaValue) (tape other : List ItemValue) → All (IsPlain schema) tape → All (IsPlain schema) other → lines schema tape ≡ lines schema other → tape ≡ other }
{}
