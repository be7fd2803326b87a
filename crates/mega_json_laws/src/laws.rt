//! Laws of JSON texts that are read, as contracts of functions that do nothing.

ghost use Rattle.std.specs.Prelude.{◌≡◌, List, ℕ, Some, true};
ghost use Rattle.std.specs.Str.{is_utf8};
ghost use Rattle.serde_json.specs.Data.{Data};
ghost use Rattle.serde_json.specs.Read.{read};
ghost use Rattle.mega_json_laws.specs.Whole.{IsWhole};

/// What is read of a text in UTF-8 holds texts in UTF-8 alone, integers of 64 bits, and objects whose names ascend (RFC 8259).
pub fn what_is_read_is_whole()
    ensures { (text : List ℕ) (d : Data) → is_utf8 text ≡ true → read text ≡ Some d → IsWhole d }
{}
