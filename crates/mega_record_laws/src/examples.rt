//! A record that meets the premises of the laws.

ghost use Rattle.std.specs.Prelude.{◌≡◌, ◌∷◌, ◌++◌, [], All, codes, Some};
ghost use Rattle.mega_promises.specs.Records.{record_text};
ghost use Rattle.mega_rules.specs.Examples.{schema};
ghost use Rattle.mega_record_laws.specs.Examples.{first_lines};
ghost use Rattle.mega_record_laws.specs.Plain.{IsPlainLine};
ghost use Rattle.mega_record_laws.specs.Reading.{read_record};

/// The first lines of a record, as they are written, are plain, and are read back.
#[tactic(auto, unfolding(mega_base::specs::Codec::number_text))]
pub fn first_lines_are_read_back()
    ensures plain { All (IsPlainLine schema) first_lines }
    ensures text { record_text schema first_lines ≡ (codes "start 2 1" ++ 10 ∷ []) ++ (codes "tick 2 10" ++ 10 ∷ []) ++ (codes "got client 1 4d0a" ++ 10 ∷ []) ++ (codes "put 3 " ++ 10 ∷ []) ++ codes "put client 1 ff" ++ 10 ∷ [] }
    ensures read { read_record schema ((codes "start 2 1" ++ 10 ∷ []) ++ (codes "tick 2 10" ++ 10 ∷ []) ++ (codes "got client 1 4d0a" ++ 10 ∷ []) ++ (codes "put 3 " ++ 10 ∷ []) ++ codes "put client 1 ff" ++ 10 ∷ []) ≡ Some first_lines }
{}
