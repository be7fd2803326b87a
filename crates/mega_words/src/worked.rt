//! Worked forms of words, computed by the checker.
ghost use Rattle.std.specs.Prelude.{◌≡◌, codes, [], ◌∷◌, Some, None};
ghost use Rattle.mega_words.specs.Commands.{command_of};
ghost use Rattle.mega_words.specs.declared.command.Command.TheVariants.{Backup, Gen, Node, Replay, Restore, Two};
ghost use Rattle.mega_words.specs.declared.command.Report.TheVariants.{Summary, Transcript};

/// Options come in any order, with their values behind `=` or as the next word; each comes once, and is in its range.
#[tactic(auto, unfolding(crate::specs::Numbers::number_in, hex::specs::Hex::decode_pairs))]
pub fn words_are_read()
    ensures replay { command_of (codes "replay" ∷ []) ≡ Some (Replay Transcript) }
    ensures counted { command_of (codes "replay" ∷ codes "--summary" ∷ []) ≡ Some (Replay Summary) }
    ensures drawn { command_of (codes "gen" ∷ codes "--nodes=5" ∷ codes "--seed" ∷ codes "007" ∷ codes "--count" ∷ codes "5000" ∷ []) ≡ Some (Gen 7 5000 5) }
    ensures served { command_of (codes "node" ∷ codes "--turns" ∷ codes "0" ∷ codes "--number=9" ∷ []) ≡ Some (Node 9 0) }
    ensures saved { command_of (codes "backup" ∷ codes "--at=7" ∷ codes "--group" ∷ codes "018000000000000065" ∷ codes "--number=1" ∷ []) ≡ Some (Backup 1 (record { key = 1 ∷ 128 ∷ 0 ∷ 0 ∷ 0 ∷ 0 ∷ 0 ∷ 0 ∷ 101 ∷ [] }) 7) }
    ensures restored { command_of (codes "restore" ∷ codes "--at" ∷ codes "1000000" ∷ []) ≡ Some (Restore 1000000) }
    ensures halves_of_bytes { command_of (codes "backup" ∷ codes "--at=7" ∷ codes "--group=018" ∷ codes "--number=1" ∷ []) ≡ None }
    ensures capitals { command_of (codes "backup" ∷ codes "--at=7" ∷ codes "--group=0A" ∷ codes "--number=1" ∷ []) ≡ None }
    ensures driven { command_of (codes "two" ∷ codes "--turns=100" ∷ codes "--node=2" ∷ []) ≡ Some (Two 2 100 None) }
    ensures recovered { command_of (codes "two" ∷ codes "--node=2" ∷ codes "--recover" ∷ codes "T1a" ∷ codes "--turns=100" ∷ []) ≡ Some (Two 2 100 (Some (codes "T1a"))) }
    ensures unnamed { command_of (codes "two" ∷ codes "--node=2" ∷ codes "--recover=T-1" ∷ codes "--turns=100" ∷ []) ≡ None }
    ensures far { command_of (codes "restore" ∷ codes "--at=1000001" ∷ []) ≡ None }
    ensures strange { command_of (codes "node" ∷ codes "--turns=5" ∷ codes "--number=1" ∷ codes "--seed=7" ∷ []) ≡ None }
    ensures halves { command_of (codes "node" ∷ codes "--number=1" ∷ []) ≡ None }
    ensures long { command_of (codes "node" ∷ codes "--number=1" ∷ codes "--turns=1000000001" ∷ []) ≡ None }
    ensures twice { command_of (codes "gen" ∷ codes "--seed=7" ∷ codes "--seed=7" ∷ codes "--nodes=5" ∷ []) ≡ None }
    ensures range { command_of (codes "gen" ∷ codes "--seed=7" ∷ codes "--count=5" ∷ codes "--nodes=10" ∷ []) ≡ None }
    ensures wanting { command_of (codes "gen" ∷ codes "--seed=7" ∷ codes "--count=5" ∷ codes "--nodes" ∷ []) ≡ None }
    ensures valued { command_of (codes "replay" ∷ codes "--summary=1" ∷ []) ≡ None }
    ensures more { command_of (codes "replay" ∷ codes "replay" ∷ []) ≡ None }
{}
