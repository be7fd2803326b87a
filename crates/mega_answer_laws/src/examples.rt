//! A run that the law of causes is about, as contracts of functions that do nothing.

ghost use Rattle.std.specs.Prelude.{◌≡◌, [], ◌∷◌, reverse};
ghost use Rattle.mega_outcome.specs.declared.answer.Answer.TheVariants.{NothingToDo, Refreshed, TimedOut};
ghost use Rattle.mega_cause_laws.specs.of_run_laws.of_tape_laws.of_promises.of_rules.Examples.{cluster};
ghost use Rattle.mega_cause_laws.specs.of_run_laws.of_tape_laws.of_promises.Runs.{Whole, goes_on, opening};
ghost use Rattle.mega_cause_laws.specs.of_run_laws.of_tape_laws.of_promises.Worked.{answers, committed_at, first_mark, op, read_through, told};
ghost use Rattle.mega_cause_laws.specs.of_run_laws.Usages.{Fits};
ghost use Rattle.mega_answer_laws.specs.Examples.{many_words, words};

/// Texts of six lengths mean requests of six kinds, and these begin with them: the premise of the law can be met.
pub fn texts_mean_their_requests()
    ensures { Fits many_words words }
{}

/// That run answers where an operation acts, at once where it begins, and at a tick.
#[tactic(auto, unfolding(mega_base::specs::Codec::number_text))]
pub fn words_of_each_kind()
    ensures { answers (reverse (goes_on cluster (λ now me calls. Whole) (opening cluster []) words).tape) ≡
        told (op 1 1 1) (committed_at 1) ∷ told (op 1 1 2) (read_through 1) ∷ told (op 1 1 3) (read_through 1) ∷ told (op 1 1 4) (Refreshed (first_mark ∷ []))
        ∷ told (op 1 1 5) (NothingToDo (first_mark ∷ [])) ∷ told (op 1 1 6) (NothingToDo (first_mark ∷ [])) ∷ told (op 2 1 1) TimedOut ∷ [] }
{}
