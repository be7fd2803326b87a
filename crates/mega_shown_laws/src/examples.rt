//! A run that the laws are about, as the contract of a function that does nothing.

ghost use Rattle.mega_transcript.specs.declared.item.Item.TheVariants.{Answer};
ghost use Rattle.mega_rules.specs.Examples.{cluster};
ghost use Rattle.mega_promises.specs.Promises.{Stands};
ghost use Rattle.mega_promises.specs.Runs.{Whole, goes_on, opening};
ghost use Rattle.mega_promises.specs.Worked.{op, read_through};
ghost use Rattle.mega_shown_laws.specs.Examples.{put_and_shown, two_words};
ghost use Rattle.mega_shown_laws.specs.OfFormat.{IsOfFormat};
ghost use Rattle.std.specs.Prelude.{[]};

/// A run in which a user is put, and then shown by a snapshot, meets the premises of the laws.
pub fn a_shown_user_is_of_the_format()
    ensures formed { IsOfFormat cluster two_words [] put_and_shown (goes_on cluster (λ now me calls. Whole) (opening cluster []) put_and_shown).tape }
    ensures shows { Stands (Answer (op 1 1 2) (read_through 1)) (goes_on cluster (λ now me calls. Whole) (opening cluster []) put_and_shown).tape }
{}
