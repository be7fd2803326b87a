//! What follows from the format and from the history, as contracts of functions that do nothing.

ghost use Rattle.std.specs.Prelude.{◌≡◌, ◌↔◌, ◌<◌, ◌^◌, ◌++◌, ◌∷◌, [], ℕ, true, None, List, All, length, reverse};
ghost use Rattle.mega_base.specs.declared.names.GroupId.{GroupId as Group};
ghost use Rattle.mega_base.specs.declared.names.OpId.{OpId as Operation};
ghost use Rattle.mega_acceptor.specs.of_ballot.declared.ballot.Ballot.{Ballot as BallotValue};
ghost use Rattle.mega_acceptor.specs.of_ballot.Order.{IsBelow};
ghost use Rattle.mega_acceptor.specs.of_entry.declared.content.Content.{Content};
ghost use Rattle.mega_wal.specs.declared.item.JournalItem.{JournalItem as Item};
ghost use Rattle.mega_wal.specs.Acceptor.{is_ballot_below};
ghost use Rattle.mega_wal.specs.Items.{IsItem, IsRecord, record_text};
ghost use Rattle.mega_wal.specs.Records.{first_bad, history_of, is_record, items_in};
ghost use Rattle.mega_acceptor.specs.of_entry.Same.{same_entry, same_group, same_op};

/// The tests of equality and of order are equality and the order of ballots.
pub fn tests_tell()
    ensures entries { (a b : Content) → (same_entry a b ≡ true) ↔ (a ≡ b) }
    ensures groups { (a b : Group) → (same_group a b ≡ true) ↔ (a ≡ b) }
    ensures operations { (a b : Operation) → (same_op a b ≡ true) ↔ (a ≡ b) }
    ensures ballots { (a b : BallotValue) → (is_ballot_below a b ≡ true) ↔ IsBelow a b }
{}

/// A record is of the format exactly where it spells items of the format, and it spells no others.
pub fn records_spell()
    ensures found { (body : List ℕ) → is_record body ≡ true → IsRecord (items_in body) × (body ≡ record_text (items_in body)) }
    ensures only { (items : List Item) → IsRecord items → (is_record (record_text items) ≡ true) × (items_in (record_text items) ≡ items) }
{}

/// One record more adds its items to the history.
pub fn history_grows()
    ensures { (records : List (List ℕ)) (items : List Item) → IsRecord items → history_of (records ++ record_text items ∷ []) ≡ reverse items ++ history_of records }
{}

/// A history that was read from records holds items of the format alone.
pub fn history_fits()
    ensures { (records : List (List ℕ)) → first_bad records ≡ None → All IsItem (history_of records) }
{}
