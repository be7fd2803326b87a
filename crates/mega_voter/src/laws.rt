//! What follows of what the logs of a voter tell, as contracts of functions that do nothing.

ghost use Rattle.std.specs.Prelude.{◌≡◌, ◌↔◌, ◌+◌, ◌<◌, ◌≤◌, ◌-◌, ◌∷◌, [], ℕ, None, true, List, All, slice_get};
ghost use Rattle.std.specs.List.{list_all};
ghost use Rattle.mega_base.specs.declared.names.GroupId.{GroupId};
ghost use Rattle.mega_base.specs.declared.names.OpId.{OpId};
ghost use Rattle.mega_base.specs.declared.names.Position.{Position};
ghost use Rattle.mega_ballot.specs.declared.ballot.Ballot.{Ballot};
ghost use Rattle.mega_entry.specs.declared.content.Content.{Content};
ghost use Rattle.mega_wire.specs.declared.message.Body.{Body};
ghost use Rattle.mega_wire.specs.declared.message.Message.{Message};
ghost use Rattle.mega_wire.specs.Messages.{IsBody};
ghost use Rattle.mega_wal.specs.declared.item.JournalItem.{JournalItem as Item};
ghost use Rattle.mega_wal.specs.declared.item.JournalItem.TheVariants.{Start};
ghost use Rattle.mega_wal.specs.declared.kept.Kept.{Kept};
ghost use Rattle.mega_wal.specs.Items.{IsItem};
ghost use Rattle.mega_wal.specs.Kept.{Represents};
ghost use Rattle.mega_rules.specs.Clock.{start_of};
ghost use Rattle.mega_rules.specs.Logs.{decided, log_of, prefix_of};
ghost use Rattle.mega_rules.specs.Met.{Met, Sends, Starts, Unsends};
ghost use Rattle.mega_rules.specs.Steps.{onto};
ghost use Rattle.mega_rules.specs.Voting.{acts, prepared, voted};
ghost use Rattle.mega_voter.specs.Holding.{GoesOn, HoldsMet, Recalls, is_no_start};
ghost use Rattle.mega_voter.specs.Journal.{item_of, items_in, journal_of, without_starts};
ghost use Rattle.mega_voter.specs.Telling.{AreHonest, IsAnswer, IsHonest, Tells};

/// What is of no journal kind, as a tick, a crash, or a message that is neither a promise nor a vote, leaves what is
/// told.
#[tactic(auto, using(crate::proofs::KeptTells::silent_told))]
pub fn other_things_leave_what_is_told()
    ensures { (kept : Kept) (met : List Met) (one : Met) → item_of met one ≡ None → Tells kept met ↔ Tells kept (one ∷ met) }
{}

/// A message that a crash left unsent is kept as one that was sent is.
#[tactic(auto, using(crate::proofs::KeptTells::unsent_told))]
pub fn unsent_is_kept_as_sent()
    ensures { (kept : Kept) (met : List Met) (message : Message) → Tells kept (Sends message ∷ met) ↔ Tells kept (Unsends message ∷ met) }
{}

/// Logs that keep nothing tell that nothing was met.
#[tactic(auto, using(crate::proofs::KeptTells::nothing_told))]
pub fn nothing_is_told_first()
    ensures { (kept : Kept) → Represents kept [] → Tells kept [] }
{}

/// Logs that are opened over a journal tell what was met, where that and the journal say the same but of starts, and
/// the last start has the number of those that the journal counts.
pub fn opened_logs_tell_their_journal()
    ensures { (kept : Kept) (items : List Item) (met : List Met) → Represents kept items → without_starts items ≡ without_starts (journal_of met) → AreHonest met → kept.starts ≡ start_of met → Tells kept met }
{}

/// Logs that are opened over the same journal tell the same.
#[tactic(auto, using(crate::proofs::KeptTells::reopened_told))]
pub fn a_reopening_tells_the_same()
    ensures { (old new : Kept) (items : List Item) (met : List Met) → Represents old items → Represents new items → Tells old met → Tells new met }
{}

/// What a voter answers it may send, and a promise that it may send is honest.
#[tactic(auto, using(crate::proofs::Answered::prepared_answers, crate::proofs::Answered::voted_answers, crate::proofs::Answered::answers_honest))]
pub fn answers_may_be_sent()
    ensures promises { (met : List Met) (op : OpId) (group : GroupId) (position : Position) (ballot : Ballot) → IsAnswer met (prepared (acts met group position.0) op group position ballot) }
    ensures votes { (met : List Met) (op : OpId) (group : GroupId) (position : Position) (ballot : Ballot) (entry : Content) → IsAnswer met (voted (acts met group position.0) op group position ballot entry) }
    ensures honest { (met : List Met) (body : Body) → IsAnswer met body → IsHonest met body }
{}

/// What a message of the format tells of its sender is an item of the journal's format.
#[tactic(auto, using(crate::proofs::KeptTells::sent_fits))]
pub fn sent_items_fit()
    ensures { (body : Body) → IsBody body → All IsItem (items_in body) }
{}

/// Each entry of the decided prefix is the one that is decided at its position.
#[tactic(auto, using(crate::proofs::Prefixes::entry_is))]
pub fn the_prefix_holds_what_is_decided()
    ensures { (met : List Met) (group : GroupId) (n : ℕ) → 0 < n → n ≤ prefix_of met group → slice_get (log_of met group) (n - 1) ≡ decided met group n }
{}

/// Records that hold nothing hold what was met by a node that never started.
#[tactic(auto, using(crate::proofs::Held::nothing_held))]
pub fn nothing_is_held_first()
    ensures { HoldsMet [] 0 [] }
{}

/// What records hold stays so with a thing that is of no journal kind, as a tick, a crash or an answer.
#[tactic(auto, using(crate::proofs::Held::silent_held))]
pub fn other_things_leave_what_is_held()
    ensures { (records : List (List ℕ)) (starts : ℕ) (met : List Met) (one : Met) → item_of met one ≡ None → HoldsMet records starts met ↔ HoldsMet records starts (one ∷ met) }
{}

/// Records hold a message that a crash left unsent as they hold one that was sent.
#[tactic(auto, using(crate::proofs::Held::unsent_held))]
pub fn unsent_is_held_as_sent()
    ensures { (records : List (List ℕ)) (starts : ℕ) (met : List Met) (message : Message) → HoldsMet records starts (Sends message ∷ met) ↔ HoldsMet records starts (Unsends message ∷ met) }
{}

/// Logs recall what they tell, and where the last start has the number of those that are counted, they tell what they
/// recall.
#[tactic(auto, using(crate::proofs::Holding::told_recalled, crate::proofs::Holding::recalled_told))]
pub fn logs_tell_what_they_recall()
    ensures tells { (kept : Kept) (met : List Met) → Tells kept met ↔ Recalls kept (start_of met) met }
{}

/// The record of a start goes on to what the start shows, and where it is cut off, to what was met before.
pub fn a_start_goes_on()
    ensures { (starts : ℕ) (met owed : List Met) → list_all is_no_start owed ≡ true → starts < 4294967295 → start_of (onto owed met) ≤ starts → AreHonest (onto owed met) →
        GoesOn (Start ∷ []) starts (onto owed met) (onto owed (Starts (starts + 1) ∷ met)) × GoesOn (Start ∷ []) starts (onto owed met) (onto owed met) }
{}
