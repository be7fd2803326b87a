//! What is left behind the cuts of a batch, whose indexes rise and whose numbers add up.
ghost use Rattle.std.specs.Prelude.{◌≡◌, ◌≤◌, ◌↔◌, sum_by, length, IsSome, IsTrue};
ghost use Rattle.mega_entry.specs.Entries.{AreCuts, HasCuts, RisesFrom, cuts_text, first_index};
ghost use Rattle.mega_well_formed.specs.Room.{Leaves};

use mega_entry::{Content, Cut};

/// Whether the indexes rise from `first` on, to 15 at most.
fn rise(cuts: &[Cut], first: u8) -> bool
    ensures { IsTrue result ↔ RisesFrom first cuts.now }
{
    let mut low = first;
    for cut in cuts {
        if cut.index < low || 15 < cut.index {
            return false;
        }
        low = cut.index + 1;
    }
    true
}

/// Whether the cuts have so many writes together.
fn have_writes(cuts: &[Cut], writes: usize) -> bool
    ensures { IsTrue result ↔ (sum_by (λ cut. cut.writes) cuts.now ≡ writes) }
{
    let mut left = writes;
    for cut in cuts {
        match left.checked_sub(cut.writes as usize) {
            Some(less) => left = less,
            None => return false,
        }
    }
    left == 0
}

/// Whether the cuts have so many sends together.
fn have_sends(cuts: &[Cut], sends: usize) -> bool
    ensures { IsTrue result ↔ (sum_by (λ cut. cut.sends) cuts.now ≡ sends) }
{
    let mut left = sends;
    for cut in cuts {
        match left.checked_sub(cut.sends as usize) {
            Some(less) => left = less,
            None => return false,
        }
    }
    left == 0
}

/// The least index of the first of that many cuts: a single one is not 0.
fn least_first(count: usize) -> u8
    ensures { result ≡ first_index count }
{
    if count == 1 { 1 } else { 0 }
}

/// Whether these are the cuts, at least one, of so many writes and sends.
fn are_cuts(cuts: &[Cut], writes: usize, sends: usize) -> bool
    ensures { IsTrue result ↔ AreCuts writes sends cuts.now }
{
    1 <= cuts.len()
        && rise(cuts, least_first(cuts.len()))
        && have_writes(cuts, writes)
        && have_sends(cuts, sends)
}

/// Whether an entry may have cuts: it has an id, no enters and no handles.
fn is_batch(content: &Content) -> bool
    ensures { IsTrue result ↔ (IsSome content.now.id × (length content.now.enters ≡ 0) × (length content.now.handles ≡ 0)) }
{
    content.id.is_some() && content.enters.is_empty() && content.handles.is_empty()
}

/// Whether the cuts of an entry, where it has some, are those of its writes and sends.
fn has_cuts(content: &Content) -> bool
    ensures { IsTrue result ↔ HasCuts content.now content.now.cuts }
{
    match content.cuts.as_slice() {
        [] => true,
        [_, ..] => {
            is_batch(content)
                && are_cuts(
                    content.cuts.as_slice(),
                    content.writes.len(),
                    content.sends.len(),
                )
        }
    }
}

/// The length of the text of few cuts.
fn cuts_length(cuts: &[Cut]) -> usize
    requires { length cuts.now ≤ 16 }
    ensures { result ≡ length (cuts_text cuts.now) }
{
    match cuts {
        [] => 0,
        [_, ..] => 4 + 9 * cuts.len(),
    }
}

/// What is left behind an entry's cuts, where it has some.
pub(crate) fn room_behind_cuts(content: &Content, room: usize) -> Option<usize>
    ensures { Leaves (HasCuts content.now content.now.cuts) (cuts_text content.now.cuts) room result }
{
    if !has_cuts(content) {
        return None;
    }
    room.checked_sub(cuts_length(content.cuts.as_slice()))
}
