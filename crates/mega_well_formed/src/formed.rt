//! What is left of a text's room behind its parts, each of which must be of its format.
ghost use Rattle.std.specs.Prelude.{ℕ, List, All};
ghost use Rattle.std.specs.List.{flat_map};
ghost use Rattle.mega_base.specs.Codec.{IsList, IsOption, list_text, option_text};
ghost use Rattle.mega_well_formed.specs.Room.{Leaves};

use mega_base::{Field, Items};

/// The greatest count of a list.
const MOST_ITEMS: usize = 4_294_967_295;

/// A value that is measured before it is written.
pub(crate) trait Formed: Field {
    /// What is left of so many bytes behind the text; none where the value has no text, or a longer one.
    fn room_behind(&self, room: usize) -> Option<usize>
        ensures { Leaves (Self.fits self.now) (Self.spells self.now) room result };
}

/// What is left behind items that stand one after another.
fn room_behind_items<T: Formed>(items: &[T], room: usize) -> Option<usize>
    ensures { Leaves (All T.fits items.now) (flat_map T.spells items.now) room result }
{
    let mut left = room;
    for item in items {
        match item.room_behind(left) {
            Some(less) => left = less,
            None => return None,
        }
    }
    Some(left)
}

/// What is left behind the count of a list and its items, of which there are so many at least.
pub(crate) fn room_behind_list<T: Formed>(
    items: &Items<T>,
    least: usize,
    room: usize,
) -> Option<usize>
    ensures { Leaves (IsList least 4294967295 T.fits items.now) (list_text T.spells items.now) room result }
{
    if items.len() < least || MOST_ITEMS < items.len() {
        return None;
    }
    match room.checked_sub(4) {
        Some(left) => room_behind_items(items.as_slice(), left),
        None => None,
    }
}

/// What is left behind a byte that tells whether there is a value, and the value.
pub(crate) fn room_behind_option<T: Formed>(value: &Option<T>, room: usize) -> Option<usize>
    ensures { Leaves (IsOption T.fits value.now) (option_text T.spells value.now) room result }
{
    match room.checked_sub(1) {
        Some(left) => match value {
            Some(value) => value.room_behind(left),
            None => Some(left),
        },
        None => None,
    }
}
