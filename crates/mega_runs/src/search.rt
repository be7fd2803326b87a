//! Binary search among versions in order of key and position.
ghost use Rattle.std.specs.Prelude.{◌≡◌, true, Some, None, if◌then◌else◌, nat_eq};
ghost use Rattle.std.specs.Cmp.Lexicographic.{pointwise};
ghost use Rattle.std.specs.Option.{option_map};
ghost use Rattle.mega_runs.specs.Bodies.{Spot, ascends, is_before, spot_of};
ghost use Rattle.mega_runs.specs.Finding.{IsPlace, behind_at, found_in};
ghost use Rattle.mega_runs.specs.Ranges.{IsBetween};

use crate::body::Version;
use mega_base::{Bytes, Position};

/// What has a key and a position, by which it is in order.
pub(crate) trait Placed {
    ghost spot: { Self → Spot };

    /// Whether it stands behind this key and position.
    fn is_behind(&self, key: &Bytes, at: Position) -> bool
        ensures { result ≡ is_before (key.now, at.0) (spot self.now) };
}

impl Placed for Version {
    ghost spot = { spot_of };

    fn is_behind(&self, key: &Bytes, at: Position) -> bool {
        key.cmp(&self.key).then(at.0.cmp(&self.at.0)).is_lt()
    }
}

/// How many items do not stand behind the key and position.
#[tactic(auto, using(crate::proofs::Found::behind_end, crate::proofs::Found::before_next))]
pub(crate) fn place_of<T: Placed>(items: &[T], key: &Bytes, at: Position) -> usize
    ensures { IsPlace T.spot (key.now, at.0) items.now result }
{
    let mut low = 0;
    let mut high = items.len();
    while low < high {
        let middle = low + (high - low) / 2;
        if is_behind_at(items, middle, key, at) {
            high = middle;
        } else {
            low = middle + 1;
        }
    }
    low
}

/// Of items in order those among which all with the keys from `from` on and before `to` stand: the last one that begins at or before
/// `from`, and those behind it up to `to`.
pub(crate) fn between<'a, T: Placed>(items: &'a [T], from: &Bytes, to: &Bytes) -> &'a [T]
    ensures { IsBetween T.spot from.now to.now items.now result.now }
{
    let first = place_of(items, from, Position(0)).saturating_sub(1);
    let (_, behind) = items.split_at(first);
    let (found, _) = behind.split_at(place_of(behind, to, Position(0)));
    found
}

/// Whether the item of this place stands behind the key and position; the end of the items does.
fn is_behind_at<T: Placed>(items: &[T], place: usize, key: &Bytes, at: Position) -> bool
    ensures { result ≡ behind_at T.spot (key.now, at.0) items.now place }
{
    match items.get(place) {
        Some(item) => item.is_behind(key, at),
        None => true,
    }
}

/// The version of the key of greatest position up to this one.
pub(crate) fn found<'a>(versions: &'a [Version], key: &Bytes, at: Position) -> Option<&'a Version>
    requires { ascends versions.now ≡ true }
    ensures { option_map (λ version. (version.now.at.0, version.now.row)) result ≡ found_in key.now at.0 versions.now }
{
    let place = place_of(versions, key, at);
    if place == 0 {
        return None;
    }
    match versions.get(place - 1) {
        Some(version) => of_key(version, key),
        None => None,
    }
}

/// The version, where it is one of the key.
fn of_key<'a>(version: &'a Version, key: &Bytes) -> Option<&'a Version>
    ensures { option_map (λ version. version.now) result ≡ (if pointwise nat_eq version.now.key key.now then Some version.now else None) }
{
    if version.key == *key {
        Some(version)
    } else {
        None
    }
}
