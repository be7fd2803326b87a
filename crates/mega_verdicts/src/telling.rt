//! Whether an item is the first that tells that leases are not safe.
ghost use Rattle.std.specs.Prelude.{◌≡◌, ◌&&◌, not};

/// Whether an item is the first that tells so: it does, and none was told of before.
pub fn is_first(is_told: bool, tells: bool) -> bool
    ensures { result ≡ (not is_told && tells) }
{
    !is_told && tells
}
