//! Whether a log has room for one entry more.
ghost use Rattle.std.specs.Prelude.{◌≡◌, ◌+◌, ◌<◌, ◌^◌, false, nat_le};

use mega_operations::Members;

/// Whether a log has reached its limit at a position.
pub fn is_limit(members: &Members, position: u64) -> bool
    ensures exact { result ≡ nat_le (members.now.limit).0 position }
    ensures room { result ≡ false → position + 1 < 2 ^ 64 }
{
    members.cluster().limit.0 <= position
}
