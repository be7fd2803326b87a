//! What a request names.
ghost use Rattle.std.specs.Prelude.{◌≡◌};
ghost use Rattle.mega_base.specs.ListWords.{is_empty};
ghost use Rattle.mega_outcome.specs.Naming.{names_nothing};

use crate::request::Request;
use mega_base::GroupId;

/// Whether a group is named by no key.
fn is_empty(group: &GroupId) -> bool
    ensures { result ≡ is_empty group.now.key }
{
    matches!(group.key.as_slice(), [])
}

/// Whether a request names no group, or no index.
pub fn names_nothing(request: &Request) -> bool
    ensures { result ≡ names_nothing request.now }
{
    match request {
        Request::Txn(txn) => is_empty(&txn.group),
        Request::Batch(group, _) => is_empty(group),
        Request::Read(read) => is_empty(&read.group),
        Request::Find(find) => {
            if find.index == 0 {
                return true;
            }
            match &find.group {
                Some(group) => is_empty(group),
                None => false,
            }
        }
        Request::PumpEnter | Request::PumpHandle | Request::Refresh => false,
    }
}
