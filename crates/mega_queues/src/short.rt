//! Whether the entry that enters a message is short enough.
ghost use Rattle.std.specs.Prelude.{◌≡◌, ◌+◌, length, nat_le};
ghost use Rattle.mega_rules.specs.Queues.{enter_entry, is_short};

use mega_base::{GroupId, OpId};
use mega_entry::Enter;

/// What the group, the queue and the payload of a message may have together.
const MOST: usize = 32716;

fn fits(group: usize, queue: usize, payload: usize) -> bool
    ensures { result ≡ nat_le (group + (queue + payload)) 32716 }
{
    if group > MOST || queue > MOST || payload > MOST {
        return false;
    }
    group + (queue + payload) <= MOST
}

/// The length of a group's key.
fn key_length(group: &GroupId) -> usize
    ensures { result ≡ length group.now.key }
{
    group.key.len()
}

/// Whether the entry by which an operation enters the message has at most 32,768 bytes.
pub fn is_short(op: OpId, message: &Enter) -> bool
    ensures { result ≡ is_short (enter_entry op message.now) }
{
    let _op = op;
    let group = key_length(&message.name.group);
    let queue = message.queue.as_bytes().len();
    let payload = message.payload.len();
    fits(group, queue, payload)
}
