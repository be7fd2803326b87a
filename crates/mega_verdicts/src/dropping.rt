//! A message is dropped, unless that is refused.
ghost use Rattle.std.specs.Prelude.{◌≡◌, ◌==◌, ◌&&◌, ◌||◌, not, ℕ, Some, None, is_some, IfOk};
ghost use Rattle.std.specs.BTreeSet.{contains};
ghost use Rattle.std.specs.Ordering.{nat_cmp};
ghost use Rattle.mega_verdicts.specs.Refusals.{drop_refusal};
ghost use Rattle.mega_verdicts.specs.Waiting.{is_receiver, waits_for};

use crate::waiting::forget;
use mega_base::NoMemory;
use std::collections::BTreeSet;

/// The message of a number, of which this is the receiver where one was sent, waits no more and is dropped, or why it is not: 3, none
/// was sent; 4, it was dropped before.
pub fn drop_message(
    waiting: &mut Vec<BTreeSet<u64>>,
    dropped: &mut BTreeSet<u64>,
    to: Option<u8>,
    number: u64,
) -> Result<Option<u8>, NoMemory>
    ensures refusal { IfOk result (λ refused. refused ≡ drop_refusal (is_some to) (contains nat_cmp dropped.old number)) }
    ensures still_waiting { IfOk result (λ refused. (why : ℕ) → refused ≡ Some why → waiting.new ≡ waiting.old) }
    ensures still_dropped { IfOk result (λ refused. (why : ℕ) → refused ≡ Some why → dropped.new ≡ dropped.old) }
    ensures waiting { IfOk result (λ refused. refused ≡ None → (other n : ℕ) → waits_for waiting.new.items other n ≡ (not (is_receiver to other && number == n) && waits_for waiting.old.items other n)) }
    ensures dropped { IfOk result (λ refused. refused ≡ None → (n : ℕ) → contains nat_cmp dropped.new n ≡ ((number == n) || contains nat_cmp dropped.old n)) }
{
    let to = match to {
        Some(to) => to,
        None => return Ok(Some(3)),
    };
    if dropped.contains(&number) {
        return Ok(Some(4));
    }
    forget(waiting, to, number);
    dropped.insert(number)?;
    Ok(None)
}
