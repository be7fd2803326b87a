//! Why a message is not delivered.
ghost use Rattle.std.specs.Prelude.{◌≡◌};
ghost use Rattle.mega_verdicts.specs.Refusals.{delivery_refusal};

/// Why a message is not delivered: 3, none of its number was sent; 4, it was dropped; 1, its receiver is down.
pub fn delivery_refusal(is_sent: bool, is_dropped: bool, is_receiver_down: bool) -> Option<u8>
    ensures { result ≡ delivery_refusal is_sent is_dropped is_receiver_down }
{
    if !is_sent {
        return Some(3);
    }
    if is_dropped {
        return Some(4);
    }
    if is_receiver_down {
        return Some(1);
    }
    None
}
