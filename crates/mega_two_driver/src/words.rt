//! What the first word of a reply tells.
ghost use Rattle.std.specs.Prelude.{◌≡◌};
ghost use Rattle.mega_syntax.specs.Names.{same};
ghost use Rattle.mega_two_driver.specs.Words.{has_word, is_again, is_closed, transaction_told, unread_told};

use mega_two_moves::RequestResult;

/// Whether the two texts are the same.
pub(crate) fn same(text: &[u8], other: &[u8]) -> bool
    ensures { result ≡ same text.now other.now }
{
    text == other
}

/// Whether the text's first word is this one.
pub(crate) fn has_word(word: &[u8], text: &[u8]) -> bool
    ensures { result ≡ has_word word.now text.now }
{
    match word {
        [] => match text {
            [] => true,
            [next, ..] => *next == b' ',
        },
        [byte, word @ ..] => match text {
            [first, text @ ..] => byte == first && has_word(word, text),
            [] => false,
        },
    }
}

fn is_again(reply: &[u8]) -> bool
    ensures { result ≡ is_again reply.now }
{
    has_word(b"conflict", reply) || has_word(b"timedout", reply) || has_word(b"busy", reply)
}

fn is_closed(reply: &[u8]) -> bool
    ensures { result ≡ is_closed reply.now }
{
    has_word(b"nothere", reply) || has_word(b"worn", reply) || has_word(b"refused", reply)
}

/// What the reply to a transaction tells; where it is none of those that are known, none knows.
#[tactic(auto, unfolding(crate::specs::Words::transaction_told))]
pub(crate) fn transaction_told(reply: &[u8]) -> RequestResult
    ensures { result ≡ transaction_told reply.now }
{
    if has_word(b"committed", reply) {
        RequestResult::Done
    } else if has_word(b"turned", reply) {
        RequestResult::Turned
    } else if is_again(reply) {
        RequestResult::Again
    } else if is_closed(reply) || has_word(b"logfull", reply) {
        RequestResult::Refused
    } else {
        RequestResult::Lost
    }
}

/// What a reply to a read that shows no rows tells.
pub(crate) fn unread_told(reply: &[u8]) -> RequestResult
    ensures { result ≡ unread_told reply.now }
{
    if is_closed(reply) {
        RequestResult::Refused
    } else {
        RequestResult::Again
    }
}
