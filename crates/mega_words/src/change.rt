//! The name of a change of several groups in a word: 1 to 64 letters and digits.
ghost use Rattle.std.specs.Prelude.{◌≡◌, true, IfOk};
ghost use Rattle.std.specs.List.{list_all};
ghost use Rattle.mega_words.specs.Changes.{change_in, is_change, is_sign};

use mega_base::{NoMemory, Text};
use std::alloc::Global;

fn is_sign(byte: u8) -> bool
    ensures { result ≡ is_sign byte }
{
    (b'0' <= byte && byte <= b'9')
        || (b'A' <= byte && byte <= b'Z')
        || (b'a' <= byte && byte <= b'z')
}

fn are_signs(word: &[u8]) -> bool
    ensures { result ≡ list_all is_sign word.now }
{
    word.iter().all(|byte| is_sign(*byte))
}

fn is_change(word: &[u8]) -> bool
    ensures { result ≡ is_change word.now }
{
    1 <= word.len() && word.len() <= 64 && are_signs(word)
}

/// A word of signs as a text.
fn text_of(alloc: Global, word: &[u8]) -> Result<Text, NoMemory>
    requires { is_change word.now ≡ true }
    ensures { IfOk result (λ text. text ≡ word.now) }
{
    match std::str::from_utf8(word) {
        Ok(text) => Text::from_str(alloc, text),
        Err(_) => unreachable!(),
    }
}

/// The name of a change that a word is.
pub fn change_in(alloc: Global, word: &[u8]) -> Result<Option<Text>, NoMemory>
    ensures { IfOk result (λ change. change ≡ change_in word.now) }
{
    if is_change(word) {
        Ok(Some(text_of(alloc, word)?))
    } else {
        Ok(None)
    }
}
