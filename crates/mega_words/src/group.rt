//! A group in a word: its key in lower-case hex.
ghost use Rattle.std.specs.Prelude.{◌≡◌, IfOk};
ghost use Rattle.std.specs.List.{list_all};
ghost use Rattle.mega_words.specs.Groups.{group_in, is_digit, key_in};

use hex::FromHexError;
use mega_base::{Bytes, GroupId, NoMemory};
use std::alloc::Global;

fn is_digit(byte: u8) -> bool
    ensures { result ≡ is_digit byte }
{
    (b'0' <= byte && byte <= b'9') || (b'a' <= byte && byte <= b'f')
}

fn are_digits(digits: &[u8]) -> bool
    ensures { result ≡ list_all is_digit digits.now }
{
    digits.iter().all(|byte| is_digit(*byte))
}

/// The bytes that lower-case hex digits spell.
fn key_in(alloc: Global, digits: &[u8]) -> Result<Option<Bytes>, NoMemory>
    ensures { IfOk result (λ found. found ≡ key_in digits.now) }
{
    if !are_digits(digits) {
        return Ok(None);
    }
    match hex::decode(alloc, digits) {
        Ok(bytes) => Ok(Some(Bytes::from_vec(bytes))),
        Err(FromHexError::OutOfMemory) => Err(NoMemory),
        Err(_) => Ok(None),
    }
}

/// The group that a word names, whose key has 1 to 1,024 bytes.
pub fn group_in(alloc: Global, word: &[u8]) -> Result<Option<GroupId>, NoMemory>
    ensures { IfOk result (λ group. group ≡ group_in word.now) }
{
    if word.len() < 2 || 2048 < word.len() {
        return Ok(None);
    }
    match key_in(alloc, word)? {
        Some(key) => Ok(Some(GroupId::new(alloc, key)?)),
        None => Ok(None),
    }
}
