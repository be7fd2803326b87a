//! Reads the words of a backup's lines: bytes in lower-case hex, and numbers.
ghost use Rattle.std.specs.Prelude.{◌≡◌, ◌≤◌, IfOk, IfSome, Some, None, option_map};
ghost use Rattle.std.specs.List.{list_all};
ghost use Rattle.mega_backup.specs.Words.{behind, hex_in, is_decimal, is_digit, number_in, number_on, with_digit};

use hex::FromHexError;
use mega_base::{Bytes, NoMemory};
use std::alloc::Global;

/// The greatest position.
const MOST: u64 = 1_000_000;

/// What follows a word at the front of a text.
pub fn behind<'a>(word: &[u8], text: &'a [u8]) -> Option<&'a [u8]>
    ensures { option_map (λ rest. rest.now) result ≡ behind word.now text.now }
{
    match word {
        [] => Some(text),
        [byte, word @ ..] => match text {
            [first, text @ ..] => {
                if byte == first {
                    behind(word, text)
                } else {
                    None
                }
            }
            [] => None,
        },
    }
}

fn is_decimal(byte: u8) -> bool
    ensures { result ≡ is_decimal byte }
{
    b'0' <= byte && byte <= b'9'
}

fn is_digit(byte: u8) -> bool
    ensures { result ≡ is_digit byte }
{
    is_decimal(byte) || (b'a' <= byte && byte <= b'f')
}

fn are_digits(digits: &[u8]) -> bool
    ensures { result ≡ list_all is_digit digits.now }
{
    digits.iter().all(|byte| is_digit(*byte))
}

/// The bytes that lower-case hex digits spell.
pub fn hex_in(alloc: Global, digits: &[u8]) -> Result<Option<Bytes>, NoMemory>
    ensures { IfOk result (λ found. found ≡ hex_in digits.now) }
{
    if !are_digits(digits) {
        return Ok(None);
    }
    match hex::decode(alloc, digits) {
        Ok(bytes) => Ok(Some(Bytes::from_vec(bytes))),
        Err(FromHexError::OutOfMemory) => Err(NoMemory),
        Err(_) => Ok(None),
    }
}

/// The number with one digit more, up to the greatest position.
fn with_digit(number: u64, byte: u8) -> Option<u64>
    requires { number ≤ 1000000 }
    ensures value { result ≡ with_digit number byte }
    ensures most { IfSome result (λ more. more ≤ 1000000) }
{
    if byte < b'0' || b'9' < byte {
        return None;
    }
    let more = number * 10 + u64::from(byte - b'0');
    if more <= MOST { Some(more) } else { None }
}

/// A number whose first digits have this value, up to the greatest position.
fn number_on(number: u64, digits: &[u8]) -> Option<u64>
    requires { number ≤ 1000000 }
    ensures { result ≡ number_on number digits.now }
{
    match digits {
        [] => Some(number),
        [byte, digits @ ..] => match with_digit(number, *byte) {
            Some(more) => number_on(more, digits),
            None => None,
        },
    }
}

/// The number that decimal digits spell, up to the greatest position; no zero stands in front of a further digit.
pub fn number_in(digits: &[u8]) -> Option<u64>
    ensures { result ≡ number_in digits.now }
{
    match digits {
        [] => None,
        [b'0', _, ..] => None,
        digits => number_on(0, digits),
    }
}
