//! A number in a word: 1 to 20 decimal digits, within a range.
ghost use Rattle.std.specs.Prelude.{◌≡◌, ◌≤◌, IfSome};
ghost use Rattle.mega_words.specs.Numbers.{at_least, digits_on, number_in, with_digit};

/// The number with one digit more, where that is at most `most`.
fn with_digit(most: u64, number: u64, byte: u8) -> Option<u64>
    requires { number ≤ most }
    ensures value { result ≡ with_digit most number byte }
    ensures bound { IfSome result (λ more. more ≤ most) }
{
    if byte < b'0' || b'9' < byte {
        return None;
    }
    let digit = u64::from(byte - b'0');
    let more = match number.checked_mul(10) {
        Some(tens) => match tens.checked_add(digit) {
            Some(more) => more,
            None => return None,
        },
        None => return None,
    };
    if more <= most { Some(more) } else { None }
}

/// The number that decimal digits spell, where it is at most `most`.
#[tactic(auto, using(crate::proofs::Digits::digit_on, crate::proofs::Digits::digit_none))]
fn digits_on(most: u64, digits: &[u8]) -> Option<u64>
    ensures value { result ≡ digits_on most 0 digits.now }
    ensures bound { IfSome result (λ n. n ≤ most) }
{
    let mut number = 0;
    for digit in digits {
        match with_digit(most, number, *digit) {
            Some(more) => number = more,
            None => return None,
        }
    }
    Some(number)
}

/// A number that is not below `least`.
fn at_least(least: u64, most: u64, number: Option<u64>) -> Option<u64>
    requires { IfSome number (λ n. n ≤ most) }
    ensures value { result ≡ at_least least number }
    ensures range { IfSome result (λ n. (least ≤ n) × (n ≤ most)) }
{
    match number {
        Some(number) => if least <= number { Some(number) } else { None },
        None => None,
    }
}

/// The number that 1 to 20 decimal digits spell, from `least` to `most`.
#[tactic(auto, unfolding(crate::specs::Numbers::number_in))]
pub fn number_in(least: u64, most: u64, digits: &[u8]) -> Option<u64>
    ensures value { result ≡ number_in least most digits.now }
    ensures range { IfSome result (λ n. (least ≤ n) × (n ≤ most)) }
{
    if digits.is_empty() || digits.len() > 20 {
        return None;
    }
    at_least(least, most, digits_on(most, digits))
}
