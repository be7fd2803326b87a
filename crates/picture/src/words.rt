//! The words of the program, and the window of lines that they ask for.
ghost use Rattle.std.specs.Prelude.{◌≡◌, ◌≤◌, IfSome, Some, nat_eq};
ghost use Rattle.std.specs.Cmp.Lexicographic.{pointwise};
ghost use Rattle.picture.specs.Windows.{with_digit, digits_on, positive, number_of, window_to, window_from, window_of};

use mega_base::Text;

/// The greatest number of a line.
const MOST: u64 = 1_000_000_000_000;

/// Which lines of a transcript are drawn, counted from 1.
#[derive(Clone, Copy, Drop)]
pub struct Window {
    pub from: u64,
    pub to: u64,
}

/// The number with one digit more, up to the greatest.
fn with_digit(number: u64, byte: u8) -> Option<u64>
    requires { number ≤ 1000000000000 }
    ensures value { result ≡ with_digit number byte }
    ensures bound { IfSome result (λ n. n ≤ 1000000000000) }
{
    if byte < b'0' || b'9' < byte {
        return None;
    }
    let more = number * 10 + u64::from(byte - b'0');
    if more <= MOST { Some(more) } else { None }
}

/// The value of decimal digits, up to the greatest.
#[tactic(auto, using(crate::proofs::Digits::digit_on, crate::proofs::Digits::digit_none))]
fn digits_value(digits: &[u8]) -> Option<u64>
    ensures { result ≡ digits_on 0 digits.now }
{
    let mut number = 0;
    for digit in digits {
        match with_digit(number, *digit) {
            Some(more) => number = more,
            None => return None,
        }
    }
    Some(number)
}

fn positive(number: u64) -> Option<u64>
    ensures { result ≡ positive (Some number) }
{
    if number == 0 { None } else { Some(number) }
}

/// A number of decimal digits from 1 to 10^12.
#[tactic(auto, unfolding(crate::specs::Windows::number_of))]
fn number_of(digits: &[u8]) -> Option<u64>
    ensures { result ≡ number_of digits.now }
{
    match digits_value(digits) {
        Some(number) => positive(number),
        None => None,
    }
}

/// The window between two lines.
fn window_to(from: u64, to: u64) -> Option<Window>
    ensures { result ≡ window_to from to }
{
    if from <= to {
        Some(Window { from, to })
    } else {
        None
    }
}

fn window_from(from: Option<u64>, to: Option<u64>) -> Option<Window>
    ensures { result ≡ window_from from to }
{
    match (from, to) {
        (Some(from), Some(to)) => window_to(from, to),
        _ => None,
    }
}

/// Whether a word is this one.
fn is(word: &Text, name: &str) -> bool
    ensures { result ≡ pointwise nat_eq word.now name.now }
{
    word.as_str() == name
}

/// The window that the words give: all lines where there are none, or those of `--from A --to B`.
pub fn window_of(words: &[Text]) -> Option<Window>
    ensures { result ≡ window_of words.now }
{
    match words {
        [] => Some(Window {
            from: 1,
            to: u64::MAX,
        }),
        [from, first, to, last] => {
            if is(from, "--from") && is(to, "--to") {
                window_from(number_of(first.as_bytes()), number_of(last.as_bytes()))
            } else {
                None
            }
        }
        _ => None,
    }
}
