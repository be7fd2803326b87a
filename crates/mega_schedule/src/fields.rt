//! The checks of a line's fields: required, optional, bounded and listed.
ghost use Rattle.std.specs.Prelude.{◌≡◌, Some, option_map};
ghost use Rattle.std.specs.List.{list_all};
ghost use Rattle.serde_json.specs.Data.{Data};
ghost use Rattle.serde_json.specs.Find.{get};
ghost use Rattle.serde_json.specs.View.{view, number_view, items_view};
ghost use Rattle.mega_schedule.specs.declared.verdict.Verdict.{Verdict};
ghost use Rattle.mega_schedule.specs.declared.verdict.Verdict.TheVariants.{Fine};
ghost use Rattle.mega_schedule.specs.Fields.{at_most, required, optional, text_check, between, number_within, whole_check, value_check, values_check, worst, each, is_hex_digit, is_hex, hex_check, pair_of, group_check, floats_check};

use crate::verdict::Verdict;
use mega_floats::has_float;
use serde_json::{Number, Value as Json};

/// What a part of a line is checked for.
pub trait Checked {
    ghost checks: { Data → Verdict };

    fn check(value: &Json) -> Verdict
        ensures { result ≡ checks (view value.now) };
}

/// A field that must be there.
pub fn required<C: Checked>(object: &Json, name: &str) -> Verdict
    ensures { result ≡ required C.checks (get name.now (view object.now)) }
{
    match object.get(name) {
        Some(value) => C::check(value),
        None => Verdict::Missing,
    }
}

/// A field that may be absent.
pub(crate) fn optional<C: Checked>(object: &Json, name: &str) -> Verdict
    ensures { result ≡ optional C.checks (get name.now (view object.now)) }
{
    match object.get(name) {
        Some(value) => C::check(value),
        None => Verdict::Fine,
    }
}

/// An object that has all of its fields has one too many where it has more members than those.
#[tactic(auto, using(crate::proofs::Counts::members_count))]
pub fn at_most(object: &Json, fields: usize) -> Verdict
    ensures { result ≡ at_most fields (view object.now) }
{
    match object.as_object() {
        Some(members) => {
            if fields < members.len() {
                Verdict::Extra
            } else {
                Verdict::Fine
            }
        }
        None => Verdict::Fine,
    }
}

/// A text.
pub struct TextField;

impl Checked for TextField {
    ghost checks = { text_check };

    fn check(value: &Json) -> Verdict {
        if value.is_string() {
            Verdict::Fine
        } else {
            Verdict::WrongKind
        }
    }
}

fn number_within(number: &Number, low: u64, high: u64) -> Verdict
    ensures { result ≡ number_within low high (Some (number_view number.now)) }
{
    if number.is_f64() {
        return Verdict::WrongKind;
    }
    match number.as_u64() {
        Some(number) => {
            if low <= number && number <= high {
                Verdict::Fine
            } else {
                Verdict::OutOfRange
            }
        }
        None => Verdict::OutOfRange,
    }
}

/// A whole number from `low` to `high`.
pub(crate) fn between(object: &Json, name: &str, low: u64, high: u64) -> Verdict
    ensures { result ≡ required (between low high) (get name.now (view object.now)) }
{
    let Some(value) = object.get(name) else {
        return Verdict::Missing;
    };
    match value.as_number() {
        Some(number) => number_within(number, low, high),
        None => Verdict::WrongKind,
    }
}

/// A whole number that is an int64.
pub struct WholeField;

impl Checked for WholeField {
    ghost checks = { whole_check };

    fn check(value: &Json) -> Verdict {
        let Some(number) = value.as_number() else {
            return Verdict::WrongKind;
        };
        if number.is_f64() {
            return Verdict::WrongKind;
        }
        if number.is_i64() {
            Verdict::Fine
        } else {
            Verdict::OutOfRange
        }
    }
}

/// A number, a text or a truth value.
pub struct ValueField;

impl Checked for ValueField {
    ghost checks = { value_check };

    fn check(value: &Json) -> Verdict {
        if value.is_boolean() || value.is_string() {
            Verdict::Fine
        } else {
            WholeField::check(value)
        }
    }
}

/// What is wrong with the items of a list.
pub fn worst<C: Checked>(items: &[Json]) -> Verdict
    ensures { result ≡ worst C.checks Fine (items_view items.now) }
{
    let mut found = Verdict::Fine;
    for item in items {
        found = found.and(C::check(item));
    }
    found
}

/// A list of what `C` checks.
pub fn each<C: Checked>(value: &Json) -> Verdict
    ensures { result ≡ each C.checks (view value.now) }
{
    match value.as_array() {
        Some(items) => worst::<C>(items.as_slice()),
        None => Verdict::WrongKind,
    }
}

/// A list of values.
pub struct ValuesField;

impl Checked for ValuesField {
    ghost checks = { values_check };

    fn check(value: &Json) -> Verdict {
        each::<ValueField>(value)
    }
}

fn is_hex_digit(byte: u8) -> bool
    ensures { result ≡ is_hex_digit byte }
{
    (48 <= byte && byte <= 57) || (97 <= byte && byte <= 102)
}

fn are_hex_digits(text: &[u8]) -> bool
    ensures { result ≡ list_all is_hex_digit text.now }
{
    text.iter().all(|byte| is_hex_digit(*byte))
}

/// Whether the bytes are lower-case hex digits, two for each byte.
pub(crate) fn is_hex(text: &[u8]) -> bool
    ensures { result ≡ is_hex text.now }
{
    text.len() % 2 == 0 && are_hex_digits(text)
}

/// Bytes as lower-case hex.
pub(crate) struct HexField;

impl Checked for HexField {
    ghost checks = { hex_check };

    fn check(value: &Json) -> Verdict {
        match value.as_str() {
            Some(text) => {
                if is_hex(text.as_bytes()) {
                    Verdict::Fine
                } else {
                    Verdict::WrongKind
                }
            }
            None => Verdict::WrongKind,
        }
    }
}

/// The items of a list of two.
#[tactic(auto, using(crate::proofs::Pairs::a_pair, crate::proofs::Pairs::no_pair))]
pub fn pair_of(items: &[Json]) -> Option<(&Json, &Json)>
    ensures { option_map (λ pair. (view pair.0.now, view pair.1.now)) result ≡ pair_of (items_view items.now) }
{
    if items.len() == 2 {
        Some((&items[0], &items[1]))
    } else {
        None
    }
}

/// A table's name and a list of values.
pub struct GroupField;

impl Checked for GroupField {
    ghost checks = { group_check };

    fn check(value: &Json) -> Verdict {
        let Some(items) = value.as_array() else {
            return Verdict::WrongKind;
        };
        match pair_of(items.as_slice()) {
            Some((table, values)) => TextField::check(table).and(ValuesField::check(values)),
            None => Verdict::WrongKind,
        }
    }
}

/// No number is neither an int64 nor a u64.
pub fn floats(value: &Json) -> Verdict
    ensures { result ≡ floats_check (view value.now) }
{
    if has_float(value) {
        Verdict::WrongKind
    } else {
        Verdict::Fine
    }
}
