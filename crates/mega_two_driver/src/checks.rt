//! What is wrong with a line: its name, and its parts.
ghost use Rattle.std.specs.Prelude.{◌≡◌, codes};
ghost use Rattle.std.specs.List.{list_all};
ghost use Rattle.serde_json.specs.View.{view};
ghost use Rattle.mega_schedule.specs.Fields.{each};
ghost use Rattle.mega_two_driver.specs.Lines.{is_letter, is_name, line_check, name_check, part_check, part_fields};

use mega_schedule::Verdict;
use mega_schedule::fields::{Checked, GroupField, at_most, each, floats, required};
use mega_schedule::parts::{ChecksField, WritesField};
use serde_json::Value as Json;

fn part_fields(part: &Json) -> Verdict
    ensures { result ≡ part_fields (view part.now) }
{
    at_most(part, 3)
        .and(required::<GroupField>(part, "group"))
        .and(required::<ChecksField>(part, "checks"))
        .and(required::<WritesField>(part, "writes"))
}

/// A part: a group, checks and writes.
struct PartField;

impl Checked for PartField {
    ghost checks = { part_check };

    fn check(value: &Json) -> Verdict {
        if value.is_object() {
            part_fields(value)
        } else {
            Verdict::WrongKind
        }
    }
}

/// A list of parts.
struct PartsField;

impl Checked for PartsField {
    ghost checks = { each part_check };

    fn check(value: &Json) -> Verdict {
        each::<PartField>(value)
    }
}

fn is_letter(byte: u8) -> bool
    ensures { result ≡ is_letter byte }
{
    (b'0' <= byte && byte <= b'9')
        || (b'A' <= byte && byte <= b'Z')
        || (b'a' <= byte && byte <= b'z')
}

fn are_letters(text: &[u8]) -> bool
    ensures { result ≡ list_all is_letter text.now }
{
    text.iter().all(|byte| is_letter(*byte))
}

/// Whether a text may be the name of a change: 1 to 64 letters and digits.
pub(crate) fn is_name(text: &[u8]) -> bool
    ensures { result ≡ is_name text.now }
{
    1 <= text.len() && text.len() <= 64 && are_letters(text)
}

/// The name of a change.
struct NameField;

impl Checked for NameField {
    ghost checks = { name_check };

    fn check(value: &Json) -> Verdict {
        match value.as_str() {
            Some(text) => {
                if is_name(text.as_bytes()) {
                    Verdict::Fine
                } else {
                    Verdict::OutOfRange
                }
            }
            None => Verdict::WrongKind,
        }
    }
}

/// What is wrong with a line.
pub(crate) fn line_check(line: &Json) -> Verdict
    ensures { result ≡ line_check (view line.now) }
{
    at_most(line, 2)
        .and(required::<NameField>(line, "gid"))
        .and(required::<PartsField>(line, "parts"))
        .and(floats(line))
}
