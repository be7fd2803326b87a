//! What a change asks, in the words of the samples.

use crate::samples;
use mega_base::Text;
use mega_schema::{Schema, parse};
use mega_two_driver::{Ended, Two, TwoFault};
use std::alloc::Global;
use std::process::Abort;

/// The schema of the samples.
pub fn schema(rt: &impl Abort, alloc: Global) -> Schema {
    let text = Text::from_str(alloc, samples::SCHEMA).expect(rt, "refused");
    parse(alloc, &text).expect(rt, "refused")
}

/// The word of an end.
pub fn end_of(ended: Ended) -> &'static str {
    match ended {
        Ended::Committed => "committed",
        Ended::Aborted => "aborted",
        Ended::Used => "used",
        Ended::Open => "open",
    }
}

/// The text under a name in a list of samples, none where there is none.
fn sample<'a>(samples: &'a str, name: &str) -> Option<&'a str> {
    for line in samples.lines() {
        if let Some((word, text)) = line.split_once(' ') {
            if word == name {
                return Some(text);
            }
        }
    }
    None
}

/// Whether a request puts the plan in the state of this digit.
fn puts(request: &[u8], state: &str) -> bool {
    let name = if state == "0" { "plan" } else { "decide" };
    let front = sample(samples::PUTS, name).unwrap_or("?");
    let digit = state.as_bytes();
    request.starts_with(front.as_bytes())
        && request.ends_with(b"}}]}")
        && digit.len() == 1
        && request.len() > 5
        && request[request.len() - 5] == digit[0]
}

/// Whether the change asks what a history names, or ended so.
pub fn is_at(two: &Two, wanted: &str) -> bool {
    if let Some(ended) = two.ended() {
        return two.ask().is_none() && end_of(ended) == wanted;
    }
    let Some(request) = two.ask() else {
        return false;
    };
    match sample(samples::REQUESTS, wanted) {
        Some(text) => request == text.as_bytes(),
        None => puts(request, wanted),
    }
}

/// The reason for which a line begins no change, 0 where it begins one, 255 where memory ran out.
pub fn reason_of(alloc: Global, schema: &Schema, line: &str) -> u8 {
    match Two::begin(alloc, schema, line.as_bytes()) {
        Ok(_) => 0,
        Err(TwoFault::Refused { reason }) => reason,
        Err(TwoFault::NoMemory) => 255,
    }
}
