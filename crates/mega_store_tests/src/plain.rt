//! The list that keeps everything, and what logs should tell of it.
use crate::calls::{Call, Kind, ballot, epoch, position};
use mega_ballot::Ballot;
use mega_base::{Epoch, NoMemory};

/// What a call is told.
#[derive(PartialEq, Debug, Drop)]
pub enum CallResult {
    /// It is kept; a promise reports a vote, with the number of its entry.
    Kept(Option<(Ballot, u8)>),
    /// This greater ballot was shown.
    Shown(Ballot),
    /// Another entry stands there.
    Other(u8),
    /// An entry is decided there.
    Decided,
}

/// What the readers tell of a place, its group and a node; entries by their numbers.
#[derive(PartialEq, Debug, Drop)]
pub struct Seen {
    pub promised: Ballot,
    pub accepted: Option<(Ballot, u8)>,
    pub decided: Option<u8>,
    pub top: u64,
    pub newest: u64,
    pub prefix: u64,
    pub granted: Option<(Epoch, bool)>,
    pub starts: u32,
}

/// The calls that were kept, the oldest first, after so many starts. Each question walks them.
#[derive(Drop)]
pub struct Plain {
    pub before: u32,
    pub calls: Vec<Call>,
}

impl Plain {
    /// Answers a call, and keeps it where it is not refused.
    pub fn ask(&mut self, call: Call) -> Result<CallResult, NoMemory> {
        let told = told_by(self.calls.as_slice(), call);
        if matches!(told, CallResult::Kept(_)) {
            self.calls.push(call)?;
        }
        Ok(told)
    }

    /// What the calls tell of the place, the group and the node of a call.
    pub fn seen(&self, at: Call) -> Seen {
        let calls = self.calls.as_slice();
        Seen {
            promised: ballot(shown_in(calls, at)),
            accepted: vote_in(calls, at),
            decided: decided_in(calls, at.group, at.place),
            top: top_in(calls, at.group, true),
            newest: top_in(calls, at.group, false),
            prefix: prefix_in(calls, at.group),
            granted: granted_in(calls, at.node),
            starts: starts_in(calls, self.before),
        }
    }
}

/// Whether a call is of this kind, and of the place of another.
fn is(call: &Call, kind: Kind, at: Call) -> bool {
    call.kind == kind && call.group == at.group && call.place == at.place
}

/// The greatest ballot that was promised or accepted at a place.
fn shown_in(calls: &[Call], at: Call) -> u8 {
    let mut shown = 0;
    for call in calls {
        let shows = is(call, Kind::Promise, at) || is(call, Kind::Accept, at);
        if shows && call.ballot > shown {
            shown = call.ballot;
        }
    }
    shown
}

/// The vote of greatest ballot at a place: from the end on, only a greater one takes its place.
fn vote_in(calls: &[Call], at: Call) -> Option<(Ballot, u8)> {
    let mut vote: Option<Call> = None;
    for call in calls.iter().rev() {
        let is_greater = match vote {
            Some(found) => call.ballot > found.ballot,
            None => true,
        };
        if is_greater && is(call, Kind::Accept, at) {
            vote = Some(*call);
        }
    }
    match vote {
        Some(found) => Some((ballot(found.ballot), found.entry)),
        None => None,
    }
}

/// The entry that was decided at a place.
fn decided_in(calls: &[Call], group: u8, place: u8) -> Option<u8> {
    for call in calls.iter().rev() {
        if call.kind == Kind::Decide && call.group == group && call.place == place {
            return Some(call.entry);
        }
    }
    None
}

/// The greatest position of a group that was decided, and with votes also that which was accepted.
fn top_in(calls: &[Call], group: u8, votes: bool) -> u64 {
    let mut top = 0;
    for call in calls {
        let counts = call.kind == Kind::Decide || (votes && call.kind == Kind::Accept);
        let at = position(call.place).0;
        if counts && call.group == group && at > top {
            top = at;
        }
    }
    top
}

/// The position before the first of a group that was not decided.
fn prefix_in(calls: &[Call], group: u8) -> u64 {
    for place in 0..255u8 {
        if decided_in(calls, group, place).is_none() {
            return u64::from(place);
        }
    }
    255
}

/// The greatest epoch that was granted to a node, and whether no lapse of it came after its first grant.
fn granted_in(calls: &[Call], node: u8) -> Option<(Epoch, bool)> {
    let mut greatest: Option<u8> = None;
    for call in calls {
        let is_greater = match greatest {
            Some(found) => call.epoch > found,
            None => true,
        };
        if is_greater && call.kind == Kind::Grant && call.node == node {
            greatest = Some(call.epoch);
        }
    }
    match greatest {
        Some(found) => Some((epoch(found), is_held(calls, node, found))),
        None => None,
    }
}

/// Whether no lapse of an epoch came after its first grant: from the end on, the grant met last decides.
fn is_held(calls: &[Call], node: u8, epoch: u8) -> bool {
    let mut lapsed = false;
    let mut held = false;
    for call in calls.iter().rev() {
        if call.node == node && call.epoch == epoch {
            if call.kind == Kind::Lapse {
                lapsed = true;
            }
            if call.kind == Kind::Grant {
                held = !lapsed;
            }
        }
    }
    held
}

/// How often the node started, after so many starts.
fn starts_in(calls: &[Call], before: u32) -> u32 {
    let mut starts = before;
    for call in calls {
        if call.kind == Kind::Begin {
            starts = starts.saturating_add(1);
        }
    }
    starts
}

/// How a voter with these calls answers an accept at a place where nothing greater was shown.
fn told_vote(calls: &[Call], call: Call) -> CallResult {
    match vote_in(calls, call) {
        Some((_, entry)) if call.ballot == 0 && entry != call.entry => CallResult::Other(entry),
        _ => CallResult::Kept(None),
    }
}

/// What a call is told after these.
fn told_by(calls: &[Call], call: Call) -> CallResult {
    let shown = shown_in(calls, call);
    match call.kind {
        Kind::Promise if call.ballot < shown => CallResult::Shown(ballot(shown)),
        Kind::Promise => CallResult::Kept(vote_in(calls, call)),
        Kind::Accept if call.ballot < shown => CallResult::Shown(ballot(shown)),
        Kind::Accept => told_vote(calls, call),
        Kind::Decide if decided_in(calls, call.group, call.place).is_some() => CallResult::Decided,
        _ => CallResult::Kept(None),
    }
}
