//! Messages: what their bodies hold, which makes the bytes of their texts.
ghost use Rattle.mega_field_ranges.specs.Messages.{HoldsBody, HoldsReport, HoldsShownEntry};

use crate::held::{Held, hold_both};
use mega_ballot::Ballot;
use mega_entry::Entry;
use mega_wire::Body;

impl Held for Option<Entry> {
    ghost holds = { HoldsShownEntry };

    fn hold(&self) {
        match self {
            None => {}
            Some(entry) => entry.hold(),
        }
    }
}

impl Held for Option<(Ballot, Entry)> {
    ghost holds = { HoldsReport };

    fn hold(&self) {
        match self {
            None => {}
            Some((_, entry)) => entry.hold(),
        }
    }
}

impl Held for Body {
    ghost holds = { HoldsBody };

    fn hold(&self) {
        match self {
            Body::Where { group, .. } => group.hold(),
            Body::Top { group, .. } => group.hold(),
            Body::Accept { group, entry, .. } => hold_both(group, entry),
            Body::Accepted { group, entry, .. } => hold_both(group, entry),
            Body::Refused { group, entry, .. } => hold_both(group, entry),
            Body::Prepare { group, .. } => group.hold(),
            Body::Promise {
                group,
                accepted,
                ..
            } => hold_both(group, accepted),
            Body::Invalidate { group, .. } => group.hold(),
            Body::Invalidated { group, .. } => group.hold(),
            Body::Dead { .. } => {}
            Body::Held { .. } => {}
            Body::Unheld { .. } => {}
            Body::Decide { group, entry, .. } => hold_both(group, entry),
            Body::Fetch { group, .. } => group.hold(),
            Body::Have { group, entry, .. } => hold_both(group, entry),
            Body::HaveNot { group, .. } => group.hold(),
            Body::Acquire { .. } => {}
            Body::Granted { .. } => {}
            Body::Past { .. } => {}
            Body::Request { json, .. } => json.hold(),
            Body::Reply { text, .. } => text.hold(),
        }
    }
}
