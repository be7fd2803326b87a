//! Entries of a log.
ghost use Rattle.mega_field_ranges.specs.Entries.{HoldsContent, HoldsEnter, HoldsName, HoldsSend, HoldsWrite, HoldsWritten};

use crate::held::Held;
use crate::values::hold_text;
use mega_base::Row;
use mega_entry::{Content, Enter, Entry, Name, Send, Write};

impl Held for Option<Row> {
    ghost holds = { HoldsWritten };

    fn hold(&self) {
        match self {
            None => {}
            Some(row) => row.hold(),
        }
    }
}

impl Held for Write {
    ghost holds = { HoldsWrite };

    fn hold(&self) {
        self.key.hold();
        self.row.hold();
    }
}

impl Held for Name {
    ghost holds = { HoldsName };

    fn hold(&self) {
        self.group.hold();
    }
}

impl Held for Send {
    ghost holds = { HoldsSend };

    fn hold(&self) {
        self.to.hold();
        hold_text(&self.queue);
        self.payload.hold();
    }
}

impl Held for Enter {
    ghost holds = { HoldsEnter };

    fn hold(&self) {
        self.name.hold();
        hold_text(&self.queue);
        self.payload.hold();
    }
}

impl Held for Content {
    ghost holds = { HoldsContent };

    fn hold(&self) {
        self.writes.hold();
        self.sends.hold();
        self.enters.hold();
        self.handles.hold();
    }
}

impl Held for Entry {
    ghost holds = { HoldsContent };

    fn hold(&self) {
        self.content().hold();
    }
}
