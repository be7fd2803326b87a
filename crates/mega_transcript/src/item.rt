//! One line of a transcript: what happened, in order.
ghost use Rattle.std.specs.Prelude.{List};

use mega_base::{Epoch, GroupId, Items, NodeId, OpId, Position, Text};
use mega_entry::Entry;
use mega_outcome::Answer;
use mega_wire::Message;

/// One line of a transcript: what happened, in order.
#[derive(Drop)]
pub enum Item {
    /// A node started, for the so manyth time.
    Start {
        node: NodeId,
        start: u32,
    },
    /// A reply of a step that a crash cut after its record was on the disk: made, and never sent.
    Unsent {
        node: NodeId,
        message: Message,
    },
    /// A tick of a node's clock, in milliseconds.
    Tick {
        node: NodeId,
        now: u64,
    },
    /// An operation began; the text is its request.
    Begin {
        op: OpId,
        text: Text,
    },
    /// The message of this number was handed to its receiver.
    Taken {
        number: u64,
    },
    /// The message of this number was dropped, and is never delivered.
    Dropped {
        number: u64,
    },
    /// A message was sent; numbers count from 1.
    Sent {
        number: u64,
        message: Message,
    },
    /// A lock cell granted a node's lock under an epoch, for the first time.
    Grant {
        cell: u8,
        node: NodeId,
        epoch: Epoch,
    },
    /// A lock cell let an epoch of a node lapse.
    Lapse {
        cell: u8,
        node: NodeId,
        epoch: Epoch,
    },
    /// A node's coordinator counts a cell that it did not count before.
    Counts {
        node: NodeId,
        cell: u8,
        epoch: Epoch,
    },
    /// A node's coordinator counts a cell no longer.
    Forgets {
        node: NodeId,
        cell: u8,
        epoch: Epoch,
    },
    /// A node's coordinator serves from now on.
    Serving {
        node: NodeId,
        epoch: Epoch,
    },
    /// An epoch in which a node's coordinator served has ended.
    Lost {
        node: NodeId,
        epoch: Epoch,
    },
    /// A group became valid at a node's coordinator, through a position.
    Valid {
        node: NodeId,
        group: GroupId,
        position: Position,
    },
    /// A group became invalid at a node's coordinator, up to a position.
    Invalid {
        node: NodeId,
        group: GroupId,
        position: Position,
    },
    /// A node learned that a position of a group is decided.
    Decide {
        node: NodeId,
        group: GroupId,
        position: Position,
        entry: Entry,
    },
    /// A node has applied a group's log through a position.
    Apply {
        node: NodeId,
        group: GroupId,
        position: Position,
    },
    /// An operation ended.
    Answer {
        op: OpId,
        answer: Answer,
    },
    /// A node crashed.
    Crash {
        node: NodeId,
    },
    /// A drain made as many deliveries as it might, and a message is left that it could deliver.
    Cut,
    /// Leases are not safe from the item before on.
    Unsafe,
}

/// All that happened in a run, oldest first.
#[derive(Drop)]
pub struct Tape {
    pub items: Items<Item>,
}
