//! Values of which it is told what their types hold, once they are read.
ghost use Rattle.std.specs.Prelude.{All};
ghost use Rattle.std.specs.List.{AllByRecursion};
ghost use Rattle.hex.specs.Hex.{IsBytes};
ghost use Rattle.mega_transcript.specs.PlainNames.{IsEpoch, IsGroup, IsNode, IsOp, IsPosition, IsU8, IsU32, IsU64};

use mega_base::{Bytes, Epoch, GroupId, Items, NodeId, OpId, Position};

/// Values of which it is told what their types hold. Nothing is done but read.
pub(crate) trait Held {
    ghost holds: { Self → Type 0 };

    fn hold(&self)
        ensures { holds self.now };
}

/// Bytes are below 256.
pub(crate) fn hold_bytes(bytes: &[u8])
    ensures { IsBytes bytes.now }
{}

impl Held for Bytes {
    ghost holds = { IsBytes };

    fn hold(&self) {
        hold_bytes(self.as_slice());
    }
}

impl Held for u8 {
    ghost holds = { IsU8 };

    fn hold(&self) {
        let _number = *self;
    }
}

impl Held for u32 {
    ghost holds = { IsU32 };

    fn hold(&self) {
        let _number = *self;
    }
}

impl Held for u64 {
    ghost holds = { IsU64 };

    fn hold(&self) {
        let _number = *self;
    }
}

impl Held for NodeId {
    ghost holds = { IsNode };

    fn hold(&self) {
        let _number = self.0;
    }
}

impl Held for Position {
    ghost holds = { IsPosition };

    fn hold(&self) {
        let _number = self.0;
    }
}

impl Held for Epoch {
    ghost holds = { IsEpoch };

    fn hold(&self) {
        let _start = self.start;
        let _count = self.count;
    }
}

impl Held for OpId {
    ghost holds = { IsOp };

    fn hold(&self) {
        let _node = self.node.0;
        let _start = self.start;
        let _number = self.number;
    }
}

impl Held for GroupId {
    ghost holds = { IsGroup };

    fn hold(&self) {
        self.key.hold();
    }
}

/// Each of the items is read.
fn hold_each<T: Held>(items: &[T])
    ensures { All T.holds items.now }
{
    for item in items {
        item.hold();
    }
}

impl<T: Held> Held for Items<T> {
    ghost holds = { λ items. AllByRecursion T.holds items };

    fn hold(&self) {
        hold_each(self.as_slice());
    }
}

/// Two values, one after the other.
pub(crate) fn hold_both<A: Held, B: Held>(first: &A, second: &B)
    ensures { A.holds first.now × B.holds second.now }
{
    first.hold();
    second.hold();
}
