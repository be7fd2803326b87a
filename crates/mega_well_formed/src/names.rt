//! What is left behind strings of bytes, texts, nodes, groups and operations.
ghost use Rattle.std.specs.Prelude.{◌≤◌};
ghost use Rattle.mega_base.specs.Codec.{IsOption, bytes_text, one_byte, option_text};
ghost use Rattle.mega_base.specs.Names.{IsGroup, IsNode, IsOp, IsString, IsU8, IsU32, IsU64, group_text, node_text, op_text, u32_text, u64_text};
ghost use Rattle.mega_base.specs.Utf8.{IsTextIn};
ghost use Rattle.mega_well_formed.specs.Room.{Leaves};

use mega_base::{GroupId, NodeId, OpId, Text};

/// The greatest length of a string of bytes.
const LONGEST: usize = 65_536;

/// What is left behind a string of at most 65,536 bytes.
pub(crate) fn room_behind_string(bytes: &[u8], room: usize) -> Option<usize>
    ensures { Leaves (IsString bytes.now) (bytes_text bytes.now) room result }
{
    if LONGEST < bytes.len() {
        return None;
    }
    room.checked_sub(4 + bytes.len())
}

/// What is left behind a text of `low` to `high` bytes.
pub(crate) fn room_behind_text(text: &Text, low: usize, high: usize, room: usize) -> Option<usize>
    requires { high ≤ 65536 }
    ensures { Leaves (IsTextIn low high text.now) (bytes_text text.now) room result }
{
    let bytes = text.as_bytes();
    if bytes.len() < low || high < bytes.len() {
        return None;
    }
    room.checked_sub(4 + bytes.len())
}

/// What is left behind the number of a node.
pub(crate) fn room_behind_node(node: NodeId, room: usize) -> Option<usize>
    ensures { Leaves (IsNode node) (node_text node) room result }
{
    if node.0 < 1 || 9 < node.0 {
        return None;
    }
    room.checked_sub(1)
}

/// What is left behind the key of a group.
pub(crate) fn room_behind_group(group: &GroupId, room: usize) -> Option<usize>
    ensures { Leaves (IsGroup group.now) (group_text group.now) room result }
{
    room_behind_string(group.key.as_slice(), room)
}

/// What is left behind a number of one byte.
pub(crate) fn room_behind_u8(number: u8, room: usize) -> Option<usize>
    ensures { Leaves (IsU8 number) (one_byte number) room result }
{
    let _number = number;
    room.checked_sub(1)
}

/// What is left behind a number of four bytes.
pub(crate) fn room_behind_u32(number: u32, room: usize) -> Option<usize>
    ensures { Leaves (IsU32 number) (u32_text number) room result }
{
    let _number = number;
    room.checked_sub(4)
}

/// What is left behind a number of eight bytes.
pub(crate) fn room_behind_u64(number: u64, room: usize) -> Option<usize>
    ensures { Leaves (IsU64 number) (u64_text number) room result }
{
    let _number = number;
    room.checked_sub(8)
}

/// What is left behind an operation.
fn room_behind_op(op: OpId, room: usize) -> Option<usize>
    ensures { Leaves (IsOp op) (op_text op) room result }
{
    let left = room_behind_u8(op.node.0, room)?;
    let left = room_behind_u32(op.start, left)?;
    room_behind_u32(op.number, left)
}

/// What is left behind an operation, or none.
pub(crate) fn room_behind_id(id: Option<OpId>, room: usize) -> Option<usize>
    ensures { Leaves (IsOption IsOp id) (option_text op_text id) room result }
{
    match room.checked_sub(1) {
        Some(left) => match id {
            Some(op) => room_behind_op(op, left),
            None => Some(left),
        },
        None => None,
    }
}
