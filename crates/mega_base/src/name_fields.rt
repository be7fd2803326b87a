//! The formats of numbers, byte strings, nodes, positions, epochs, operations and groups.
ghost use Rattle.mega_base.specs.Codec.{IsText, one_byte, bytes_text};
ghost use Rattle.mega_base.specs.Names.{u8_at, IsU8, u32_at, u32_text, IsU32, u64_at, u64_text, IsU64, string_at, IsString};
ghost use Rattle.mega_base.specs.NameLaws.{own_text, u8_codec, u32_codec, u64_codec, string_codec};

use crate::bytes::Bytes;
use crate::copied::NoMemory;
use crate::cursor::Cursor;
use crate::fault::FieldFault;
use crate::field::Field;
use crate::names::{Epoch, GroupId, NodeId, OpId, Position};
use crate::writers::{put_bytes, put_u8, put_u32, put_u64};
use std::alloc::Global;

impl Field for u8 {
    ghost reads = { u8_at };

    ghost spells = { one_byte };

    ghost opens = { IsText one_byte IsU8 };

    ghost fits = { IsU8 };

    fn take(_alloc: Global, cursor: &mut Cursor<'_>) -> Result<u8, FieldFault> {
        let number = cursor.take_u8_between(0, u8::MAX)?;
        Ok(number)
    }

    fn put(&self, out: &mut Bytes) -> Result<(), NoMemory> {
        put_u8(out, *self)
    }

    ghost codec = { u8_codec };

    ghost opens_own = { own_text one_byte IsU8 };
}

impl Field for u32 {
    ghost reads = { u32_at };

    ghost spells = { u32_text };

    ghost opens = { IsText u32_text IsU32 };

    ghost fits = { IsU32 };

    fn take(_alloc: Global, cursor: &mut Cursor<'_>) -> Result<u32, FieldFault> {
        let number = cursor.take_u32_between(0, u32::MAX)?;
        Ok(number)
    }

    fn put(&self, out: &mut Bytes) -> Result<(), NoMemory> {
        put_u32(out, *self)
    }

    ghost codec = { u32_codec };

    ghost opens_own = { own_text u32_text IsU32 };
}

impl Field for u64 {
    ghost reads = { u64_at };

    ghost spells = { u64_text };

    ghost opens = { IsText u64_text IsU64 };

    ghost fits = { IsU64 };

    fn take(_alloc: Global, cursor: &mut Cursor<'_>) -> Result<u64, FieldFault> {
        let number = cursor.take_u64_between(0, u64::MAX)?;
        Ok(number)
    }

    fn put(&self, out: &mut Bytes) -> Result<(), NoMemory> {
        put_u64(out, *self)
    }

    ghost codec = { u64_codec };

    ghost opens_own = { own_text u64_text IsU64 };
}

/// At most 65,536 bytes.
impl Field for Bytes {
    ghost reads = { string_at };

    ghost spells = { bytes_text };

    ghost opens = { IsText bytes_text IsString };

    ghost fits = { IsString };

    #[tactic(auto, unfolding(crate::specs::Reading::bytes_in))]
    fn take(alloc: Global, cursor: &mut Cursor<'_>) -> Result<Bytes, FieldFault> {
        let length = cursor.take_u32_between(0, 65536)?;
        let bytes = cursor.take_slice(length)?;
        let made = Bytes::from_slice(alloc, bytes)?;
        Ok(made)
    }

    fn put(&self, out: &mut Bytes) -> Result<(), NoMemory> {
        put_bytes(out, self.as_slice())
    }

    ghost codec = { string_codec };

    ghost opens_own = { own_text bytes_text IsString };
}

/// From 1 to 9.
impl Field for NodeId {
    ghost use Rattle.mega_base.specs.Codec.{IsText};
    ghost use Rattle.mega_base.specs.Names.{node_at, node_text, IsNode};
    ghost use Rattle.mega_base.specs.NameLaws.{own_text, node_codec};

    ghost reads = { node_at };

    ghost spells = { node_text };

    ghost opens = { IsText node_text IsNode };

    ghost fits = { IsNode };

    #[tactic(auto, unfolding(crate::specs::Names::node_at))]
    fn take(_alloc: Global, cursor: &mut Cursor<'_>) -> Result<NodeId, FieldFault> {
        let number = cursor.take_u8_between(1, 9)?;
        Ok(NodeId(number))
    }

    fn put(&self, out: &mut Bytes) -> Result<(), NoMemory> {
        put_u8(out, self.0)
    }

    ghost codec = { node_codec };

    ghost opens_own = { own_text node_text IsNode };
}

/// Any number of eight bytes.
impl Field for Position {
    ghost use Rattle.mega_base.specs.Codec.{IsText};
    ghost use Rattle.mega_base.specs.Names.{position_at, position_text, IsPosition};
    ghost use Rattle.mega_base.specs.NameLaws.{own_text, any_position_codec};

    ghost reads = { position_at };

    ghost spells = { position_text };

    ghost opens = { IsText position_text IsPosition };

    ghost fits = { IsPosition };

    #[tactic(auto, unfolding(crate::specs::Names::position_in))]
    fn take(_alloc: Global, cursor: &mut Cursor<'_>) -> Result<Position, FieldFault> {
        let number = cursor.take_u64_between(0, u64::MAX)?;
        Ok(Position(number))
    }

    fn put(&self, out: &mut Bytes) -> Result<(), NoMemory> {
        put_u64(out, self.0)
    }

    ghost codec = { any_position_codec };

    ghost opens_own = { own_text position_text IsPosition };
}

impl Field for Epoch {
    ghost use Rattle.mega_base.specs.Codec.{IsText};
    ghost use Rattle.mega_base.specs.Names.{epoch_at, epoch_text, IsEpoch};
    ghost use Rattle.mega_base.specs.NameLaws.{own_text, epoch_codec};

    ghost reads = { epoch_at };

    ghost spells = { epoch_text };

    ghost opens = { IsText epoch_text IsEpoch };

    ghost fits = { IsEpoch };

    #[tactic(auto, unfolding(crate::specs::Names::epoch_at))]
    fn take(_alloc: Global, cursor: &mut Cursor<'_>) -> Result<Epoch, FieldFault> {
        let start = cursor.take_u32_between(0, u32::MAX)?;
        let count = cursor.take_u32_between(0, u32::MAX)?;
        Ok(Epoch { start, count })
    }

    fn put(&self, out: &mut Bytes) -> Result<(), NoMemory> {
        put_u32(out, self.start)?;
        put_u32(out, self.count)
    }

    ghost codec = { epoch_codec };

    ghost opens_own = { own_text epoch_text IsEpoch };
}

/// The node is any byte.
impl Field for OpId {
    ghost use Rattle.mega_base.specs.Codec.{IsText};
    ghost use Rattle.mega_base.specs.Names.{op_at, op_text, IsOp};
    ghost use Rattle.mega_base.specs.NameLaws.{own_text, op_codec};

    ghost reads = { op_at };

    ghost spells = { op_text };

    ghost opens = { IsText op_text IsOp };

    ghost fits = { IsOp };

    #[tactic(auto, unfolding(crate::specs::Names::op_at))]
    fn take(_alloc: Global, cursor: &mut Cursor<'_>) -> Result<OpId, FieldFault> {
        let node = cursor.take_u8_between(0, u8::MAX)?;
        let start = cursor.take_u32_between(0, u32::MAX)?;
        let number = cursor.take_u32_between(0, u32::MAX)?;
        Ok(OpId {
            node: NodeId(node),
            start,
            number,
        })
    }

    fn put(&self, out: &mut Bytes) -> Result<(), NoMemory> {
        put_u8(out, self.node.0)?;
        put_u32(out, self.start)?;
        put_u32(out, self.number)
    }

    ghost codec = { op_codec };

    ghost opens_own = { own_text op_text IsOp };
}

/// A key of at most 65,536 bytes.
impl Field for GroupId {
    ghost use Rattle.mega_base.specs.Codec.{IsText};
    ghost use Rattle.mega_base.specs.Names.{group_at, group_text, IsGroup};
    ghost use Rattle.mega_base.specs.NameLaws.{own_text, group_codec};

    ghost reads = { group_at };

    ghost spells = { group_text };

    ghost opens = { IsText group_text IsGroup };

    ghost fits = { IsGroup };

    #[tactic(auto, unfolding(crate::specs::Names::group_at))]
    fn take(alloc: Global, cursor: &mut Cursor<'_>) -> Result<GroupId, FieldFault> {
        let key = Bytes::take(alloc, cursor)?;
        Ok(GroupId::new(alloc, key)?)
    }

    fn put(&self, out: &mut Bytes) -> Result<(), NoMemory> {
        put_bytes(out, self.key.as_slice())
    }

    ghost codec = { group_codec };

    ghost opens_own = { own_text group_text IsGroup };
}
