//! Reads words from the front of a line.
ghost use Rattle.std.specs.Prelude.{◌≡◌, ◌≤◌, Some, None, Ok, Err, IfOk, IfErr, IfSome, length, position, option_map, ◌==◌, ◌<◌, []};
ghost use Rattle.hex.specs.Hex.{IsBytes};
ghost use Rattle.mega_transcript.specs.Reading.{until, with_digit, number_of, number_field, hex_field, node_field, position_field, epoch_field, op_field, group_field, message_field, entry_field};
ghost use Rattle.mega_transcript_reader.specs.Taking.{Takes};

use crate::fault::Refusal;
use hex::FromHexError;
use mega_base::{Bytes, Epoch, FieldFault, GroupId, NodeId, OpId, Position};
use mega_entry::Entry;
use mega_wire::Message;
use std::alloc::Global;
use std::marker::Model;

/// Reads words from the front of a line. Contracts see the bytes that are left.
#[derive(Drop)]
pub(crate) struct Words<'a> {
    left: &'a [u8],
}

impl<'a> Model for Words<'a> {
    ghost use Rattle.std.specs.Prelude.{List, ℕ};

    ghost Value = { List ℕ };

    ghost view = { λ w. w.left.now };
}

/// The number with one digit more, where it is at most `most`.
fn with_digit(most: u64, number: u64, byte: u8) -> Option<u64>
    ensures { result ≡ with_digit most number byte }
{
    if !(48..=57).contains(&byte) {
        return None;
    }
    let digit = u64::from(byte - 48);
    let next = number.checked_mul(10)?.checked_add(digit)?;
    if next <= most { Some(next) } else { None }
}

/// The number up to `most` that the digits spell.
#[tactic(auto, unfolding(mega_transcript::specs::Reading::number_of))]
pub(crate) fn number_of(most: u64, word: &[u8]) -> Option<u64>
    ensures { result ≡ number_of most word.now }
{
    if word.is_empty() {
        return None;
    }
    let mut number = 0;
    for byte in word {
        match with_digit(most, number, *byte) {
            Some(next) => number = next,
            None => return None,
        }
    }
    Some(number)
}

/// The place of the first byte that is `end`.
fn place_of(bytes: &[u8], end: u8) -> Option<usize>
    ensures value { result ≡ position (λ b. b == end) bytes.now }
    ensures within { IfSome result (λ place. place < length bytes.now) }
{
    bytes.iter().position(|byte| *byte == end)
}

/// The bytes before the first that is `end`, and those behind it.
#[tactic(auto, using(std::proofs::lemmas::Grind::common_steps), unfolding(mega_transcript::specs::Reading::until))]
fn until(bytes: &[u8], end: u8) -> Option<(&[u8], &[u8])>
    ensures { option_map (λ cut. (cut.0.now, cut.1.now)) result ≡ until end bytes.now }
{
    match place_of(bytes, end) {
        Some(place) => {
            let (word, _) = bytes.split_at(place);
            let (_, rest) = bytes.split_at(place + 1);
            Some((word, rest))
        }
        None => None,
    }
}

impl<'a> Words<'a> {
    pub(crate) fn new(left: &'a [u8]) -> Words<'a>
        ensures { result ≡ left.now }
    {
        Words { left }
    }

    /// How many bytes are left.
    pub(crate) fn len(&self) -> u64
        ensures { result ≡ length self.now }
    {
        self.left.len() as u64
    }

    /// Whether no bytes are left.
    pub(crate) fn is_at_end(&self) -> bool
        ensures { result ≡ (length self.now == 0) }
    {
        self.left.is_empty()
    }

    /// Passes over all bytes that are left.
    pub(crate) fn pass_all(&mut self)
        ensures { self.new ≡ [] }
    {
        self.left = &[];
    }

    /// The bytes that are left.
    pub(crate) fn rest(&self) -> &'a [u8]
        ensures { result.now ≡ self.now }
    {
        self.left
    }

    /// The bytes before the first that is `end`, which is passed over.
    pub(crate) fn word(&mut self, end: u8) -> Result<&'a [u8], Refusal>
        ensures ok { IfOk result (λ word. until end self.old ≡ Some (word.now, self.new)) }
        ensures err { IfErr result (λ refusal. (until end self.old ≡ None) × (refusal ≡ Refusal.Word (length self.old))) }
    {
        match until(self.left, end) {
            Some((word, rest)) => {
                self.left = rest;
                Ok(word)
            }
            None => {
                Err(Refusal::Word {
                    left: self.left.len() as u64,
                })
            }
        }
    }

    /// A number up to `most`.
    #[tactic(auto, using(mega_transcript::proofs::Forms::number_most), unfolding(mega_transcript::specs::Reading::number_field))]
    pub(crate) fn number(&mut self, end: u8, most: u64) -> Result<u64, Refusal>
        ensures read { Takes result self.new (number_field most end self.old) }
        ensures most { IfOk result (λ number. number ≤ most) }
    {
        let left = self.len();
        let word = self.word(end)?;
        match number_of(most, word) {
            Some(number) => Ok(number),
            None => Err(Refusal::Word { left }),
        }
    }

    /// A number of one byte.
    pub(crate) fn u8(&mut self, end: u8) -> Result<u8, Refusal>
        ensures { Takes result self.new (number_field 255 end self.old) }
    {
        let number = self.number(end, 255)?;
        Ok(number as u8)
    }

    /// A number of four bytes.
    pub(crate) fn u32(&mut self, end: u8) -> Result<u32, Refusal>
        ensures { Takes result self.new (number_field 4294967295 end self.old) }
    {
        let number = self.number(end, 4_294_967_295)?;
        Ok(number as u32)
    }

    /// A number of eight bytes.
    pub(crate) fn u64(&mut self, end: u8) -> Result<u64, Refusal>
        ensures { Takes result self.new (number_field 18446744073709551615 end self.old) }
    {
        self.number(end, u64::MAX)
    }

    #[tactic(auto, unfolding(mega_transcript::specs::Reading::node_field))]
    pub(crate) fn node(&mut self, end: u8) -> Result<NodeId, Refusal>
        ensures { Takes result self.new (node_field end self.old) }
    {
        let number = self.u8(end)?;
        Ok(NodeId(number))
    }

    #[tactic(auto, unfolding(mega_transcript::specs::Reading::position_field))]
    pub(crate) fn position(&mut self, end: u8) -> Result<Position, Refusal>
        ensures { Takes result self.new (position_field end self.old) }
    {
        let number = self.u64(end)?;
        Ok(Position(number))
    }

    #[tactic(auto, unfolding(mega_transcript::specs::Reading::epoch_field))]
    pub(crate) fn epoch(&mut self, end: u8) -> Result<Epoch, Refusal>
        ensures { Takes result self.new (epoch_field end self.old) }
    {
        let start = self.u32(b'.')?;
        let count = self.u32(end)?;
        Ok(Epoch { start, count })
    }

    #[tactic(auto, unfolding(mega_transcript::specs::Reading::op_field))]
    pub(crate) fn op(&mut self, end: u8) -> Result<OpId, Refusal>
        ensures { Takes result self.new (op_field end self.old) }
    {
        let node = self.node(b'.')?;
        let start = self.u32(b'.')?;
        let number = self.u32(end)?;
        Ok(OpId {
            node,
            start,
            number,
        })
    }

    /// Bytes in hex.
    #[tactic(auto, unfolding(mega_transcript::specs::Reading::hex_field))]
    pub(crate) fn hex(&mut self, alloc: Global, end: u8) -> Result<Bytes, Refusal>
        ensures { Takes result self.new (hex_field end self.old) }
    {
        let left = self.len();
        let word = self.word(end)?;
        match hex::decode(alloc, word) {
            Ok(bytes) => Ok(Bytes::from_vec(bytes)),
            Err(FromHexError::OutOfMemory) => Err(Refusal::NoMemory),
            Err(_) => Err(Refusal::Word { left }),
        }
    }

    #[tactic(auto, unfolding(mega_transcript::specs::Reading::group_field))]
    pub(crate) fn group(&mut self, alloc: Global, end: u8) -> Result<GroupId, Refusal>
        ensures { Takes result self.new (group_field end self.old) }
    {
        let key = self.hex(alloc, end)?;
        Ok(GroupId::new(alloc, key)?)
    }

    /// A message in hex.
    #[tactic(auto, unfolding(mega_transcript::specs::Reading::message_field))]
    pub(crate) fn message(&mut self, alloc: Global, end: u8) -> Result<Message, Refusal>
        ensures { Takes result self.new (message_field end self.old) }
    {
        let left = self.len();
        let bytes = self.hex(alloc, end)?;
        match mega_wire::decode(alloc, bytes.as_slice()) {
            Ok(message) => Ok(message),
            Err(FieldFault::Malformed { .. }) => Err(Refusal::Word { left }),
            Err(FieldFault::NoMemory) => Err(Refusal::NoMemory),
        }
    }

    /// An entry in hex.
    #[tactic(auto, unfolding(mega_transcript::specs::Reading::entry_field))]
    pub(crate) fn entry(&mut self, alloc: Global, end: u8) -> Result<Entry, Refusal>
        ensures { Takes result self.new (entry_field end self.old) }
    {
        let left = self.len();
        let bytes = self.hex(alloc, end)?;
        match mega_entry::decode(alloc, bytes.as_slice()) {
            Ok(entry) => Ok(entry),
            Err(FieldFault::Malformed { .. }) => Err(Refusal::Word { left }),
            Err(FieldFault::NoMemory) => Err(Refusal::NoMemory),
        }
    }
}
