//! Reads the values of a row key back, and tells the byte that cannot stand there.
ghost use Rattle.std.specs.Prelude.{◌≡◌, ◌^◌, ◌++◌, List, ℕ, IfOk, Ok, length, take, is_ok};
ghost use Rattle.std.specs.Int.{w32, w64};
ghost use Rattle.std.specs.List.{flat_map};
ghost use Rattle.mega_keys.specs.declared.read.Stop.TheVariants.{Refused as Spent};
ghost use Rattle.mega_keys.specs.Spelling.{scattered, escape};
ghost use Rattle.mega_base.specs.declared.values.Value.{Value};
ghost use Rattle.mega_keys.specs.Answers.{Gives};
ghost use Rattle.mega_keys.specs.Fit.{IsKey};
ghost use Rattle.mega_keys.specs.Reading.{Reads, ReadsBy, Passes, number_at, lowered, int32_at, int64_at, truth_at, unescaped, unit_at, raw_at, text_of, text_at, value_at, values_at, byte_at, marks_at, agree, root_at, key_front_at, key_at, read_key_of};

use crate::fault::KeyFault;
use crate::write::{LONGEST, scatter};
use mega_base::{Bytes, Items, Kind, NoMemory, Shape, Text, Value};
use std::alloc::Global;
use std::marker::Model;

/// Why a reader stopped.
#[derive(Drop)]
pub enum Stop {
    /// The bytes are no key from where so many are left.
    Left(usize),
    /// An allocation was refused.
    Refused,
}

impl From<NoMemory> for Stop {
    ghost from_gives = { λ _ stop. stop ≡ Spent };

    fn from(_refused: NoMemory) -> Stop {
        Stop::Refused
    }
}

/// The bytes of a key that are left to read.
#[derive(Drop)]
struct KeyReader<'a> {
    left: &'a [u8],
}

impl<'a> Model for KeyReader<'a> {
    ghost use Rattle.std.specs.Prelude.{List, ℕ};

    ghost Value = { List ℕ };

    ghost view = { λ r. r.left.now };
}

impl<'a> KeyReader<'a> {
    fn take_u32(&mut self) -> Result<u32, Stop>
        ensures { Reads result self.new (number_at w32 self.old) }
    {
        if self.left.len() < 4 {
            return Err(Stop::Left(0));
        }
        let (front, rest) = self.left.split_at(4);
        self.left = rest;
        Ok(u32::from_be_bytes([front[0], front[1], front[2], front[3]]))
    }

    fn take_u64(&mut self) -> Result<u64, Stop>
        ensures { Reads result self.new (number_at w64 self.old) }
    {
        if self.left.len() < 8 {
            return Err(Stop::Left(0));
        }
        let (front, rest) = self.left.split_at(8);
        self.left = rest;
        Ok(u64::from_be_bytes([
            front[0], front[1], front[2], front[3], front[4], front[5], front[6], front[7],
        ]))
    }

    #[tactic(auto, unfolding(crate::specs::Reading::int32_at))]
    fn take_int32(&mut self) -> Result<Value, Stop>
        ensures { Reads result self.new (int32_at self.old) }
    {
        let raised = self.take_u32()?;
        Ok(Value::Int32(lowered_32(raised)))
    }

    #[tactic(auto, unfolding(crate::specs::Reading::int64_at))]
    fn take_int64(&mut self) -> Result<Value, Stop>
        ensures { Reads result self.new (int64_at self.old) }
    {
        let raised = self.take_u64()?;
        Ok(Value::Int64(lowered_64(raised)))
    }

    #[tactic(auto, unfolding(crate::specs::Reading::truth_at))]
    fn take_truth(&mut self) -> Result<Value, Stop>
        ensures { Reads result self.new (truth_at self.old) }
    {
        match self.left {
            [] => Err(Stop::Left(0)),
            [0, rest @ ..] => {
                self.left = rest;
                Ok(Value::Bool(false))
            }
            [1, rest @ ..] => {
                self.left = rest;
                Ok(Value::Bool(true))
            }
            left => Err(Stop::Left(left.len())),
        }
    }

    #[tactic(auto, unfolding(crate::specs::Reading::raw_at))]
    fn take_raw(&mut self, alloc: Global) -> Result<Value, Stop>
        ensures { Reads result self.new (raw_at self.old) }
    {
        let (bytes, rest) = unescape(alloc, self.left)?;
        self.left = rest;
        Ok(Value::Raw(bytes))
    }

    #[tactic(auto, unfolding(crate::specs::Reading::text_at))]
    fn take_text(&mut self, alloc: Global) -> Result<Value, Stop>
        ensures { Reads result self.new (text_at self.old) }
    {
        let whole = self.left.len();
        let (bytes, rest) = unescape(alloc, self.left)?;
        let value = text_of(alloc, bytes.as_slice(), whole)?;
        self.left = rest;
        Ok(value)
    }

    fn take_value(&mut self, alloc: Global, kind: Kind) -> Result<Value, Stop>
        ensures { Reads result self.new (value_at kind self.old) }
    {
        match kind {
            Kind::Int32 => self.take_int32(),
            Kind::Int64 => self.take_int64(),
            Kind::Bool => self.take_truth(),
            Kind::Str => self.take_text(alloc),
            Kind::Raw => self.take_raw(alloc),
        }
    }

    fn take_values(&mut self, alloc: Global, kinds: &[Kind]) -> Result<Items<Value>, Stop>
        ensures { Reads result self.new (values_at kinds.now self.old) }
    {
        let mut values = Items::new(alloc);
        for kind in kinds {
            match self.take_value(alloc, *kind) {
                Ok(value) => values.push(value)?,
                Err(stop) => return Err(stop),
            }
        }
        Ok(values)
    }

    #[tactic(auto, unfolding(crate::specs::Reading::byte_at))]
    fn take_byte(&mut self, byte: u8) -> Result<(), Stop>
        ensures { Passes result self.new (byte_at byte self.old) }
    {
        match self.left {
            [] => Err(Stop::Left(0)),
            [first, rest @ ..] if *first == byte => {
                self.left = rest;
                Ok(())
            }
            left => Err(Stop::Left(left.len())),
        }
    }

    #[tactic(auto, unfolding(crate::specs::Reading::marks_at))]
    fn take_marks(&mut self) -> Result<[u8; 2], Stop>
        ensures { Reads result self.new (marks_at self.old) }
    {
        match self.left {
            [first, second, rest @ ..] => {
                self.left = rest;
                Ok([*first, *second])
            }
            _ => Err(Stop::Left(0)),
        }
    }

    #[tactic(auto, unfolding(crate::specs::Reading::root_at))]
    fn take_root(
        &mut self,
        alloc: Global,
        scatters: bool,
        kinds: &[Kind],
    ) -> Result<Items<Value>, Stop>
        ensures { Reads result self.new (root_at scatters kinds.now self.old) }
    {
        if !scatters {
            return self.take_values(alloc, kinds);
        }
        let whole = self.left.len();
        let marks = self.take_marks()?;
        let root = self.take_values(alloc, kinds)?;
        let right = scatter(alloc, root.as_slice())?;
        agree(marks, right, whole)?;
        Ok(root)
    }

    #[tactic(auto, unfolding(crate::specs::Reading::key_front_at))]
    fn take_key(&mut self, alloc: Global, shape: &Shape) -> Result<Items<Value>, Stop>
        ensures { Reads result self.new (key_front_at shape.now self.old) }
    {
        self.take_byte(shape.space)?;
        let root = self.take_root(alloc, shape.scatter, shape.root_kinds.as_slice())?;
        self.take_byte(shape.table)?;
        let rest = self.take_values(alloc, shape.rest_kinds.as_slice())?;
        Ok(joined(root, rest)?)
    }

    #[tactic(auto, unfolding(crate::specs::Reading::key_at))]
    fn take_whole_key(&mut self, alloc: Global, shape: &Shape) -> Result<Items<Value>, Stop>
        ensures { ReadsBy (λ values. values) result (key_at shape.now self.old) }
    {
        let values = self.take_key(alloc, shape)?;
        if !self.left.is_empty() {
            return Err(Stop::Left(self.left.len()));
        }
        Ok(values)
    }
}

/// The two lists, one after the other.
fn joined(root: Items<Value>, rest: Items<Value>) -> Result<Items<Value>, NoMemory>
    ensures { IfOk result (λ all. all ≡ root ++ rest) }
{
    let mut all = root.into_vec();
    let mut more = rest.into_vec();
    all.append(&mut more)?;
    Ok(Items::from_vec(all))
}

/// Refuses two bytes that are not the right ones; so many bytes are left from the two on.
#[tactic(auto, unfolding(crate::specs::Reading::agree))]
fn agree(marks: [u8; 2], right: [u8; 2], left: usize) -> Result<(), Stop>
    ensures { ReadsBy (λ x. x) result (agree marks right left) }
{
    if marks[0] != right[0] {
        return Err(Stop::Left(left));
    }
    if marks[1] != right[1] {
        return Err(Stop::Left(left.saturating_sub(1)));
    }
    Ok(())
}

/// The text that the bytes are; so many bytes of the key are left from their spelling on.
fn text_of(alloc: Global, bytes: &[u8], left: usize) -> Result<Value, Stop>
    ensures { ReadsBy (λ value. value) result (text_of bytes.now left) }
{
    match std::str::from_utf8(bytes) {
        Ok(text) => Ok(Value::Str(Text::from_str(alloc, text)?)),
        Err(fault) => {
            let (valid, _) = bytes.split_at(fault.valid_up_to());
            Err(Stop::Left(left.saturating_sub(escaped_len(valid))))
        }
    }
}

/// How many bytes these have once they are escaped.
fn escaped_len(bytes: &[u8]) -> usize
    ensures { result ≡ length (flat_map escape bytes.now) }
{
    let mut length = 0;
    for byte in bytes {
        length += if *byte == 0 { 2 } else { 1 };
    }
    length
}

/// The key values of the row with this key, or `NotKey` at the first byte that cannot stand: the start of
/// the first character that is none in text, the first of the two scatter bytes that differs, and the
/// 1,025th where a longer key would be good up to it.
pub fn read_key(alloc: Global, shape: &Shape, key: &[u8]) -> Result<Items<Value>, KeyFault>
    // What is read is spelled so.
    ensures found { IfOk result (λ values. IsKey shape.now key.now values) }
    // What is spelled so is read, unless memory runs out.
    ensures only { (values : List Value) → IsKey shape.now key.now values → Gives result (Ok values) }
    // Where a fault is.
    ensures exact { Gives result (read_key_of shape.now key.now) }
{
    read_front(alloc, shape, key)
}

/// Whether the bytes spell a row key, however many they are: those of a group that is as long as a group may
/// be, with the number of its root table behind them, are one byte more than a key may have.
pub fn is_spelled(alloc: Global, shape: &Shape, key: &[u8]) -> Result<bool, NoMemory>
    ensures { IfOk result (λ found. found ≡ is_ok (key_at shape.now key.now)) }
{
    let mut reader = KeyReader { left: key };
    match reader.take_whole_key(alloc, shape) {
        Ok(_) => Ok(true),
        Err(Stop::Left(_)) => Ok(false),
        Err(Stop::Refused) => Err(NoMemory),
    }
}

/// Reads the bytes that a key may have, and refuses those behind them.
fn read_front(alloc: Global, shape: &Shape, key: &[u8]) -> Result<Items<Value>, KeyFault>
    ensures { Gives result (read_key_of shape.now key.now) }
{
    let front = front_of(key);
    let mut reader = KeyReader { left: front };
    match reader.take_whole_key(alloc, shape) {
        Err(Stop::Refused) => Err(KeyFault::NoMemory),
        Err(Stop::Left(left)) => Err(KeyFault::NotKey {
            at: front.len().saturating_sub(left) as u64,
        }),
        Ok(_) if LONGEST < key.len() => Err(KeyFault::NotKey { at: LONGEST as u64 }),
        Ok(values) => Ok(values),
    }
}

/// The bytes that a key may have.
fn front_of(key: &[u8]) -> &[u8]
    ensures { result.now ≡ take 1024 key.now }
{
    if LONGEST < key.len() {
        let (front, _) = key.split_at(LONGEST);
        front
    } else {
        key
    }
}

fn lowered_32(raised: u32) -> i32
    ensures { result ≡ lowered (2 ^ 31) raised }
{
    (i64::from(raised) - 0x8000_0000) as i32
}

fn lowered_64(raised: u64) -> i64
    ensures { result ≡ lowered (2 ^ 63) raised }
{
    (i128::from(raised) - 0x8000_0000_0000_0000) as i64
}

/// One byte of escaped bytes, or their end, and the bytes after it.
#[tactic(auto, unfolding(crate::specs::Reading::unit_at))]
fn unit(bytes: &[u8]) -> Result<(Option<u8>, &[u8]), Stop>
    ensures { ReadsBy (λ x. (x.0, x.1.now)) result (unit_at bytes.now) }
{
    match bytes {
        [] | [0] => Err(Stop::Left(0)),
        [0, 255, rest @ ..] => Ok((Some(0), rest)),
        [0, 1, rest @ ..] => Ok((None, rest)),
        [0, left @ ..] => Err(Stop::Left(left.len())),
        [byte, rest @ ..] => Ok((Some(*byte), rest)),
    }
}

/// Escaped bytes up to their end, each escape undone, and the bytes after them.
fn unescape(alloc: Global, bytes: &[u8]) -> Result<(Bytes, &[u8]), Stop>
    ensures { ReadsBy (λ x. (x.0, x.1.now)) result (unescaped bytes.now) }
{
    let mut found = Bytes::new(alloc);
    let mut left = bytes;
    'units: loop {
        match unit(left) {
            Err(stop) => return Err(stop),
            Ok((None, rest)) => return Ok((found, rest)),
            Ok((Some(byte), rest)) => {
                found.push(byte)?;
                left = rest;
            }
        }
    }
}
