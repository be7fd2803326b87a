//! Reads bytes and numbers from the front of a text, and tells the byte that cannot stand there.
ghost use Rattle.std.specs.Prelude.{◌≡◌, Ok, Err, ◌↔◌, ◌+◌, ◌-◌, ◌<◌, ◌≤◌, ◌++◌, ◌∷◌, [], ◌^◌, length, IfOk, IfErr, OnErr, ◌==◌, IsErr, IsErrOf};
ghost use Rattle.mega_base.specs.Names.{u32_text, u64_text};
ghost use Rattle.mega_base.specs.Reading.{place, end_of, byte_in, digits_in, number_in, bytes_of_len};
ghost use Rattle.mega_base.specs.Fields.{ReadsHere, ReadsOn, IsBytesFault};
ghost use Rattle.mega_base.specs.Codec.{BytesBetween, one_byte, bytes_text};

use std::marker::Model;

/// Why a field cannot be read.
#[derive(Clone, Copy, PartialEq, Eq, Debug, Drop)]
pub enum CursorFault {
    /// Fewer bytes are left than the field needs; `at` is the end of the text.
    Short { at: u64 },
    /// The length that stands at the cursor is above 65,536; `at` is the offset of the first of its
    /// bytes that no length up to 65,536 has there.
    Long { at: u64, length: u32 },
}

/// The offset of the first byte that cannot stand there, or the end of the text where bytes are missing.
#[derive(Clone, Copy, PartialEq, Eq, Debug, Drop)]
pub struct BadByte {
    pub at: u64,
}

/// Reads fields from the front of a text. Contracts see the offset and the bytes that are left.
#[derive(Drop)]
pub struct Cursor<'a> {
    pub(crate) at: u64,
    pub(crate) left: &'a [u8],
}

impl<'a> Model for Cursor<'a> {
    ghost use Rattle.std.specs.Prelude.{ℕ, ◌+◌, ◌<◌, ◌^◌, length};
    ghost use Rattle.mega_base.specs.Reading.{Place};

    ghost Value = { Place };

    ghost view = { λ c. record { at = c.at; left = c.left.now } };

    ghost invariant = { λ c. c.at + length c.left.now < 2 ^ 64 };
}

impl<'a> Cursor<'a> {
    /// At the start of these bytes.
    pub fn new(bytes: &'a [u8]) -> Cursor<'a>
        ensures { result ≡ place 0 bytes.now }
    {
        Cursor { at: 0, left: bytes }
    }

    /// The offset from the start of the text.
    pub fn at(&self) -> u64
        ensures { result ≡ self.now.at }
    {
        self.at
    }

    /// Whether no bytes are left.
    pub fn is_at_end(&self) -> bool
        ensures { result ≡ (length self.now.left == 0) }
    {
        self.left.is_empty()
    }

    /// A byte; a refusal leaves the cursor.
    pub fn take_u8(&mut self) -> Result<u8, CursorFault>
        ensures ok { IfOk result (λ number. BytesBetween self.old (one_byte number) self.new) }
        ensures short { IsErr result ↔ (length self.old.left < 1) }
        ensures fault { IfErr result (λ fault. fault ≡ CursorFault.Short (end_of self.old)) }
        ensures err { OnErr result (self.new ≡ self.old) }
    {
        let Some((first, after)) = self.left.split_first() else {
            return Err(CursorFault::Short { at: self.at });
        };
        self.at += 1;
        self.left = after;
        Ok(*first)
    }

    /// A number of four bytes, the highest first; a refusal leaves the cursor.
    #[tactic(auto, unfolding(crate::specs::Codec::number_text))]
    pub fn take_u32(&mut self) -> Result<u32, CursorFault>
        ensures ok { IfOk result (λ number. BytesBetween self.old (u32_text number) self.new) }
        ensures short { IsErr result ↔ (length self.old.left < 4) }
        ensures fault { IfErr result (λ fault. fault ≡ CursorFault.Short (end_of self.old)) }
        ensures err { OnErr result (self.new ≡ self.old) }
    {
        if self.left.len() < 4 {
            return Err(CursorFault::Short {
                at: self.at + self.left.len() as u64,
            });
        }
        let (front, after) = self.left.split_at(4);
        let number = u32::from_be_bytes([front[0], front[1], front[2], front[3]]);
        self.at += 4;
        self.left = after;
        Ok(number)
    }

    /// A number of eight bytes, the highest first; a refusal leaves the cursor.
    #[tactic(auto, unfolding(crate::specs::Codec::number_text))]
    pub fn take_u64(&mut self) -> Result<u64, CursorFault>
        ensures ok { IfOk result (λ number. BytesBetween self.old (u64_text number) self.new) }
        ensures short { IsErr result ↔ (length self.old.left < 8) }
        ensures fault { IfErr result (λ fault. fault ≡ CursorFault.Short (end_of self.old)) }
        ensures err { OnErr result (self.new ≡ self.old) }
    {
        if self.left.len() < 8 {
            return Err(CursorFault::Short {
                at: self.at + self.left.len() as u64,
            });
        }
        let (front, after) = self.left.split_at(8);
        let number = u64::from_be_bytes([
            front[0], front[1], front[2], front[3], front[4], front[5], front[6], front[7],
        ]);
        self.at += 8;
        self.left = after;
        Ok(number)
    }

    /// A byte from `low` to `high`; a refusal leaves the cursor.
    #[tactic(auto, using(std::proofs::lemmas::Grind::common_steps), unfolding(crate::specs::Reading::byte_in))]
    pub fn take_u8_between(&mut self, low: u8, high: u8) -> Result<u8, BadByte>
        ensures { ReadsHere result self.old self.new (byte_in low high self.old) }
    {
        let Some((first, after)) = self.left.split_first() else {
            return Err(BadByte { at: self.at });
        };
        let byte = *first;
        if byte < low {
            return Err(BadByte { at: self.at });
        }
        if byte > high {
            return Err(BadByte { at: self.at });
        }
        self.at += 1;
        self.left = after;
        Ok(byte)
    }

    /// The last `count` bytes of a number from `low` to `high` whose first bytes have the value `top`.
    #[tactic(auto, using(std::proofs::lemmas::Grind::common_steps), unfolding(crate::specs::Reading::digits_in, crate::specs::Reading::byte_in))]
    fn digits(&mut self, count: u32, top: u64, low: u64, high: u64) -> Result<u64, BadByte>
        requires few { count ≤ 8 }
        requires small { top < 256 ^ (8 - count) }
        ensures { ReadsOn result self.new (digits_in count top low high self.old) }
    {
        if count == 0 {
            return Ok(top);
        }
        let scale = 256u64.pow(count - 1);
        let from = (low / scale).saturating_sub(256 * top);
        let to = (high / scale).saturating_sub(256 * top).min(255);
        let byte = self.take_u8_between(from.min(255) as u8, to as u8)?;
        self.digits(count - 1, 256 * top + u64::from(byte), low, high)
    }

    /// A number of four bytes from `low` to `high`, the highest byte first; a refusal leaves the cursor.
    #[tactic(auto, using(crate::specs::Digits::in_range))]
    pub fn take_u32_between(&mut self, low: u32, high: u32) -> Result<u32, BadByte>
        requires { low ≤ high }
        ensures { ReadsHere result self.old self.new (number_in 4 low high self.old) }
    {
        let mut ahead = Cursor {
            at: self.at,
            left: self.left,
        };
        let number = ahead.digits(4, 0, u64::from(low), u64::from(high))?;
        self.at = ahead.at;
        self.left = ahead.left;
        Ok(number as u32)
    }

    /// A number of eight bytes from `low` to `high`, the highest byte first; a refusal leaves the cursor.
    #[tactic(auto, using(crate::specs::Digits::in_range))]
    pub fn take_u64_between(&mut self, low: u64, high: u64) -> Result<u64, BadByte>
        requires { low ≤ high }
        ensures { ReadsHere result self.old self.new (number_in 8 low high self.old) }
    {
        let mut ahead = Cursor {
            at: self.at,
            left: self.left,
        };
        let number = ahead.digits(8, 0, low, high)?;
        self.at = ahead.at;
        self.left = ahead.left;
        Ok(number)
    }

    /// That many bytes; a refusal leaves the cursor.
    #[tactic(auto, using(std::proofs::lemmas::Grind::common_steps), unfolding(crate::specs::Reading::bytes_of_len))]
    pub fn take_slice(&mut self, count: u32) -> Result<&'a [u8], BadByte>
        ensures ok { IfOk result (λ bytes. bytes_of_len count self.old ≡ Ok (bytes.now, self.new)) }
        ensures err { IfErr result (λ bad. (bytes_of_len count self.old ≡ Err bad.at) × (self.new ≡ self.old)) }
    {
        if self.left.len() < count as usize {
            return Err(BadByte {
                at: self.at + self.left.len() as u64,
            });
        }
        let (bytes, after) = self.left.split_at(count as usize);
        self.at += u64::from(count);
        self.left = after;
        Ok(bytes)
    }

    /// The length of at most 65,536 bytes, in four bytes, and the bytes; a refusal leaves the cursor.
    #[tactic(auto, using(std::proofs::lemmas::Grind::common_steps, crate::specs::Digits::length_number_text), unfolding(crate::specs::Codec::number_text))]
    pub fn take_bytes(&mut self) -> Result<&'a [u8], CursorFault>
        ensures ok { IfOk result (λ bytes. BytesBetween self.old (bytes_text bytes.now) self.new × (length bytes.now ≤ 65536)) }
        ensures fault { IfErr result (IsBytesFault self.old) }
        ensures err { OnErr result (self.new ≡ self.old) }
    {
        let mut ahead = Cursor {
            at: self.at,
            left: self.left,
        };
        let length = ahead.take_u32()?;
        if length > 65536 {
            return Err(CursorFault::Long {
                at: self.excess_byte(),
                length,
            });
        }
        if ahead.left.len() < length as usize {
            return Err(CursorFault::Short {
                at: ahead.at + ahead.left.len() as u64,
            });
        }
        let (bytes, after) = ahead.left.split_at(length as usize);
        self.at = ahead.at + u64::from(length);
        self.left = after;
        Ok(bytes)
    }

    /// The offset of the first byte of a length above 65,536 that no length up to it has there.
    fn excess_byte(&self) -> u64
        requires { IsErr (number_in 4 0 65536 self.now) }
        ensures { number_in 4 0 65536 self.now ≡ Err result }
    {
        let mut ahead = Cursor {
            at: self.at,
            left: self.left,
        };
        match ahead.digits(4, 0, 0, 65536) {
            Ok(_) => self.at,
            Err(bad) => bad.at,
        }
    }
}
