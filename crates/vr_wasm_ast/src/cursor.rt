//! Numbers and bytes, read from left to right (WebAssembly Core 1.0, section 5.2).

ghost use Rattle.std.specs.Prelude.{◌≡◌, ℕ, ◌+◌, ◌-◌, ◌*◌, ◌^◌, ◌<◌, ◌≤◌, ◌≤ℤ◌, ◌<ℤ◌, neg_ℤ, pos, List, [], ◌∷◌, ◌↔◌, length, take, drop, IfOk, OnErr, IfSome, IfNone, IsTrue, MatchResult};
ghost use Rattle.vr_wasm_ast.specs.Rest.{Rest, rest, Consumes};
ghost use Rattle.vr_wasm_ast.specs.Numbers.{IsUnsigned, IsSigned, EndsFirst, IsBad, last_unsigned, last_signed, ConsumesAs, ReadsNumber, unsigned_from, signed_from, unsigned_at, signed_at};

use std::marker::Model;

/// Why a number in LEB128 can't be read.
#[derive(Clone, Copy, Debug, PartialEq, Eq)]
pub enum LebFault {
    /// It has more bytes than its width allows, or an unused bit of its last byte is wrong.
    Bad,
    /// The bytes end before it does.
    Short,
}

/// A place in bytes, from which they are read up to a stop. Contracts see the bytes that are left,
/// and the offset of the first of them.
#[derive(Debug, Drop)]
pub struct Cursor<'a> {
    left: &'a [u8],
    place: u32,
}

impl<'a> Model for Cursor<'a> {
    ghost use Rattle.std.specs.Prelude.{◌+◌, ◌<◌, ◌^◌, length};
    ghost use Rattle.vr_wasm_ast.specs.Rest.{Rest, rest};

    ghost Value = { Rest };

    ghost view = { λ c. rest c.place c.left.now };

    ghost invariant = { λ c. c.place + length c.left.now < 2 ^ 32 };
}

/// The unsigned number of so many bits that the bytes begin with, and the bytes after it.
#[tactic(auto, unfolding(crate::specs::Numbers::number_from))]
fn unsigned_in(bytes: &[u8], bits: u32) -> Result<(u32, &[u8]), LebFault>
    requires { bits ≤ 32 }
    ensures gives { MatchResult result
        (λ x. unsigned_from bits bytes.now ≡ Ok (x.0, x.1.now))
        (λ e. unsigned_from bits bytes.now ≡ Err e) }
    ensures fits { IfOk result (λ x. x.0 < 2 ^ bits) }
    ensures shorter { IfOk result (λ x. length x.1.now ≤ length bytes.now) }
{
    match bytes {
        [] => Err(LebFault::Short),
        [byte, rest @ ..] => {
            if *byte < 0x80 {
                if u64::from(*byte) < 1 << bits {
                    Ok((u32::from(*byte), rest))
                } else {
                    Err(LebFault::Bad)
                }
            } else if 7 < bits {
                let (high, rest) = unsigned_in(rest, bits - 7)?;
                Ok((128 * high + u32::from(*byte - 0x80), rest))
            } else {
                Err(LebFault::Bad)
            }
        }
    }
}

/// The signed number of so many bits that the bytes begin with, and the bytes after it.
#[tactic(auto, unfolding(crate::specs::Numbers::number_from))]
fn signed_in(bytes: &[u8], bits: u32) -> Result<(i64, &[u8]), LebFault>
    requires some { 0 < bits }
    requires most { bits ≤ 64 }
    ensures gives { MatchResult result
        (λ x. signed_from bits bytes.now ≡ Ok (x.0, x.1.now))
        (λ e. signed_from bits bytes.now ≡ Err e) }
    ensures low { IfOk result (λ x. neg_ℤ (pos (2 ^ (bits - 1))) ≤ℤ x.0) }
    ensures high { IfOk result (λ x. x.0 <ℤ pos (2 ^ (bits - 1))) }
    ensures shorter { IfOk result (λ x. length x.1.now ≤ length bytes.now) }
{
    match bytes {
        [] => Err(LebFault::Short),
        [byte, rest @ ..] => {
            let half = 1u64 << (bits - 1);
            if *byte < 0x40 {
                if u64::from(*byte) < half {
                    Ok((i64::from(*byte), rest))
                } else {
                    Err(LebFault::Bad)
                }
            } else if *byte < 0x80 {
                if 0x80 <= u64::from(*byte) + half {
                    Ok((i64::from(*byte) - 0x80, rest))
                } else {
                    Err(LebFault::Bad)
                }
            } else if 7 < bits {
                let (high, rest) = signed_in(rest, bits - 7)?;
                Ok((128 * high + i64::from(*byte - 0x80), rest))
            } else {
                Err(LebFault::Bad)
            }
        }
    }
}

impl<'a> Cursor<'a> {
    /// From one offset in the bytes up to another.
    pub fn new(bytes: &'a [u8], start: u32, stop: u32) -> Cursor<'a>
        requires ordered { start ≤ stop }
        requires within { stop ≤ length bytes.now }
        ensures { result ≡ rest start (take (stop - start) (drop start bytes.now)) }
    {
        Cursor {
            left: &bytes[start as usize..stop as usize],
            place: start,
        }
    }

    /// The offset of the next byte.
    pub fn place(&self) -> u32
        ensures { result ≡ self.now.place }
    {
        self.place
    }

    /// The offset up to which it reads.
    pub fn stop(&self) -> u32
        ensures { result ≡ self.now.place + length self.now.bytes }
    {
        self.place + self.left.len() as u32
    }

    /// Whether the stop is reached.
    pub fn is_empty(&self) -> bool
        ensures { IsTrue result ↔ (self.now.bytes ≡ []) }
    {
        self.left.is_empty()
    }

    /// The bytes up to the stop.
    pub fn as_slice(&self) -> &'a [u8]
        ensures { result.now ≡ self.now.bytes }
    {
        self.left
    }

    /// Takes the next byte; `None` at the stop.
    pub fn read_byte(&mut self) -> Option<u8>
        ensures none { IfNone result ((self.old.bytes ≡ []) × (self.new ≡ self.old)) }
        ensures some { IfSome result (λ byte. Consumes self.old (byte ∷ []) self.new) }
    {
        match self.left {
            [] => None,
            [byte, rest @ ..] => {
                self.left = rest;
                self.place += 1;
                Some(*byte)
            }
        }
    }

    /// Takes so many bytes, as a cursor over them; `None`, and nothing is
    /// taken, where fewer are left.
    pub fn take(&mut self, count: u32) -> Option<Cursor<'a>>
        ensures none { IfNone result ((length self.old.bytes < count) × (self.new ≡ self.old)) }
        ensures within { IfSome result (λ _. count ≤ length self.old.bytes) }
        ensures taken { IfSome result
            (λ part. part ≡ rest self.old.place (take count self.old.bytes)) }
        ensures left { IfSome result
            (λ _. self.new ≡ rest (self.old.place + count) (drop count self.old.bytes)) }
    {
        let count_bytes = count as usize;
        if self.left.len() < count_bytes {
            return None;
        }
        let (taken, left) = self.left.split_at(count_bytes);
        let part = Cursor {
            left: taken,
            place: self.place,
        };
        self.left = left;
        self.place += count;
        Some(part)
    }

    /// Takes an unsigned number of so many bits.
    fn unsigned(&mut self, bits: u32) -> Result<u32, LebFault>
        requires { bits ≤ 32 }
        ensures exact { ReadsNumber result self.old self.new (unsigned_at bits self.old) }
    {
        let (number, rest) = unsigned_in(self.left, bits)?;
        self.place += (self.left.len() - rest.len()) as u32;
        self.left = rest;
        Ok(number)
    }

    /// Takes a signed number of so many bits.
    fn signed(&mut self, bits: u32) -> Result<i64, LebFault>
        requires some { 0 < bits }
        requires most { bits ≤ 64 }
        ensures exact { ReadsNumber result self.old self.new (signed_at bits self.old) }
        ensures low { IfOk result (λ z. neg_ℤ (pos (2 ^ (bits - 1))) ≤ℤ z) }
        ensures high { IfOk result (λ z. z <ℤ pos (2 ^ (bits - 1))) }
    {
        let (number, rest) = signed_in(self.left, bits)?;
        self.place += (self.left.len() - rest.len()) as u32;
        self.left = rest;
        Ok(number)
    }

    /// Takes an unsigned number of 32 bits in LEB128 (WebAssembly Core 1.0, section 5.2.2).
    /// After an `Err` nothing is taken.
    pub fn read_u32(&mut self) -> Result<u32, LebFault>
        ensures found { IfOk result (ConsumesAs (IsUnsigned 32) self.old self.new) }
        // It is too long, or an unused bit of it is wrong.
        ensures bad { (result ≡ Err LebFault.Bad) ↔ IsBad last_unsigned 32 self.old.bytes }
        // The bytes end first.
        ensures short { (result ≡ Err LebFault.Short) ↔ EndsFirst 32 self.old.bytes }
        ensures exact { ReadsNumber result self.old self.new (unsigned_at 32 self.old) }
    {
        self.unsigned(32)
    }

    /// Takes a signed number of 32 bits in LEB128 (WebAssembly Core 1.0, section 5.2.2). After an
    /// `Err` nothing is taken.
    pub fn read_s32(&mut self) -> Result<i32, LebFault>
        ensures found { IfOk result (ConsumesAs (IsSigned 32) self.old self.new) }
        // It is too long, or an unused bit of it is wrong.
        ensures bad { (result ≡ Err LebFault.Bad) ↔ IsBad last_signed 32 self.old.bytes }
        // The bytes end first.
        ensures short { (result ≡ Err LebFault.Short) ↔ EndsFirst 32 self.old.bytes }
        ensures exact { ReadsNumber result self.old self.new (signed_at 32 self.old) }
    {
        let number = self.signed(32)?;
        Ok(number as i32)
    }

    /// Takes a signed number of 64 bits in LEB128 (WebAssembly Core 1.0, section 5.2.2). After an
    /// `Err` nothing is taken.
    pub fn read_s64(&mut self) -> Result<i64, LebFault>
        ensures found { IfOk result (ConsumesAs (IsSigned 64) self.old self.new) }
        // It is too long, or an unused bit of it is wrong.
        ensures bad { (result ≡ Err LebFault.Bad) ↔ IsBad last_signed 64 self.old.bytes }
        // The bytes end first.
        ensures short { (result ≡ Err LebFault.Short) ↔ EndsFirst 64 self.old.bytes }
        ensures exact { ReadsNumber result self.old self.new (signed_at 64 self.old) }
    {
        self.signed(64)
    }
}
