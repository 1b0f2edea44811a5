//! Reading numbers and texts from bytes.
ghost use Rattle.std.specs.Prelude.{◌≡◌, ◌<◌, ◌≤◌, ℕ, List, length, string_bytes, IfOk, OnErr, IfErr};

use std::alloc::{AllocError, Global};

/// Why no field was read.
#[derive(Clone, Copy)]
pub enum FieldFault {
    /// Too few bytes are left.
    Short,
    /// The bytes of a text aren't UTF-8.
    BadText,
    /// Memory ran out.
    Memory,
}

impl From<AllocError> for FieldFault {
    ghost use Rattle.std.specs.Prelude.{◌≡◌};
    ghost use Rattle.ob_base.specs.declared.fields.FieldFault.TheVariants.{Memory};

    ghost from_gives = { λ _ e. e ≡ Memory };

    fn from(_: AllocError) -> FieldFault {
        FieldFault::Memory
    }
}

/// Bytes from which numbers and texts are read, one after another, as `put_u8` and its kin wrote them. What can't be
/// read moves nothing.
#[derive(Clone, Copy)]
pub struct Fields<'a> {
    bytes: &'a [u8],
    at: usize,
    ghost within: { at ≤ length bytes.now },
}

impl<'a> Fields<'a> {
    ghost use Rattle.ob_base.specs.Bytes.{u8_bytes, u32_bytes, i64_bytes, text_bytes};
    ghost use Rattle.ob_base.specs.Fields.{left, offset, Reads, BeginsWith, HasNoText};
    ghost use Rattle.std.specs.Int.{w64, to_be_bytes};

    /// None of the bytes is read yet.
    pub fn new(bytes: &'a [u8]) -> Fields<'a>
        ensures left { left result ≡ bytes.now }
        ensures offset { offset result ≡ 0 }
    {
        Fields { bytes, at: 0 }
    }

    /// How many bytes were read.
    pub fn at(&self) -> usize
        ensures { result ≡ offset self.now }
    {
        self.at
    }

    // The bytes that aren't read yet.
    fn left(&self) -> &'a [u8]
        ensures { result.now ≡ left self.now }
    {
        &self.bytes[self.at..]
    }

    // The next bytes, if there are so many.
    fn take<const N: usize>(&mut self) -> Result<[u8; N], FieldFault>
        ensures value { IfOk result (λ front. Reads self.old self.new front) }
        ensures short { OnErr result ((result ≡ Err FieldFault.Short) × (length (left self.old) < N)) }
        ensures same { OnErr result (self.new ≡ self.old) }
    {
        let Some(front) = self.left().first_chunk::<N>() else {
            return Err(FieldFault::Short);
        };
        self.at += N;
        Ok(*front)
    }

    /// Reads a byte. `Short` where none is left.
    pub fn u8(&mut self) -> Result<u8, FieldFault>
        ensures value { IfOk result (λ value. Reads self.old self.new (u8_bytes value)) }
        ensures short { OnErr result ((result ≡ Err FieldFault.Short) × (length (left self.old) < 1)) }
        ensures same { OnErr result (self.new ≡ self.old) }
    {
        let [value] = self.take::<1>()?;
        Ok(value)
    }

    /// Reads a number of 32 bits. `Short` where fewer than 4 bytes are left.
    pub fn u32(&mut self) -> Result<u32, FieldFault>
        ensures value { IfOk result (λ value. Reads self.old self.new (u32_bytes value)) }
        ensures short { OnErr result ((result ≡ Err FieldFault.Short) × (length (left self.old) < 4)) }
        ensures same { OnErr result (self.new ≡ self.old) }
    {
        Ok(u32::from_be_bytes(self.take()?))
    }

    // The bits of a number with a sign.
    fn bits(&mut self) -> Result<u64, FieldFault>
        ensures value { IfOk result (λ bits. Reads self.old self.new (to_be_bytes w64 bits)) }
        ensures short { OnErr result ((result ≡ Err FieldFault.Short) × (length (left self.old) < 8)) }
        ensures same { OnErr result (self.new ≡ self.old) }
    {
        let mut after = *self;
        let high = after.u32()?;
        let low = after.u32()?;
        *self = after;
        Ok(u64::from(high) << 32 | u64::from(low))
    }

    /// Reads a number of 64 bits with a sign. `Short` where fewer than 8 bytes are left.
    pub fn i64(&mut self) -> Result<i64, FieldFault>
        ensures value { IfOk result (λ value. Reads self.old self.new (i64_bytes value)) }
        ensures short { OnErr result ((result ≡ Err FieldFault.Short) × (length (left self.old) < 8)) }
        ensures same { OnErr result (self.new ≡ self.old) }
    {
        Ok(self.bits()?.cast_signed())
    }

    // The bytes of a text, without its length.
    fn text_front(&mut self) -> Result<&'a [u8], FieldFault>
        ensures value { IfOk result (λ text. Reads self.old self.new (text_bytes text.now)) }
        ensures begins { IfOk result (λ text. BeginsWith (left self.old) text.now) }
        ensures short { OnErr result ((result ≡ Err FieldFault.Short) × ((text : List ℕ) → ¬ (BeginsWith (left self.old) text))) }
        ensures same { OnErr result (self.new ≡ self.old) }
    {
        let mut after = *self;
        let length = after.u32()? as usize;
        let rest = after.left();
        if rest.len() < length {
            return Err(FieldFault::Short);
        }
        after.at += length;
        *self = after;
        Ok(&rest[..length])
    }

    /// Reads a text: its length as a number of 32 bits, and then its bytes. `Short` where the bytes that are left
    /// begin with no text for want of bytes, `BadText` where it isn't UTF-8.
    pub fn text(&mut self, alloc: Global) -> Result<String, FieldFault>
        ensures value { IfOk result (λ text. Reads self.old self.new (text_bytes (string_bytes text))) }
        ensures begins { IfOk result (λ text. BeginsWith (left self.old) (string_bytes text)) }
        ensures fault { IfErr result (λ fault. HasNoText fault (left self.old)) }
        ensures same { OnErr result (self.new ≡ self.old) }
    {
        let mut after = *self;
        let Ok(text) = str::from_utf8(after.text_front()?) else {
            return Err(FieldFault::BadText);
        };
        let text = String::from_str(alloc, text)?;
        *self = after;
        Ok(text)
    }
}
