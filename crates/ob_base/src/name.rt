//! Names, labels and texts: bytes of a known form.
ghost use Rattle.std.specs.Prelude.{◌≡◌, ◌↔◌, ◌<◌, ◌≤◌, false, length, nat_le, IsTrue, IfOk, IsErrOf};
ghost use Rattle.std.specs.List.{list_all};
ghost use Rattle.std.specs.Str.{IsUtf8, is_utf8};
ghost use Rattle.ob_base.specs.Names.{is_letter, is_digit, is_letter_or_digit, is_word, is_name, is_label, is_text};

use crate::{Duplicate, Items, LONGEST_NAME, LONGEST_STRING, Memory};
use std::alloc::{AllocError, Global};
use std::marker::Model;
use thiserror::Error;

/// Why bytes became no name, label or text.
#[derive(Clone, Copy, PartialEq, Eq, Debug, Error)]
pub enum NameError {
    /// The bytes are none of that form.
    #[error("not of the form of a name")]
    Bad,
    /// Memory ran out.
    #[error("out of memory")]
    Memory,
}

impl From<AllocError> for NameError {
    ghost use Rattle.std.specs.Prelude.{◌≡◌};
    ghost use Rattle.ob_base.specs.declared.name.NameError.TheVariants.{Memory};

    ghost from_gives = { λ _ e. e ≡ Memory };

    fn from(_: AllocError) -> NameError {
        NameError::Memory
    }
}

/// An ASCII letter, or `_`: what a name begins with.
pub fn is_letter(byte: u8) -> bool
    ensures { result ≡ is_letter byte }
{
    byte.is_ascii_alphabetic() || byte == b'_'
}

/// An ASCII digit.
pub fn is_digit(byte: u8) -> bool
    ensures { result ≡ is_digit byte }
{
    byte.is_ascii_digit()
}

/// What a name goes on with.
pub fn is_letter_or_digit(byte: u8) -> bool
    ensures { result ≡ is_letter_or_digit byte }
{
    is_letter(byte) || is_digit(byte)
}

fn are_letters_or_digits(bytes: &[u8]) -> bool
    ensures { result ≡ list_all is_letter_or_digit bytes.now }
{
    bytes.iter().all(|byte| is_letter_or_digit(*byte))
}

fn is_word(bytes: &[u8]) -> bool
    ensures { result ≡ is_word bytes.now }
{
    match bytes {
        [] => false,
        [first, ..] => is_letter(*first) && are_letters_or_digits(bytes),
    }
}

fn is_utf8(bytes: &[u8]) -> bool
    ensures { result ≡ is_utf8 bytes.now }
{
    str::from_utf8(bytes).is_ok()
}

/// The name of a contract, a field, a transaction or a parameter: a letter or `_`, and then letters,
/// digits and `_` (ASCII), of 1 to `LONGEST_NAME` bytes. A reserved word is a name here too.
#[derive(Debug, Drop)]
pub struct Name {
    bytes: Items<u8>,
}

impl Model for Name {
    ghost use Rattle.std.specs.Prelude.{ℕ, List, IsTrue};
    ghost use Rattle.ob_base.specs.Names.{is_name};

    ghost Value = { List ℕ };

    ghost view = { λ n. n.bytes };

    ghost invariant = { λ n. IsTrue (is_name n.bytes) };
}

impl Name {
    /// The name that these bytes are.
    pub fn of(alloc: Global, bytes: &[u8]) -> Result<Name, NameError>
        ensures ok { IfOk result (λ name. (name ≡ bytes.now) × IsTrue (is_name bytes.now)) }
        ensures bad { IsErrOf result NameError.Bad ↔ (is_name bytes.now ≡ false) }
    {
        if bytes.len() > LONGEST_NAME || !is_word(bytes) {
            return Err(NameError::Bad);
        }
        Ok(Name {
            bytes: Items::from_slice(alloc, bytes)?,
        })
    }

    /// The bytes, which are ASCII.
    pub fn as_bytes(&self) -> &[u8]
        ensures bytes { result.now ≡ self.now }
        ensures form { IsTrue (is_name self.now) }
    {
        self.bytes.as_slice()
    }
}

impl Duplicate for Name {
    fn copy(&self, alloc: Global) -> Result<Name, Memory> {
        Ok(Name {
            bytes: Items::from_slice(alloc, self.bytes.as_slice())?,
        })
    }
}

/// A client's name, or the name that it gives to a handle: 1 to `LONGEST_NAME` bytes of UTF-8.
#[derive(Debug, Drop)]
pub struct Label {
    bytes: Items<u8>,
}

impl Model for Label {
    ghost use Rattle.std.specs.Prelude.{ℕ, List, IsTrue};
    ghost use Rattle.ob_base.specs.Names.{is_label};

    ghost Value = { List ℕ };

    ghost view = { λ l. l.bytes };

    ghost invariant = { λ l. IsTrue (is_label l.bytes) };
}

impl Label {
    /// The label that these bytes are.
    pub fn of(alloc: Global, bytes: &[u8]) -> Result<Label, NameError>
        ensures ok { IfOk result (λ label. (label ≡ bytes.now) × IsTrue (is_label bytes.now)) }
        ensures bad { IsErrOf result NameError.Bad ↔ (is_label bytes.now ≡ false) }
    {
        if bytes.is_empty() || bytes.len() > LONGEST_NAME || !is_utf8(bytes) {
            return Err(NameError::Bad);
        }
        Ok(Label {
            bytes: Items::from_slice(alloc, bytes)?,
        })
    }

    /// The bytes, which are UTF-8.
    pub fn as_bytes(&self) -> &[u8]
        ensures bytes { result.now ≡ self.now }
        ensures form { IsTrue (is_label self.now) }
    {
        self.bytes.as_slice()
    }
}

impl Duplicate for Label {
    fn copy(&self, alloc: Global) -> Result<Label, Memory> {
        Ok(Label {
            bytes: Items::from_slice(alloc, self.bytes.as_slice())?,
        })
    }
}

/// A value of the language's type `string`: at most `LONGEST_STRING` bytes of UTF-8.
#[derive(Debug, Drop)]
pub struct Text {
    bytes: Items<u8>,
}

impl Model for Text {
    ghost use Rattle.std.specs.Prelude.{ℕ, List, IsTrue};
    ghost use Rattle.ob_base.specs.Names.{is_text};

    ghost Value = { List ℕ };

    ghost view = { λ t. t.bytes };

    ghost invariant = { λ t. IsTrue (is_text t.bytes) };
}

impl Text {
    /// The text that these bytes are.
    pub fn of(alloc: Global, bytes: &[u8]) -> Result<Text, NameError>
        ensures ok { IfOk result (λ text. (text ≡ bytes.now) × IsTrue (is_text bytes.now)) }
        ensures bad { IsErrOf result NameError.Bad ↔ (is_text bytes.now ≡ false) }
    {
        if bytes.len() > LONGEST_STRING || !is_utf8(bytes) {
            return Err(NameError::Bad);
        }
        Ok(Text {
            bytes: Items::from_slice(alloc, bytes)?,
        })
    }

    /// The bytes, which are UTF-8.
    pub fn as_bytes(&self) -> &[u8]
        ensures bytes { result.now ≡ self.now }
        ensures form { IsTrue (is_text self.now) }
    {
        self.bytes.as_slice()
    }
}

impl Duplicate for Text {
    fn copy(&self, alloc: Global) -> Result<Text, Memory> {
        Ok(Text {
            bytes: Items::from_slice(alloc, self.bytes.as_slice())?,
        })
    }
}
