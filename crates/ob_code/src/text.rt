//! The texts of an image.
ghost use Rattle.std.specs.Prelude.{◌≡◌};
ghost use Rattle.std.specs.Str.{IsUtf8};

use ob_base::{Duplicate, Items, Memory};
use std::alloc::Global;
use std::marker::Model;

/// A text of an image, a name or a constant: bytes of UTF-8, of any length.
#[derive(Drop)]
pub struct CodeText {
    bytes: Items<u8>,
}

impl Model for CodeText {
    ghost use Rattle.std.specs.Prelude.{ℕ, List};
    ghost use Rattle.std.specs.Str.{IsUtf8};

    ghost Value = { List ℕ };

    ghost view = { λ t. t.bytes };

    ghost invariant = { λ t. IsUtf8 t.bytes };
}

impl CodeText {
    /// The text of these bytes.
    pub fn of(bytes: Items<u8>) -> CodeText
        requires { IsUtf8 bytes }
        ensures { result ≡ bytes }
    {
        CodeText { bytes }
    }

    /// The bytes, which are UTF-8.
    pub fn as_bytes(&self) -> &[u8]
        ensures bytes { result.now ≡ self.now }
        ensures form { IsUtf8 self.now }
    {
        self.bytes.as_slice()
    }
}

impl Duplicate for CodeText {
    fn copy(&self, alloc: Global) -> Result<CodeText, Memory> {
        Ok(CodeText {
            bytes: Items::from_slice(alloc, self.bytes.as_slice())?,
        })
    }
}
