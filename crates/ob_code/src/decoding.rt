//! Images from bytes, and bytes from images.
ghost use Rattle.std.specs.Prelude.{◌≡◌, ◌-◌, ◌++◌, List, [], ◌∷◌, ℕ, Result, length, IfOk, OnOk, MatchResult};
ghost use Rattle.ob_format_spec.specs.Formats.{Spells, FailsAt};
ghost use Rattle.ob_format_spec.specs.Combinators.{read_literal};
ghost use Rattle.ob_format.specs.Answering.{Answers, AnswersRest};
ghost use Rattle.ob_code.specs.Decoding.{Decodes};
ghost use Rattle.ob_code.specs.Images.{image};
ghost use Rattle.ob_code.specs.declared.image.Image.{Image};
ghost use Rattle.ob_code.specs.declared.error.CodeError.{CodeError};

use crate::error::CodeError;
use crate::image::Image;
use ob_base::Memory;
use ob_format::{Halt, counted, one_byte, put_counted};
use std::alloc::Global;

fn magic(bytes: &[u8]) -> Result<&[u8], Halt>
    ensures { AnswersRest result (read_literal (79 ∷ 66 ∷ 73 ∷ 49 ∷ []) bytes.now) }
{
    let rest = one_byte(b'O', bytes)?;
    let rest = one_byte(b'B', rest)?;
    let rest = one_byte(b'I', rest)?;
    one_byte(b'1', rest)
}

// Reads an image from the front of bytes.
#[tactic(auto, unfolding(crate::specs::Images::image))]
fn image(alloc: Global, bytes: &[u8]) -> Result<(Image, &[u8]), Halt>
    ensures { Answers result (image.read bytes.now) }
{
    let rest = magic(bytes)?;
    let (contracts, rest) = counted(alloc, rest)?;
    Ok((Image { contracts }, rest))
}

// No image goes on where so many bytes are left.
fn bad(bytes: &[u8], left: usize) -> CodeError
    ensures { result ≡ CodeError.BadImage (length bytes.now - left) }
{
    CodeError::BadImage(bytes.len().saturating_sub(left) as u64)
}

/// The image that the bytes spell. `BadImage` where they spell none, with the first offset at which no image goes on.
pub fn decode(alloc: Global, bytes: &[u8]) -> Result<Image, CodeError>
    ensures { Decodes image result bytes.now }
{
    match image(alloc, bytes) {
        Ok((found, rest)) => {
            if rest.is_empty() {
                Ok(found)
            } else {
                Err(bad(bytes, rest.len()))
            }
        }
        Err(Halt::Stop { left }) => Err(bad(bytes, left)),
        Err(Halt::Memory) => Err(CodeError::Memory),
    }
}

// Appends an image's bytes, or some of them where memory runs out.
#[tactic(auto, unfolding(crate::specs::Images::image))]
fn put_image(out: &mut Vec<u8>, value: &Image) -> Result<(), Memory>
    requires { image.fits value.now }
    ensures { OnOk result (out.new.items ≡ out.old.items ++ image.bytes value.now) }
{
    out.extend_from_slice(b"OBI1")?;
    put_counted(out, &value.contracts)
}

/// The bytes that spell an image.
pub fn encode(alloc: Global, value: &Image) -> Result<Vec<u8>, Memory>
    requires { image.fits value.now }
    ensures { IfOk result (λ bytes. Spells image value.now bytes.items) }
{
    let mut out = Vec::new(alloc);
    put_image(&mut out, value)?;
    Ok(out)
}

/// Bytes spell one image at most and have one first offset at which no image goes on, and never both. So `decode` gives
/// back what `encode` wrote, unless memory runs out.
pub fn one_image()
    ensures value { (bytes : List ℕ) (a b : Image) → Spells image a bytes → Spells image b bytes → a ≡ b }
    ensures offset { (bytes : List ℕ) (j k : ℕ) → FailsAt image bytes j → FailsAt image bytes k → j ≡ k }
    ensures apart { (bytes : List ℕ) (a : Image) (k : ℕ) → FailsAt image bytes k → ¬ (Spells image a bytes) }
    ensures again { (a : Image) (r : Result Image CodeError) → image.fits a → Decodes image r (image.bytes a)
        → MatchResult r (λ b. b ≡ a) (λ e. e ≡ CodeError.Memory) }
{}
