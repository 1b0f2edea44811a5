//! The verifier's verdict.
ghost use Rattle.std.specs.Prelude.{◌≡◌, IfOk, IfErr, OnOk};
ghost use Rattle.ob_verify_spec.specs.Laws.{SlotsFitByte};
ghost use Rattle.ob_verify_spec.specs.Verified.{IsVerified};
ghost use Rattle.ob_verify.specs.Answering.{Refuses};

use crate::image::{fault_in_image, number_after};
use crate::numbers::number_of;
use crate::slots::read_slots;
use ob_base::{Duplicate, Memory};
use ob_code::Image;
use std::alloc::Global;
use std::marker::Model;

/// Why an image isn't verified.
#[derive(Clone, Copy)]
pub enum VerifyError {
    /// It has a fault, and this is the first.
    Fault {
        /// Which fault it is, from `BAD_JUMP` to `NO_FUEL_MARK`: the least number of those that stand there.
        number: u16,
        /// The number of its body in the image's order, from 0; the bodies of interfaces count too.
        body: u32,
        /// The place of its instruction in the body, from 0; at the end, the number of the body's instructions.
        instruction: u32,
    },
    /// Memory ran out.
    Memory,
}

impl From<Memory> for VerifyError {
    ghost use Rattle.std.specs.Prelude.{◌≡◌};
    ghost use Rattle.ob_verify.specs.declared.verifying.VerifyError.TheVariants.{Memory};

    ghost from_gives = { λ _ e. e ≡ Memory };

    fn from(_: Memory) -> VerifyError {
        VerifyError::Memory
    }
}

/// An image that is verified.
#[derive(Drop)]
pub struct Verified {
    image: Image,
}

impl Model for Verified {
    ghost use Rattle.ob_code.specs.declared.image.Image.{Image};
    ghost use Rattle.ob_verify_spec.specs.Laws.{SlotsFitByte};
    ghost use Rattle.ob_verify_spec.specs.Verified.{IsVerified};

    ghost Value = { Image };

    ghost view = { λ v. v.image };

    ghost invariant = { λ v. IsVerified v.image × SlotsFitByte v.image };
}

impl Verified {
    /// An image of which it is proved that it is verified, so that no instruction is looked at.
    pub fn by_proof(image: Image) -> Verified
        requires { IsVerified image }
        ensures { result ≡ image }
    {
        read_slots(&image);
        Verified { image }
    }

    /// The image.
    pub fn image(&self) -> &Image
        ensures image { result.now ≡ self.now }
        ensures verified { IsVerified self.now }
        ensures slots { SlotsFitByte self.now }
    {
        &self.image
    }
}

impl Duplicate for Verified {
    fn copy(&self, alloc: Global) -> Result<Verified, Memory> {
        Ok(Verified {
            image: self.image.copy(alloc)?,
        })
    }
}

/// The image, verified; or its first fault: that of the first body that has one, in the image's order, where interfaces have
/// none, and of its first instruction that has one, and there the least number. A fault whose body or instruction has a number
/// of 2^32 or more counts as want of memory.
///
/// A body is passed once; one in which some instruction leads behind again as long as that changes what slots are known to hold at
/// the places behind. Each pass takes time in proportion to the body, and so does all else to the image, where each contract that
/// implements an interface has its transactions: they are asked once, before the bodies are passed. It keeps what slots hold only for
/// places behind, and for those that some instruction has led to and that it hasn't come to yet.
#[tactic(auto, using(ob_verify_spec::proofs::Images::tells_of_image))]
pub fn verify(alloc: Global, image: Image) -> Result<Verified, VerifyError>
    ensures kept { IfOk result (λ v. v ≡ image) }
    ensures verified { OnOk result (IsVerified image) }
    ensures refused { IfErr result (Refuses image) }
{
    match fault_in_image(alloc, &image)? {
        None => {
            read_slots(&image);
            Ok(Verified { image })
        }
        Some((body, at)) => Err(VerifyError::Fault {
            number: number_of(at.fault),
            body,
            instruction: number_after(0, at.instruction)?,
        }),
    }
}
