//! The first fault of an image.
ghost use Rattle.std.specs.Prelude.{◌≡◌, ◌+◌, ◌≤◌, ◌^◌, IfOk, OnErr};
ghost use Rattle.ob_verify_spec.specs.Frames.{frames_from, frames_of};
ghost use Rattle.ob_verify_spec.specs.Passing.{checked_fault, first_fault_of};
ghost use Rattle.ob_verify.specs.Bodies.{frames_in};

use crate::frame::CodeFrame;
use crate::pass::{FaultAt, first_fault};
use crate::survey::Surveyed;
use ob_base::{ContractId, Memory};
use ob_code::{ContractCode, Image, is_interface};
use std::alloc::Global;

// The first fault of a body; an interface's body has none.
fn checked_fault(alloc: Global, frame: &CodeFrame<'_>) -> Result<Option<FaultAt>, Memory>
    ensures { IfOk result (λ found. found ≡ checked_fault frame.now) }
{
    if is_interface(frame.own) {
        return Ok(None);
    }
    first_fault(alloc, frame)
}

/// The number of what comes so many places after another. Numbers of 2^32 and more count as want of memory.
pub fn number_after(first: u32, places: usize) -> Result<u32, Memory>
    ensures made { IfOk result (λ number. number ≡ first + places) }
    ensures many { OnErr result (2 ^ 32 ≤ first + places) }
{
    if places > (u32::MAX - first) as usize {
        return Err(Memory);
    }
    Ok(first + places as u32)
}

// The first fault of the bodies of a contract, and the number of its body; the first body has this number.
#[tactic(auto, using(crate::proofs::ImageLoops::bodies))]
fn fault_in_contract<'a>(
    alloc: Global,
    image: &'a Surveyed<'a>,
    here: ContractId,
    own: &'a ContractCode,
    first: u32,
) -> Result<Option<(u32, FaultAt)>, Memory>
    ensures { IfOk result (λ found. found ≡ first_fault_of first (frames_in image.now here own.now)) }
{
    let bodies = own.bodies.as_slice();
    for i in 0..bodies.len() {
        let frame = CodeFrame {
            image,
            here,
            own,
            body: &bodies[i],
        };
        if let Some(fault) = checked_fault(alloc, &frame)? {
            let number = number_after(first, i)?;
            return Ok(Some((number, fault)));
        }
    }
    Ok(None)
}

// The first fault of the bodies of contracts, which are those of the image.
#[tactic(auto, using(crate::proofs::ImageLoops::contracts))]
fn fault_in_contracts<'a>(
    alloc: Global,
    image: &'a Surveyed<'a>,
    contracts: &'a [ContractCode],
) -> Result<Option<(u32, FaultAt)>, Memory>
    ensures { IfOk result (λ found. found ≡ first_fault_of 0 (frames_from image.now 0 contracts.now)) }
{
    let mut first = 0;
    for i in 0..contracts.len() {
        let own = &contracts[i];
        let here = number_after(0, i)?;
        if let Some(found) = fault_in_contract(alloc, image, ContractId(here), own, first)? {
            return Ok(Some(found));
        }
        first = number_after(first, own.bodies.len())?;
    }
    Ok(None)
}

/// The first fault of an image, and the number of its body.
pub fn fault_in_image(alloc: Global, image: &Image) -> Result<Option<(u32, FaultAt)>, Memory>
    ensures { IfOk result (λ found. found ≡ first_fault_of 0 (frames_of image.now)) }
{
    let surveyed = Surveyed::of(alloc, image)?;
    fault_in_contracts(alloc, &surveyed, image.contracts.as_slice())
}
