//! Laws of the verifier's definitions.
ghost use Rattle.ob_code.specs.declared.image.Image.{Image};
ghost use Rattle.ob_verify_spec.specs.Frames.{CodeFrame, frames_of};
ghost use Rattle.ob_verify_spec.specs.Verified.{IsVerifiedBody, IsVerified};
ghost use Rattle.ob_verify_spec.specs.Passing.{first_fault, first_fault_of};
ghost use Rattle.ob_verify_spec.specs.Running.{KeepsKinds};
ghost use Rattle.ob_verify_spec.specs.Calling.{NamesWhatIsThere, ImplementsInterfacesAlone, MeetToo};
ghost use Rattle.ob_verify_spec.specs.Laws.{TellsOfBody, TellsOfImage, HasOneVerdict, HasOneSlotKinds, HasFrames, HasVerifiedBodies};

/// Where one pass finds no fault a body is verified; where it finds one, that is the body's first fault.
pub fn first_fault_of_body()
    ensures { (f : CodeFrame) → TellsOfBody f (first_fault f) }
{}

/// The same of an image: it is verified, or its first fault is the one that is found.
pub fn first_fault_of_image()
    ensures { (m : Image) → TellsOfImage m (first_fault_of 0 (frames_of m)) }
{}

/// An image is verified or has a fault, never both, and one fault at most.
pub fn one_verdict()
    ensures { (m : Image) → HasOneVerdict m }
{}

/// A body has slot kinds, and any two that it has are the same.
pub fn one_slot_kinds()
    ensures { (f : CodeFrame) → HasOneSlotKinds f }
{}

/// Verified code meets each need of its instructions, and leaves neither its slots nor its code.
pub fn verified_bodies_keep_kinds()
    ensures { (f : CodeFrame) (v : IsVerifiedBody f) → KeepsKinds f v.kinds }
{}

/// The frames of an image are those of the bodies of its contracts.
pub fn bodies_found()
    ensures { (m : Image) → HasFrames m }
{}

/// Each body of a verified image is verified that isn't an interface's.
pub fn verified_bodies()
    ensures { (m : Image) → IsVerified m → HasVerifiedBodies m }
{}

/// What the instructions of a verified body name is there, and its calls take what they are given.
pub fn verified_bodies_name_what_is_there()
    ensures { (f : CodeFrame) → IsVerifiedBody f → NamesWhatIsThere f }
{}

/// Where only interfaces are implemented and none by an interface, slots with values of kinds that may take the place of the known
/// ones meet each need that those meet.
pub fn fitting_slots_meet_needs()
    ensures { (m : Image) → ImplementsInterfacesAlone m → MeetToo m }
{}
