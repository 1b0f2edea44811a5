//! What the verifier finds of emitted code.
ghost use Rattle.ob_emit_verified.specs.Law.{CheckedProgramsAreWellFormed, EmittedCodeIsVerified, EmittedCodeImplementsInterfaces, EmittedInterfacesAreThere, EmittedSlotsFit};

/// A program whose bodies are well-formed and derive is well-formed.
pub fn checked_programs_are_well_formed()
    ensures { CheckedProgramsAreWellFormed }
{}

/// The verifier finds nothing wrong with the code of a well-formed program.
pub fn emitted_code_is_verified()
    ensures { EmittedCodeIsVerified }
{}

/// In the image of a well-formed program only interfaces are implemented, no interface implements one, and each that is implemented is
/// there.
pub fn emitted_code_implements_interfaces()
    ensures alone { EmittedCodeImplementsInterfaces }
    ensures there { EmittedInterfacesAreThere }
{}

/// No body of the image of a well-formed program has more slots than a byte can say.
pub fn emitted_slots_fit()
    ensures { EmittedSlotsFit }
{}
