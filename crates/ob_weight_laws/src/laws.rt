//! Laws of weights.
ghost use Rattle.ob_weight_laws.specs.Law.{CountsDeclared, WithinWeight, HasSpelling};

/// The bytes of an image without instructions are counted on the class table; where there is one body for each constructor and
/// transaction, in their order, the image has at most as many bytes as the program weighs.
pub fn image_within_weight()
    ensures declared { CountsDeclared }
    ensures within { WithinWeight }
{}

/// The image of a well-formed program that weighs no more than it may has a spelling: each of its numbers and counts fits its bytes.
pub fn image_has_spelling()
    ensures { HasSpelling }
{}
