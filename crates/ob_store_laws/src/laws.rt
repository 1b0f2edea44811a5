//! Laws of deltas and of the payloads that say them.
ghost use Rattle.ob_store_laws.specs.Laws.{DifferencesAreSaid, NewsAreDifferences, DeltasSayChanges, ChangesAreMadeAsDeltas, ChangesKeepContents, AllIsWhatDiffers, AllIsSaid, AllLeads};

/// What differs between two stores at rest may be said by a payload, which leads from the one to the other.
pub fn differences_are_said()
    ensures { DifferencesAreSaid }
{}

/// What a delta says that a content doesn't is just what differs after it.
pub fn news_are_differences()
    ensures { NewsAreDifferences }
{}

/// What a delta of a class table says of a content are changes of it.
pub fn deltas_say_changes()
    ensures { DeltasSayChanges }
{}

/// What a payload says of a content comes to what the delta makes of it.
pub fn changes_are_made_as_deltas()
    ensures { ChangesAreMadeAsDeltas }
{}

/// Payloads lead from a content of a class table to another.
pub fn changes_keep_contents()
    ensures { ChangesKeepContents }
{}

/// All that a content holds is what differs between the empty content and it.
pub fn all_is_what_differs()
    ensures { AllIsWhatDiffers }
{}

/// All that a store at rest holds may be said by a payload of the empty content, and leads from that to it.
pub fn all_is_said()
    ensures { AllIsSaid }
{}

/// The one payload that says all that a store at rest holds leads from the empty content to it.
pub fn all_leads()
    ensures { AllLeads }
{}
