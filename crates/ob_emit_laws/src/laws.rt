//! The laws of emitted images.
ghost use Rattle.ob_emit_laws.specs.Laws.{EmittedTablesAgree, InvocationsIgnoreNames, EmittedJumpsLeadAheadOrToUnit};

/// The class table that an emitted image gives is that of the program, but for what no image has: names of parameters, the fields
/// that transactions list, and bodies.
pub fn emitted_tables_agree()
    ensures { EmittedTablesAgree }
{}

/// What a request comes to, whatever a `new` and a `call` do, doesn't depend on what no image has.
pub fn invocations_ignore_names()
    ensures { InvocationsIgnoreNames }
{}

/// Each jump of an emitted image leads ahead, or to the `unit` of a loop's next turn, so that no run of it lasts longer than its units
/// and its longest body say.
pub fn emitted_jumps_lead_ahead_or_to_unit()
    ensures { EmittedJumpsLeadAheadOrToUnit }
{}
