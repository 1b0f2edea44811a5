//! Laws of the invocation by code.
ghost use Rattle.ob_machine_meaning.specs.Laws.{RequestsRun};

/// What an invocation by code runs is what the machine's entry for its request comes to.
pub fn requests_run()
    ensures { RequestsRun }
{}
