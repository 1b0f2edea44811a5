//! What a store is by a class table without what no image has.
ghost use Rattle.ob_store_table_laws.specs.Laws.{ContentsIgnoreNames, RestIgnoresNames, FailingIgnoresNames, FirstFailingIgnoresNames, PayloadsIgnoreNames, DifferencesIgnoreNames, WholesIgnoreNames, ChangesIgnoreNames, SayingIgnoresNames, LeadingIgnoresNames, StoresIgnoreNames, RefusalsIgnoreNames, SettlingIgnoresNames};

/// Contents, stores, what payloads say and what a disk represents don't depend on what no image has: names of parameters, the
/// fields that transactions list, and bodies.
pub fn stores_ignore_names()
    ensures contents { ContentsIgnoreNames }
    ensures rest { RestIgnoresNames }
    ensures failing { FailingIgnoresNames }
    ensures first_failing { FirstFailingIgnoresNames }
    ensures payloads { PayloadsIgnoreNames }
    ensures differences { DifferencesIgnoreNames }
    ensures wholes { WholesIgnoreNames }
    ensures changes { ChangesIgnoreNames }
    ensures saying { SayingIgnoresNames }
    ensures leading { LeadingIgnoresNames }
    ensures stores { StoresIgnoreNames }
    ensures refusals { RefusalsIgnoreNames }
    ensures settling { SettlingIgnoresNames }
{}
