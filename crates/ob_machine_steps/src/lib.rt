//! The steps of the machine, said of plain data: its frames, one case for each instruction, how a run starts from an
//! entry, how it is run in slices, and how long it can last.
#![tactic(auto)]
