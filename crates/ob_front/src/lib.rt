//! From a program's text to the program, stage by stage, or to its first fault.
#![tactic(auto)]

mod checking;
mod lowering;
mod programs;
mod seen;
mod stages;

pub use checking::next_fault;
pub use programs::{
    Compiled, LoweredProgram, accepted_texts_are_compiled, accepted_texts_are_sound,
    accepted_texts_have_sound_code, check_program, checked_programs_have_sound_images, compile,
    lowered, never_accepted_and_faulty, one_text_fault,
};
pub use seen::{AskedProgram, Seen};
pub use stages::{CompileError, class_table, one_class_table, syntax_tree, table_or_table_fault};
