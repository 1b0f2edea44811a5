//! The words of the command line: what they ask for. `clap` reads them, as one command without subcommands: three options, a word for
//! the command, and words after it. Which words are a command is then a table.
#![tactic(auto)]

mod asked;
mod command_line;
mod further;
mod help;
mod laws;
mod number;
mod reading;

pub use asked::{Asked, Command, Limits, WordsError};
pub use further::{AskedFurther, Further, MOST_INDEX, MOST_SERIAL, Position, parse_further};
pub use help::help_text;
pub use laws::{
    commands_are_not_further, further_words_are_worked_out, other_words_are_none,
    other_words_are_not_further, words_are_worked_out, written_words_are_asked,
};
pub use number::number_in;
pub use reading::parse_words;
