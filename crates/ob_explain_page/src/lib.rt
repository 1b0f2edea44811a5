//! What is told a person of a program's text: an explanation in words, the line of the text that it is about, and a page on
//! which both stand, which has a bound whatever the text is.
#![tactic(auto)]

mod excerpt;
mod explanation;
mod lacking;
mod page;
mod words;

pub use excerpt::{put_excerpt, shown_at};
pub use explanation::{Explanation, Words, put_place};
pub use lacking::{CALLER, EVENTS, FRACTIONS, REQUIRED, TIME, VARIABLE};
pub use page::{MOST_COLUMNS, MOST_LINES, Page};
pub use words::{Hint, Nearest, hint_for, word_of};
