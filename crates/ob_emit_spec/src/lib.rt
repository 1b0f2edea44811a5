//! The code to which terms are emitted, the image of a program, and what it weighs, as plain data.
#![tactic(auto)]
