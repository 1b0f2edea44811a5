//! The further commands: what their words ask for, and how the words are read.
ghost use Rattle.std.specs.Prelude.{◌≡◌, None, Some, IfOk, map, option_map, string_bytes};
ghost use Rattle.clap.specs.Words.{found_of, rows_of};
ghost use Rattle.ob_words.specs.AskedView.{limits_view};
ghost use Rattle.ob_words.specs.Further.{further_in, further_of, further_of_four, further_of_one, further_of_three, further_of_two, further_of_words, further_with, position_of};
ghost use Rattle.ob_words.specs.FurtherView.{asked_further_view, further_view, position_view};

use crate::asked::{Limits, WordsError};
use crate::command_line::command_line;
use crate::number::long_number_in;
use crate::reading::{limits_of, refusal, value_in};
use clap::ArgMatches;
use ob_base::Memory;
use std::alloc::Global;

/// The greatest serial of an area.
pub const MOST_SERIAL: u64 = 0x7fff_ffff_ffff_ffff;

/// The greatest number of a record in its area.
pub const MOST_INDEX: u64 = 0xffff_ffff;

/// A place in the records of a store (this project's own).
#[derive(Clone, Copy)]
pub struct Position {
    /// The serial of an area, from 1 to `MOST_SERIAL`.
    pub serial: u64,
    /// The number of a record in it, from 0 to `MOST_INDEX`.
    pub index: u64,
}

/// What a further command does, and with which files (this project's own).
#[derive(Clone, Copy)]
pub enum Further<'a> {
    /// The store on a disk, the third, goes over from the program in a file, the first, to that in another, the second.
    Upgrade(&'a str, &'a str, &'a str),
    /// The records of the store on a disk, the second, are written for the program in a file, the first; those from a position on,
    /// if there is one.
    Ship(&'a str, &'a str, Option<Position>),
    /// The records that are given are kept in the store on a disk, the second, for the program in a file, the first.
    Follow(&'a str, &'a str),
    /// The program in a file is written as one that others can check.
    Build(&'a str),
    /// The program in a built file is served over a store in memory.
    Exec(&'a str),
    /// The program in a built file, the first, is served over the store on a disk, the second.
    ExecStored(&'a str, &'a str),
    /// A script in a file, the second, is held against the program in a file, the first.
    Plan(&'a str, &'a str),
}

/// A further command, and the settings of the session that it begins. A command that begins none has them all the same.
#[derive(Clone, Copy)]
pub struct AskedFurther<'a> {
    /// What is done.
    pub further: Further<'a>,
    /// The settings: those that are given, and else the defaults.
    pub limits: Limits,
}

// The position that two words write.
fn position_of(serial: &str, index: &str) -> Option<Position>
    ensures { option_map position_view result ≡ position_of serial.now index.now }
{
    let serial = long_number_in(serial, 1, MOST_SERIAL)?;
    let index = long_number_in(index, 0, MOST_INDEX)?;
    Some(Position { serial, index })
}

// The further command that is a word with one word after it.
fn further_of_one<'a>(word: &str, one: &'a str) -> Option<Further<'a>>
    ensures { option_map further_view result ≡ further_of_one word.now one.entry.now }
{
    match word {
        "build" => Some(Further::Build(one)),
        "exec" => Some(Further::Exec(one)),
        _ => None,
    }
}

// The further command that is a word with two words after it.
fn further_of_two<'a>(word: &str, one: &'a str, two: &'a str) -> Option<Further<'a>>
    ensures { option_map further_view result ≡ further_of_two word.now one.entry.now two.entry.now }
{
    match word {
        "ship" => Some(Further::Ship(one, two, None)),
        "follow" => Some(Further::Follow(one, two)),
        "exec" => Some(Further::ExecStored(one, two)),
        "plan" => Some(Further::Plan(one, two)),
        _ => None,
    }
}

// The further command that is a word with three words after it.
fn further_of_three<'a>(
    word: &str,
    one: &'a str,
    two: &'a str,
    three: &'a str,
) -> Option<Further<'a>>
    ensures { option_map further_view result ≡ further_of_three word.now one.entry.now two.entry.now three.entry.now }
{
    match word {
        "upgrade" => Some(Further::Upgrade(one, two, three)),
        _ => None,
    }
}

// The further command that is a word with four words after it.
fn further_of_four<'a>(
    word: &str,
    one: &'a str,
    two: &'a str,
    three: &str,
    four: &str,
) -> Option<Further<'a>>
    ensures { option_map further_view result ≡ further_of_four word.now one.entry.now two.entry.now three.now four.now }
{
    match word {
        "ship" => {
            let from = position_of(three, four)?;
            Some(Further::Ship(one, two, Some(from)))
        }
        _ => None,
    }
}

// The further command that is a word with these words after it.
fn further_of<'a>(word: &str, words: &[&'a str]) -> Option<Further<'a>>
    ensures { option_map further_view result ≡ further_of_words word.now (map (λ w. w.now) words.now) }
{
    match words {
        [one] => further_of_one(word, one),
        [one, two] => further_of_two(word, one, two),
        [one, two, three] => further_of_three(word, one, two, three),
        [one, two, three, four] => further_of_four(word, one, two, three, four),
        _ => None,
    }
}

// What is asked of a further command, by the settings, the word for the command and the words after it.
fn further_with<'a>(
    limits: Option<Limits>,
    word: Option<&str>,
    words: Option<&[&'a str]>,
) -> Option<AskedFurther<'a>>
    ensures { option_map asked_further_view result ≡ further_with (option_map limits_view limits)
        (option_map (λ text. text.now) word.entry) (option_map (λ s. map (λ v. v.now) s.now) words.entry) }
{
    let limits = limits?;
    let further = further_of(word?, words?)?;
    Some(AskedFurther { further, limits })
}

// What the matches ask of a further command.
fn further_in<'a>(matches: &ArgMatches<'a>) -> Option<AskedFurther<'a>>
    ensures { option_map asked_further_view result ≡ further_in (rows_of (found_of matches.now)) }
{
    let limits = limits_of(
        value_in(matches, "fuel"),
        value_in(matches, "lanes"),
        value_in(matches, "slice"),
    );
    further_with(
        limits,
        value_in(matches, "command"),
        matches.get_strs("words"),
    )
}

/// What the words ask for, of which the program's own name is none; `None` where they are no further command.
pub fn parse_further<'a>(
    alloc: Global,
    words: &'a [String],
) -> Result<Option<AskedFurther<'a>>, Memory>
    ensures { IfOk result (λ further. further_of (map string_bytes words.now) ≡ option_map asked_further_view further) }
{
    let command = command_line(alloc)?;
    match command.try_get_matches_from(words) {
        Ok(matches) => Ok(further_in(&matches)),
        Err(error) => match refusal(error.kind()) {
            WordsError::Memory => Err(Memory),
            WordsError::Usage => Ok(None),
        },
    }
}
