//! The reading of the words.
ghost use Rattle.std.specs.Prelude.{◌≡◌, ◌≢◌, None, Some, IfOk, IsErrOf, MatchResult, map, option_map, string_bytes};
ghost use Rattle.clap.specs.Words.{first_of, found_of, rows_of};
ghost use Rattle.ob_words.specs.Settings.{lanes, setting_of};
ghost use Rattle.ob_words.specs.Asked.{asked_in, asked_of, asked_with, command_of, command_of_one, command_of_two, limits_of};
ghost use Rattle.ob_words.specs.Asked.{Asked as AskedOf};
ghost use Rattle.ob_words.specs.Written.{IsWritten};
ghost use Rattle.ob_words.specs.AskedView.{asked_view, command_view, limits_view};

use crate::asked::{Asked, Command, Limits, WordsError};
use crate::command_line::command_line;
use crate::number::{number_in, number_or};
use clap::ArgMatches;
use clap::error::ErrorKind;
use ob_base::{
    DEFAULT_FUEL, DEFAULT_LANES, DEFAULT_SLICE, LONGEST_TRIAL, MOST_FUEL, MOST_LANES, MOST_SLICE,
};
use std::alloc::Global;

// The command that is a word with one word after it.
fn command_of_one<'a>(word: &str, one: &'a str) -> Option<Command<'a>>
    ensures { option_map command_view result ≡ command_of_one word.now one.entry.now }
{
    match word {
        "check" => Some(Command::Check(one)),
        "serve" => Some(Command::Serve(one)),
        "trial" => match number_in(one, 0, LONGEST_TRIAL) {
            Some(length) => Some(Command::Trial(length)),
            None => None,
        },
        _ => None,
    }
}

// The command that is a word with two words after it.
fn command_of_two<'a>(word: &str, one: &'a str, two: &'a str) -> Option<Command<'a>>
    ensures { option_map command_view result ≡ command_of_two word.now one.entry.now two.entry.now }
{
    match word {
        "serve" => Some(Command::ServeStored(one, two)),
        "audit" => Some(Command::Audit(one, two)),
        _ => None,
    }
}

// The command that is a word with these words after it.
fn command_of<'a>(word: &str, words: &[&'a str]) -> Option<Command<'a>>
    ensures { option_map command_view result ≡ command_of word.now (map (λ w. w.now) words.now) }
{
    match words {
        [one] => command_of_one(word, one),
        [one, two] => command_of_two(word, one, two),
        _ => None,
    }
}

// The lanes, by the value of their option.
fn lanes_of(given: Option<&str>) -> Option<u8>
    ensures { result ≡ setting_of lanes (option_map (λ text. text.now) given.entry) }
{
    let lanes = number_or(given, MOST_LANES, DEFAULT_LANES)?;
    u8::try_from(lanes).ok()
}

/// The settings, by the values of their options.
pub fn limits_of(fuel: Option<&str>, lanes: Option<&str>, slice: Option<&str>) -> Option<Limits>
    ensures { option_map limits_view result ≡ limits_of (option_map (λ text. text.now) fuel.entry)
        (option_map (λ text. text.now) lanes.entry) (option_map (λ text. text.now) slice.entry) }
{
    let fuel = number_or(fuel, MOST_FUEL, DEFAULT_FUEL)?;
    let lanes = lanes_of(lanes)?;
    let slice = number_or(slice, MOST_SLICE, DEFAULT_SLICE)?;
    Some(Limits { fuel, lanes, slice })
}

// What is asked, by the settings, the word for the command and the words after it.
fn asked_with<'a>(
    limits: Option<Limits>,
    word: Option<&str>,
    words: Option<&[&'a str]>,
) -> Option<Asked<'a>>
    ensures { option_map asked_view result ≡ asked_with (option_map limits_view limits)
        (option_map (λ text. text.now) word.entry) (option_map (λ s. map (λ v. v.now) s.now) words.entry) }
{
    let limits = limits?;
    let command = command_of(word?, words?)?;
    Some(Asked { command, limits })
}

/// The value of an option, or the word for the command.
pub fn value_in<'a>(matches: &ArgMatches<'a>, name: &str) -> Option<&'a str>
    ensures { option_map (λ text. text.now) result ≡ first_of name.now (rows_of (found_of matches.now)) }
{
    matches.get_str(name)
}

// What the matches ask for.
fn asked_in<'a>(matches: &ArgMatches<'a>) -> Option<Asked<'a>>
    ensures { option_map asked_view result ≡ asked_in (rows_of (found_of matches.now)) }
{
    let limits = limits_of(
        value_in(matches, "fuel"),
        value_in(matches, "lanes"),
        value_in(matches, "slice"),
    );
    asked_with(
        limits,
        value_in(matches, "command"),
        matches.get_strs("words"),
    )
}

/// What an error of `clap` says of the words.
pub fn refusal(kind: ErrorKind) -> WordsError
    ensures { result ≡ WordsError.Usage → kind ≢ ErrorKind.OutOfMemory }
{
    match kind {
        ErrorKind::OutOfMemory => WordsError::Memory,
        _ => WordsError::Usage,
    }
}

fn read_words<'a>(alloc: Global, words: &'a [String]) -> Result<Asked<'a>, WordsError>
    ensures ok { IfOk result (λ asked. asked_of (map string_bytes words.now) ≡ Some (asked_view asked)) }
    ensures usage { IsErrOf result WordsError.Usage → asked_of (map string_bytes words.now) ≡ None }
{
    let command = command_line(alloc)?;
    match command.try_get_matches_from(words) {
        Ok(matches) => match asked_in(&matches) {
            Some(asked) => Ok(asked),
            None => Err(WordsError::Usage),
        },
        Err(error) => Err(refusal(error.kind())),
    }
}

/// What the words ask for, of which the program's own name is none: `Usage` where they are no command, which a request for help isn't
/// either. Words that are written as the table has them are taken, unless memory runs out.
pub fn parse_words<'a>(alloc: Global, words: &'a [String]) -> Result<Asked<'a>, WordsError>
    ensures ok { IfOk result (λ asked. asked_of (map string_bytes words.now) ≡ Some (asked_view asked)) }
    ensures usage { IsErrOf result WordsError.Usage → asked_of (map string_bytes words.now) ≡ None }
    ensures written { (asked : AskedOf) → IsWritten (map string_bytes words.now) asked
        → MatchResult result (λ a. asked_view a ≡ asked) (λ error. error ≡ WordsError.Memory) }
{
    read_words(alloc, words)
}
