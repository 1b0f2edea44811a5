//! The command line, as `clap` takes it.
ghost use Rattle.std.specs.Prelude.{◌≡◌, false, IfOk};
ghost use Rattle.clap.specs.Words.{app_of, rule_of};
ghost use Rattle.ob_words.specs.CommandLine.{option_rule, command_rule, words_rule, bare_line, command_line};

use clap::{Arg, ArgAction, Command};
use std::alloc::{AllocError, Global};

/// What is said of each option.
const FUEL: &str = "Units of fuel that each request has, 1 to 200000 [default: 100000]";

const LANES: &str = "Lanes in which the requests of a batch run, 1 to 8 [default: 1]";

const SLICE: &str = "Units of fuel in a slice of a lane, 1 to 1000000 [default: 1000]";

/// The commands, with a line for each.
const COMMANDS: &str = "\
Commands:
  check P        Tell the first fault of the program text in the file P, or that it has none
  serve P        Serve the program in the file P over a store in memory, until the input ends
  serve P STORE  Serve the program in the file P over the store in the file STORE
  audit P STORE  Count what that store holds, and write nothing to it
  trial N        Answer the N + 1 request lines of the trial of length N, from 0 to 20000

Each line of standard input is a request, a JSON object, or a batch, an array of 1 to 64 requests.
Replies are written to standard output, each on a line of its own.";

// An option with one value.
fn option<'a>(alloc: Global, name: &'a str, help: &'a str) -> Arg<'a>
    ensures rule { rule_of result ≡ option_rule name.entry.now }
    ensures local { result.global ≡ false }
{
    Arg::new(alloc, name).long(name).help(help)
}

// The word for the command.
fn command_word<'a>(alloc: Global) -> Arg<'a>
    ensures rule { rule_of result ≡ command_rule }
    ensures local { result.global ≡ false }
{
    Arg::new(alloc, "command")
        .required(true)
        .help("What is done: check, serve, audit or trial")
}

// The words after it.
fn words_after<'a>(alloc: Global) -> Arg<'a>
    ensures rule { rule_of result ≡ words_rule }
    ensures local { result.global ≡ false }
{
    Arg::new(alloc, "words")
        .action(ArgAction::Append)
        .help("The names of its files, or its length")
}

// The command line without its options and words.
fn bare_line<'a>(alloc: Global) -> Command<'a>
    ensures { app_of result ≡ bare_line }
{
    Command::new(alloc, "obsidian")
        .no_binary_name(true)
        .about("Checks and serves programs of the Obsidian language")
        .after_help(COMMANDS)
}

/// The command line. What its help says isn't part of the definition.
pub fn command_line<'a>(alloc: Global) -> Result<Command<'a>, AllocError>
    ensures { IfOk result (λ command. app_of command ≡ command_line) }
{
    let fuel = option(alloc, "fuel", FUEL);
    let lanes = option(alloc, "lanes", LANES);
    let slice = option(alloc, "slice", SLICE);
    bare_line(alloc)
        .arg(fuel)?
        .arg(lanes)?
        .arg(slice)?
        .arg(command_word(alloc))?
        .arg(words_after(alloc))
}
