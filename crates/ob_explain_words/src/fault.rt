//! What is wrong with the words.

use crate::parts::{Given, Parts, SETTINGS, Setting, setting_named};
use ob_base::LONGEST_TRIAL;
use ob_explain_page::{Explanation, Nearest};
use ob_words::number_in;

/// A command: its word, how many words stand after it, and how it is written.
#[derive(Clone, Copy)]
struct CommandHelp {
    // The word.
    word: &'static str,
    // The fewest words after it.
    least: usize,
    // The most.
    most: usize,
    // What is said of how it is written.
    help: &'static str,
}

/// The commands.
const FORMS: [CommandHelp; 4] = [
    CommandHelp {
        word: "check",
        least: 1,
        most: 1,
        help: "write `check P`: P is the file with the program's text.",
    },
    CommandHelp {
        word: "serve",
        least: 1,
        most: 2,
        help: "write `serve P` or `serve P STORE`: P is the file with the program's text, STORE the file in which its store is kept.",
    },
    CommandHelp {
        word: "audit",
        least: 2,
        most: 2,
        help: "write `audit P STORE`: P is the file with the program's text, STORE the file in which its store is kept.",
    },
    CommandHelp {
        word: "trial",
        least: 1,
        most: 1,
        help: "write `trial N`: N is the length of the trial.",
    },
];

/// The words of commands that are named, and can't be used yet.
const UNBUILT: [&str; 6] = ["upgrade", "ship", "follow", "build", "exec", "plan"];

/// What is said where no word is near.
const COMMANDS: &str =
    "the commands are `check P`, `serve P`, `serve P STORE`, `audit P STORE` and `trial N`; `--help` tells more.";

const OPTIONS: &str =
    "the options are `--fuel UNITS`, `--lanes LANES` and `--slice UNITS`; after the word `--` a name may begin with `-`.";

// Which values an option has.
fn help_value(told: &mut Explanation, setting: Setting) {
    told.help.put("its value is a whole number from 1 to ");
    told.help.put_number(u64::from(setting.most));
    told.help.put(", in decimal digits.");
}

// What is near, or else what there is.
fn help_near(told: &mut Explanation, near: Option<&str>, others: &str) {
    match near {
        Some(name) => told.help.put_with("did you mean `{}`?", &[name]),
        None => told.help.put(others),
    }
}

// An option that isn't there.
fn say_unknown_option(told: &mut Explanation, name: &str) {
    told.what.put_with("`{}` is no option", &[name]);
    let mut nearest = Nearest::to(name.as_bytes());
    for setting in SETTINGS.iter() {
        nearest.see(setting.name.as_bytes());
    }
    nearest.see(b"--help");
    help_near(told, nearest.found(), OPTIONS);
}

// The value of an option, if it is wrong.
fn say_value(told: &mut Explanation, setting: Setting, value: Option<&str>) {
    match value {
        Some(word) if number_in(word, 1, setting.most).is_some() => return,
        Some(word) => {
            told.what.put_with("`{}` is no value of ", &[word]);
            told.what.put_with("`{}`", &[setting.name]);
        }
        None => told.what.put_with("`{}` has no value", &[setting.name]),
    }
    help_value(told, setting);
}

// An option, if it is wrong.
fn say_option(told: &mut Explanation, given: Given<'_>) {
    match setting_named(given.name) {
        Some(setting) => say_value(told, setting, given.value),
        None => say_unknown_option(told, given.name),
    }
}

// Whether one of these options has this name.
fn is_given(given: &[Given<'_>], name: &str) -> bool {
    for other in given {
        if other.name == name {
            return true;
        }
    }
    false
}

// The first option that is wrong, or that was given before.
fn say_options(told: &mut Explanation, given: &[Given<'_>]) {
    for (place, one) in given.iter().enumerate() {
        if is_given(&given[..place], one.name) {
            told.what.put_with("`{}` is given twice", &[one.name]);
            told.help.put("give it once.");
            return;
        }
        say_option(told, *one);
        if !told.what.is_empty() {
            return;
        }
    }
}

// Whether the word is that of a command which isn't built.
fn is_unbuilt(word: &str) -> bool {
    for other in UNBUILT.iter() {
        if *other == word {
            return true;
        }
    }
    false
}

// A command that isn't built.
fn say_unbuilt(told: &mut Explanation, word: &str) {
    told.what.put_with("`{}` isn't built yet", &[word]);
    told.help.put(COMMANDS);
}

// A word that is no command.
fn say_unknown_command(told: &mut Explanation, word: &str) {
    told.what.put_with("`{}` is no command", &[word]);
    let mut nearest = Nearest::to(word.as_bytes());
    for form in FORMS.iter() {
        nearest.see(form.word.as_bytes());
    }
    help_near(told, nearest.found(), COMMANDS);
}

// The words after a command, if they are wrong.
fn say_names(told: &mut Explanation, form: CommandHelp, names: &[&str]) {
    match names.get(form.most) {
        Some(name) => {
            told.what
                .put_with("`{}` is one word too many after ", &[*name]);
            told.what.put_with("`{}`", &[form.word]);
        }
        None if names.len() < form.least => told
            .what
            .put_with("after `{}` a word is missing", &[form.word]),
        None => return,
    }
    told.help.put(form.help);
}

// The length of a trial, if it is wrong.
fn say_length(told: &mut Explanation, names: &[&str]) {
    if let [length] = names {
        if number_in(length, 0, LONGEST_TRIAL).is_none() {
            told.what
                .put_with("`{}` is no length of a trial", &[*length]);
            told.help.put("it is a whole number from 0 to ");
            told.help.put_number(u64::from(LONGEST_TRIAL));
            told.help.put(", in decimal digits.");
        }
    }
}

// The command of a word.
fn form_of(word: &str) -> Option<CommandHelp> {
    for form in FORMS.iter() {
        if form.word == word {
            return Some(*form);
        }
    }
    None
}

// The command and the words after it, if they are wrong.
fn say_command(told: &mut Explanation, word: &str, names: &[&str]) {
    if is_unbuilt(word) {
        return say_unbuilt(told, word);
    }
    let Some(form) = form_of(word) else {
        return say_unknown_command(told, word);
    };
    say_names(told, form, names);
    if word == "trial" && told.what.is_empty() {
        say_length(told, names);
    }
}

// The words that are no options, if they are wrong.
fn say_plain(told: &mut Explanation, plain: &[&str]) {
    match plain {
        [word, names @ ..] => say_command(told, word, names),
        [] => {
            told.what.put("there is no word for a command");
            told.help.put(COMMANDS);
        }
    }
}

/// Says what is wrong with words that are no command, the first thing of an option, or else of the other words.
pub fn say_fault(told: &mut Explanation, parts: &Parts<'_>) {
    say_options(told, parts.given.as_slice());
    if told.what.is_empty() {
        say_plain(told, parts.plain.as_slice());
    }
    if told.what.is_empty() {
        told.what.put("these words are no command");
        told.help.put(COMMANDS);
    }
}
