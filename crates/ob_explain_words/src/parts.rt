//! The words of a command line, taken apart.

use ob_base::{MOST_FUEL, MOST_LANES, MOST_SLICE, Memory};
use std::alloc::Global;

/// An option with a value.
#[derive(Clone, Copy)]
pub struct Setting {
    /// The word.
    pub name: &'static str,
    /// The greatest value; 1 is the least.
    pub most: u32,
}

/// The options with a value.
pub const SETTINGS: [Setting; 3] = [
    Setting {
        name: "--fuel",
        most: MOST_FUEL,
    },
    Setting {
        name: "--lanes",
        most: MOST_LANES,
    },
    Setting {
        name: "--slice",
        most: MOST_SLICE,
    },
];

/// The option of a name.
pub fn setting_named(name: &str) -> Option<Setting> {
    for setting in SETTINGS.iter() {
        if setting.name == name {
            return Some(*setting);
        }
    }
    None
}

/// An option that was given.
#[derive(Clone, Copy)]
pub struct Given<'a> {
    /// Its word, without a value.
    pub name: &'a str,
    /// Its value, if one stands after it.
    pub value: Option<&'a str>,
}

/// The words, taken apart.
#[derive(Drop)]
pub struct Parts<'a> {
    /// The options.
    pub given: Vec<Given<'a>>,
    /// The other words: the one for the command, and those after it.
    pub plain: Vec<&'a str>,
    // Whether the next word is the value of the last option.
    waits: bool,
    // Whether no more options come.
    ended: bool,
}

// Whether it stands where an option does. A lone `-` is a name.
fn is_option(word: &str) -> bool {
    word.len() > 1 && matches!(word.as_bytes(), [b'-', ..])
}

impl<'a> Parts<'a> {
    // The value of the last option.
    fn take_value(&mut self, word: &'a str) {
        self.waits = false;
        if let Some(last) = self.given.last_mut() {
            last.value = Some(word);
        }
    }

    // An option, maybe with its value after `=`.
    fn take_option(&mut self, word: &'a str) -> Result<(), Memory> {
        let (name, value) = match word.split_once("=") {
            Some((name, value)) => (name, Some(value)),
            None => (word, None),
        };
        self.waits = value.is_none() && setting_named(name).is_some();
        self.given.push(Given { name, value })?;
        Ok(())
    }

    fn take(&mut self, word: &'a str) -> Result<(), Memory> {
        if self.waits && !is_option(word) {
            self.take_value(word);
            return Ok(());
        }
        self.waits = false;
        if self.ended || !is_option(word) {
            self.plain.push(word)?;
            return Ok(());
        }
        if word == "--" {
            self.ended = true;
            return Ok(());
        }
        self.take_option(word)
    }

    /// The parts of these words.
    pub fn of(alloc: Global, words: &'a [String]) -> Result<Parts<'a>, Memory> {
        let mut parts = Parts {
            given: Vec::new(alloc),
            plain: Vec::new(alloc),
            waits: false,
            ended: false,
        };
        for word in words {
            parts.take(word.as_str())?;
        }
        Ok(parts)
    }

    /// Whether help is asked for.
    pub fn asks_for_help(&self) -> bool {
        for given in self.given.as_slice() {
            if given.name == "--help" || given.name == "-h" {
                return true;
            }
        }
        false
    }
}
