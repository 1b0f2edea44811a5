//! Names as words.

/// A name, or a part of a text, as a word.
pub fn word_of(bytes: &[u8]) -> &str {
    str::from_utf8(bytes).unwrap_or("?")
}

/// What is said of some words.
#[derive(Clone, Copy)]
pub struct Hint {
    /// The words.
    pub of: &'static [&'static str],
    /// What is said of each.
    pub help: &'static str,
}

/// What is said of a word; empty where nothing is.
pub fn hint_for(hints: &[Hint], word: &str) -> &'static str {
    for hint in hints {
        if hint.of.contains(&word) {
            return hint.help;
        }
    }
    ""
}

/// Whether two letters are the same but for their case.
fn is_alike(a: u8, b: u8) -> bool {
    a.eq_ignore_ascii_case(&b)
}

// How many letters two names have in common at their fronts.
fn common_front(a: &[u8], b: &[u8]) -> usize {
    a.iter()
        .zip(b.iter())
        .take_while(|pair| is_alike(*pair.0, *pair.1))
        .count()
}

// The same at their backs.
fn common_back(a: &[u8], b: &[u8]) -> usize {
    a.iter()
        .rev()
        .zip(b.iter().rev())
        .take_while(|pair| is_alike(*pair.0, *pair.1))
        .count()
}

// How far two names differ: the letters of the longer one that stand neither in a common front nor in a common back.
fn distance(a: &[u8], b: &[u8]) -> usize {
    let longer = a.len().max(b.len());
    let same = common_front(a, b).saturating_add(common_back(a, b));
    longer.saturating_sub(same.min(a.len().min(b.len())))
}

/// The name among some that is nearest to another one.
#[derive(Clone, Copy)]
pub struct Nearest<'a> {
    wanted: &'a [u8],
    found: Option<&'a [u8]>,
    far: usize,
}

impl<'a> Nearest<'a> {
    /// No name was looked at yet. One that differs by more than a third of its letters, and by more than two, isn't near.
    pub fn to(wanted: &'a [u8]) -> Nearest<'a> {
        Nearest::within(wanted, (wanted.len() / 3).max(2).min(wanted.len()))
    }

    /// The same, where one isn't near that differs by more than so many letters.
    pub fn within(wanted: &'a [u8], far: usize) -> Nearest<'a> {
        Nearest {
            wanted,
            found: None,
            far,
        }
    }

    /// Looks at one more name.
    pub fn see(&mut self, name: &'a [u8]) {
        let far = distance(self.wanted, name);
        if far < self.far || far == self.far && self.found.is_none() {
            self.found = Some(name);
            self.far = far;
        }
    }

    /// The nearest name, if one is near.
    pub fn found(self) -> Option<&'a str> {
        match self.found {
            Some(name) => Some(word_of(name)),
            None => None,
        }
    }
}
