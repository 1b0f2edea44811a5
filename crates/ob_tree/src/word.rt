//! The words of permissions.
ghost use Rattle.std.specs.Prelude.{◌≡◌};
ghost use Rattle.ob_tree.specs.Words.{word_of_mode};

use ob_base::Mode;
use ob_lexer::Word;

/// Every mode.
pub const MODES: [Mode; 3] = [Mode::Owned, Mode::Shared, Mode::Unowned];

/// The word of a mode.
pub fn word_of_mode(mode: Mode) -> Word
    ensures { result ≡ word_of_mode mode }
{
    match mode {
        Mode::Owned => Word::Owned,
        Mode::Shared => Word::Shared,
        Mode::Unowned => Word::Unowned,
    }
}
