//! The owner's mode.
ghost use Rattle.std.specs.Prelude.{◌≡◌};
ghost use Rattle.ob_rest_spec.specs.Modes.{is_owned};

use ob_base::Mode;

/// Whether it is the owner's mode.
pub fn is_owned(mode: Mode) -> bool
    ensures { result ≡ is_owned mode }
{
    match mode {
        Mode::Owned => true,
        Mode::Shared | Mode::Unowned => false,
    }
}
