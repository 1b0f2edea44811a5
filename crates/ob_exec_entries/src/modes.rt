//! Modes of handles.
ghost use Rattle.std.specs.Prelude.{◌≡◌};
ghost use Rattle.ob_invocation_spec.specs.Handles.{serves};
ghost use Rattle.ob_rest_spec.specs.Modes.{is_owned, is_shared, is_unowned};

use ob_base::Mode;

/// Whether it is the owner's mode.
pub fn is_owned(mode: Mode) -> bool
    ensures { result ≡ is_owned mode }
{
    matches!(mode, Mode::Owned)
}

/// Whether it is the mode of those that share the object.
pub fn is_shared(mode: Mode) -> bool
    ensures { result ≡ is_shared mode }
{
    matches!(mode, Mode::Shared)
}

/// Whether it is the mode of those that neither own nor share it.
pub fn is_unowned(mode: Mode) -> bool
    ensures { result ≡ is_unowned mode }
{
    matches!(mode, Mode::Unowned)
}

/// Whether a handle of the first mode serves where the second is wanted.
pub fn serves(has: Mode, wanted: Mode) -> bool
    ensures { result ≡ serves has wanted }
{
    match (has, wanted) {
        (Mode::Owned, _) => true,
        (Mode::Shared, Mode::Owned) => false,
        (Mode::Shared, Mode::Shared | Mode::Unowned) => true,
        (Mode::Unowned, Mode::Unowned) => true,
        (Mode::Unowned, Mode::Owned | Mode::Shared) => false,
    }
}
