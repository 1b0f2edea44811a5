//! Names of things that are declared.
ghost use Rattle.std.specs.Prelude.{◌≡◌};

use ob_base::Span;
use ob_tree::NamePart;
use std::marker::Model;

/// The name of a thing that is declared, and where it stands.
#[derive(Drop)]
pub struct DeclaredName<'a> {
    name: &'a [u8],
    span: Span,
}

impl<'a> Model for DeclaredName<'a> {
    ghost use Rattle.ob_tree.specs.declared.name.NamePart.{NamePart};

    ghost Value = { NamePart };

    ghost view = { λ d. record { name = d.name.now; span = d.span } };
}

impl<'a> DeclaredName<'a> {
    /// The name at this place.
    pub fn new(name: &'a [u8], span: Span) -> DeclaredName<'a>
        ensures { result ≡ record { name = name.now; span = span } }
    {
        DeclaredName { name, span }
    }

    /// The name and its place, as they are written.
    pub fn of_part(part: &'a NamePart) -> DeclaredName<'a>
        ensures { result ≡ part.now }
    {
        DeclaredName {
            name: part.name.as_bytes(),
            span: part.span,
        }
    }

    /// The name.
    pub fn name(&self) -> &'a [u8]
        ensures { result.now ≡ self.now.name }
    {
        self.name
    }

    /// The place of the name alone.
    pub fn span(&self) -> Span
        ensures { result ≡ self.now.span }
    {
        self.span
    }
}
