//! The least fault so far.
ghost use Rattle.std.specs.Prelude.{◌≡◌};
ghost use Rattle.ob_resolve_spec.specs.Least.{is_before, lesser};
ghost use Rattle.ob_resolve_sites.specs.Noted.{noted_if};

use ob_base::{ProgramFault, Span};

/// The fault of the least place so far, and of the least number there.
pub type Least = Option<ProgramFault>;

fn is_before(f: ProgramFault, g: ProgramFault) -> bool
    ensures { result ≡ is_before f g }
{
    f.span.start < g.span.start || (f.span.start == g.span.start && f.number < g.number)
}

fn lesser(least: Least, f: ProgramFault) -> Least
    ensures { result ≡ lesser least f }
{
    match least {
        None => Some(f),
        Some(g) => { if is_before(f, g) { Some(f) } else { Some(g) } }
    }
}

/// Notes the fault of this number where it holds.
pub fn note_if(least: &mut Least, holds: bool, number: u16, span: Span)
    ensures { least.new ≡ noted_if least.old holds number span }
{
    if holds {
        *least = lesser(*least, ProgramFault { number, span });
    }
}
