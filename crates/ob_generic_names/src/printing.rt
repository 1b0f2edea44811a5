//! Printed names: the tokens of a type, without blanks between them.
ghost use Rattle.std.specs.Prelude.{◌≡◌, ◌++◌, OnOk, IfOk};
ghost use Rattle.ob_generic_spec.specs.Substitution.{printed_mode, printed_more, printed_perm, printed_name};
ghost use Rattle.ob_tree.specs.declared.name.PermNode.TheVariants.{States};

use ob_base::{Items, Memory, Mode, Text};
use ob_generic_spec::Argument;
use ob_tree::{NamePart, PermNode};
use std::alloc::Global;

fn put_bytes(bytes: &[u8], alloc: Global, out: &mut Items<u8>) -> Result<(), Memory>
    ensures { OnOk result (out.new ≡ out.old ++ bytes.now) }
{
    out.append(Items::from_slice(alloc, bytes)?)?;
    Ok(())
}

fn put_mode(mode: Mode, alloc: Global, out: &mut Items<u8>) -> Result<(), Memory>
    ensures { OnOk result (out.new ≡ out.old ++ printed_mode mode) }
{
    match mode {
        Mode::Owned => put_bytes(b"Owned", alloc, out),
        Mode::Shared => put_bytes(b"Shared", alloc, out),
        Mode::Unowned => put_bytes(b"Unowned", alloc, out),
    }
}

/// The word of a mode as a text.
pub fn mode_text(mode: Mode, alloc: Global) -> Result<Text, Memory>
    ensures { IfOk result (λ text. text ≡ printed_mode mode) }
{
    let mut word = Items::new(alloc);
    put_mode(mode, alloc, &mut word)?;
    match Text::of(alloc, word.as_slice()) {
        Ok(text) => Ok(text),
        Err(_) => Err(Memory),
    }
}

// Each state after its `|`.
#[tactic(auto, using(crate::proofs::Turns::turns))]
fn put_more(states: &[NamePart], alloc: Global, out: &mut Items<u8>) -> Result<(), Memory>
    ensures { OnOk result (out.new ≡ out.old ++ printed_more states.now) }
{
    for state in states {
        put_bytes(b"|", alloc, out)?;
        put_bytes(state.name.as_bytes(), alloc, out)?;
    }
    Ok(())
}

#[tactic(auto, using(crate::proofs::Turns::turns))]
fn put_states(states: &[NamePart], alloc: Global, out: &mut Items<u8>) -> Result<(), Memory>
    ensures { OnOk result (out.new ≡ out.old ++ printed_perm (States states.now)) }
{
    match states {
        [] => Ok(()),
        [first, more @ ..] => {
            put_bytes(first.name.as_bytes(), alloc, out)?;
            put_more(more, alloc, out)
        }
    }
}

fn put_perm(perm: &PermNode, alloc: Global, out: &mut Items<u8>) -> Result<(), Memory>
    ensures { OnOk result (out.new ≡ out.old ++ printed_perm perm.now) }
{
    match perm {
        PermNode::Mode(mode, _) => put_mode(*mode, alloc, out),
        PermNode::States(states) => put_states(states.as_slice(), alloc, out),
    }
}

/// The bytes of a name with an argument: `name[of@perm]`.
#[tactic(auto, using(crate::proofs::Turns::turns))]
pub fn printed_name(name: &[u8], alloc: Global, argument: &Argument) -> Result<Items<u8>, Memory>
    ensures { IfOk result (λ bytes. bytes ≡ printed_name name.now argument.now) }
{
    let mut bytes = Items::from_slice(alloc, name)?;
    put_bytes(b"[", alloc, &mut bytes)?;
    put_bytes(argument.of.name.as_slice(), alloc, &mut bytes)?;
    put_bytes(b"@", alloc, &mut bytes)?;
    put_perm(&argument.perm, alloc, &mut bytes)?;
    put_bytes(b"]", alloc, &mut bytes)?;
    Ok(bytes)
}
