//! The constructor that a contract writes (Coblenz et al., TOPLAS 42(3), 2020, "Constructors").
ghost use Rattle.std.specs.Prelude.{◌≡◌, map, flat_map, option_map, slice_get};
ghost use Rattle.ob_tree.specs.MembersView.{member_of, contract_of};
ghost use Rattle.ob_resolve_spec.specs.Declarations.{constructors_of_member, constructors_of};
ghost use Rattle.ob_resolve_table.specs.Parts.{constructor_written, first_constructor};

use ob_resolve_scope::AroundBody;
use ob_tree::{Block, FormalNode, Member, NamedNode, PermNode};

/// A constructor, as it is written.
#[derive(Clone, Copy)]
pub struct Written<'a> {
    /// The name before `@`, which is that of the contract.
    pub of: &'a NamedNode,
    /// The permission after `@`, which the caller gets.
    pub perm: &'a PermNode,
    /// The parameters in parentheses.
    pub params: &'a [FormalNode],
    /// The block after them.
    pub body: &'a Block,
}

// The member, if it is a constructor of the contract of this name.
#[tactic(auto, using(ob_resolve_scope::proofs::TypesLemmas::kinds))]
fn written_as<'a>(member: &'a Member, name: &[u8]) -> Option<Written<'a>>
    ensures { option_map constructor_written result ≡ first_constructor name.now
        (constructors_of_member (member_of member.now)) }
{
    match member {
        Member::Constructor {
            of,
            perm,
            params,
            body,
            ..
        } => {
            if of.name.as_bytes() == name {
                Some(Written {
                    of,
                    perm,
                    params: params.as_slice(),
                    body,
                })
            } else {
                None
            }
        }
        _ => None,
    }
}

// The first constructor among the members of the contract of this name.
#[tactic(auto, using(crate::proofs::TableLemmas::constructors_turn))]
fn first_constructor<'a>(members: &'a [Member], name: &[u8]) -> Option<Written<'a>>
    ensures { option_map constructor_written result ≡ first_constructor name.now
        (flat_map constructors_of_member (map member_of members.now)) }
{
    for member in members {
        if let Some(written) = written_as(member, name) {
            return Some(written);
        }
    }
    None
}

/// The first constructor that the contract around writes.
pub fn written_constructor<'a>(around: &AroundBody<'a>) -> Option<Written<'a>>
    ensures { option_map constructor_written result ≡ slice_get (constructors_of (contract_of around.now.own)) 0 }
{
    let node = around.node();
    first_constructor(node.members.as_slice(), node.name.as_bytes())
}
