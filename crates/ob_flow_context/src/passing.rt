//! The parameters of a call, with `this` where it is one.
ghost use Rattle.std.specs.Prelude.{◌≡◌, ◌∷◌, ◌++◌, map, IfOk, OnOk};
ghost use Rattle.ob_silica_places.specs.Parameters.{parameter_of, parameters, all_parameters};
ghost use Rattle.ob_flow_context.specs.Parameters.{plain_parameters};

use ob_base::{ContractId, Items, Memory, Perm};
use ob_silica::Operand;
use ob_table::{Param, ResolvedType, Signature};
use std::alloc::Global;

/// A parameter, or `this`.
#[derive(Clone, Copy)]
pub struct Parameter {
    /// Its type, with the permission at the entry.
    pub of: ResolvedType,
    /// The permission at the exit.
    pub exit: Perm,
}

// Adds the parameters beside `this`.
#[tactic(auto, using(crate::proofs::ListLemmas::listing))]
fn add_parameters(all: &mut Items<Parameter>, params: &[Param]) -> Result<(), Memory>
    ensures { OnOk result (plain_parameters all.new ≡ plain_parameters all.old ++ map parameter_of params.now) }
{
    for param in params {
        all.push(Parameter {
            of: param.of,
            exit: param.exit,
        })?;
    }
    Ok(())
}

/// The parameters beside `this`.
pub fn parameters(alloc: Global, signature: &Signature) -> Result<Items<Parameter>, Memory>
    ensures { IfOk result (λ ps. plain_parameters ps ≡ parameters signature.now) }
{
    let mut all = Items::new(alloc);
    add_parameters(&mut all, signature.params.as_slice())?;
    Ok(all)
}

/// `this` of a transaction of a contract, and the parameters beside it.
pub fn all_parameters(
    alloc: Global,
    contract: ContractId,
    signature: &Signature,
) -> Result<Items<Parameter>, Memory>
    ensures { IfOk result (λ ps. plain_parameters ps ≡ all_parameters contract signature.now) }
{
    let mut all = Items::new(alloc);
    all.push(Parameter {
        of: ResolvedType::Reference(contract, signature.entry),
        exit: signature.exit,
    })?;
    add_parameters(&mut all, signature.params.as_slice())?;
    Ok(all)
}

/// A receiver and arguments as one list.
pub fn all_operands(
    alloc: Global,
    receiver: Operand,
    args: &[Operand],
) -> Result<Items<Operand>, Memory>
    ensures { IfOk result (λ os. os ≡ receiver ∷ args.now) }
{
    let mut all = Items::new(alloc);
    all.push(receiver)?;
    all.append(Items::from_slice(alloc, args)?)?;
    Ok(all)
}
