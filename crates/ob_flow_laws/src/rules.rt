//! Laws of the permission rules.
ghost use Rattle.std.specs.Prelude.{◌≡◌, ◌↔◌, List, Option, None, Ok};
ghost use Rattle.ob_base.specs.declared.fault.Span.{Span};
ghost use Rattle.ob_table.specs.Tables.{ClassTable};
ghost use Rattle.ob_silica.specs.Terms.{SilicaForm, SilicaTerms, SilicaBody};
ghost use Rattle.ob_silica.specs.declared.place.Operand.{Operand};
ghost use Rattle.ob_flow_spec.specs.Premises.{Premise, first_failing};
ghost use Rattle.ob_flow_spec.specs.Contexts.{BodyFrame, Context, TestedPlaces};
ghost use Rattle.ob_flow_spec.specs.Returning.{returns_result};
ghost use Rattle.ob_flow_spec.specs.Deriving.{derive, derive_all};
ghost use Rattle.ob_flow_laws.specs.Laws.{HasOneOutcome, DerivesInTurn, at_return, MeetsExits};
ghost use Rattle.ob_flow_laws.specs.Premises.{Hold};
ghost use Rattle.ob_flow_laws.specs.Deriving.{Passes, PassesAll};

/// A body derives or has a flow fault, never both, and one fault at most.
pub fn one_outcome()
    ensures { (table : ClassTable) (body : SilicaBody) → HasOneOutcome table body }
{}

/// Terms derive exactly where a front part of them does, and the rest does from the context that it leaves; where the
/// front isn't passed, nothing is asked of the rest.
pub fn terms_in_turn()
    ensures { (b : BodyFrame) (ts : TestedPlaces) (front rest : SilicaTerms) (g : Context)
        → DerivesInTurn b ts front rest g }
{}

/// Where a return derives, what is known once the value was given and the tests around have ended meets each exit of the
/// body, and nothing that the body has no exit for owns an asset.
pub fn returns_meet_exits()
    ensures { (b : BodyFrame) (ts : TestedPlaces) (g : Context) (at : Span) (value : Option Operand)
        → first_failing (returns_result b ts g at value) ≡ None → MeetsExits b (at_return b ts g value) }
{}

/// Where no premise fails each of them holds, and the other way round.
pub fn premises_hold()
    ensures { (ps : List Premise) → (first_failing ps ≡ None) ↔ Hold ps }
{}

/// Where a form derives, what the rules ask of it holds, and it leaves what they say.
pub fn forms_pass()
    ensures { (b : BodyFrame) (ts : TestedPlaces) (form : SilicaForm) (at : Span) (g : Context) (left : Option Context)
        → derive b ts form at g ≡ Ok left → Passes b ts form at g left }
{}

/// Where terms derive, each form derives from what the one before it left, until one leaves nothing.
pub fn terms_pass()
    ensures { (b : BodyFrame) (ts : TestedPlaces) (terms : SilicaTerms) (g : Context) (left : Option Context)
        → derive_all b ts terms g ≡ Ok left → PassesAll b ts terms g left }
{}
