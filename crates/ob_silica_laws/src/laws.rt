//! Laws of Silica steps.
ghost use Rattle.std.specs.Prelude.{◌≡◌, ◌+◌, ℕ, List};
ghost use Rattle.ob_base.specs.declared.id.ContractId.{ContractId};
ghost use Rattle.ob_base.specs.declared.id.TxId.{TxId};
ghost use Rattle.ob_heap_spec.specs.Values.{Value};
ghost use Rattle.ob_heap_spec.specs.Worlds.{World};
ghost use Rattle.ob_silica_steps.specs.Configurations.{SilicaProgram, Configuration, Notes};
ghost use Rattle.ob_silica_steps.specs.Steps.{then_steps, steps};
ghost use Rattle.ob_silica_steps.specs.Starting.{started_call, started_new};
ghost use Rattle.ob_silica_laws.specs.Laws.{UnitsAddUp, ReadsGrow, ObjectsStay, IsOver, RunsEnd};

/// Units left and units taken add up to those that were there, after any number of steps and for each run from
/// outside; an aborted run has taken no more than were there.
pub fn units_add_up()
    ensures steps { (program : SilicaProgram) (n : ℕ) (c : Configuration) → UnitsAddUp c.world (steps program n c) }
    ensures calls { (program : SilicaProgram) (most : ℕ) (contract : ContractId) (tx : TxId) (n : ℕ) (args : List Value)
        (notes : Notes) (w : World)
        → UnitsAddUp w (then_steps (started_call program contract tx n args notes w) (steps program most)) }
    ensures news { (program : SilicaProgram) (most : ℕ) (contract : ContractId) (args : List Value) (notes : Notes)
        (w : World) → UnitsAddUp w (then_steps (started_new program contract args notes w) (steps program most)) }
{}

/// So many steps and then so many are their sum, and where no further step follows, more of them change nothing.
pub fn steps_are_enough()
    ensures add { (program : SilicaProgram) (n m : ℕ) (c : Configuration)
        → steps program (n + m) c ≡ then_steps (steps program n c) (steps program m) }
    ensures over { (program : SilicaProgram) (n m : ℕ) (c : Configuration)
        → IsOver (steps program n c) → steps program (n + m) c ≡ steps program n c }
{}

/// What was read stays read, also where the run aborts.
pub fn reads_grow()
    ensures steps { (program : SilicaProgram) (n : ℕ) (c : Configuration) → ReadsGrow c.world (steps program n c) }
    ensures calls { (program : SilicaProgram) (most : ℕ) (contract : ContractId) (tx : TxId) (n : ℕ) (args : List Value)
        (notes : Notes) (w : World)
        → ReadsGrow w (then_steps (started_call program contract tx n args notes w) (steps program most)) }
    ensures news { (program : SilicaProgram) (most : ℕ) (contract : ContractId) (args : List Value) (notes : Notes)
        (w : World) → ReadsGrow w (then_steps (started_new program contract args notes w) (steps program most)) }
{}

/// No object goes away or becomes one of another contract, no mark is taken off, and what the steps make comes after all
/// that was there.
pub fn objects_stay()
    ensures steps { (program : SilicaProgram) (n : ℕ) (c : Configuration) → ObjectsStay c.world (steps program n c) }
    ensures calls { (program : SilicaProgram) (most : ℕ) (contract : ContractId) (tx : TxId) (n : ℕ) (args : List Value)
        (notes : Notes) (w : World)
        → ObjectsStay w (then_steps (started_call program contract tx n args notes w) (steps program most)) }
    ensures news { (program : SilicaProgram) (most : ℕ) (contract : ContractId) (args : List Value) (notes : Notes)
        (w : World) → ObjectsStay w (then_steps (started_new program contract args notes w) (steps program most)) }
{}

/// Each run in which each turn of a Loop takes a unit at first comes to an end, whatever its program: a form takes as many
/// steps as its parts say, each loan of a call takes one to go back, and each turn and each body that is entered takes a unit.
pub fn runs_end()
    ensures { RunsEnd }
{}
