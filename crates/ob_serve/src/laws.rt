//! Laws of sessions.
ghost use Rattle.std.specs.Prelude.{ℕ, List};
ghost use Rattle.ob_code.specs.declared.image.Image.{Image};
ghost use Rattle.ob_silica_steps.specs.Configurations.{SilicaProgram};
ghost use Rattle.ob_serve.specs.Asked.{asked_by, IsAskedBy};
ghost use Rattle.ob_serve.specs.Kept.{AreLimits, IsSoundFor, KeepsOrders, KeepsSessions, GoesAsSource};
ghost use Rattle.ob_serve.specs.Orders.{KeepsOrderOfBatches};
ghost use Rattle.ob_serve.specs.declared.limits.Limits.{Limits};
ghost use Rattle.ob_serve.specs.Standing.{source_program};

/// What a line asks is worked out: its request, its batch, or why it asks nothing.
pub fn lines_are_asked()
    ensures { (line : List ℕ) → IsAskedBy line (asked_by line) }
{}

/// A session of a program whose code is sound goes by the code as by the source meaning. None of its items goes wrong, the store after
/// each is at rest, each stored asset that was never shared nor disowned has exactly one owner there, and a request or line that is refused
/// or aborted changes nothing. Each batch is answered in an order of its requests: each once, and those of a client as they stand in it.
pub fn sessions_are_kept()
    ensures same { (program : SilicaProgram) (image : Image) (limits : Limits) → IsSoundFor program image → GoesAsSource program image limits }
    ensures kept { (program : SilicaProgram) (image : Image) (limits : Limits) → IsSoundFor program image → KeepsSessions (source_program program.table image) image limits }
    ensures ordered { (program : SilicaProgram) (image : Image) (limits : Limits) → IsSoundFor program image → AreLimits limits → KeepsOrders (source_program program.table image) image limits }
{}

/// A batch of a program whose code is sound is answered in its own order where there is one lane, or where all its requests are of one
/// client.
pub fn batches_keep_their_order()
    ensures { (program : SilicaProgram) (image : Image) (limits : Limits) → IsSoundFor program image → AreLimits limits → KeepsOrderOfBatches (source_program program.table image) image limits }
{}
