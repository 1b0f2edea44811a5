//! The first slice of a request's run.
ghost use Rattle.std.specs.Prelude.{◌≡◌, ℕ, None, map, IfOk};
ghost use Rattle.std.specs.Option.{is_none};
ghost use Rattle.ob_code.specs.declared.image.Image.{Image as Code};
ghost use Rattle.ob_code_table.specs.ImageTables.{table_of_image};
ghost use Rattle.ob_heap.specs.Contents.{Stored, content_of};
ghost use Rattle.ob_invocation_spec.specs.Entering.{first_outside_use};
ghost use Rattle.ob_invocation_spec.specs.Replies.{Invocation};
ghost use Rattle.ob_invocation_spec.specs.Requests.{new_request, call_request};
ghost use Rattle.ob_machine_meaning.specs.Meanings.{machine_invocation};
ghost use Rattle.ob_request_run_laws.specs.Runs.{Run as PlainRun, opened};
ghost use Rattle.ob_request_run_laws.specs.Slices.{slice};
ghost use Rattle.ob_request_run_laws.specs.Laws.{ComesTo as RunComesTo, HasEnded};
ghost use Rattle.ob_wire.specs.Meanings.{argument_meant, operation_of};
ghost use Rattle.ob_owners.specs.Spots.{owner_place};
ghost use Rattle.ob_exec_entries.specs.Naming.{IsNamesOf};
ghost use Rattle.ob_exec_handles.specs.Coming.{ComesTo, IsInLimits};
ghost use Rattle.ob_exec_handles.specs.Spending.{SpendsSo};
ghost use Rattle.ob_exec.specs.Going.{Asked, Enters, passed, tested};
ghost use Rattle.ob_exec.specs.Pausing.{SliceLeads};
ghost use Rattle.ob_exec.specs.declared.stage.Stage.{Stage as StagePlain};

use crate::bodies::body_number;
use crate::invoked::{Invoked, refused_with};
use crate::outside::find_outside;
use crate::reading::{read_call, read_new};
use crate::reads::Reads;
use crate::stage::{Paused, SliceEnd, Stage, aborted, go_on};
use crate::still::{answer_disown, answer_give, answer_owner, answer_see};
use ob_base::{Items, Label, Memory};
use ob_exec_entries::{EnterError, Entered, Names, enter_call, enter_new};
use ob_exec_handles::{Answered, Spent};
use ob_heap::{Content, Overlay};
use ob_machine::{Entry, Machine};
use ob_owners::Index;
use ob_verify::Verified;
use ob_wire::{Arg, Op};
use std::alloc::Global;

// Whether a run goes on from where its slice has ended.
fn goes_on(end: &Result<SliceEnd, Memory>) -> bool
    ensures { IfOk end.now (λ end. result ≡ is_none end.answered) }
{
    match end {
        Ok(end) => end.answered.is_none(),
        Err(_) => false,
    }
}

// What is entered has passed its entry test. Where its run goes on, it is put into the stage.
fn run(
    alloc: Global,
    code: &Verified,
    content: &Content,
    who: &Label,
    into: &Option<Label>,
    entered: Entered,
    reads: Reads,
    stage: &mut Stage,
    fuel: u32,
    units: u32,
) -> Result<SliceEnd, Memory>
    requires { (a : Asked) × Enters code.now fuel content.now who.now into.now entered reads a × (first_outside_use (table_of_image code.now) (content_of content.now) a.entry ≡ None) }
    ensures { (a : Asked) → Enters code.now fuel content.now who.now into.now entered reads a
        → first_outside_use (table_of_image code.now) (content_of content.now) a.entry ≡ None
        → IfOk result (λ end. SliceLeads code.now content.now (passed code.now content.now units a) end stage.new) }
{
    let Entered {
        receiver,
        contract,
        tx,
        args,
        lock,
        uses,
        given,
    } = entered;
    let entry = Entry {
        receiver,
        contract,
        tx: body_number(code.image(), receiver, contract, tx)?,
        args,
        lock,
    };
    let mut overlay = Overlay::new(alloc);
    let machine = Machine::enter(alloc, code, content, &mut overlay, entry, fuel)?;
    let mut paused = Paused {
        machine,
        overlay,
        uses,
        given,
    };
    let end = go_on(alloc, code, content, who, into, &mut paused, reads, units);
    if goes_on(&end) {
        *stage = Stage::Paused(paused);
        return end;
    }
    end
}

// What is entered: it aborts where a use finds its object outside the declared states, and else it runs. The checks of the request have
// read these items.
fn enter(
    alloc: Global,
    code: &Verified,
    content: &Content,
    who: &Label,
    into: &Option<Label>,
    entered: Entered,
    reads: Reads,
    stage: &mut Stage,
    fuel: u32,
    units: u32,
) -> Result<SliceEnd, Memory>
    requires { (a : Asked) × Enters code.now fuel content.now who.now into.now entered reads a }
    ensures { (a : Asked) → Enters code.now fuel content.now who.now into.now entered reads a
        → IfOk result (λ end. SliceLeads code.now content.now (tested code.now content.now units a) end stage.new) }
{
    match find_outside(code.image(), content, &entered.uses) {
        Some(cause) => aborted(alloc, code, content, cause, reads, 0),
        None => run(
            alloc, code, content, who, into, entered, reads, stage, fuel, units,
        ),
    }
}

// A request that is answered at once, whether or not it is done.
fn at_once(alloc: Global, invoked: Result<Invoked, Memory>) -> Result<SliceEnd, Memory>
    ensures { (image : Code) (base : Stored) (r : PlainRun) (s : StagePlain) (i : Invocation) → RunComesTo (content_of base) i r → HasEnded r
        → IfOk invoked (λ a. ComesTo i base a.answer a.delta) → IfOk invoked (λ a. SpendsSo i a.spent)
        → IfOk result (λ end. SliceLeads image base r end s) }
{
    let invoked = invoked?;
    let Invoked {
        answer,
        delta,
        spent,
    } = invoked;
    let Spent { taken, reads } = spent;
    Ok(SliceEnd {
        answered: Some(Answered { answer, delta }),
        reads: Reads::new(alloc, reads),
        taken,
    })
}

fn open_new(
    alloc: Global,
    code: &Verified,
    names: &Names,
    content: &Content,
    who: &Label,
    contract: &Label,
    args: &Items<Arg>,
    into: &Option<Label>,
    stage: &mut Stage,
    fuel: u32,
    units: u32,
) -> Result<SliceEnd, Memory>
    requires names { IsNamesOf names.now code.now }
    requires right { IsInLimits (machine_invocation code.now (content_of content.now) (record { who = who.now; operation = new_request (record { contract = contract.now; args = map argument_meant args.now; into = into.now }) }) fuel) }
    ensures { IfOk result (λ end. SliceLeads code.now content.now (slice code.now fuel (content_of content.now) units (opened (record { who = who.now; operation = new_request (record { contract = contract.now; args = map argument_meant args.now; into = into.now }) }))) end stage.new) }
{
    match enter_new(
        alloc,
        code.image(),
        names,
        content,
        who,
        contract,
        args,
        into,
    ) {
        Ok(entered) => {
            let reads = read_new(alloc, content, who, args, into, None)?;
            let reads = Reads::new(alloc, reads);
            enter(
                alloc, code, content, who, into, entered, reads, stage, fuel, units,
            )
        }
        Err(EnterError::Refused(refusal)) => {
            let reads = read_new(alloc, content, who, args, into, Some(refusal))?;
            at_once(alloc, Ok(refused_with(alloc, refusal, reads)))
        }
        Err(EnterError::Memory) => Err(Memory),
    }
}

fn open_call(
    alloc: Global,
    code: &Verified,
    names: &Names,
    content: &Content,
    who: &Label,
    on: &Label,
    tx: &Label,
    args: &Items<Arg>,
    into: &Option<Label>,
    stage: &mut Stage,
    fuel: u32,
    units: u32,
) -> Result<SliceEnd, Memory>
    requires names { IsNamesOf names.now code.now }
    requires right { IsInLimits (machine_invocation code.now (content_of content.now) (record { who = who.now; operation = call_request (record { on = on.now; tx = tx.now; args = map argument_meant args.now; into = into.now }) }) fuel) }
    ensures { IfOk result (λ end. SliceLeads code.now content.now (slice code.now fuel (content_of content.now) units (opened (record { who = who.now; operation = call_request (record { on = on.now; tx = tx.now; args = map argument_meant args.now; into = into.now }) }))) end stage.new) }
{
    match enter_call(alloc, code.image(), names, content, who, on, tx, args, into) {
        Ok(entered) => {
            let reads = read_call(alloc, content, who, on, args, into, None)?;
            let reads = Reads::new(alloc, reads);
            enter(
                alloc, code, content, who, into, entered, reads, stage, fuel, units,
            )
        }
        Err(EnterError::Refused(refusal)) => {
            let reads = read_call(alloc, content, who, on, args, into, Some(refusal))?;
            at_once(alloc, Ok(refused_with(alloc, refusal, reads)))
        }
        Err(EnterError::Memory) => Err(Memory),
    }
}

/// The run of a request once it was opened and given a slice of so many units: after its refusals and its entry test, and what follows
/// from there. A run that goes on is put into the stage. `fuel` is how many units it has in all. The index tells the owners of the store's
/// objects.
pub fn open<I: Index>(
    alloc: Global,
    code: &Verified,
    names: &Names,
    content: &Content,
    index: &I,
    who: &Label,
    op: &Op,
    stage: &mut Stage,
    fuel: u32,
    units: u32,
) -> Result<SliceEnd, Memory>
    requires names { IsNamesOf names.now code.now }
    requires index { (n : ℕ) → I.owner index.now n ≡ owner_place (table_of_image code.now) (content_of content.now) n }
    requires right { IsInLimits (machine_invocation code.now (content_of content.now) (record { who = who.now; operation = operation_of op.now }) fuel) }
    ensures { IfOk result (λ end. SliceLeads code.now content.now (slice code.now fuel (content_of content.now) units (opened (record { who = who.now; operation = operation_of op.now }))) end stage.new) }
{
    let image = code.image();
    match op {
        Op::New {
            contract,
            args,
            into,
        } => open_new(
            alloc, code, names, content, who, contract, args, into, stage, fuel, units,
        ),
        Op::Call { on, tx, args, into } => open_call(
            alloc, code, names, content, who, on, tx, args, into, stage, fuel, units,
        ),
        Op::Disown { on } => at_once(alloc, answer_disown(alloc, content, who, on)),
        Op::Give { on, to, into, mode } => {
            at_once(alloc, answer_give(alloc, content, who, on, to, into, *mode))
        }
        Op::See { on } => at_once(alloc, answer_see(alloc, image, content, who, on)),
        Op::Owner { on } => at_once(alloc, answer_owner(alloc, image, content, index, who, on)),
    }
}
