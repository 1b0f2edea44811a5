//! What a `new` or a `call` is answered, and what differs in the store after it.
ghost use Rattle.std.specs.Prelude.{◌≡◌, ◌≤◌, ℕ, List, map, length, option_map, IfOk};
ghost use Rattle.ob_base.specs.Limits.{most_objects};
ghost use Rattle.ob_heap_spec.specs.Worlds.{World, ReadItem};
ghost use Rattle.ob_heap.specs.Contents.{content_of, named_of};
ghost use Rattle.ob_heap.specs.Overlays.{laid_over, objects_over};
ghost use Rattle.ob_heap.specs.Plain.{value_of};
ghost use Rattle.ob_code_table.specs.ImageTables.{table_of_image};
ghost use Rattle.ob_machine.specs.Shown.{cause_of};
ghost use Rattle.ob_invocation_spec.specs.Invocation.{done_with};
ghost use Rattle.ob_invocation_spec.specs.Replies.{aborted, invoked};
ghost use Rattle.ob_invocation_spec.specs.Showing.{told_state, reply_of_result};
ghost use Rattle.ob_wire.specs.Meanings.{answer_of};
ghost use Rattle.ob_exec_handles.specs.Coming.{ComesTo};

use ob_base::{Items, Memory};
use ob_code::Image;
use ob_exec_handles::{Answered, Named, delta_with, state_told, unchanged};
use ob_heap::{Content, Overlay, Value};
use ob_machine::Cause;
use ob_wire::{Answer, Cause as Told, Outcome};
use std::alloc::Global;

// The answer to a request that gives this.
fn answer_given(value: Option<Value>) -> Answer
    ensures { result ≡ answer_of (reply_of_result (option_map value_of value)) }
{
    let outcome = match value {
        None => Outcome::Nothing,
        Some(Value::Int(number)) => Outcome::Int(number),
        Some(Value::Bool(truth)) => Outcome::Bool(truth),
        Some(Value::Text(text)) => Outcome::Text(text),
        Some(Value::Object(id)) => Outcome::Object(id),
    };
    Answer::Ok(outcome)
}

// The answer to a request that is aborted by this cause.
fn answer_aborted(
    alloc: Global,
    code: &Image,
    content: &Content,
    cause: Cause,
) -> Result<Answer, Memory>
    ensures { IfOk result (λ answer. answer ≡ answer_of (aborted (cause_of cause) (told_state (table_of_image code.now) (content_of content.now).objects (cause_of cause)))) }
{
    let told = match cause {
        Cause::Revert(text) => Told::Revert(text),
        Cause::State(id, state) => {
            let name = state_told(alloc, code, content, id, state)?;
            Told::State(id, name)
        }
        Cause::Reentry(id) => Told::Reentry(id),
        Cause::Overflow(line) => Told::Overflow(line),
        Cause::Fuel => Told::Fuel,
        Cause::Full => Told::Full,
    };
    Ok(Answer::Abort(told))
}

/// A request that is aborted leaves what the store holds.
pub fn abort(
    alloc: Global,
    code: &Image,
    content: &Content,
    cause: Cause,
) -> Result<Answered, Memory>
    ensures { IfOk result (λ a. (taken : ℕ) (reads : List ReadItem) → ComesTo (invoked (record {
      reply = aborted (cause_of cause) (told_state (table_of_image code.now) (content_of content.now).objects (cause_of cause));
      content = content_of content.now;
      taken = taken;
      reads = reads;
    })) content.now a.answer a.delta) }
{
    let answer = answer_aborted(alloc, code, content, cause)?;
    Ok(unchanged(alloc, answer))
}

/// A request that is done has changed the objects so, and puts these handles.
pub fn finish(
    alloc: Global,
    content: &Content,
    overlay: &mut Overlay,
    puts: &Items<Named>,
    value: Option<Value>,
) -> Result<Answered, Memory>
    requires { length (laid_over content.now.objects overlay.old) ≤ most_objects }
    ensures { IfOk result (λ a. (w : World) (reads : List ReadItem) → w.objects ≡ objects_over content.now.objects overlay.old
        → ComesTo (done_with (reply_of_result (option_map value_of value)) (content_of content.now) (map named_of puts.now) w reads) content.now a.answer a.delta) }
{
    let delta = delta_with(alloc, content, overlay, puts)?;
    Ok(Answered {
        answer: answer_given(value),
        delta,
    })
}
