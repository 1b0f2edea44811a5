//! The entry test: whether a use finds its object outside the declared states.
ghost use Rattle.std.specs.Prelude.{◌≡◌, ℕ, List, map, false, not, find, option_map, slice_get};
ghost use Rattle.std.specs.Option.{option_map_or};
ghost use Rattle.ob_perm.specs.Masks.{states_of};
ghost use Rattle.ob_heap.specs.Plain.{object_of};
ghost use Rattle.ob_code_table.specs.Images.{bits_of, state_seen_by};
ghost use Rattle.ob_heap.specs.Contents.{content_of};
ghost use Rattle.ob_code_table.specs.ImageTables.{table_of_image};
ghost use Rattle.ob_machine.specs.Shown.{cause_of};
ghost use Rattle.ob_invocation_spec.specs.Entering.{is_outside_use, outside_cause};
ghost use Rattle.ob_exec_entries.specs.Entering.{use_of};

use ob_base::{Items, Mode};
use ob_code::Image;
use ob_exec_entries::HandleUse;
use ob_heap::Content;
use ob_machine::Cause;
use ob_machine_parts::seen::is_in_states;

// Whether the object of a use is in none of the states of its entry; where there is no object it is in none.
fn is_in_none(code: &Image, content: &Content, used: &HandleUse) -> bool
    ensures { result ≡ not (option_map_or (λ o. states_of (bits_of used.now.entry.states) (state_seen_by code.now used.now.contract (object_of o))) (slice_get content.now.objects used.now.handle.object.0) false) }
{
    match content.object(used.handle.object) {
        Some(object) => !is_in_states(code, used.contract, used.entry.states, object),
        None => true,
    }
}

// Whether a use that owns its object at the entry finds it in none of the declared states.
fn is_outside(code: &Image, content: &Content, used: &HandleUse) -> bool
    ensures { (who : List ℕ) → result ≡ is_outside_use (table_of_image code.now) (content_of content.now).objects (use_of who used.now) }
{
    match used.entry.mode {
        Mode::Owned => is_in_none(code, content, used),
        Mode::Shared => false,
        Mode::Unowned => false,
    }
}

// By which state a use aborts that finds its object so.
fn outside_cause(content: &Content, used: &HandleUse) -> Cause
    ensures { (who : List ℕ) → cause_of result ≡ outside_cause (content_of content.now).objects (use_of who used.now) }
{
    let state = match content.object(used.handle.object) {
        Some(object) => object.state,
        None => None,
    };
    Cause::State(used.handle.object, state)
}

/// Why a request aborts at its entry, if it does: the first use that finds its object outside the declared states.
pub fn find_outside(code: &Image, content: &Content, uses: &Items<HandleUse>) -> Option<Cause>
    ensures { (who : List ℕ) → option_map cause_of result ≡ option_map (outside_cause (content_of content.now).objects) (find (is_outside_use (table_of_image code.now) (content_of content.now).objects) (map (use_of who) uses.now)) }
{
    for used in uses.as_slice() {
        if is_outside(code, content, used) {
            return Some(outside_cause(content, used));
        }
    }
    None
}
