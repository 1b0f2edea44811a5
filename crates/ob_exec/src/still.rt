//! Requests that run nothing, with what they take and read.
ghost use Rattle.std.specs.Prelude.{◌≡◌, ℕ, IfOk};
ghost use Rattle.ob_heap.specs.Contents.{content_of};
ghost use Rattle.ob_invocation_spec.specs.Handles.{handle_name};
ghost use Rattle.ob_invocation_spec.specs.Invocation.{invoke_disown, invoke_give, invoke_see, invoke_owner};
ghost use Rattle.ob_code_table.specs.ImageTables.{table_of_image};
ghost use Rattle.ob_owners.specs.Spots.{owner_place};
ghost use Rattle.ob_exec_handles.specs.Coming.{ComesTo, IsInLimits};
ghost use Rattle.ob_exec_handles.specs.Spending.{SpendsSo};

use crate::invoked::{Invoked, with_spent};
use ob_base::{Label, Memory, Mode};
use ob_code::Image;
use ob_exec_handles::{
    disown, give, owner, see, spent_on_disown, spent_on_give, spent_on_owner, spent_on_see,
};
use ob_heap::Content;
use ob_owners::Index;
use std::alloc::Global;

/// The client gives up its handle of this name.
pub fn answer_disown(
    alloc: Global,
    content: &Content,
    who: &Label,
    on: &Label,
) -> Result<Invoked, Memory>
    ensures comes { IfOk result (λ a. ComesTo (invoke_disown (content_of content.now) (handle_name who.now on.now)) content.now a.answer a.delta) }
    ensures spent { IfOk result (λ a. SpendsSo (invoke_disown (content_of content.now) (handle_name who.now on.now)) a.spent) }
{
    let spent = spent_on_disown(alloc, content, who, on)?;
    with_spent(disown(alloc, content, who, on), spent)
}

/// The client `who` gives the client `to` a handle `into` on the object of its handle `on`, in this mode.
pub fn answer_give(
    alloc: Global,
    content: &Content,
    who: &Label,
    on: &Label,
    to: &Label,
    into: &Label,
    mode: Mode,
) -> Result<Invoked, Memory>
    ensures comes { IfOk result (λ a. ComesTo (invoke_give (content_of content.now) who.now (record { on = on.now; to = to.now; into = into.now; mode = mode })) content.now a.answer a.delta) }
    ensures spent { IfOk result (λ a. SpendsSo (invoke_give (content_of content.now) who.now (record { on = on.now; to = to.now; into = into.now; mode = mode })) a.spent) }
{
    let spent = spent_on_give(alloc, content, who, on, to, into, mode)?;
    with_spent(give(alloc, content, who, on, to, into, mode), spent)
}

/// The object of the client's handle of this name is shown.
pub fn answer_see(
    alloc: Global,
    code: &Image,
    content: &Content,
    who: &Label,
    on: &Label,
) -> Result<Invoked, Memory>
    requires { IsInLimits (invoke_see (table_of_image code.now) (content_of content.now) (handle_name who.now on.now)) }
    ensures comes { IfOk result (λ a. ComesTo (invoke_see (table_of_image code.now) (content_of content.now) (handle_name who.now on.now)) content.now a.answer a.delta) }
    ensures spent { IfOk result (λ a. SpendsSo (invoke_see (table_of_image code.now) (content_of content.now) (handle_name who.now on.now)) a.spent) }
{
    let spent = spent_on_see(alloc, content, who, on)?;
    with_spent(see(alloc, code, content, who, on), spent)
}

/// The owner of the object of the client's handle of this name is shown, as an index tells it.
pub fn answer_owner<I: Index>(
    alloc: Global,
    code: &Image,
    content: &Content,
    index: &I,
    who: &Label,
    on: &Label,
) -> Result<Invoked, Memory>
    requires limits { IsInLimits (invoke_owner (table_of_image code.now) (content_of content.now) (handle_name who.now on.now)) }
    requires index { (n : ℕ) → I.owner index.now n ≡ owner_place (table_of_image code.now) (content_of content.now) n }
    ensures comes { IfOk result (λ a. ComesTo (invoke_owner (table_of_image code.now) (content_of content.now) (handle_name who.now on.now)) content.now a.answer a.delta) }
    ensures spent { IfOk result (λ a. SpendsSo (invoke_owner (table_of_image code.now) (content_of content.now) (handle_name who.now on.now)) a.spent) }
{
    let spent = spent_on_owner(alloc, content, index, who, on)?;
    with_spent(owner(alloc, code, content, index, who, on), spent)
}
