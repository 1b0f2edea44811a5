//! What is asked of what a request would enter.
ghost use Rattle.std.specs.Prelude.{◌≡◌, ℕ, List, ◌++◌, map, option_map, option_to_list, Some, false, IfOk, IfErr, OnOk, nat_eq, count_by};
ghost use Rattle.std.specs.List.{list_all, list_any};
ghost use Rattle.std.specs.Option.{option_map_or};
ghost use Rattle.ob_heap.specs.Contents.{content_of};
ghost use Rattle.ob_invocation_spec.specs.Checks.{refusal_of};
ghost use Rattle.ob_heap_spec.specs.Contents.{Content as PlainContent};
ghost use Rattle.ob_invocation_spec.specs.Entering.{is_locked_at_entry};
ghost use Rattle.ob_invocation_spec.specs.Entries.{HandleUse as Use, argument_uses, handle_uses};
ghost use Rattle.ob_invocation_spec.specs.Handles.{handle_name, are_handles_full};
ghost use Rattle.ob_invocation_spec.specs.Refusals.{has_other_count, has_other_kind, receiver_serves, lacks_permission, lacks_into, has_needless_into, making_checks, entry_checks};
ghost use Rattle.ob_code_table.specs.ImageTables.{table_of_image};
ghost use Rattle.ob_machine_meaning.specs.Meanings.{entry_of_request};
ghost use Rattle.ob_wire.specs.Refusals.{refusal_told};
ghost use Rattle.ob_exec_entries.specs.Entering.{use_of, machine_entry, EntersSo, IsRefusedBy};
ghost use Rattle.ob_exec_entries.specs.Later.{is_served, is_used_twice, name_checks, later_checks};

use crate::arguments::{add_use, find_handle, have_other_kind, uses_of, values_of};
use crate::entered::{EnterError, Entered, HandleUse};
use crate::modes::{is_owned, is_shared, is_unowned, serves};
use crate::target::Target;
use ob_base::{Duplicate, Items, Label, MOST_HANDLES, Memory, ObjectId};
use ob_code::Image;
use ob_heap::Content;
use ob_wire::Refusal;
use std::alloc::Global;

// Whether there are as many handles as there may be.
fn are_handles_full(content: &Content) -> bool
    ensures { result ≡ are_handles_full (content_of content.now) }
{
    content.count_handles() >= MOST_HANDLES
}

fn is_served(used: &HandleUse) -> bool
    ensures { result ≡ is_served used.now }
{
    serves(used.handle.mode, used.entry.mode)
}

fn are_served(uses: &[HandleUse]) -> bool
    ensures { result ≡ list_all is_served uses.now }
{
    uses.iter().all(|used| is_served(used))
}

// How many uses there are of the object of this number.
fn times_used(uses: &[HandleUse], id: u32) -> usize
    ensures { result ≡ count_by (λ (v : HandleUse). nat_eq v.handle.object.0 id) uses.now }
{
    uses.iter()
        .filter(|used| used.handle.object.0 == id)
        .count()
}

fn is_used_twice(uses: &[HandleUse], used: &HandleUse) -> bool
    ensures { result ≡ is_used_twice uses.now used.now }
{
    is_owned(used.entry.mode) && times_used(uses, used.handle.object.0) > 1
}

// Whether an object is used twice, and some use of it owns it at the entry.
fn is_any_used_twice(uses: &[HandleUse]) -> bool
    ensures { result ≡ list_any (is_used_twice uses.now) uses.now }
{
    uses.iter().any(|used| is_used_twice(uses, used))
}

fn making_refusal(content: &Content, who: &Label, into: &Label) -> Option<Refusal>
    ensures { result ≡ option_map refusal_told (refusal_of (making_checks (content_of content.now) (handle_name who.now into.now))) }
{
    if find_handle(content, who, into).is_some() {
        return Some(Refusal::IntoTaken);
    }
    if are_handles_full(content) {
        return Some(Refusal::HandlesFull);
    }
    None
}

impl<'a> Target<'a> {
    fn has_other_count(&self) -> bool
        ensures { result ≡ has_other_count self.now }
    {
        self.args.len() != self.body.params.len()
    }

    fn has_other_kind(&self, code: &Image, content: &Content) -> bool
        ensures { result ≡ has_other_kind (table_of_image code.now) (content_of content.now) self.now }
    {
        have_other_kind(
            code,
            content,
            self.who,
            self.body.params.as_slice(),
            self.args.as_slice(),
        )
    }

    // The uses of handles for the arguments.
    fn argument_uses(&self, alloc: Global, content: &Content) -> Result<Items<HandleUse>, Memory>
        ensures { IfOk result (λ uses. map (use_of self.now.who) uses ≡ argument_uses (content_of content.now) self.now) }
    {
        uses_of(
            alloc,
            content,
            self.who,
            self.body.params.as_slice(),
            self.args.as_slice(),
        )
    }

    fn receiver_serves(&self) -> bool
        ensures { result ≡ list_all receiver_serves (option_to_list self.now.receiver) }
    {
        match self.receiver {
            Some((_, handle)) => {
                let (entry, exit) = (self.body.entry.mode, self.body.exit.mode);
                serves(handle.mode, entry)
                    || is_shared(handle.mode) && is_owned(entry) && !is_unowned(exit)
            }
            None => true,
        }
    }

    fn lacks_permission(&self, uses: &[HandleUse]) -> bool
        ensures { (content : PlainContent) → map (use_of self.now.who) uses.now ≡ argument_uses content self.now → result ≡ lacks_permission content self.now }
    {
        !self.receiver_serves() || !are_served(uses)
    }

    fn use_of_receiver(&self, alloc: Global) -> Result<Option<HandleUse>, Memory>
        ensures { IfOk result (λ u. option_map (use_of self.now.who) u ≡ self.now.receiver) }
    {
        match self.receiver {
            Some((name, handle)) => Ok(Some(HandleUse {
                name: name.copy(alloc)?,
                handle,
                contract: self.contract,
                entry: self.body.entry,
                exit: self.body.exit,
            })),
            None => Ok(None),
        }
    }

    // The use of the receiver's handle, and then those for the arguments.
    fn handle_uses(
        &self,
        alloc: Global,
        arguments: Items<HandleUse>,
    ) -> Result<Items<HandleUse>, Memory>
        ensures { IfOk result (λ uses. map (use_of self.now.who) uses ≡ option_to_list self.now.receiver ++ map (use_of self.now.who) arguments) }
    {
        let mut uses = Items::new(alloc);
        add_use(&mut uses, self.use_of_receiver(alloc)?)?;
        uses.append(arguments)?;
        Ok(uses)
    }

    fn lacks_into(&self) -> bool
        ensures { result ≡ lacks_into self.now }
    {
        self.given.is_some() && self.into.is_none()
    }

    fn has_needless_into(&self) -> bool
        ensures { result ≡ has_needless_into self.now }
    {
        self.given.is_none() && self.into.is_some()
    }

    fn name_refusal(&self, content: &Content) -> Option<Refusal>
        ensures { result ≡ option_map refusal_told (refusal_of (name_checks (content_of content.now) self.now)) }
    {
        if self.lacks_into() {
            return Some(Refusal::IntoMissing);
        }
        if self.has_needless_into() {
            return Some(Refusal::IntoNeedless);
        }
        match self.into {
            Some(into) => making_refusal(content, self.who, into),
            None => None,
        }
    }

    // The refusal by the first of the later checks that holds.
    fn later_refusal(&self, content: &Content, uses: &[HandleUse]) -> Option<Refusal>
        requires { map (use_of self.now.who) uses.now ≡ handle_uses (content_of content.now) self.now }
        ensures { result ≡ option_map refusal_told (refusal_of (later_checks (content_of content.now) self.now)) }
    {
        if is_any_used_twice(uses) {
            return Some(Refusal::Repeated);
        }
        self.name_refusal(content)
    }

    // The uses of handles for the arguments, where these pass their checks.
    fn check_arguments(
        &self,
        alloc: Global,
        code: &Image,
        content: &Content,
    ) -> Result<Items<HandleUse>, EnterError>
        ensures refused { IfErr result (IsRefusedBy (entry_checks (table_of_image code.now) (content_of content.now) self.now)) }
        ensures passed { OnOk result (refusal_of (entry_checks (table_of_image code.now) (content_of content.now) self.now) ≡ refusal_of (later_checks (content_of content.now) self.now)) }
        ensures uses { IfOk result (λ uses. map (use_of self.now.who) uses ≡ argument_uses (content_of content.now) self.now) }
    {
        if self.has_other_count() {
            return Err(EnterError::Refused(Refusal::ArgCount));
        }
        if self.has_other_kind(code, content) {
            return Err(EnterError::Refused(Refusal::ArgKind));
        }
        let uses = self.argument_uses(alloc, content)?;
        if self.lacks_permission(uses.as_slice()) {
            return Err(EnterError::Refused(Refusal::Permission));
        }
        Ok(uses)
    }

    fn is_locked(&self) -> bool
        ensures { result ≡ option_map_or is_locked_at_entry self.now.receiver false }
    {
        match self.receiver {
            Some((_, handle)) => is_shared(handle.mode) && is_owned(self.body.entry.mode),
            None => false,
        }
    }

    fn receiver_id(&self) -> Option<ObjectId>
        ensures { option_map (λ id. id.0) result ≡ option_map (λ (u : Use). u.handle.object) self.now.receiver }
    {
        match self.receiver {
            Some((_, handle)) => Some(handle.object),
            None => None,
        }
    }

    // What is entered, with the values of the arguments.
    fn entered(
        &self,
        alloc: Global,
        content: &Content,
        uses: Items<HandleUse>,
    ) -> Result<Entered, Memory>
        ensures machine { IfOk result (λ entered. machine_entry entered ≡ entry_of_request (content_of content.now) self.now) }
        ensures uses { IfOk result (λ entered. entered.uses ≡ uses) }
        ensures given { IfOk result (λ entered. entered.given ≡ self.now.given) }
    {
        let args = values_of(alloc, content, self.who, self.args.as_slice())?;
        Ok(Entered {
            receiver: self.receiver_id(),
            contract: self.contract,
            tx: self.tx,
            args,
            lock: self.is_locked(),
            uses,
            given: self.given,
        })
    }

    /// It is entered, or refused by the first check that holds.
    pub fn enter(
        &self,
        alloc: Global,
        code: &Image,
        content: &Content,
    ) -> Result<Entered, EnterError>
        ensures refused { IfErr result (IsRefusedBy (entry_checks (table_of_image code.now) (content_of content.now) self.now)) }
        ensures entered { IfOk result (EntersSo (content_of content.now) (entry_checks (table_of_image code.now) (content_of content.now) self.now) (Some self.now) self.now.who) }
    {
        let arguments = self.check_arguments(alloc, code, content)?;
        let uses = self.handle_uses(alloc, arguments)?;
        if let Some(refusal) = self.later_refusal(content, uses.as_slice()) {
            return Err(EnterError::Refused(refusal));
        }
        Ok(self.entered(alloc, content, uses)?)
    }
}
