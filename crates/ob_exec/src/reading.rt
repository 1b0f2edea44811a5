//! What the checks of a `new` or a `call` read.
ghost use Rattle.std.specs.Prelude.{◌≡◌, ◌++◌, [], List, map, not, IfOk, OnOk, if◌then◌else◌};
ghost use Rattle.std.specs.Option.{option_copied};
ghost use Rattle.ob_heap.specs.Contents.{content_of};
ghost use Rattle.ob_heap_spec.specs.Worlds.{ReadItem as Item};
ghost use Rattle.ob_invocation_spec.specs.Requests.{argument_name};
ghost use Rattle.ob_wire.specs.Meanings.{argument_meant};
ghost use Rattle.ob_exec_entries.specs.Arguments.{names_no_handle};
ghost use Rattle.ob_exec_handles.specs.Spending.{item_of};
ghost use Rattle.ob_exec.specs.Reading.{argument_reads, read_then, into_reads, new_reads, call_reads};

use ob_base::{Items, Label, Memory};
use ob_exec_handles::{ReadItem, read_handle, read_new_name};
use ob_heap::Content;
use ob_wire::{Arg, Refusal};
use std::alloc::Global;

// The name of the handle that an argument is, if it is one.
fn named(arg: &Arg) -> Option<&Label>
    ensures { option_copied result ≡ argument_name (argument_meant arg.now) }
{
    match arg {
        Arg::Handle(name) => Some(name),
        _ => None,
    }
}

// What is read of the handle that an argument names, if it names one. The answer is whether none is missing.
fn read_argument(
    reads: &mut Items<ReadItem>,
    alloc: Global,
    content: &Content,
    who: &Label,
    arg: &Arg,
) -> Result<bool, Memory>
    ensures there { IfOk result (λ there. there ≡ not (names_no_handle (content_of content.now) who.now arg.now)) }
    ensures reads { OnOk result (map item_of reads.new ≡ map item_of reads.old ++ argument_reads (content_of content.now) who.now arg.now) }
{
    match named(arg) {
        Some(name) => read_handle(reads, alloc, content, who, name),
        None => Ok(true),
    }
}

// What is read of the handles that arguments name, up to the first that is missing. The answer is whether none is.
fn read_arguments(
    reads: &mut Items<ReadItem>,
    alloc: Global,
    content: &Content,
    who: &Label,
    args: &[Arg],
) -> Result<bool, Memory>
    ensures { IfOk result (λ there. (rest : List Item) → map item_of reads.new ++ (if there then rest else []) ≡ map item_of reads.old ++ read_then (content_of content.now) who.now args.now rest) }
{
    for arg in args {
        if !read_argument(reads, alloc, content, who, arg)? {
            return Ok(false);
        }
    }
    Ok(true)
}

// What is read of the name for the handle on what is given, if there is one.
fn read_name(
    reads: &mut Items<ReadItem>,
    alloc: Global,
    who: &Label,
    into: &Option<Label>,
    why: Option<Refusal>,
) -> Result<(), Memory>
    ensures { OnOk result (map item_of reads.new ≡ map item_of reads.old ++ into_reads who.now into.now why) }
{
    match into {
        Some(into) => read_new_name(reads, alloc, who, into, why),
        None => Ok(()),
    }
}

// The same, if the checks come to that.
fn read_into(
    reads: &mut Items<ReadItem>,
    alloc: Global,
    who: &Label,
    into: &Option<Label>,
    why: Option<Refusal>,
    there: bool,
) -> Result<(), Memory>
    ensures { OnOk result (map item_of reads.new ≡ map item_of reads.old ++ (if there then into_reads who.now into.now why else [])) }
{
    if there {
        read_name(reads, alloc, who, into, why)
    } else {
        Ok(())
    }
}

// What is read of the arguments and of the name.
fn read_asked(
    reads: &mut Items<ReadItem>,
    alloc: Global,
    content: &Content,
    who: &Label,
    args: &Items<Arg>,
    into: &Option<Label>,
    why: Option<Refusal>,
) -> Result<(), Memory>
    ensures { OnOk result (map item_of reads.new ≡ map item_of reads.old ++ new_reads (content_of content.now) who.now args.now into.now why) }
{
    let there = read_arguments(reads, alloc, content, who, args.as_slice())?;
    read_into(reads, alloc, who, into, why, there)
}

/// What the checks of a `new` read, by why it is refused, if it is.
pub fn read_new(
    alloc: Global,
    content: &Content,
    who: &Label,
    args: &Items<Arg>,
    into: &Option<Label>,
    why: Option<Refusal>,
) -> Result<Items<ReadItem>, Memory>
    ensures { IfOk result (λ reads. map item_of reads ≡ new_reads (content_of content.now) who.now args.now into.now why) }
{
    let mut reads = Items::new(alloc);
    read_asked(&mut reads, alloc, content, who, args, into, why)?;
    Ok(reads)
}

/// What the checks of a `call` read, by why it is refused, if it is.
pub fn read_call(
    alloc: Global,
    content: &Content,
    who: &Label,
    on: &Label,
    args: &Items<Arg>,
    into: &Option<Label>,
    why: Option<Refusal>,
) -> Result<Items<ReadItem>, Memory>
    ensures { IfOk result (λ reads. map item_of reads ≡ call_reads (content_of content.now) who.now on.now args.now into.now why) }
{
    let mut reads = Items::new(alloc);
    if !read_handle(&mut reads, alloc, content, who, on)? {
        return Ok(reads);
    }
    read_asked(&mut reads, alloc, content, who, args, into, why)?;
    Ok(reads)
}
