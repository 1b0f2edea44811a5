//! What the run of a `new` or a `call` reads.
ghost use Rattle.std.specs.Prelude.{◌≡◌, ◌++◌, map, length, option_map, OnOk};
ghost use Rattle.ob_heap.specs.Plain.{value_of};
ghost use Rattle.ob_heap_spec.specs.Worlds.{object_item};
ghost use Rattle.ob_machine_parts.specs.Shown.{number_of, next_read};
ghost use Rattle.ob_exec_handles.specs.Spending.{item_of};
ghost use Rattle.ob_exec.specs.Reading.{object_read, referred, value_read, is_shared_given, given_read};

use ob_base::{Items, Label, Memory, Mode, ObjectId};
use ob_exec_handles::{ReadItem, read_item};
use ob_heap::{Content, Value};

/// Whether it was read which number is the next.
pub fn read_next(reads: &mut Items<ReadItem>, is_read: bool) -> Result<(), Memory>
    ensures { OnOk result (map item_of reads.new ≡ map item_of reads.old ++ next_read is_read) }
{
    if is_read {
        read_item(reads, ReadItem::Next)
    } else {
        Ok(())
    }
}

/// The objects of these numbers were read.
pub fn read_numbers(reads: &mut Items<ReadItem>, numbers: &[u32]) -> Result<(), Memory>
    ensures { OnOk result (map item_of reads.new ≡ map item_of reads.old ++ map object_item numbers.now) }
{
    for number in numbers {
        read_item(reads, ReadItem::Object(ObjectId(*number)))?;
    }
    Ok(())
}

// The object of a number is read, unless the run has made it.
fn read_within(reads: &mut Items<ReadItem>, content: &Content, id: ObjectId) -> Result<(), Memory>
    ensures { OnOk result (map item_of reads.new ≡ map item_of reads.old ++ object_read (length content.now.objects) id.0) }
{
    if (id.0 as usize) < content.objects().len() {
        read_item(reads, ReadItem::Object(id))
    } else {
        Ok(())
    }
}

// The object to which a value refers, if it is a reference.
fn referred(value: &Option<Value>) -> Option<ObjectId>
    ensures { option_map number_of result ≡ referred (option_map value_of value.now) }
{
    match value {
        Some(Value::Object(id)) => Some(*id),
        _ => None,
    }
}

// That object is read.
fn read_value(
    reads: &mut Items<ReadItem>,
    content: &Content,
    value: &Option<Value>,
) -> Result<(), Memory>
    ensures { OnOk result (map item_of reads.new ≡ map item_of reads.old ++ value_read (length content.now.objects) (option_map value_of value.now)) }
{
    match referred(value) {
        Some(id) => read_within(reads, content, id),
        None => Ok(()),
    }
}

// Whether what is given is put into a Shared handle.
fn is_shared_given(into: &Option<Label>, given: Option<Mode>) -> bool
    ensures { result ≡ is_shared_given into.now given }
{
    match (into, given) {
        (Some(_), Some(Mode::Shared)) => true,
        _ => false,
    }
}

/// The object of a reference that is put into a Shared handle is read, since it is marked.
pub fn read_put(
    reads: &mut Items<ReadItem>,
    content: &Content,
    into: &Option<Label>,
    given: Option<Mode>,
    value: &Option<Value>,
) -> Result<(), Memory>
    ensures { OnOk result (map item_of reads.new ≡ map item_of reads.old ++ given_read (length content.now.objects) into.now given (option_map value_of value.now)) }
{
    if is_shared_given(into, given) {
        read_value(reads, content, value)
    } else {
        Ok(())
    }
}
