//! What a store holds (this project's own).
ghost use Rattle.std.specs.Prelude.{◌≡◌, [], slice_get, length, OnOk};
ghost use Rattle.std.specs.Option.{option_copied};
ghost use Rattle.ob_heap.specs.Blocks.{joined};
ghost use Rattle.ob_heap.specs.Contents.{handle_at, IsInOrder};
ghost use Rattle.ob_heap.specs.Deltas.{with_handles, IsDelta, HasRoom};
ghost use Rattle.ob_heap.specs.Differences.{with_objects};

use crate::applied::{change_handles, count_with, set_objects};
use crate::block::Block;
use crate::delta::Delta;
use crate::handles::Handles;
use crate::object::{Handle, Object};
use ob_base::{Label, Memory, ObjectId};
use std::alloc::Global;
use std::marker::Model;

/// The objects, the place of each being its number, and the handles in the order of their names, each name once: the
/// client's bytes first, and then those of its name for the handle.
#[derive(Drop)]
pub struct Content {
    objects: Vec<Object>,
    handles: Handles,
}

impl Model for Content {
    ghost use Rattle.std.specs.Prelude.{◌-◌};
    ghost use Rattle.std.specs.Vec.{vec_len, vec_capacity};
    ghost use Rattle.ob_heap.specs.Contents.{Stored};

    ghost Value = { Stored };

    ghost view = { λ c. record {
      objects = c.objects.items;
      handles = c.handles.handles;
      object_room = vec_capacity c.objects - vec_len c.objects;
      handle_room = c.handles.room;
    } };
}

impl Content {
    /// The store at the start.
    pub fn new(alloc: Global) -> Content
        ensures objects { result.objects ≡ [] }
        ensures handles { result.handles ≡ [] }
    {
        Content {
            objects: Vec::new(alloc),
            handles: Handles::new(alloc),
        }
    }

    /// The objects, in the order of their numbers.
    pub fn objects(&self) -> &[Object]
        ensures { result.now ≡ self.now.objects }
    {
        self.objects.as_slice()
    }

    /// The object of this number.
    pub fn object(&self, id: ObjectId) -> Option<&Object>
        ensures { option_copied result ≡ slice_get self.now.objects id.0 }
    {
        self.objects.get(id.0 as usize)
    }

    /// The client's handle of this name, in time logarithmic in the number of handles.
    pub fn handle(&self, who: &Label, name: &Label) -> Option<Handle>
        ensures { result ≡ handle_at (record { who = who.now; name = name.now }) self.now.handles }
    {
        self.handles.find(who, name)
    }

    /// How many handles there are.
    pub fn count_handles(&self) -> usize
        ensures count { result ≡ length self.now.handles }
        ensures order { IsInOrder self.now.handles }
    {
        self.handles.count()
    }

    /// The handles with their names, in blocks, one after another in the order of the names.
    pub fn handle_blocks(&self) -> &[Block]
        ensures { joined result.now ≡ self.now.handles }
    {
        self.handles.blocks()
    }
}

/// Makes room for what the delta adds. Where memory runs out, there may be room for a part of it.
pub fn reserve(content: &mut Content, delta: &Delta) -> Result<(), Memory>
    requires { IsDelta content.old delta.now }
    ensures room { OnOk result (HasRoom content.new delta.now) }
    ensures objects { content.new.objects ≡ content.old.objects }
    ensures handles { content.new.handles ≡ content.old.handles }
{
    let count = count_with(content.objects.as_slice(), delta.objects.as_slice());
    let more = count - content.objects.len();
    content.objects.reserve(more)?;
    content.handles.reserve(delta.handles.as_slice().len())?;
    Ok(())
}

/// The content becomes the one with the delta. It takes no memory.
pub fn apply(content: &mut Content, delta: Delta)
    requires delta { IsDelta content.old delta }
    requires room { HasRoom content.old delta }
    ensures objects { content.new.objects ≡ with_objects content.old.objects delta.objects }
    ensures handles { content.new.handles ≡ with_handles content.old.handles delta.handles }
{
    let Delta { objects, handles } = delta;
    set_objects(&mut content.objects, objects.into_vec());
    change_handles(&mut content.handles, handles.into_vec());
}
