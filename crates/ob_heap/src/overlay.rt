//! What a run changes of the objects of a store, laid over them (this project's own).
ghost use Rattle.std.specs.Prelude.{◌≡◌, [], ◌∷◌, ◌++◌, ◌<◌, ◌≤◌, ◌+◌, ◌^◌, ◌↔◌, ℕ, true, nat_eq, length, slice_get, slice_set, IfOk, OnOk, OnErr, IsErrOf};
ghost use Rattle.std.specs.Option.{option_copied};
ghost use Rattle.ob_base.specs.Limits.{most_objects};
ghost use Rattle.ob_heap.specs.declared.object.Object.{Object};
ghost use Rattle.ob_heap.specs.Ascending.{IsAscending};
ghost use Rattle.ob_heap.specs.Differences.{differing, numbered_from, with_objects, AreOthers};
ghost use Rattle.ob_heap.specs.Edits.{IsEdited};
ghost use Rattle.ob_heap.specs.Overlays.{no_changes, laid_over, noted, IsSameBeside, KeepsOthers};

use crate::changed::Changed;
use crate::content::Content;
use crate::delta::Delta;
use crate::edit::{Edit, change};
use crate::object::Object;
use crate::reads::Reads;
use crate::sequence::Sequence;
use ob_base::{Duplicate, MOST_OBJECTS, Memory, ObjectId};
use sqlite_items::at;
use std::alloc::{AllocFailed, Global};
use std::marker::Model;

/// Why no object was made.
#[derive(Clone, Copy)]
pub enum MakeError {
    /// There are as many objects as there may be.
    Full,
    /// Memory ran out.
    Memory,
}

impl From<AllocFailed<Object>> for MakeError {
    ghost use Rattle.std.specs.Prelude.{◌≡◌};
    ghost use Rattle.ob_heap.specs.declared.overlay.MakeError.TheVariants.{Memory};

    ghost from_gives = { λ _ e. e ≡ Memory };

    fn from(_: AllocFailed<Object>) -> MakeError {
        MakeError::Memory
    }
}

/// What a run has changed, made and read. It has entries for what the run touched alone.
#[derive(Drop)]
pub struct Overlay {
    changed: Changed,
    made: Vec<Object>,
    reads: Reads,
    next: bool,
}

impl Model for Overlay {
    ghost use Rattle.ob_heap.specs.Overlays.{Changes};

    ghost Value = { Changes };

    ghost view = { λ o. record { changed = o.changed; made = o.made.items; reads = o.reads; next = o.next } };
}

#[inline(never)]
fn edit_made(made: &mut Vec<Object>, place: usize, edit: Edit) -> Result<(), Memory>
    requires { place < length made.old.items }
    ensures edited { OnOk result (IsEdited place edit made.old.items made.new.items) }
    ensures len { OnOk result (length made.new.items ≡ length made.old.items) }
{
    change(&mut made[place], edit)
}

fn add_made(
    found: &mut Sequence<(ObjectId, Object)>,
    alloc: Global,
    first: usize,
    made: &[Object],
) -> Result<(), Memory>
    requires { first + length made.now < 2 ^ 32 }
    ensures { OnOk result (found.new ≡ found.old ++ numbered_from first made.now) }
{
    for (place, object) in made.iter().enumerate() {
        let id = ObjectId((first + place) as u32);
        found.push((id, object.copy(alloc)?))?;
    }
    Ok(())
}

impl Overlay {
    /// Nothing is changed, made or read.
    pub fn new(alloc: Global) -> Overlay
        ensures { result ≡ no_changes }
    {
        Overlay {
            changed: Changed::new(alloc),
            made: Vec::new(alloc),
            reads: Reads::new(alloc),
            next: false,
        }
    }

    /// The object of this number as the run has left it. Nothing is noted.
    #[inline(always)]
    pub fn look<'a>(&'a self, base: &'a Content, id: ObjectId) -> Option<&'a Object>
        ensures { option_copied result ≡ slice_get (laid_over base.now.objects self.now) id.0 }
    {
        let objects = base.objects();
        let number = id.0 as usize;
        if number < objects.len() {
            match self.changed.get(id.0) {
                Some(object) => Some(object),
                None => base.object(id),
            }
        } else {
            at(self.made.as_slice(), number - objects.len())
        }
    }

    /// Notes that the object of this number is read. One that the run made counts for nothing, and so does a number
    /// without an object.
    pub fn note(&mut self, base: &Content, id: ObjectId) -> Result<(), Memory>
        ensures { OnOk result (self.new ≡ noted (length base.now.objects) id.0 self.old) }
    {
        if (id.0 as usize) < base.objects().len() {
            self.reads.add(id.0)?;
        }
        Ok(())
    }

    /// Does this to the object of this number, where it lies. Only where the run hadn't touched it before is it copied from the
    /// base.
    #[inline(always)]
    #[tactic(auto, using(crate::proofs::OverlaysLemmas::over))]
    pub fn edit(
        &mut self,
        alloc: Global,
        base: &Content,
        id: ObjectId,
        edit: Edit,
    ) -> Result<(), Memory>
        requires { id.0 < length (laid_over base.now.objects self.old) }
        ensures objects { OnOk result (IsEdited id.0 edit (laid_over base.now.objects self.old) (laid_over base.now.objects self.new)) }
        ensures same { OnOk result (IsSameBeside self.old self.new) }
        ensures others { OnOk result (KeepsOthers (length base.now.objects) id.0 self.old self.new) }
    {
        let objects = base.objects();
        let number = id.0 as usize;
        if number < objects.len() {
            self.changed.edit(alloc, objects, id.0, edit)
        } else {
            edit_made(&mut self.made, number - objects.len(), edit)
        }
    }

    /// Makes an object, with the next number. That the number was read is noted, also where there are as many objects
    /// as there may be.
    #[tactic(auto, using(crate::proofs::OverlaysLemmas::over))]
    pub fn make(&mut self, base: &Content, object: Object) -> Result<ObjectId, MakeError>
        ensures number { IfOk result (λ id. id.0 ≡ length (laid_over base.now.objects self.old)) }
        ensures made { OnOk result (self.new ≡ record self.old { made = self.old.made ++ object ∷ []; next = true }) }
        ensures refused { OnErr result (self.new ≡ record self.old { next = true }) }
        ensures full { IsErrOf result MakeError.Full ↔ (most_objects ≤ length (laid_over base.now.objects self.old)) }
    {
        self.next = true;
        let count = base.objects().len();
        if count >= MOST_OBJECTS {
            return Err(MakeError::Full);
        }
        let made = self.made.len();
        if made >= MOST_OBJECTS - count {
            return Err(MakeError::Full);
        }
        self.made.push(object)?;
        Ok(ObjectId((count + made) as u32))
    }

    /// Just what differs from the base, in the order of the numbers. The handles aren't the run's.
    #[tactic(auto, using(crate::proofs::OverlaysLemmas::over))]
    pub fn delta(&self, alloc: Global, base: &Content) -> Result<Delta, Memory>
        requires { length (laid_over base.now.objects self.now) ≤ most_objects }
        ensures objects { IfOk result (λ delta. delta.objects ≡ differing base.now.objects self.now) }
        ensures applied { IfOk result (λ delta. with_objects base.now.objects delta.objects ≡ laid_over base.now.objects self.now) }
        ensures order { IfOk result (λ delta. IsAscending (λ e. e.0.0) delta.objects) }
        ensures others { IfOk result (λ delta. AreOthers base.now.objects delta.objects) }
        ensures handles { IfOk result (λ delta. delta.handles ≡ []) }
    {
        let mut objects = Sequence::new(alloc);
        self.changed
            .add_others(&mut objects, alloc, base.objects())?;
        add_made(&mut objects, alloc, base.objects().len(), &self.made)?;
        Ok(Delta {
            objects,
            handles: Sequence::new(alloc),
        })
    }

    /// How many objects the run has made.
    pub fn count_made(&self) -> usize
        ensures { result ≡ length self.now.made }
    {
        self.made.len()
    }

    /// The numbers of the objects that the run has read, each once.
    pub fn reads(&self, alloc: Global) -> Result<Vec<u32>, Memory>
        ensures { IfOk result (λ reads. reads.items ≡ self.now.reads) }
    {
        self.reads.list(alloc)
    }

    /// Whether the run has read which number is the next.
    pub fn has_read_next(&self) -> bool
        ensures { result ≡ self.now.next }
    {
        self.next
    }
}
