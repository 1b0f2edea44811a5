//! How much a store holds, and how much of it is owned.
ghost use Rattle.std.specs.Prelude.{◌≡◌, ◌&&◌, not, zip, count_by, IfOk};
ghost use Rattle.ob_heap.specs.Contents.{content_of};
ghost use Rattle.ob_heap.specs.Plain.{object_of};
ghost use Rattle.ob_code_table.specs.ImageTables.{table_of_image};
ghost use Rattle.ob_rest_spec.specs.Failing.{is_marked};
ghost use Rattle.ob_owners.specs.Counts.{counts_of};
ghost use Rattle.ob_owners.specs.Tallies.{is_zero};

use crate::tally::{OwnerCount, Tally, tallies};
use ob_base::Memory;
use ob_code::Image;
use ob_heap::{Content, Object};
use std::alloc::Global;

/// The six numbers of a store.
#[derive(Clone, Copy)]
pub struct StoreCounts {
    /// The objects.
    pub objects: usize,
    /// The handles.
    pub handles: usize,
    /// The objects that have an owning place.
    pub owned: usize,
    /// The objects that are marked as shared.
    pub shared: usize,
    /// The objects that are marked as disowned.
    pub disowned: usize,
    /// The objects that have neither an owning place nor a mark.
    pub loose: usize,
}

// Whether it is no owner.
fn is_zero(owners: OwnerCount) -> bool
    ensures { result ≡ is_zero owners }
{
    match owners {
        OwnerCount::Zero => true,
        OwnerCount::One | OwnerCount::Many => false,
    }
}

// Whether an object of this tally has neither an owning place nor a mark.
fn is_loose(object: &Object, tally: &Tally) -> bool
    ensures { result ≡ (is_zero tally.now.owners && not (is_marked (object_of object.now))) }
{
    is_zero(tally.owners) && !(object.shared || object.disowned)
}

// How many objects have an owning place, by their tallies.
fn count_owned(tallies: &[Tally]) -> usize
    ensures { result ≡ count_by (λ t. not (is_zero t.owners)) tallies.now }
{
    tallies.iter().filter(|t| !is_zero(t.owners)).count()
}

// How many are marked as shared.
fn count_shared(objects: &[Object]) -> usize
    ensures { result ≡ count_by (λ o. o.shared) objects.now }
{
    objects.iter().filter(|o| o.shared).count()
}

// How many are marked as disowned.
fn count_disowned(objects: &[Object]) -> usize
    ensures { result ≡ count_by (λ o. o.disowned) objects.now }
{
    objects.iter().filter(|o| o.disowned).count()
}

// How many have neither an owning place nor a mark.
fn count_loose(objects: &[Object], tallies: &[Tally]) -> usize
    ensures { result ≡ count_by (λ p. is_zero p.1.owners && not (is_marked (object_of p.0))) (zip objects.now tallies.now) }
{
    objects
        .iter()
        .zip(tallies)
        .filter(|pair| is_loose(pair.0, pair.1))
        .count()
}

/// The six numbers of a store, by one pass over the fields of the objects and one over the handles.
pub fn count_store(alloc: Global, code: &Image, content: &Content) -> Result<StoreCounts, Memory>
    ensures { IfOk result (λ counts. counts ≡ counts_of (table_of_image code.now) (content_of content.now)) }
{
    let tallies = tallies(alloc, code, content)?;
    let objects = content.objects();
    Ok(StoreCounts {
        objects: objects.len(),
        handles: content.count_handles(),
        owned: count_owned(tallies.as_slice()),
        shared: count_shared(objects),
        disowned: count_disowned(objects),
        loose: count_loose(objects, tallies.as_slice()),
    })
}
