//! How a file is taken as a disk, before anything of it is read or written. It is a regular file, and locked; it is no standard stream of
//! this run and none of the other files that the run names, since what is told of a disk supposes that nobody else writes into its
//! file; its name means it, and is on the disk.
ghost use Rattle.std.specs.Prelude.{◌≡◌, ◌≢◌, ◌<◌, ◌∷◌, [], ℕ, List, true, false, Some, map, OnOk, IfOk};
ghost use Rattle.ob_io_std.specs.Calls.{Adds, AddsSome, Does, opened, kind, identity, descriptor, identity_of, locked, folder_synced};
ghost use Rattle.ob_io_std.specs.Taking.{IsNoneElse, IsOpened, MeanOthers, IsNumbered, IsApart, IsHeld, IsTaken, AreLooks};

use crate::failure::{Failure, SystemCall};
use crate::system::{Access, Identity, SystemFile};
use std::alloc::Global;
use std::io;

// The standard input, output and error of this run, by their names in /proc. One that is closed has none.
const STREAMS: [&str; 3] = ["/proc/self/fd/0", "/proc/self/fd/1", "/proc/self/fd/2"];

// What is told where what was asked of a file isn't so.
fn unfit(call: SystemCall) -> Failure {
    let error = io::Error::from(io::ErrorKind::InvalidInput);
    Failure { call, error }
}

// Fails where a name means a device, a pipe or a folder: opening one may do something to it. It may mean nothing.
#[tactic(auto, using(crate::proofs::TakingLemmas::looks_same, crate::proofs::TakingLemmas::looks_none, crate::proofs::TakingLemmas::looks_one, crate::proofs::TakingLemmas::looks_then, crate::proofs::TakingLemmas::name_regular, crate::proofs::TakingLemmas::name_missing))]
fn none_else<F: SystemFile>(file: &mut F, name: &str) -> Result<(), Failure>
    ensures seen { OnOk result (AddsSome (F.calls file.old) (F.calls file.new) (IsNoneElse name.now)) }
    ensures looks { AddsSome (F.calls file.old) (F.calls file.new) AreLooks }
{
    match file.kind_of(name) {
        Ok(is_regular) => {
            if is_regular {
                return Ok(());
            }
            Err(unfit(SystemCall::Kind))
        }
        Err(_) => Ok(()),
    }
}

// Opens the file of a name.
fn open<F: SystemFile>(file: &mut F, name: &str, access: Access) -> Result<(), Failure>
    ensures { Does (F.calls file.old) (F.calls file.new) result (λ done. opened name.now access) }
{
    let call = SystemCall::Open;
    match file.open(name, access) {
        Ok(()) => Ok(()),
        Err(error) => Err(Failure { call, error }),
    }
}

// Fails where the file isn't a regular one. A device may have no byte that is seen, and would look blank.
#[tactic(auto, using(crate::proofs::TakingLemmas::looks_same, crate::proofs::TakingLemmas::looks_none, crate::proofs::TakingLemmas::looks_one, crate::proofs::TakingLemmas::looks_then))]
fn regular<F: SystemFile>(file: &mut F) -> Result<(), Failure>
    ensures regular { OnOk result (Adds (F.calls file.old) (F.calls file.new) (kind true ∷ [])) }
    ensures looks { AddsSome (F.calls file.old) (F.calls file.new) AreLooks }
{
    let call = SystemCall::Kind;
    match file.kind() {
        Ok(is_regular) => {
            if is_regular {
                return Ok(());
            }
            Err(unfit(call))
        }
        Err(error) => Err(Failure { call, error }),
    }
}

// Which file it is.
fn identity<F: SystemFile>(file: &mut F) -> Result<Identity, Failure>
    ensures { Does (F.calls file.old) (F.calls file.new) result identity }
{
    let call = SystemCall::Kind;
    match file.identity() {
        Ok(own) => Ok(own),
        Err(error) => Err(Failure { call, error }),
    }
}

// Opens the regular file of a name, and answers which it is.
#[tactic(auto, using(crate::proofs::TakingLemmas::looks_same, crate::proofs::TakingLemmas::looks_none, crate::proofs::TakingLemmas::looks_one, crate::proofs::TakingLemmas::looks_then, crate::proofs::TakingLemmas::opened_then))]
fn open_regular<F: SystemFile>(
    file: &mut F,
    name: &str,
    access: Access,
) -> Result<Identity, Failure>
    ensures opened { IfOk result (λ own. AddsSome (F.calls file.old) (F.calls file.new) (IsOpened name.now access own)) }
    ensures looks { AddsSome (F.calls file.old) (F.calls file.new) AreLooks }
{
    none_else(file, name)?;
    open(file, name, access)?;
    regular(file)?;
    let own = identity(file)?;
    Ok(own)
}

// Whether two files are one.
fn is_same(one: Identity, other: Identity) -> bool
    ensures same { result ≡ true → one ≡ other }
    ensures differs { result ≡ false → one ≢ other }
{
    one.device == other.device && one.inode == other.inode
}

// Whether a name means the file. Where there is no such name it doesn't.
#[tactic(auto, using(crate::proofs::TakingLemmas::looks_same, crate::proofs::TakingLemmas::looks_none, crate::proofs::TakingLemmas::looks_one, crate::proofs::TakingLemmas::looks_then, crate::proofs::TakingLemmas::named_it, crate::proofs::TakingLemmas::named_other, crate::proofs::TakingLemmas::named_none))]
fn is_named<F: SystemFile>(
    file: &mut F,
    name: &str,
    own: Identity,
    call: SystemCall,
) -> Result<bool, Failure>
    ensures named { IfOk result (λ is. is ≡ true → Adds (F.calls file.old) (F.calls file.new) (identity_of name.now (Some own) ∷ [])) }
    ensures other { IfOk result (λ is. is ≡ false
        → AddsSome (F.calls file.old) (F.calls file.new) (MeanOthers own (name.now ∷ []))) }
    ensures looks { AddsSome (F.calls file.old) (F.calls file.new) AreLooks }
{
    match file.identity_of(name) {
        Ok(found) => Ok(is_same(found, own)),
        Err(error) => {
            if error.kind() == io::ErrorKind::NotFound {
                return Ok(false);
            }
            Err(Failure { call, error })
        }
    }
}

// Fails where the name means the file.
#[tactic(auto, using(crate::proofs::TakingLemmas::looks_same, crate::proofs::TakingLemmas::looks_none, crate::proofs::TakingLemmas::looks_one, crate::proofs::TakingLemmas::looks_then))]
fn means_other<F: SystemFile>(
    file: &mut F,
    name: &str,
    own: Identity,
    call: SystemCall,
) -> Result<(), Failure>
    ensures other { OnOk result (AddsSome (F.calls file.old) (F.calls file.new) (MeanOthers own (name.now ∷ []))) }
    ensures looks { AddsSome (F.calls file.old) (F.calls file.new) AreLooks }
{
    let is = is_named(file, name, own, call)?;
    if is {
        return Err(unfit(call));
    }
    Ok(())
}

// Fails where the name means another file, or none; with this error then.
#[tactic(auto, using(crate::proofs::TakingLemmas::looks_same, crate::proofs::TakingLemmas::looks_none, crate::proofs::TakingLemmas::looks_one, crate::proofs::TakingLemmas::looks_then))]
fn means_it<F: SystemFile>(
    file: &mut F,
    name: &str,
    own: Identity,
    otherwise: Failure,
) -> Result<(), Failure>
    ensures named { OnOk result (Adds (F.calls file.old) (F.calls file.new) (identity_of name.now (Some own) ∷ [])) }
    ensures looks { AddsSome (F.calls file.old) (F.calls file.new) AreLooks }
{
    let is = is_named(file, name, own, otherwise.call)?;
    if is {
        return Ok(());
    }
    Err(otherwise)
}

// Fails where one of these names means the file.
#[tactic(auto, using(crate::proofs::TakingLemmas::looks_same, crate::proofs::TakingLemmas::looks_none, crate::proofs::TakingLemmas::looks_one, crate::proofs::TakingLemmas::looks_then))]
fn mean_others<F: SystemFile>(
    file: &mut F,
    names: &[&str],
    own: Identity,
    call: SystemCall,
) -> Result<(), Failure>
    ensures others { OnOk result (AddsSome (F.calls file.old) (F.calls file.new) (MeanOthers own (map (λ name. name.now) names.now))) }
    ensures looks { AddsSome (F.calls file.old) (F.calls file.new) AreLooks }
{
    let mut at = 0;
    'names: while at < names.len() {
        means_other(file, names[at], own, call)?;
        at += 1;
    }
    Ok(())
}

// The number of the file. It fails where that is one of a standard stream, which is closed then: whatever is written to that stream would
// be written over the file.
#[tactic(auto, using(crate::proofs::TakingLemmas::looks_same, crate::proofs::TakingLemmas::looks_none, crate::proofs::TakingLemmas::looks_one, crate::proofs::TakingLemmas::looks_then))]
fn number_above<F: SystemFile>(file: &mut F) -> Result<u32, Failure>
    ensures above { IfOk result (λ number. (2 < number) × Adds (F.calls file.old) (F.calls file.new) (descriptor number ∷ [])) }
    ensures looks { AddsSome (F.calls file.old) (F.calls file.new) AreLooks }
{
    let call = SystemCall::Descriptor;
    match file.descriptor() {
        Ok(number) => {
            if number <= 2 {
                return Err(unfit(call));
            }
            Ok(number)
        }
        Err(error) => Err(Failure { call, error }),
    }
}

// The name of a file in /proc, by its number.
fn name_by_number(alloc: Global, number: u32) -> Result<String, Failure> {
    let call = SystemCall::Proc;
    match format!(in alloc; "/proc/self/fd/{number}") {
        Ok(name) => Ok(name),
        Err(_) => Err(Failure {
            call,
            error: io::Error::from(io::ErrorKind::OutOfMemory),
        }),
    }
}

// Fails where /proc doesn't tell the files that this run has open, as it has to tell this one.
#[tactic(auto, using(crate::proofs::TakingLemmas::looks_same, crate::proofs::TakingLemmas::looks_none, crate::proofs::TakingLemmas::looks_one, crate::proofs::TakingLemmas::looks_then))]
fn told_by_proc<F: SystemFile>(
    file: &mut F,
    alloc: Global,
    number: u32,
    own: Identity,
) -> Result<(), Failure>
    ensures told { OnOk result ((name : List ℕ) × Adds (F.calls file.old) (F.calls file.new) (identity_of name (Some own) ∷ [])) }
    ensures looks { AddsSome (F.calls file.old) (F.calls file.new) AreLooks }
{
    let name = name_by_number(alloc, number)?;
    let untold = Failure {
        call: SystemCall::Proc,
        error: io::Error::from(io::ErrorKind::NotFound),
    };
    means_it(file, name.as_str(), own, untold)?;
    Ok(())
}

// Fails where the file has no number of its own, or where the files that the run has open can't be told.
#[tactic(auto, using(crate::proofs::TakingLemmas::looks_same, crate::proofs::TakingLemmas::looks_none, crate::proofs::TakingLemmas::looks_one, crate::proofs::TakingLemmas::looks_then, crate::proofs::TakingLemmas::numbered_then))]
fn numbered<F: SystemFile>(file: &mut F, alloc: Global, own: Identity) -> Result<(), Failure>
    ensures numbered { OnOk result (AddsSome (F.calls file.old) (F.calls file.new) (IsNumbered own)) }
    ensures looks { AddsSome (F.calls file.old) (F.calls file.new) AreLooks }
{
    let number = number_above(file)?;
    told_by_proc(file, alloc, number, own)?;
    Ok(())
}

// Fails where the file is a standard stream of this run, or one that a name of `others` means; also where that can't be told.
#[tactic(auto, using(crate::proofs::TakingLemmas::looks_same, crate::proofs::TakingLemmas::looks_none, crate::proofs::TakingLemmas::looks_one, crate::proofs::TakingLemmas::looks_then, crate::proofs::TakingLemmas::apart_then))]
fn apart<F: SystemFile>(
    file: &mut F,
    alloc: Global,
    others: &[&str],
    own: Identity,
) -> Result<(), Failure>
    ensures apart { OnOk result (AddsSome (F.calls file.old) (F.calls file.new) (IsApart (map (λ name. name.now) others.now) own)) }
    ensures looks { AddsSome (F.calls file.old) (F.calls file.new) AreLooks }
{
    numbered(file, alloc, own)?;
    mean_others(file, &STREAMS, own, SystemCall::Stream)?;
    mean_others(file, others, own, SystemCall::Other)?;
    Ok(())
}

// Locks the file.
fn lock<F: SystemFile>(file: &mut F) -> Result<(), Failure>
    ensures { Does (F.calls file.old) (F.calls file.new) result (λ done. locked) }
{
    let call = SystemCall::Lock;
    match file.lock() {
        Ok(()) => Ok(()),
        Err(error) => Err(Failure { call, error }),
    }
}

// Brings the names in the folder of the file of this name to the disk. A file whose name isn't there is lost with all that was synced to
// it. Whoever made the file may have been stopped before this, so it is done of each file that is taken.
fn sync_folder<F: SystemFile>(file: &mut F, name: &str) -> Result<(), Failure>
    ensures { Does (F.calls file.old) (F.calls file.new) result (λ done. folder_synced name.now) }
{
    let call = SystemCall::Folder;
    match file.sync_folder(name) {
        Ok(()) => Ok(()),
        Err(error) => Err(Failure { call, error }),
    }
}

// Locks the file, whose name still means it then, and brings that name to the disk.
#[tactic(auto, using(crate::proofs::TakingLemmas::looks_same, crate::proofs::TakingLemmas::looks_none, crate::proofs::TakingLemmas::looks_one, crate::proofs::TakingLemmas::looks_then, crate::proofs::TakingLemmas::held_then))]
fn hold<F: SystemFile>(file: &mut F, name: &str, own: Identity) -> Result<(), Failure>
    ensures held { OnOk result (AddsSome (F.calls file.old) (F.calls file.new) (IsHeld name.now own)) }
    ensures looks { AddsSome (F.calls file.old) (F.calls file.new) AreLooks }
{
    lock(file)?;
    means_it(file, name, own, unfit(SystemCall::Name))?;
    sync_folder(file, name)?;
    Ok(())
}

/// Takes the file of this name, before anything of it is read or written.
#[tactic(auto, using(crate::proofs::TakingLemmas::looks_same, crate::proofs::TakingLemmas::looks_none, crate::proofs::TakingLemmas::looks_one, crate::proofs::TakingLemmas::looks_then, crate::proofs::TakingLemmas::taken_then))]
pub fn take<F: SystemFile>(
    file: &mut F,
    alloc: Global,
    name: &str,
    access: Access,
    others: &[&str],
) -> Result<(), Failure>
    ensures taken { OnOk result (AddsSome (F.calls file.old) (F.calls file.new)
        (IsTaken name.now access (map (λ name. name.now) others.now))) }
    ensures looks { AddsSome (F.calls file.old) (F.calls file.new) AreLooks }
{
    let own = open_regular(file, name, access)?;
    apart(file, alloc, others, own)?;
    hold(file, name, own)?;
    Ok(())
}
