//! Laws of the invocation.
ghost use Rattle.std.specs.Prelude.{◌≡◌, ℕ, ◌+◌, false, List, Some, All};
ghost use Rattle.ob_table.specs.Tables.{ClassTable};
ghost use Rattle.ob_heap_spec.specs.Objects.{Object};
ghost use Rattle.ob_heap_spec.specs.Contents.{HandleName, Content, IsHandle};
ghost use Rattle.ob_heap_spec.specs.Handles.{NamedHandle, handle_at, put_handle, put_handles, without_handle};
ghost use Rattle.ob_rest_spec.specs.AtRest.{IsStoreAtRest};
ghost use Rattle.ob_rest_laws.specs.Laws.{handle_owners};
ghost use Rattle.ob_invocation_spec.specs.Requests.{Request, HasLabels};
ghost use Rattle.ob_invocation_spec.specs.Entering.{Meaning};
ghost use Rattle.ob_invocation_spec.specs.Invocation.{invoke};
ghost use Rattle.ob_invocation_laws.specs.Laws.{LeavesUnlessDone, TakesNothingIfRefused, TakesNothing, runs, AreHandles, found_after_put, found_without, owners_in, KeepsStoreAtRest, AreKeptInOrder, KeepsHandles};

/// A request that is refused or aborted leaves what the store holds.
pub fn only_done_requests_change_the_store()
    ensures { (meaning : Meaning) (table : ClassTable) (content : Content) (request : Request) (fuel : ℕ)
        → LeavesUnlessDone content (invoke meaning table content request fuel) }
{}

/// A refused request takes no unit, and neither does one that asks for no run.
pub fn only_runs_take_units()
    ensures refused { (meaning : Meaning) (table : ClassTable) (content : Content) (request : Request) (fuel : ℕ)
        → TakesNothingIfRefused (invoke meaning table content request fuel) }
    ensures still { (meaning : Meaning) (table : ClassTable) (content : Content) (request : Request) (fuel : ℕ)
        → runs request.operation ≡ false → TakesNothing (invoke meaning table content request fuel) }
{}

/// Handles on objects stay so, in the order of their names, where such are put, and where one goes.
pub fn handles_stay_in_order()
    ensures put { (objects : List Object) (handles puts : List NamedHandle) → AreHandles objects handles
        → All (IsHandle objects) puts → AreHandles objects (put_handles handles puts) }
    ensures gone { (objects : List Object) (handles : List NamedHandle) (name : HandleName)
        → AreHandles objects handles → AreHandles objects (without_handle handles name) }
{}

/// A name denotes the handle that was put under it last, and none once its handle has gone; any other name
/// denotes what it denoted.
pub fn handles_are_found_by_name()
    ensures put { (content : Content) (h : NamedHandle) (name : HandleName)
        → handle_at (record content { handles = put_handle content.handles h }) name ≡ found_after_put content h name }
    ensures gone { (content : Content) (gone name : HandleName)
        → handle_at (record content { handles = without_handle content.handles gone }) name
        ≡ found_without content gone name }
{}

/// Where a handle is put, what the handle of its name owned is no longer owned by a handle, and what it owns is. Where
/// one goes, what it owned isn't.
pub fn handles_carry_owners()
    ensures put { (content : Content) (n : ℕ) (h : NamedHandle) → AreHandles content.objects content.handles
        → handle_owners (put_handle content.handles h) n + owners_in n (handle_at content h.0)
        ≡ handle_owners content.handles n + owners_in n (Some h.1) }
    ensures gone { (content : Content) (n : ℕ) (name : HandleName) → AreHandles content.objects content.handles
        → handle_owners (without_handle content.handles name) n + owners_in n (handle_at content name)
        ≡ handle_owners content.handles n }
{}

/// A request that runs nothing, a `disown`, a `give`, a `see` or an `owner`, doesn't go wrong on a store at rest, and
/// leaves a store at rest.
pub fn still_requests_keep_rest()
    ensures { (meaning : Meaning) (table : ClassTable) (content : Content) (request : Request) (fuel : ℕ)
        → IsStoreAtRest table content → HasLabels request → runs request.operation ≡ false
        → KeepsStoreAtRest table (invoke meaning table content request fuel) }
{}

/// However a request is answered, the handles after it stand in the order of their names, each once, and are no more
/// than there may be, if they were so before it.
pub fn requests_keep_handles_few()
    ensures { (meaning : Meaning) (table : ClassTable) (content : Content) (request : Request) (fuel : ℕ)
        → AreKeptInOrder content.handles → KeepsHandles (invoke meaning table content request fuel) }
{}
