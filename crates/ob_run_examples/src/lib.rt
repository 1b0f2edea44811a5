//! The sample's run, worked out: its text is accepted, and its input is answered so. Nobody need take the theorem for an empty one.
#![tactic(auto)]

ghost use Rattle.std.specs.Prelude.{◌≡◌, List, []};
ghost use Rattle.ob_base.specs.Limits.{area_bytes};
ghost use Rattle.ob_table.specs.Tables.{ClassTable};
ghost use Rattle.ob_silica.specs.Terms.{SilicaBody};
ghost use Rattle.ob_front.specs.Programs.{IsProgram, IsAccepted};
ghost use Rattle.ob_io.specs.LinesOfText.{lines_of};
ghost use Rattle.ob_serve.specs.Session.{items_from, replies};
ghost use Rattle.ob_store_spec.specs.Stores.{StoreState, IsStoreOf};
ghost use Rattle.ob_run.specs.Sessions.{program_with, source_items, store_in_memory};
ghost use Rattle.ob_run.specs.VendingMachine.{vending_machine};
ghost use Rattle.ob_run_examples.specs.Sample.{asked, asked_stored, input, output};

/// The text of the vending machine is accepted.
pub fn vending_machine_is_accepted()
    ensures { IsAccepted vending_machine }
{}

/// The replies to the lines of the sample, by the source meaning of its program, from the empty store on, are these bytes.
pub fn sample_is_answered()
    ensures { (table : ClassTable) (bodies : List SilicaBody) → IsProgram vending_machine table bodies
        → replies (items_from (source_items asked table bodies) store_in_memory (lines_of input)) ≡ output }
{}

/// The same by `serve P STORE`, from the store on that a disk without a byte represents.
pub fn sample_is_answered_on_a_disk()
    ensures { (table : ClassTable) (bodies : List SilicaBody) (start : StoreState) → IsProgram vending_machine table bodies
        → IsStoreOf (program_with table bodies) area_bytes [] start
        → replies (items_from (source_items asked_stored table bodies) start (lines_of input)) ≡ output }
{}
