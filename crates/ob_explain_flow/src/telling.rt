//! Which explanation a fault of the permission rules has.
ghost use Rattle.ob_table_spec.specs.Conditions.{IsClassTable};

use crate::case::Case;
use crate::exits::{
    explain_branches, explain_exit, explain_lost, explain_overwritten, explain_this,
};
use crate::fields::{explain_accessible, explain_field, explain_no_value};
use crate::forms::explain_form;
use crate::looping::explain_turn;
use crate::permissions::explain_permission;
use ob_base::{
    ASSET_LOST, ASSET_OVERWRITTEN, BRANCH_LOSES, EXIT_MISMATCH, FIELD_MISMATCH, LOOP_CHANGES,
    NOT_ACCESSIBLE, NOT_OWNING, NOT_SHARED, ProgramFault, THIS_DIFFERS, UNSET, WRONG_STATE,
};
use ob_explain_page::Explanation;
use ob_flow::Trace;
use ob_flow_context::BodyFrame;
use ob_silica::TermBody;
use ob_table::Table;
use std::alloc::Global;

fn explain_case(case: &Case<'_>, told: &mut Explanation) {
    match case.fault.number {
        NOT_OWNING | WRONG_STATE | NOT_SHARED => explain_permission(case, told),
        ASSET_LOST => explain_lost(case, told),
        ASSET_OVERWRITTEN => explain_overwritten(case, told),
        BRANCH_LOSES => explain_branches(case, told),
        THIS_DIFFERS => explain_this(case, told),
        NOT_ACCESSIBLE => explain_accessible(case, told),
        FIELD_MISMATCH => explain_field(case, told),
        UNSET => explain_no_value(case, told),
        EXIT_MISMATCH => explain_exit(case, told),
        LOOP_CHANGES => explain_turn(case, told),
        _ => explain_form(case, told),
    }
}

/// Explains the fault of a body by what the check of it knew; None where it is the body of no transaction of the table.
pub fn explain_body(
    alloc: Global,
    text: &[u8],
    table: &Table,
    body: &TermBody,
    fault: ProgramFault,
    trace: &Trace,
) -> Option<Explanation>
    requires { IsClassTable table.now }
{
    let frame = BodyFrame::new(table, body)?;
    let mut told = Explanation::new(alloc);
    if trace.lacks {
        told.what.lack();
    }
    if let Some(stop) = &trace.stop {
        let case = Case {
            text,
            frame: &frame,
            body,
            fault,
            stop,
            trace,
        };
        explain_case(&case, &mut told);
    }
    Some(told)
}
