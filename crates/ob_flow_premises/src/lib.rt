//! What the forms are asked for: the premises of their rules, place by place and field by field; and what becomes of
//! the fields, and of the places that a call is given (Coblenz et al., TOPLAS 42(3), 2020, "Silica").
#![tactic(auto)]

mod calling;
mod changing;
mod joining;
mod looping;
mod modes;
mod returning;
mod straight;

pub use calling::{call_with, enter, leave_fields, pass};
pub use changing::{
    all_have_values, all_lose_none, all_of_state, all_overwrite_none, all_share_as_declared,
    all_stay_under_test, fill_all, fills_once, in_state, may_change, put_got,
};
pub use joining::{joined_context, joins_fields, joins_slots, same_mode};
pub use looping::{frame_is_as_at_head, head_context, is_as_at_head};
pub use modes::{is_owner, is_unowned};
pub use returning::{
    all_let_go, end_tests, leaves_fields, leaves_params, leaves_this, sets_fields, still_own,
};
pub use straight::{
    assert_held, copies_place, disowns_place, drops_slot, moves_to_slot, operates_on,
};
