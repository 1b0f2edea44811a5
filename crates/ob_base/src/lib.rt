//! What every crate speaks of: names, ids, places in a text and their faults, and the two causes that need no more
//! words.
#![tactic(auto)]

mod bytes;
mod cause;
mod copy;
mod fault;
mod fields;
mod id;
mod laws;
mod name;
mod operator;
mod permission;
mod text_error;

pub use bytes::{put_i64, put_text, put_u8, put_u32};
pub use cause::{Failed, Memory};
pub use copy::{Duplicate, both, copy_items, copy_option};
pub use fault::{
    ARG_COUNT, ASSERT_FAILS, ASSET_LOST, ASSET_OVERWRITTEN, ASSIGN_PARAMETER, BAD_CHARACTER,
    BAD_ESCAPE, BAD_EXIT, BAD_TRANSITION, BIG_NUMBER, BOUND, BRANCH_LOSES, DUPLICATE,
    EXIT_MISMATCH, EXPECTED, FIELD_MISMATCH, INTERFACE_MISMATCH, LIMIT, LONG_NAME, LONG_PROGRAM,
    LONG_STRING, LOOP_CHANGES, MISSING_RETURN, NO_STATE, NON_ASSET_OWNER, NOT_ACCESSIBLE,
    NOT_FIELD, NOT_OWNING, NOT_SHARED, NOT_UTF8, OPEN_COMMENT, OPEN_STRING, PARAM_COUNT,
    ProgramFault, Span, TEST_TWICE, TEST_UNOWNED, THIS_DIFFERS, THIS_IN_CONSTRUCTOR, TOO_DEEP,
    TOO_MANY_INSTANCES, TWO_MAINS, TYPE_MISMATCH, UNDER_TEST, UNKNOWN_NAME, UNREACHABLE, UNSET,
    USED_TWICE, VIEW_CHANGES, WRONG_KIND, WRONG_STATE, fault_name,
};
pub use fields::{FieldFault, Fields};
pub use id::{ContractId, FieldId, ObjectId, StateId, TxId};
pub use laws::one_field;
pub use name::{Label, Name, NameError, Text, is_digit, is_letter, is_letter_or_digit};
pub use operator::Operator;
pub use permission::{Mode, NO_STATE_BIT, OTHER_STATE_BIT, Perm};
pub use sqlite_items::{Boxed, Items};
pub use text_error::TextError;

mod limits;

pub use limits::{
    AREA_BYTES, DEFAULT_FUEL, DEFAULT_LANES, DEFAULT_SLICE, LONGEST_LINE, LONGEST_NAME,
    LONGEST_PROGRAM, LONGEST_STRING, LONGEST_TRIAL, MOST_CONTRACTS, MOST_COPIED, MOST_FIELDS,
    MOST_FUEL, MOST_HANDLES, MOST_INSTANCES, MOST_LANES, MOST_NOTED, MOST_OBJECTS, MOST_OPEN,
    MOST_PARAMS, MOST_REQUESTS, MOST_SLICE, MOST_SLOTS, MOST_STATES, MOST_TAKEN, MOST_TRANSACTIONS,
    MOST_WALKED, MOST_WEIGHT, limits_are_defined,
};
