//! What the check of a body's permissions knows and asks: the contexts of the rules, the frame of a body, and the answer to
//! a premise. And what its rules do with places: reading and using them, giving them to parameters, and filling fields from
//! them (Coblenz et al., TOPLAS 42(3), 2020, "Silica").
#![tactic(auto)]

mod checking;
mod context;
mod filling;
mod frame;
mod kinds;
mod lists;
mod naming;
mod once;
mod passing;
mod places;
mod start;
mod using;

pub use checking::{FlowError, must};
pub use context::{Context, Known};
pub use filling::{fill, got};
pub use frame::{BodyFrame, is_stateless};
pub use kinds::{kind_of, known_as, permission_of_type};
pub use lists::{get_back_all, give_all, put_result};
pub use once::{each_once, keeps_fields};
pub use passing::{Parameter, all_operands, all_parameters, parameters};
pub use places::{is_field, is_tested, same_place, tests_field};
pub use start::beginning;
pub use using::{fitting, give, reads_place, uses_place};
