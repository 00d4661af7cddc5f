//! Real programs behind the trait: the count of faults rises by one exactly where a run answers a fault, and the first is noted.
#![tactic(auto)]

mod child;
mod helper;
mod note;

pub use helper::RealHelper;
pub use note::{Call, Note};
