//! Real connections behind the trait: the count of faults rises by one exactly where a call answers a fault, and the first is noted.
#![tactic(auto)]

mod note;
mod stream;
mod wire;

pub use note::{Call, Note};
pub use wire::RealWire;
