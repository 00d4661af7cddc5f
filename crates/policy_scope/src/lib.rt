//! The list that counts for an image: exactly that of its most specific scope which the policy has.
#![tactic(auto)]

mod choice;
mod docker;
mod identity;
mod lookup;
mod wildcards;

pub use choice::{Chosen, choose};
pub use identity::Identity;
