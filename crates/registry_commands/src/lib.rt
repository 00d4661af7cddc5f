//! The commands `delete` and `list-tags` at a registry: each call makes exactly the stated exchanges, and ends as their answers say.
#![tactic(auto)]

mod asked;
mod deletion;
mod fault;
mod faults;
mod listing;

pub use deletion::delete;
pub use fault::CommandFault;
pub use listing::list_tags;
