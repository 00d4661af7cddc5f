//! The policy's gate: an `Admitted` exists only where every requirement of its list holds.
#![tactic(auto)]

mod admitted;
mod gate;
mod parts;
mod read;
mod take;
mod walk;

pub use admitted::Admitted;
pub use take::Taken;
pub use walk::admit_source;
