//! The policy file: a `Policy` is read exactly where its bytes are in the policy grammar.
#![tactic(auto)]

mod fault;
mod identity;
mod keys;
mod list;
mod members;
mod policy;
mod read;
mod refusal;
mod requirement;
mod scopes;

pub use fault::{PolicyFault, PolicyKind};
pub use policy::{Policy, Transport};
pub use read::read_policy;
pub use requirement::{IdentityRule, Keys, Requirement};
