//! A digester's `finish` is `Ok` exactly where the pieces that it was fed, joined, have the expected size and digest.
#![tactic(auto)]

mod digester;
mod job;

pub use digester::{Digester, Mismatch, digest_of};
pub use job::Job;
