//! The jobs of an image over one to sixteen lanes: each was done on some lane exactly where no job failed, else the least.
#![tactic(auto)]

mod carry;
mod lane;
mod lend;
mod pass;
mod secure;

pub use carry::carry_blob;
pub use secure::secure_jobs;
