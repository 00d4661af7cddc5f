//! Jobs over one to sixteen lanes: receipts for all exactly where no job failed, else the least job that failed.
#![tactic(auto)]

mod asked;
mod cause;
mod conclude;
mod finish;
mod gather;
mod lane;
mod plain;
mod receipt;
mod secure;
mod settle;
mod staff;
mod team;
mod worker;

pub use asked::{Asked, LaneAnswer};
pub use cause::{BlobMismatch, Cause};
pub use lane::BlobLane;
pub use receipt::{Done, How, JobFault, Receipt};
pub use secure::secure_all;
