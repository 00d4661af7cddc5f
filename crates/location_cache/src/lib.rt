//! A desk that seats draw jobs from: when it ends, the jobs up to some number were drawn, each exactly once.
#![tactic(auto)]

mod cache;
mod candidates;
mod desk;
mod learn;
mod rule;
mod view;

pub use cache::{Cache, CacheRow};
pub use candidates::Candidates;
pub use desk::{Desk, DeskSeat};
pub use view::{Jobs, View};
