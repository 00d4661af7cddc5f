//! What a source gives and a destination has, by kinds of place: each method says it between what a lane told and tells.
#![tactic(auto)]

mod attempt;
mod blob;
mod dest;
mod folder_dest;
mod folder_image;
mod folder_source;
mod found;
mod names;
mod plan;
mod refusal;
mod registry_source;
mod report;
mod source;
mod stopped;
mod store;
mod stored;
mod tried;

pub use attempt::{Attempt, AttemptCause};
pub use blob::{Blob, Upload};
pub use copy_workers::{BlobMismatch, Cause};
pub use dest::Dest;
pub use found::{Found, FoundImage, find_source};
pub use plan::CopyPlan;
pub use policy_gate::{Reason, Why};
pub use refusal::{Part, Refusal};
pub use report::{Copied, CopiedRow};
pub use source::Source;
pub use store::{Store, store_of};
