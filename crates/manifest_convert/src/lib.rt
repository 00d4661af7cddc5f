//! A kind is given exactly where no member of the tree contradicts it; each blob of an image is exactly one job.
#![tactic(auto)]

mod any;
mod blobs;
mod content;
mod kind;

pub use any::read_any_image;
pub use blobs::blobs_of;
pub use kind::{kind_of, kind_of_parsed};
