//! A list becomes one of a kind exactly where each entry is an image's, with a platform where the kind asks for one.
#![tactic(auto)]

mod entry;
mod list;

pub use entry::Written;
pub use list::convert_list;
