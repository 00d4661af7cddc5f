//! Real files behind the trait: the count of faults rises by one exactly where a call answers a fault, and the first is noted.
#![tactic(auto)]

mod calls;
mod disk;
mod files;
mod known;
mod note;
mod opened;
mod progress;

pub use disk::Disk;
pub use files::RealFiles;
pub use note::{Call, Note, words_of};
pub use progress::Progress;
