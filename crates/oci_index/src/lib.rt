//! The index of an OCI layout: its entries are read exactly where the format says them; the new text keeps all others.
#![tactic(auto)]

mod choice;
mod edit;
mod entry;
mod numbers;
mod read;
mod version;

pub use choice::{ChoiceFault, choose};
pub use edit::{NewEntry, new_index};
pub use read::read_index;
pub use version::{LAYOUT, says_version};
