//! Bytes are read as a list of images exactly where no member of their tree is bad; the first entry that fits is chosen.
#![tactic(auto)]

mod choose;
mod copies;
mod entry;
mod list;
mod platform;
mod platform_read;
mod read;
mod write;

pub use choose::choose_instance;
pub use list::{List, ListEntry};
pub use platform::{MemberValue, Platform, PlatformMember};
pub use read::{list_of_parsed, read_any_list, read_list_as};
pub use write::write_list;
