//! Command lines: words are read exactly where they are in the table of options, as one command,
//! and refused by their first fault and its place.
#![tactic(auto)]

mod asked;
mod classes;
mod command;
mod fault;
mod form;
mod found;
mod help;
mod law;
mod made;
mod pairs;
mod parts;
mod read;
mod table;
mod value;

pub use command::{Command, CommandName, Common, Format, Passing, SyncEnd};
pub use fault::{WordsFault, WordsKind};
pub use help::{help_text, version_text};
pub use law::one_line;
pub use read::read_words;
