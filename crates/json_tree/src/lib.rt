//! A reading of a JSON tree has a value exactly where no member is bad; else it names the first bad one.
#![tactic(auto)]

mod build;
mod fault;
mod leaf;
mod path;
mod pointer;
mod tree;

pub use build::{list_value, pairs_value, put, text_value};
pub use fault::{Fault, at, both, under};
pub use leaf::{
    push, read_items, read_members, read_optional_list, read_optional_object, read_text, read_whole,
};
pub use path::{Path, Step};
pub use tree::{Parsed, read_tree};
