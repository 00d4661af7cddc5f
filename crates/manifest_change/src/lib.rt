//! An image becomes one of the other kind exactly where a row of the table has each of its types in both columns.
#![tactic(auto)]

mod change;
mod fault;
mod rows;
mod written;

pub use fault::ConvertFault;
pub use rows::{TypeRow, config_type, layer_type, manifest_type};
pub use written::{conversion, convert};
