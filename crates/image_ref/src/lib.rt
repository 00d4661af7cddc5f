//! Names of images: a text is read exactly where it is in the grammar, as the one name it spells, and
//! refused by its first fault.
#![tactic(auto)]

mod clean;
mod component;
mod cut;
mod digest;
mod domain;
mod fault;
mod named;
mod optional;
mod path;
mod place;
mod reference;
mod split;
mod tag;

pub use clean::{clean_once, clean_path};
pub use cut::cut_at;
pub use digest::{Digest, read_digest};
pub use domain::is_domain;
pub use fault::{PlaceFault, RefFault};
pub use named::{one_reference, parse_docker, parse_named};
pub use path::is_path;
pub use place::{Place, parse_place};
pub use reference::ImageRef;
pub use tag::is_tag;
