//! Bytes are read as an image exactly where no member of their tree is bad; else the first bad one is named.
#![tactic(auto)]

mod copies;
mod descriptor;
mod fault;
mod image;
mod kind;
mod members;
mod reading;
mod sizes;
mod write;

pub use descriptor::Descriptor;
pub use fault::{ManifestFault, told};
pub use image::{Image, image_of_parsed, read_absent, read_image, read_image_as, read_version};
pub use kind::Kind;
pub use members::{annotations_member, digest_member, media_member, size_member, urls_member};
pub use reading::read_descriptor;
pub use sizes::Sizes;
pub use write::{descriptor_value, write_image};
