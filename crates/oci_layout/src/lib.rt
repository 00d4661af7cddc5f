//! OCI layouts, the transport `oci`: each call reads and changes a told tree exactly as the layout says.
#![tactic(auto)]

mod blob;
mod destination;
mod image;
mod index;
mod paths;
mod put;
mod source;
mod written;

pub use image::OciImage;
