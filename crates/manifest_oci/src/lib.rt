//! Bytes are read as an OCI image manifest exactly where no member is bad; else the first bad one is named.
#![tactic(auto)]

mod image;

pub use image::{read_image, write_image};
