use crate::platform::Platform;
use manifest_v2s2::{Descriptor, Kind};
use skopeo_outside::Many;

/// An image of a list, and what it runs on.
#[derive(Debug, Drop)]
pub struct ListEntry {
    pub target: Descriptor,
    pub platform: Option<Platform>,
}

/// A list of images: a schema 2 list or an OCI index.
#[derive(Debug, Drop)]
pub struct List {
    pub kind: Kind,
    pub entries: Many<ListEntry>,
}
