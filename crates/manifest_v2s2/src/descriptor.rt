ghost use Rattle.std.specs.Prelude.{◌≡◌, IfOk};

use crate::copies::{copy_pairs, copy_text, copy_texts};
use image_ref::Digest;
use skopeo_outside::{Many, Memory, Pair, Text};
use std::alloc::Global;

/// A blob by its digest, and what is said of it (OCI Image Specification 1.1, "Content Descriptors").
#[derive(Debug, Drop)]
pub struct Descriptor {
    pub media: Text,
    pub digest: Digest,
    /// In bytes.
    pub size: u64,
    pub urls: Many<Text>,
    pub annotations: Many<Pair>,
}

impl Descriptor {
    /// An equal descriptor.
    pub fn copy(&self, alloc: Global) -> Result<Descriptor, Memory>
        ensures { IfOk result (λ copy. copy ≡ self.now) }
    {
        Ok(Descriptor {
            media: copy_text(alloc, &self.media)?,
            digest: self.digest,
            size: self.size,
            urls: copy_texts(alloc, self.urls.as_slice())?,
            annotations: copy_pairs(alloc, self.annotations.as_slice())?,
        })
    }
}
