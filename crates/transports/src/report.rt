use image_ref::Digest;
use skopeo_outside::{Many, Text};

/// One thing that was copied. Sizes are in bytes.
#[derive(Debug, Drop)]
pub enum CopiedRow {
    /// A blob, by its digest.
    Blob {
        digest: Digest,
        size: u64,
    },
    /// A manifest, by its digest, with its media type.
    Manifest {
        digest: Digest,
        size: u64,
        media: Text,
    },
}

/// An image that was copied: a row for each blob in job order, then one for the manifest; and the text that tells them,
/// which is made before the destination is touched, so that nothing after the manifest wants memory.
#[derive(Debug, Drop)]
pub struct Copied {
    pub rows: Many<CopiedRow>,
    pub lines: Text,
}
