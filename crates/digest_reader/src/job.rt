use image_ref::Digest;

/// One blob that a copy has to secure.
#[derive(Clone, Copy, Debug, PartialEq, Eq)]
pub struct Job {
    /// Its number; the jobs of an image count from 1.
    pub number: u32,
    pub digest: Digest,
    /// In bytes.
    pub size: u64,
}
