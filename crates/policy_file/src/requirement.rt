use image_ref::ImageRef;
use skopeo_outside::{Many, Text};

/// The keys of a `signedBy`: paths of key files, or the decoded data of one.
#[derive(Debug, Drop)]
pub enum Keys {
    Paths(Many<Text>),
    Bytes(Many<u8>),
}

/// How the name that was signed has to agree with the image's own.
#[derive(Debug, Drop)]
pub enum IdentityRule {
    Exact,
    RepoDigestOrExact,
    Repository,
    ExactReference(ImageRef),
    ExactRepository(ImageRef),
    /// The prefix, and the one that stands in its place in signed names.
    Remap(Text, Text),
}

/// One requirement of a list.
#[derive(Debug, Drop)]
pub enum Requirement {
    Accept,
    Reject,
    SignedBy(Keys, IdentityRule),
    Sigstore,
}
