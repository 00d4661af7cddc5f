use image_ref::Digest;
use skopeo_outside::{Many, Step, Text, What};

/// Why a source of an image did not give its manifest. A count of faults is that of the wire at the end of the attempt.
#[derive(Debug, Drop)]
pub enum AttemptCause {
    /// The table of this number, counted from 1, is blocked.
    Blocked(u32),
    /// The host, which may not be asked without TLS, or which a redirect names with `https`.
    TlsRequired(Text),
    /// The digest that the reference names, and that of the bytes that came.
    ManifestDigest(Digest, Digest),
    /// What passed its limit, and how much of it was counted.
    TooLarge(What, u64),
    /// The step, and the first 64 bytes of an answer outside the grammar.
    BadAnswer(Step, Many<u8>),
    /// The step was answered with another status than it may have.
    SourceRefused(Step, u16),
    /// The answer of the step has a content encoding.
    Encoded(Step),
    /// The step was redirected more often than it may be.
    TooManyRedirects(Step),
    /// The text is no reference that keeps the tag and the digest of the image.
    BadRewrite(Text),
    /// The count of faults of the wire, which rose in the attempt.
    Wire(u64),
}

/// One source that was asked in vain: its text, and why.
#[derive(Debug, Drop)]
pub struct Attempt {
    pub source: Text,
    pub cause: AttemptCause,
}
