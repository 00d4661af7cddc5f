// Why a job fails.
ghost use Rattle.std.specs.Prelude.{◌≡◌};
ghost use Rattle.copy_workers.specs.declared.cause.Cause.TheVariants as cause;

use image_ref::Digest;
use skopeo_outside::{Many, Memory, Step, Text, What};

/// A blob of another digest or length than its job. Sizes and lengths are in bytes.
#[derive(Clone, Copy, Debug, PartialEq, Eq)]
pub struct BlobMismatch {
    /// The job's digest.
    pub expected: Digest,
    /// The job's size.
    pub size: u64,
    /// The digest of the bytes that came.
    pub found: Digest,
    /// How many came.
    pub length: u64,
}

/// Why a job failed. A count of faults is that of the job's lane at the end of the call that failed.
#[derive(Debug, Drop)]
pub enum Cause {
    /// The host, which may not be reached without TLS, or which a redirect names with `https`.
    TlsRequired(Text),
    /// The bytes of the blob have another digest or length.
    BlobMismatch(BlobMismatch),
    /// The source has no such blob.
    BlobAbsent(Digest),
    /// A step at the destination was answered with another status than it may have.
    DestRefused(Step, u16),
    /// What passed its limit, and how much of it was counted.
    TooLarge(What, u64),
    /// The step, and the first 64 bytes of an answer outside the grammar.
    BadAnswer(Step, Many<u8>),
    /// A step at the source was answered with another status than it may have.
    SourceRefused(Step, u16),
    /// The answer of the step has a content encoding.
    Encoded(Step),
    /// The step was redirected more often than it may be.
    TooManyRedirects(Step),
    /// The count of faults of the lane's wire.
    Wire(u64),
    /// The count of faults of the lane's files.
    Files(u64),
    /// There was no memory.
    Memory,
}

impl From<Memory> for Cause {
    ghost from_gives = { λ _ e. e ≡ cause.Memory };

    fn from(_: Memory) -> Self {
        Cause::Memory
    }
}
