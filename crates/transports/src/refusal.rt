// Why a copy ends without success.
ghost use Rattle.std.specs.Prelude.{◌≡◌};
ghost use Rattle.transports.specs.declared.refusal.Refusal.TheVariants as refusal;

use crate::attempt::Attempt;
use copy_workers::Cause;
use image_ref::RefFault;
use policy_gate::Why;
use skopeo_outside::{Many, Memory, Step, Text, What};

/// What is not built yet.
#[derive(Clone, Copy, Debug, PartialEq, Eq)]
pub enum Part {
    Policy,
    Manifest,
    Place,
}

/// Why the copy of an image ended. A job goes by its number, a requirement by its place, both from 1, and by the scope of
/// its list, `None` for the default one.
#[derive(Debug, Drop)]
pub enum Refusal {
    NotBuilt(Part),
    /// The text that a short name stands for is no reference, and why.
    BadReference(Text, RefFault),
    /// The short name has no alias, and so many registries are searched: none, or several of which one is to be chosen.
    ShortName(Text, u32),
    /// The table of this number, counted from 1, is blocked, and the image is under it.
    Blocked(u32),
    /// The host, which a redirect of a stored signature names with `https`.
    TlsRequired(Text),
    /// No source gave the manifest: each in order, with its cause.
    NoSource(Many<Attempt>),
    /// The folder at this path holds no image, or as a destination something else than an image.
    NotAnImageDir(Text),
    /// So many were come to of what is counted, one more than there may be: bytes, or signatures.
    TooLarge(What, u64),
    /// The bytes are no manifest; the first bad member by its JSON pointer (RFC 6901).
    ManifestInvalid(Text),
    Rejected(Option<Text>, u32, Why),
    /// The program that judges signatures ended with this status, and not 0, or answered outside its protocol: the first 64
    /// bytes.
    Garbled(i32, Many<u8>),
    /// The step, and the first 64 bytes of an answer outside the grammar.
    BadAnswer(Step, Many<u8>),
    /// The stored signature of this number, counted from 1, was answered with this status.
    LookasideRefused(u32, u16),
    /// The answer of the step has a content encoding.
    Encoded(Step),
    /// The step was redirected more often than it may be.
    TooManyRedirects(Step),
    Job(u32, Cause),
    Files(u64),
    Wire(u64),
    /// The program that judges signatures failed.
    Helper(u64),
    Memory,
}

impl From<Memory> for Refusal {
    ghost from_gives = { λ _ e. e ≡ refusal.Memory };

    fn from(_: Memory) -> Self {
        Refusal::Memory
    }
}
