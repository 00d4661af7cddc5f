// Words that more than one layer uses.
use crate::lists::{Many, Text};

/// The bytes of a manifest, with the content type that came with them, or the empty text.
#[derive(Debug, Drop)]
pub struct Fetched {
    pub bytes: Many<u8>,
    pub content_type: Text,
}

/// A step of the exchange with a registry.
#[derive(Clone, Copy, Debug, PartialEq, Eq)]
pub enum Step {
    Manifest,
    Instance,
    Blob,
    Have,
    Mount,
    Start,
    Piece,
    Commit,
    Put,
    Delete,
    Tags,
    Signature,
}

/// What may be longer, or more, than its limit.
#[derive(Clone, Copy, Debug, PartialEq, Eq)]
pub enum What {
    Policy,
    Conf,
    Cache,
    Manifest,
    Index,
    Config,
    Signature,
    Signatures,
    SignatureBytes,
    Key,
    Keys,
    Answer,
    Head,
    Headers,
    TagsPage,
    Pages,
    Tags,
    Entries,
    Folders,
}
