use http_exchange::Answer;
use skopeo_outside::Text;

/// A blob that is read at its source, one variant a kind of source.
#[derive(Drop)]
pub enum Blob {
    /// A file of a folder, of which so many bytes were given.
    File(Text, u64),
    /// The answer of a registry, which gave so many bytes.
    Answer(Answer, u64),
}

/// A blob that is written at its destination and not named yet, one variant a kind of destination.
#[derive(Debug, Drop)]
pub enum Upload {
    /// The part file that the lane's number and the blob's digest name.
    File,
}
