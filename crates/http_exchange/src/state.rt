// Where a body stands that is given piece by piece.
/// What comes next of a body.
#[derive(Clone, Copy, Debug, PartialEq, Eq)]
pub enum State {
    /// So many bytes.
    Left(u64),
    /// All bytes up to the end of the connection.
    Open,
    /// A chunk line.
    Line,
    /// So many bytes of a chunk, and its closing.
    Chunk(u64),
    /// Nothing: the body was given whole.
    Over,
}
