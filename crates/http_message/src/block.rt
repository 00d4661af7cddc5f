// Heads, trailer parts and chunk lines, found by their ends.
ghost use Rattle.std.specs.Prelude.{◌≡◌, ◌<◌, ◌≤◌, ◌+◌, ◌-◌, ℕ, true, List, length, IfSome, IfNone};
ghost use Rattle.http_message.specs.Blocks.{ends_at, ends_empty_line, begins_line, HasNoEnd};

/// Most bytes of a head, a trailer part or a chunk line.
pub const MOST_BYTES: usize = 65536;

/// Most header lines of a head or a trailer part.
pub const MOST_LINES: usize = 100;

/// What ends a block.
#[derive(Clone, Copy, Debug, PartialEq, Eq)]
pub enum Ending {
    /// An empty line: of a head and a trailer part.
    EmptyLine,
    /// A line feed: of a chunk line.
    LineFeed,
}

/// Whether the byte at `i` begins a line.
fn begins_line(bytes: &[u8], i: usize) -> bool
    requires { i ≤ length bytes.now }
    ensures { result ≡ begins_line bytes.now i }
{
    i == 0 || bytes[i - 1] == b'\n'
}

/// Whether the line feed at `i` ends an empty line.
fn ends_empty_line(bytes: &[u8], i: usize) -> bool
    requires { i < length bytes.now }
    ensures { result ≡ ends_empty_line bytes.now i }
{
    bytes[i] == b'\n'
        && (begins_line(bytes, i) || bytes[i - 1] == b'\r' && begins_line(bytes, i - 1))
}

/// Whether a block ends at `i`.
fn ends_at(ending: Ending, bytes: &[u8], i: usize) -> bool
    requires { i < length bytes.now }
    ensures { result ≡ ends_at ending bytes.now i }
{
    match ending {
        Ending::EmptyLine => ends_empty_line(bytes, i),
        Ending::LineFeed => bytes[i] == b'\n',
    }
}

/// Where the first block ends, at `from` or later and below `to`: the offset of its last byte. None ends below `from`.
pub fn find_end(ending: Ending, bytes: &[u8], from: usize, to: usize) -> Option<usize>
    requires within { to ≤ length bytes.now }
    requires none_before { HasNoEnd ending bytes.now from }
    ensures found { IfSome result (λ i. (i < to) × (ends_at ending bytes.now i ≡ true) × HasNoEnd ending bytes.now i) }
    ensures none { IfNone result (HasNoEnd ending bytes.now to) }
{
    for i in from..to {
        if ends_at(ending, bytes, i) {
            return Some(i);
        }
    }
    None
}
