// Chunk lines and trailer parts.
ghost use Rattle.std.specs.Prelude.{◌≡◌, ◌≤◌, ℕ, List, length, IsErrOf};
ghost use Rattle.http_message.specs.Outcome.{Gives};
ghost use Rattle.http_message.specs.Chunks.{trailer_lines, IsChunkLineOf, IsWrongChunkLine, IsTrailer, IsWrongTrailer};

use crate::block::MOST_LINES;
use crate::fault::AnswerFault;
use httparse::spans::{EMPTY_HEADER_SPAN, parse_headers};
use httparse::{Status, parse_chunk_size};

/// Reads a block as a chunk line, all of it, and answers the chunk's size (RFC 9112, section 7.1). It is
/// BadAnswer where it is none. Takes no memory.
pub fn read_chunk_line(block: &[u8]) -> Result<u64, AnswerFault>
    ensures line { Gives (IsChunkLineOf block.now) (λ o. IsWrongChunkLine o block.now) result }
    ensures told { ¬ (IsErrOf result AnswerFault.Memory) }
{
    match parse_chunk_size(block) {
        Ok(Status::Complete((len, size))) => {
            if len != block.len() {
                return Err(AnswerFault::BadAnswer);
            }
            Ok(size)
        }
        Ok(Status::Partial) => Err(AnswerFault::BadAnswer),
        Err(_) => Err(AnswerFault::BadAnswer),
    }
}

/// How many lines of a trailer part are not empty.
fn trailer_lines(block: &[u8]) -> usize
    ensures { result ≡ trailer_lines block.now }
{
    block
        .iter()
        .filter(|b| **b == b'\n')
        .count()
        .saturating_sub(1)
}

/// Reads a block as a trailer part, all of it; its lines are dropped (RFC 9112, section 7.1.2). It is
/// HeadersTooMany where it has more than 100 lines, and else BadAnswer where it is none. Takes no memory.
pub fn read_trailer(block: &[u8]) -> Result<(), AnswerFault>
    requires { length block.now ≤ 65536 }
    ensures trailer { Gives (λ _. (trailer_lines block.now ≤ 100) × IsTrailer block.now) (λ o. IsWrongTrailer o block.now) result }
    ensures told { ¬ (IsErrOf result AnswerFault.Memory) }
{
    let lines = trailer_lines(block);
    if lines > MOST_LINES {
        return Err(AnswerFault::HeadersTooMany(lines as u32));
    }
    let mut spans = [EMPTY_HEADER_SPAN; MOST_LINES];
    match parse_headers(block, &mut spans) {
        Ok(Status::Complete((len, _))) => {
            if len != block.len() {
                return Err(AnswerFault::BadAnswer);
            }
            Ok(())
        }
        Ok(Status::Partial) => Err(AnswerFault::BadAnswer),
        Err(_) => Err(AnswerFault::BadAnswer),
    }
}
