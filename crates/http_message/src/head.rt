// The head of an answer.
ghost use Rattle.std.specs.Prelude.{◌≡◌, ◌≤◌, ◌-◌, ◌==◌, ℕ, List, map, length, IfOk, All, count_by};
ghost use Rattle.httparse.specs.Spans.{IsHeaderWithin, header_bytes};
ghost use Rattle.http_message.specs.Outcome.{Gives};
ghost use Rattle.http_message.specs.Heads.{header_lines, IsWrongHead, is_interim};
ghost use Rattle.http_message.specs.Shown.{field_bytes, IsHeadOf};

use crate::block::MOST_LINES;
use crate::fault::AnswerFault;
use httparse::Status;
use httparse::spans::{EMPTY_HEADER_SPAN, HeaderSpan, parse_response};
use std::alloc::{AllocError, Global};

/// A header line, without the white space around its value.
#[derive(Drop)]
pub struct Field {
    /// Its name, in the letters that came.
    pub name: Vec<u8>,
    /// Its value, which may be empty.
    pub value: Vec<u8>,
}

/// A head: its status and its header lines, in their order.
#[derive(Drop)]
pub struct Head {
    /// Its status code.
    pub status: u16,
    /// Its header lines.
    pub fields: Vec<Field>,
}

/// How many header lines a head has.
fn header_lines(block: &[u8]) -> usize
    ensures { result ≡ header_lines block.now }
{
    block
        .iter()
        .filter(|b| **b == b'\n')
        .count()
        .saturating_sub(2)
}

/// The header lines that the spans cover.
fn fields_of(alloc: Global, block: &[u8], spans: &[HeaderSpan]) -> Result<Vec<Field>, AllocError>
    requires { All (IsHeaderWithin (length block.now)) spans.now }
    ensures { IfOk result (λ fields. map field_bytes fields.items ≡ map (header_bytes block.now) spans.now) }
{
    let mut fields = Vec::new(alloc);
    for span in spans {
        let name = Vec::from_slice(alloc, span.name.of(block))?;
        let value = Vec::from_slice(alloc, span.value.of(block))?;
        fields.push(Field { name, value })?;
    }
    Ok(fields)
}

/// Reads a block as a head, all of it (RFC 9112, section 4). It is HeadersTooMany where it has more than
/// 100 header lines, and else BadAnswer where it is no head.
pub fn read_head(alloc: Global, block: &[u8]) -> Result<Head, AnswerFault>
    requires { length block.now ≤ 65536 }
    ensures { Gives (IsHeadOf block.now) (λ o. IsWrongHead o block.now) result }
{
    let lines = header_lines(block);
    if lines > MOST_LINES {
        return Err(AnswerFault::HeadersTooMany(lines as u32));
    }
    let mut spans = [EMPTY_HEADER_SPAN; MOST_LINES];
    match parse_response(block, &mut spans) {
        Ok(Status::Complete(found)) => {
            if found.len != block.len() {
                return Err(AnswerFault::BadAnswer);
            }
            let fields = fields_of(alloc, block, &spans[..found.headers])?;
            Ok(Head {
                status: found.code,
                fields,
            })
        }
        Ok(Status::Partial) => Err(AnswerFault::BadAnswer),
        Err(_) => Err(AnswerFault::BadAnswer),
    }
}

/// Whether another head follows one of this status: 100 to 199.
pub fn is_interim(status: u16) -> bool
    ensures { result ≡ is_interim status }
{
    100 <= status && status <= 199
}
