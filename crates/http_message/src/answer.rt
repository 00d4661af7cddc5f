// An answer, as callers get it.
ghost use Rattle.std.specs.Prelude.{◌≡◌, ◌==◌, ◌&&◌, ℕ, Bool, List, ◌++◌, map, IfOk, OnOk};
ghost use Rattle.httparse.specs.Grammar.{ResponseHead};
ghost use Rattle.http_message.specs.Shown.{field_bytes, pair_bytes, Shows, answer_of, answer_kept};
ghost use Rattle.http_message.specs.Spelling.{has_body, told_header, told_headers, answer_with};

use crate::head::{Field, Head};
use skopeo_outside::{Many, Memory, Pair, Text};
use std::alloc::Global;
use std::str;

/// An answer: its status, its header lines in their order, and its body.
#[derive(Debug, Drop)]
pub struct Response {
    /// Its status code.
    pub status: u16,
    /// Its header lines, those that are told.
    pub headers: Many<Pair>,
    /// Its body, empty where it has none that is read.
    pub body: Many<u8>,
}

/// Whether the body of an answer of this status is read: only a 200 to a GET has one.
pub fn has_body(get: bool, status: u16) -> bool
    ensures { result ≡ has_body get status }
{
    get && status == 200
}

/// Adds a header line, where its name and its value are UTF-8.
fn push_told(alloc: Global, pairs: &mut Many<Pair>, field: &Field) -> Result<(), Memory>
    ensures { OnOk result (map pair_bytes pairs.new ≡ map pair_bytes pairs.old ++ told_header (field_bytes field.now)) }
{
    let Ok(name) = str::from_utf8(&field.name) else {
        return Ok(());
    };
    let Ok(value) = str::from_utf8(&field.value) else {
        return Ok(());
    };
    let name = Text::copy_of(alloc, name)?;
    let value = Text::copy_of(alloc, value)?;
    pairs.push(Pair { name, value })?;
    Ok(())
}

/// The header lines whose name and value are UTF-8, in their order. The only error is want of memory.
pub fn told_headers(alloc: Global, fields: &[Field]) -> Result<Many<Pair>, Memory>
    ensures { IfOk result (λ pairs. map pair_bytes pairs ≡ told_headers (map field_bytes fields.now)) }
{
    let mut pairs = Many::new(alloc);
    for field in fields {
        push_told(alloc, &mut pairs, field)?;
    }
    Ok(pairs)
}

/// The response with this head and this body. The only error is want of memory.
pub fn respond(alloc: Global, head: &Head, body: Many<u8>) -> Result<Response, Memory>
    ensures kept { IfOk result (λ r. answer_of r ≡ answer_kept head.now body) }
    ensures answer { IfOk result (λ r. (h : ResponseHead) → Shows head.now h → answer_of r ≡ answer_with h body) }
{
    let headers = told_headers(alloc, &head.fields)?;
    Ok(Response {
        status: head.status,
        headers,
        body,
    })
}
