// Exchanges over answers that come in pieces of several sizes.
ghost use Rattle.std.specs.Prelude.{◌≡◌, codes, false};
ghost use Rattle.http_message.specs.Sent.{is_text};
ghost use Rattle.http_exchange.specs.Talk.{is_get};

use crate::outcomes::{fault_text, push_unless_same, result_text};
use crate::script::wire_to;
use crate::spelling::{shown, spelled, spelled_all};
use http::Method;
use http_exchange::{begin, end, exchange, send_piece};
use http_message::{ExchangeFault, Request, may_send};
use skopeo_outside::{Many, Memory, Step, Text, Wire};
use std::alloc::Global;

/// More bytes than any answer of a row has.
pub const WHOLE: usize = 1_048_576;

/// Most bytes of a body.
const LIMIT: u64 = 20;

/// A request without a body.
pub fn request_by(alloc: Global, method: &str) -> Result<Request, Memory> {
    let Ok(method) = Method::from_bytes(alloc, method.as_bytes()) else {
        return Err(Memory);
    };
    Ok(Request {
        method,
        host: Text::copy_of(alloc, "reg.local:5000")?,
        port: 5000,
        target: Text::copy_of(alloc, "/v2/")?,
        accept: false,
        content_type: None,
        length: None,
    })
}

/// What an exchange comes to, and where it was asked again.
fn outcome(
    alloc: Global,
    method: &str,
    answers: Many<Many<u8>>,
    piece: usize,
    limit: u64,
) -> Result<Text, Memory> {
    let mut wire = wire_to(alloc, answers, piece);
    let request = request_by(alloc, method)?;
    if !may_send(&request, 0) {
        return Err(Memory);
    }
    let result = exchange(alloc, &mut wire, &request, Step::Blob, &[], limit);
    let mut text = result_text(alloc, &result)?;
    text.push_str(wire.peer().hops.as_str())?;
    Ok(text)
}

/// The outcome of whole answers, and where it differs those of answers in pieces.
fn outcomes(alloc: Global, method: &str, input: &str, limit: u64) -> Result<Text, Memory> {
    let whole = outcome(alloc, method, spelled_all(alloc, input)?, WHOLE, limit)?;
    let mut text = Text::copy_of(alloc, whole.as_str())?;
    for piece in [1, 2, 7, 8192] {
        let found = outcome(alloc, method, spelled_all(alloc, input)?, piece, limit)?;
        push_unless_same(&mut text, whole.as_str(), found.as_str())?;
    }
    Ok(text)
}

/// What an exchange by this method comes to, whose body is within 20 bytes.
pub fn exchanged(alloc: Global, method: &str, input: &str) -> Result<Text, Memory> {
    outcomes(alloc, method, input, LIMIT)
}

/// The same of a GET with a limit above all bodies.
pub fn unlimited(alloc: Global, input: &str) -> Result<Text, Memory> {
    outcomes(alloc, "GET", input, u64::MAX)
}

/// The step of a bad answer, and its first bytes.
pub fn first(alloc: Global, input: &str) -> Result<Text, Memory> {
    let mut wire = wire_to(alloc, spelled_all(alloc, input)?, 7);
    let request = request_by(alloc, "GET")?;
    if !may_send(&request, 0) {
        return Err(Memory);
    }
    match exchange(alloc, &mut wire, &request, Step::Tags, &[], LIMIT) {
        Err(ExchangeFault::BadAnswer(step, bytes)) => {
            let count = bytes.len();
            let bytes = shown(bytes.as_slice());
            Ok(Text::from_string(format!(in alloc; "{step:?} {count} {bytes:?}")?))
        }
        other => result_text(alloc, &other),
    }
}

/// The outcome of these bytes as the one answer.
fn outcome_of(alloc: Global, bytes: &[u8], piece: usize) -> Result<Text, Memory> {
    let mut answer = Many::new(alloc);
    answer.extend(bytes)?;
    let mut answers = Many::new(alloc);
    answers.push(answer)?;
    outcome(alloc, "GET", answers, piece, LIMIT)
}

/// The outcome of an answer, and where it differs those in pieces of each size.
fn in_all_pieces(alloc: Global, bytes: &[u8]) -> Result<Text, Memory> {
    let whole = outcome_of(alloc, bytes, WHOLE)?;
    let mut text = Text::copy_of(alloc, whole.as_str())?;
    for piece in 1..bytes.len() {
        let found = outcome_of(alloc, bytes, piece)?;
        push_unless_same(&mut text, whole.as_str(), found.as_str())?;
    }
    Ok(text)
}

/// The outcome of no bytes, and where it differs those of each other front of an answer.
fn of_all_fronts(alloc: Global, bytes: &[u8]) -> Result<Text, Memory> {
    let none = outcome_of(alloc, &[], WHOLE)?;
    let mut text = Text::copy_of(alloc, none.as_str())?;
    for end in 1..bytes.len() {
        let found = outcome_of(alloc, &bytes[..end], WHOLE)?;
        push_unless_same(&mut text, none.as_str(), found.as_str())?;
    }
    Ok(text)
}

/// The outcome of an answer in pieces of each size, and that of each of its fronts.
pub fn cuts(alloc: Global, input: &str) -> Result<Text, Memory> {
    let answer = spelled(alloc, input)?;
    let whole = in_all_pieces(alloc, answer.as_slice())?;
    let fronts = of_all_fronts(alloc, answer.as_slice())?;
    Ok(Text::from_string(format!(in alloc; "{}, each front {}", whole.as_str(), fronts.as_str())?))
}

fn is_get(request: &Request) -> bool
    ensures { result ≡ is_get request.now }
{
    request.method.as_str() == "GET"
}

fn is_head(request: &Request) -> bool
    ensures { result ≡ is_text (codes "HEAD") request.now.method }
{
    request.method.as_str() == "HEAD"
}

/// What a request with a body of two pieces comes to.
fn sent_in_pieces<W: Wire>(alloc: Global, wire: &mut W, request: &Request) -> Result<Text, Memory>
    requires no_get { is_get request.now ≡ false }
    requires no_head { is_text (codes "HEAD") request.now.method ≡ false }
{
    if !may_send(request, 6) {
        return Err(Memory);
    }
    let mut unsent = match begin(alloc, wire, request) {
        Ok(unsent) => unsent,
        Err(fault) => return fault_text(alloc, &fault),
    };
    if unsent.left() != 6 {
        return Text::from_str(alloc, "another length");
    }
    if let Err(fault) = send_piece(wire, &mut unsent, b"abc") {
        return fault_text(alloc, &fault);
    }
    if let Err(fault) = send_piece(wire, &mut unsent, b"def") {
        return fault_text(alloc, &fault);
    }
    let result = end(alloc, wire, Step::Piece, LIMIT);
    result_text(alloc, &result)
}

/// The outcome of a request that is sent in pieces, and all that was sent.
pub fn upload(alloc: Global, input: &str) -> Result<Text, Memory> {
    let mut wire = wire_to(alloc, spelled_all(alloc, input)?, 7);
    let mut request = request_by(alloc, "PATCH")?;
    request.content_type = Some(Text::copy_of(alloc, "application/octet-stream")?);
    request.length = Some(6);
    if is_get(&request) || is_head(&request) {
        return Err(Memory);
    }
    let outcome = sent_in_pieces(alloc, &mut wire, &request)?;
    let sent = shown(wire.peer().sent.as_slice());
    Ok(Text::from_string(format!(in alloc; "{} {sent:?}", outcome.as_str())?))
}
