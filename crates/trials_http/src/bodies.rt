// Bodies that are given piece by piece.
ghost use Rattle.std.specs.Prelude.{◌≡◌, ◌<◌, length, None, IsTrue};
ghost use Rattle.http_exchange.specs.Reader.{IsReady};

use crate::exchanges::{WHOLE, request_by};
use crate::outcomes::{fault_text, push_unless_same};
use crate::script::wire_to;
use crate::spelling::{shown, spelled_all};
use http_exchange::{Answer, next_piece, open, read_full};
use http_message::may_send;
use skopeo_outside::{Many, Memory, Step, Text, Wire};
use std::alloc::Global;

/// The body that pieces give, and behind it `end` or the fault.
fn pieces_of<W: Wire>(
    alloc: Global,
    wire: &mut W,
    answer: &mut Answer,
    into: &mut [u8],
) -> Result<Text, Memory>
    requires open { IsReady answer.old.reader (W.is_open wire.old) }
    requires room { 0 < length into.old }
{
    let mut body = Many::new(alloc);
    for _ in 0..1000 {
        match next_piece(alloc, wire, answer, into) {
            Ok(0) => {
                let body = shown(body.as_slice());
                return Ok(Text::from_string(format!(in alloc; "{body:?} end")?));
            }
            Ok(count) => body.extend(&into[..count])?,
            Err(fault) => {
                let body = shown(body.as_slice());
                let fault = fault_text(alloc, &fault)?;
                return Ok(Text::from_string(format!(in alloc; "{body:?} {}", fault.as_str())?));
            }
        }
    }
    Text::from_str(alloc, "no end")
}

/// The status of the answer to a GET, and its body in pieces of at most as many bytes as `into` has.
fn given(alloc: Global, input: &str, piece: usize, into: &mut [u8]) -> Result<Text, Memory>
    requires room { 0 < length into.old }
{
    let mut wire = wire_to(alloc, spelled_all(alloc, input)?, piece);
    let request = request_by(alloc, "GET")?;
    if !may_send(&request, 0) {
        return Err(Memory);
    }
    match open(alloc, &mut wire, &request, Step::Blob) {
        Ok(mut answer) => {
            let status = answer.status();
            let pieces = pieces_of(alloc, &mut wire, &mut answer, into)?;
            Ok(Text::from_string(format!(in alloc; "{status} {}", pieces.as_str())?))
        }
        Err(fault) => fault_text(alloc, &fault),
    }
}

/// Adds what is given with this size of pieces, unless it is what was given first.
fn push_given(
    alloc: Global,
    text: &mut Text,
    input: &str,
    whole: &str,
    piece: usize,
) -> Result<(), Memory> {
    let one = given(alloc, input, piece, &mut [0; 1])?;
    push_unless_same(text, whole, one.as_str())?;
    let three = given(alloc, input, piece, &mut [0; 3])?;
    push_unless_same(text, whole, three.as_str())
}

/// What is given whole, and where it differs what is given in pieces.
pub fn body(alloc: Global, input: &str) -> Result<Text, Memory> {
    let whole = given(alloc, input, WHOLE, &mut [0; 64])?;
    let mut text = Text::copy_of(alloc, whole.as_str())?;
    for piece in [1, 2, 7, WHOLE] {
        push_given(alloc, &mut text, input, whole.as_str(), piece)?;
    }
    Ok(text)
}

/// What four calls give.
fn four_calls<W: Wire>(alloc: Global, wire: &mut W, answer: &mut Answer) -> Result<Text, Memory>
    requires open { IsReady answer.old.reader (W.is_open wire.old) }
{
    let mut text = Text::new(alloc);
    let mut into = [0; 8];
    for round in 0..4 {
        match next_piece(alloc, wire, answer, &mut into) {
            Ok(count) => text.push_number(count)?,
            Err(fault) => text.push_str(fault_text(alloc, &fault)?.as_str())?,
        }
        if round < 3 {
            text.push_str(" ")?;
        }
    }
    Ok(text)
}

/// What each of four calls on the answer to a GET gives.
pub fn calls(alloc: Global, input: &str) -> Result<Text, Memory> {
    let mut wire = wire_to(alloc, spelled_all(alloc, input)?, WHOLE);
    let request = request_by(alloc, "GET")?;
    if !may_send(&request, 0) {
        return Err(Memory);
    }
    match open(alloc, &mut wire, &request, Step::Blob) {
        Ok(mut answer) => four_calls(alloc, &mut wire, &mut answer),
        Err(fault) => fault_text(alloc, &fault),
    }
}

/// How many bytes each call gave, what came behind them, and all these bytes.
fn counted(alloc: Global, counts: &Text, last: &str, bytes: &Many<u8>) -> Result<Text, Memory> {
    let bytes = shown(bytes.as_slice());
    Ok(Text::from_string(format!(in alloc; "{}{last} {bytes:?}", counts.as_str())?))
}

/// What calls give that fill a buffer, up to the end or a fault.
fn fills_of<W: Wire>(
    alloc: Global,
    wire: &mut W,
    answer: &mut Answer,
    into: &mut [u8],
) -> Result<Text, Memory>
    requires open { IsReady answer.old.reader (W.is_open wire.old) }
    requires room { 0 < length into.old }
{
    let mut counts = Text::new(alloc);
    let mut bytes = Many::new(alloc);
    for _ in 0..1000 {
        match read_full(alloc, wire, answer, into) {
            Ok(0) => return counted(alloc, &counts, "end", &bytes),
            Ok(count) => {
                bytes.extend(&into[..count])?;
                counts.push_number(count)?;
                counts.push_str(" ")?;
            }
            Err(fault) => {
                let fault = fault_text(alloc, &fault)?;
                return counted(alloc, &counts, fault.as_str(), &bytes);
            }
        }
    }
    Text::from_str(alloc, "no end")
}

/// What the answer to a GET gives to calls that fill `into`, when it comes in pieces of this size.
fn filled_by(alloc: Global, input: &str, piece: usize, into: &mut [u8]) -> Result<Text, Memory>
    requires room { 0 < length into.old }
    ensures room { length into.new ≡ length into.old }
{
    let mut wire = wire_to(alloc, spelled_all(alloc, input)?, piece);
    let request = request_by(alloc, "GET")?;
    if !may_send(&request, 0) {
        return Err(Memory);
    }
    match open(alloc, &mut wire, &request, Step::Blob) {
        Ok(mut answer) => fills_of(alloc, &mut wire, &mut answer, into),
        Err(fault) => fault_text(alloc, &fault),
    }
}

/// Adds what calls give that fill `into` when pieces of this size come, where it differs from what they gave before.
fn push_filled_by(
    alloc: Global,
    text: &mut Text,
    input: &str,
    whole: &str,
    piece: usize,
    into: &mut [u8],
) -> Result<(), Memory>
    requires room { 0 < length into.old }
    ensures room { length into.new ≡ length into.old }
{
    let found = filled_by(alloc, input, piece, into)?;
    push_unless_same(text, whole, found.as_str())
}

/// Adds what calls give that fill `into`, and where it differs what they give when other pieces come.
fn push_filled(alloc: Global, text: &mut Text, input: &str, into: &mut [u8]) -> Result<(), Memory>
    requires room { 0 < length into.old }
{
    let whole = filled_by(alloc, input, WHOLE, into)?;
    text.push_str(whole.as_str())?;
    push_filled_by(alloc, text, input, whole.as_str(), 1, into)?;
    push_filled_by(alloc, text, input, whole.as_str(), 2, into)?;
    push_filled_by(alloc, text, input, whole.as_str(), 7, into)?;
    push_filled_by(alloc, text, input, whole.as_str(), 65536, into)?;
    Ok(())
}

/// What calls give that fill buffers of 1, 3 and 100 bytes.
pub fn filled(alloc: Global, input: &str) -> Result<Text, Memory> {
    let mut text = Text::new(alloc);
    push_filled(alloc, &mut text, input, &mut [0; 1])?;
    text.push_str(", ")?;
    push_filled(alloc, &mut text, input, &mut [0; 3])?;
    text.push_str(", ")?;
    push_filled(alloc, &mut text, input, &mut [0; 100])?;
    Ok(text)
}
