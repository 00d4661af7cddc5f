// Heads, chunk lines and trailer parts, apart from any wire.
use crate::outcomes::headers_text;
use crate::spelling::spelled;
use http_message::{
    AnswerFault, Ending, Head, find_end, framing_of, has_body, is_encoded, is_interim,
    read_chunk_line, read_head, read_trailer, told_headers,
};
use skopeo_outside::{Memory, Text};
use std::alloc::Global;

fn fault_text(alloc: Global, fault: AnswerFault) -> Result<Text, Memory> {
    Ok(Text::from_string(format!(in alloc; "{fault:?}")?))
}

/// What a head says of the body of an answer to a GET.
fn framing_text(alloc: Global, head: &Head) -> Result<Text, Memory> {
    if is_interim(head.status) {
        return Text::from_str(alloc, "interim");
    }
    if is_encoded(&head.fields) {
        return Text::from_str(alloc, "encoded");
    }
    if !has_body(true, head.status) {
        return Text::from_str(alloc, "bare");
    }
    let framing = framing_of(alloc, &head.fields)?;
    Ok(Text::from_string(format!(in alloc; "{framing:?}")?))
}

/// The status of a head, what it says of the body, and its header lines.
fn said(alloc: Global, head: &Head) -> Result<Text, Memory> {
    let framing = framing_text(alloc, head)?;
    let pairs = told_headers(alloc, &head.fields)?;
    let headers = headers_text(alloc, pairs.as_slice())?;
    Ok(Text::from_string(format!(in alloc;
        "{} {}{}",
        head.status,
        framing.as_str(),
        headers.as_str()
    )?))
}

/// What a block says as the head of an answer to a GET.
pub fn head(alloc: Global, input: &str) -> Result<Text, Memory> {
    let block = spelled(alloc, input)?;
    if block.len() > 65536 {
        return Text::from_str(alloc, "long");
    }
    match read_head(alloc, block.as_slice()) {
        Ok(head) => said(alloc, &head),
        Err(fault) => fault_text(alloc, fault),
    }
}

/// The size that a chunk line says.
pub fn chunk_line(alloc: Global, input: &str) -> Result<Text, Memory> {
    let block = spelled(alloc, input)?;
    match read_chunk_line(block.as_slice()) {
        Ok(size) => Ok(Text::from_string(format!(in alloc; "{size}")?)),
        Err(fault) => fault_text(alloc, fault),
    }
}

/// Whether a block is a trailer part.
pub fn trailer(alloc: Global, input: &str) -> Result<Text, Memory> {
    let block = spelled(alloc, input)?;
    if block.len() > 65536 {
        return Text::from_str(alloc, "long");
    }
    match read_trailer(block.as_slice()) {
        Ok(()) => Text::from_str(alloc, "ok"),
        Err(fault) => fault_text(alloc, fault),
    }
}

/// The places of the first byte that ends an empty line, and of the first line feed.
pub fn ends(alloc: Global, input: &str) -> Result<Text, Memory> {
    let text = spelled(alloc, input)?;
    let bytes = text.as_slice();
    let empty = find_end(Ending::EmptyLine, bytes, 0, bytes.len());
    let feed = find_end(Ending::LineFeed, bytes, 0, bytes.len());
    Ok(Text::from_string(format!(in alloc; "{empty:?} {feed:?}")?))
}
