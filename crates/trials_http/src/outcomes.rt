// Responses and faults as texts.
use crate::spelling::told;
use http_message::{ExchangeFault, Response};
use skopeo_outside::{Memory, Pair, Text};
use std::alloc::Global;

/// A fault. Of a bad answer its step alone, as its first bytes hang on the pieces that came.
pub fn fault_text(alloc: Global, fault: &ExchangeFault) -> Result<Text, Memory> {
    match fault {
        ExchangeFault::BadAnswer(step, _) => {
            Ok(Text::from_string(format!(in alloc; "BadAnswer({step:?})")?))
        }
        ExchangeFault::TlsRequired(host) => Ok(Text::from_string(format!(in alloc;
            "TlsRequired({:?})",
            host.as_str()
        )?)),
        ExchangeFault::Memory => Err(Memory),
        other => Ok(Text::from_string(format!(in alloc; "{other:?}")?)),
    }
}

/// A header line behind a space.
fn push_header(alloc: Global, text: &mut Text, pair: &Pair) -> Result<(), Memory> {
    let value = told(alloc, pair.value.as_str().as_bytes())?;
    let line = format!(in alloc; " {}={}", pair.name.as_str(), value.as_str())?;
    text.push_str(line.as_str())
}

/// Header lines, each behind a space.
pub fn headers_text(alloc: Global, headers: &[Pair]) -> Result<Text, Memory> {
    let mut text = Text::new(alloc);
    for pair in headers {
        push_header(alloc, &mut text, pair)?;
    }
    Ok(text)
}

/// The status, the header lines and the body.
fn response_text(alloc: Global, response: &Response) -> Result<Text, Memory> {
    let headers = headers_text(alloc, response.headers.as_slice())?;
    let body = told(alloc, response.body.as_slice())?;
    Ok(Text::from_string(format!(in alloc;
        "{}{} {}",
        response.status,
        headers.as_str(),
        body.as_str()
    )?))
}

/// What an exchange came to.
pub fn result_text(alloc: Global, found: &Result<Response, ExchangeFault>) -> Result<Text, Memory> {
    match found {
        Ok(response) => response_text(alloc, response),
        Err(fault) => fault_text(alloc, fault),
    }
}

/// Adds what came with pieces of a size, unless it is what came first.
pub fn push_unless_same(text: &mut Text, whole: &str, found: &str) -> Result<(), Memory> {
    if found == whole {
        return Ok(());
    }
    text.push_str(" differs: ")?;
    text.push_str(found)
}
