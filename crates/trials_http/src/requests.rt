// The heads of requests.
use http::Method;
use http_message::{Request, may_send, write_head};
use skopeo_outside::{Memory, Text};
use std::alloc::Global;

fn column(input: &str, place: usize) -> &str {
    input.split(' ').nth(place).unwrap_or("")
}

/// The type of a body, and none for a dash.
fn type_of(alloc: Global, column: &str) -> Result<Option<Text>, Memory> {
    if column == "-" {
        return Ok(None);
    }
    Ok(Some(Text::copy_of(alloc, column)?))
}

/// The request of a row: its method, its target, whether it says which kinds of manifest are taken, and the type and the length
/// of its body, where they are no dash.
fn request_of(alloc: Global, input: &str) -> Result<Request, Memory> {
    let Ok(method) = Method::from_bytes(alloc, column(input, 0).as_bytes()) else {
        return Err(Memory);
    };
    Ok(Request {
        method,
        host: Text::copy_of(alloc, "reg.local:5000")?,
        port: 5000,
        target: Text::copy_of(alloc, column(input, 1))?,
        accept: column(input, 2) == "yes",
        content_type: type_of(alloc, column(input, 3))?,
        length: column(input, 4).parse().ok(),
    })
}

/// The text of a request's head, where it may be sent.
pub fn request(alloc: Global, input: &str) -> Result<Text, Memory> {
    let request = request_of(alloc, input)?;
    if !may_send(&request, request.length.unwrap_or(0)) {
        return Text::copy_of(alloc, "may not be sent");
    }
    let text = write_head(alloc, &request)?;
    Ok(Text::from_string(format!(in alloc; "{:?}", text.as_str())?))
}
