// A verifier in memory, the program `v`. In a row `~` stands for a line feed of its answers.
use skopeo_outside::{Many, Memory, Reply, Text};
use std::alloc::Global;

/// The bytes of a text, with its line feeds.
pub fn bytes_of(alloc: Global, text: &str) -> Result<Many<u8>, Memory> {
    let mut bytes = Many::new(alloc);
    for (at, line) in text.split('~').enumerate() {
        if at > 0 {
            bytes.extend(b"\n")?;
        }
        bytes.extend(line.as_bytes())?;
    }
    Ok(bytes)
}

/// What the verifier is asked for a signature by some keys, which stand between commas.
fn question(alloc: Global, keys: &str, signature: &str) -> Result<Many<u8>, Memory> {
    let mut parts = Text::new(alloc);
    for key in keys.split(',') {
        parts.push_str(format!(in alloc; "key {}~{key}~", key.len())?.as_str())?;
    }
    let count = keys.split(',').count();
    let length = signature.len();
    let parts = parts.as_str();
    let text = format!(in alloc;
        "skopeo-verify 1~keys {count}~{parts}signature {length}~{signature}~end~"
    )?;
    bytes_of(alloc, text.as_str())
}

/// The bytes of an answer, filled up to a length by `x`.
fn filled(alloc: Global, answer: &str, length: usize) -> Result<Many<u8>, Memory> {
    let mut bytes = bytes_of(alloc, answer)?;
    if bytes.len() < length {
        let rest = vec![in alloc; b'x'; length - bytes.len()]?;
        bytes.extend(rest.as_slice())?;
    }
    Ok(bytes)
}

/// The reply to a question, by a text of status and answer. Behind the status may stand `*` and a length that the answer is filled
/// up to.
pub fn reply_of(alloc: Global, keys: &str, signature: &str, told: &str) -> Result<Reply, Memory> {
    let (status, answer) = told.split_once(" ").unwrap_or((told, ""));
    let (status, length) = status.split_once("*").unwrap_or((status, "0"));
    Ok(Reply {
        program: Text::from_str(alloc, "v")?,
        input: question(alloc, keys, signature)?,
        status: status.parse::<i32>().unwrap_or(0),
        answer: filled(alloc, answer, length.parse::<usize>().unwrap_or(0))?,
    })
}
