// The notation of the rows: `\r`, `\n` and `\xNN` for a byte, and `{COUNT*TEXT}` for a text so many times.
use skopeo_outside::{Many, Memory, Text};
use std::alloc::Global;

/// What stands behind a backslash: the letter of a byte, and a text.
fn push_escaped(bytes: &mut Many<u8>, part: &str) -> Result<(), Memory> {
    if let Some(rest) = part.strip_prefix("r") {
        bytes.push(13)?;
        return bytes.extend(rest.as_bytes());
    }
    if let Some(rest) = part.strip_prefix("n") {
        bytes.push(10)?;
        return bytes.extend(rest.as_bytes());
    }
    let byte = u8::from_str_radix(part.get(1..3).unwrap_or(""), 16);
    bytes.push(byte.unwrap_or(0))?;
    bytes.extend(part.get(3..).unwrap_or("").as_bytes())
}

/// A text without repetitions.
fn push_plain(bytes: &mut Many<u8>, text: &str) -> Result<(), Memory> {
    let mut escaped = false;
    for part in text.split('\\') {
        if escaped {
            push_escaped(bytes, part)?;
        } else {
            bytes.extend(part.as_bytes())?;
        }
        escaped = true;
    }
    Ok(())
}

fn push_times(bytes: &mut Many<u8>, count: u32, text: &str) -> Result<(), Memory> {
    for _ in 0..count {
        push_plain(bytes, text)?;
    }
    Ok(())
}

/// The count and the text of a repetition, and what follows it.
fn cut_times(part: &str) -> Option<(u32, &str, &str)> {
    let (times, rest) = part.split_once('}')?;
    let (count, text) = times.split_once('*')?;
    match count.parse::<u32>() {
        Ok(count) => Some((count, text, rest)),
        Err(_) => None,
    }
}

/// What stands behind a brace, which stands for itself where no repetition begins.
fn push_braced(bytes: &mut Many<u8>, part: &str) -> Result<(), Memory> {
    match cut_times(part) {
        Some((count, text, rest)) => {
            push_times(bytes, count, text)?;
            push_plain(bytes, rest)
        }
        None => {
            bytes.push(b'{')?;
            push_plain(bytes, part)
        }
    }
}

/// The bytes that a text stands for.
pub fn spelled(alloc: Global, text: &str) -> Result<Many<u8>, Memory> {
    let mut bytes = Many::new(alloc);
    let mut braced = false;
    for part in text.split('{') {
        if braced {
            push_braced(&mut bytes, part)?;
        } else {
            push_plain(&mut bytes, part)?;
        }
        braced = true;
    }
    Ok(bytes)
}

/// The bytes of each of some texts, which stand between ` | `.
pub fn spelled_all(alloc: Global, input: &str) -> Result<Many<Many<u8>>, Memory> {
    let mut all = Many::new(alloc);
    for text in input.split(" | ") {
        all.push(spelled(alloc, text)?)?;
    }
    Ok(all)
}

/// Bytes as a text, or what stands for bytes that are none.
pub fn shown(bytes: &[u8]) -> &str {
    std::str::from_utf8(bytes).unwrap_or("no text")
}

/// Bytes as a text up to 64, or their number.
pub fn told(alloc: Global, bytes: &[u8]) -> Result<Text, Memory> {
    let count = bytes.len();
    if count > 64 {
        return Ok(Text::from_string(format!(in alloc; "{count}")?));
    }
    Ok(Text::from_string(format!(in alloc; "{:?}", shown(bytes))?))
}
