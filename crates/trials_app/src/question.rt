// What a verifier is asked, and the payload of a signature that a key fits.
use skopeo_outside::Memory;
use std::alloc::Global;

/// What stands behind a word.
fn behind<'b>(bytes: &'b [u8], word: &[u8]) -> Option<&'b [u8]> {
    bytes.strip_prefix(word)
}

/// The number that the first digits of some bytes spell, if it is not too large. `cut_line` compares it with them.
fn first_number(bytes: &[u8]) -> usize {
    let mut number = 0usize;
    for byte in bytes {
        if !byte.is_ascii_digit() {
            return number;
        }
        number = number
            .wrapping_mul(10)
            .wrapping_add(byte.wrapping_sub(b'0') as usize);
    }
    number
}

/// A word, a number and a line feed at the front: the number, and what is left.
fn cut_line<'b>(
    alloc: Global,
    bytes: &'b [u8],
    word: &[u8],
) -> Result<Option<(usize, &'b [u8])>, Memory> {
    let Some(rest) = behind(bytes, word) else {
        return Ok(None);
    };
    let number = first_number(rest);
    let digits = format!(in alloc; "{number}\n")?;
    match behind(rest, digits.as_bytes()) {
        Some(left) => Ok(Some((number, left))),
        None => Ok(None),
    }
}

/// A word, a length, so many bytes and a line feed at the front: the bytes, and what is left.
fn cut_part<'b>(
    alloc: Global,
    bytes: &'b [u8],
    word: &[u8],
) -> Result<Option<(&'b [u8], &'b [u8])>, Memory> {
    let Some((length, rest)) = cut_line(alloc, bytes, word)? else {
        return Ok(None);
    };
    if rest.len() < length {
        return Ok(None);
    }
    match behind(&rest[length..], b"\n") {
        Some(left) => Ok(Some((&rest[..length], left))),
        None => Ok(None),
    }
}

/// What stands behind so many keys.
fn pass_keys(alloc: Global, keys: &[u8], count: usize) -> Result<Option<&[u8]>, Memory> {
    let mut left = keys;
    for _ in 0..count {
        match cut_part(alloc, left, b"key ") {
            Ok(Some((_, rest))) => left = rest,
            Ok(None) => return Ok(None),
            Err(e) => return Err(e),
        }
    }
    Ok(Some(left))
}

/// The signature that stands behind so many keys and ends the question.
fn signature_behind(alloc: Global, keys: &[u8], count: usize) -> Result<Option<&[u8]>, Memory> {
    let Some(left) = pass_keys(alloc, keys, count)? else {
        return Ok(None);
    };
    let Some((signature, left)) = cut_part(alloc, left, b"signature ")? else {
        return Ok(None);
    };
    if left != b"end\n".as_slice() {
        return Ok(None);
    }
    Ok(Some(signature))
}

/// The payload of a signature by a key: what stands behind the key's bytes and a colon.
fn payload_by<'s>(signature: &'s [u8], key: &[u8]) -> Option<&'s [u8]> {
    match behind(signature, key) {
        Some(rest) => behind(rest, b":"),
        None => None,
    }
}

/// The payload of a signature by the first of so many keys that fits it.
fn payload_by_keys<'s>(
    alloc: Global,
    keys: &[u8],
    count: usize,
    signature: &'s [u8],
) -> Result<Option<&'s [u8]>, Memory> {
    let mut left = keys;
    for _ in 0..count {
        match cut_part(alloc, left, b"key ") {
            Ok(Some((key, rest))) => {
                if let Some(payload) = payload_by(signature, key) {
                    return Ok(Some(payload));
                }
                left = rest;
            }
            Ok(None) => return Ok(None),
            Err(e) => return Err(e),
        }
    }
    Ok(None)
}

/// What is said of a question.
#[derive(Clone, Copy)]
pub enum Judgement<'q> {
    NoQuestion,
    NoKey,
    Good(&'q [u8]),
}

/// Whether one of the keys of a question fits its signature.
pub fn judge(alloc: Global, question: &[u8]) -> Result<Judgement<'_>, Memory> {
    let Some(left) = behind(question, b"skopeo-verify 1\n") else {
        return Ok(Judgement::NoQuestion);
    };
    let Some((count, keys)) = cut_line(alloc, left, b"keys ")? else {
        return Ok(Judgement::NoQuestion);
    };
    let Some(signature) = signature_behind(alloc, keys, count)? else {
        return Ok(Judgement::NoQuestion);
    };
    match payload_by_keys(alloc, keys, count, signature)? {
        Some(payload) => Ok(Judgement::Good(payload)),
        None => Ok(Judgement::NoKey),
    }
}
