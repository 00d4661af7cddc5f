// What a verifier is asked.
ghost use Rattle.std.specs.Prelude.{◌≡◌, ◌++◌, IfSome, IfOk, decimal};
ghost use Rattle.lab_registry.specs.Question.{line, part, HasKeys, IsQuestion};

use crate::unjudged::Unjudged;
use skopeo_outside::Text;
use std::alloc::Global;

/// What stands behind a word.
fn behind<'b>(bytes: &'b [u8], word: &[u8]) -> Option<&'b [u8]>
    ensures { IfSome result (λ left. bytes.now ≡ word.now ++ left.now) }
{
    let length = word.len();
    if bytes.len() < length {
        return None;
    }
    let front = &bytes[..length];
    if front == word {
        return Some(&bytes[length..]);
    }
    None
}

/// The number that the first digits of some bytes spell, if it is not too large. `cut_number` compares it with them.
fn first_number(bytes: &[u8]) -> usize {
    let mut number = 0usize;
    for byte in bytes {
        if !byte.is_ascii_digit() {
            return number;
        }
        number = number
            .wrapping_mul(10)
            .wrapping_add(byte.wrapping_sub(b'0') as usize);
    }
    number
}

/// A number at the front, and what is left.
fn cut_number(alloc: Global, bytes: &[u8]) -> Result<(usize, &[u8]), Unjudged>
    ensures { IfOk result (λ it. bytes.now ≡ decimal it.0 ++ it.1.now) }
{
    let number = first_number(bytes);
    let mut digits = Text::new(alloc);
    digits.push_number(number)?;
    match behind(bytes, digits.as_str().as_bytes()) {
        Some(left) => Ok((number, left)),
        None => Err(Unjudged::NoQuestion),
    }
}

/// A word, a number and a line feed at the front: the number, and what is left.
#[tactic(auto, using(crate::proofs::QuestionLemmas::is_line))]
fn cut_line<'b>(alloc: Global, bytes: &'b [u8], word: &[u8]) -> Result<(usize, &'b [u8]), Unjudged>
    ensures { IfOk result (λ it. bytes.now ≡ line word.now it.0 ++ it.1.now) }
{
    let Some(left) = behind(bytes, word) else {
        return Err(Unjudged::NoQuestion);
    };
    let (number, left) = cut_number(alloc, left)?;
    match behind(left, b"\n") {
        Some(left) => Ok((number, left)),
        None => Err(Unjudged::NoQuestion),
    }
}

/// A word, a length, so many bytes and a line feed at the front: the bytes, and what is left.
#[tactic(auto, using(crate::proofs::QuestionLemmas::is_part))]
fn cut_part<'b>(
    alloc: Global,
    bytes: &'b [u8],
    word: &[u8],
) -> Result<(&'b [u8], &'b [u8]), Unjudged>
    ensures { IfOk result (λ it. bytes.now ≡ part word.now it.0.now ++ it.1.now) }
{
    let (length, left) = cut_line(alloc, bytes, word)?;
    if left.len() < length {
        return Err(Unjudged::NoQuestion);
    }
    match behind(&left[length..], b"\n") {
        Some(rest) => Ok((&left[..length], rest)),
        None => Err(Unjudged::NoQuestion),
    }
}

/// What stands behind so many keys.
#[tactic(auto, using(crate::proofs::QuestionLemmas::no_keys, crate::proofs::QuestionLemmas::one_key_more))]
fn pass_keys(alloc: Global, bytes: &[u8], count: usize) -> Result<&[u8], Unjudged>
    ensures { IfOk result (λ left. HasKeys bytes.now count left.now) }
{
    let mut left = bytes;
    for _ in 0..count {
        match cut_part(alloc, left, b"key ") {
            Ok((_, rest)) => left = rest,
            Err(why) => return Err(why),
        }
    }
    Ok(left)
}

/// The signature that is asked for.
pub(crate) fn read_signature(alloc: Global, bytes: &[u8]) -> Result<&[u8], Unjudged>
    ensures { IfOk result (λ signature. IsQuestion bytes.now signature.now) }
{
    let (version, left) = cut_line(alloc, bytes, b"skopeo-verify ")?;
    if version != 1 {
        return Err(Unjudged::NoQuestion);
    }
    let (count, left) = cut_line(alloc, left, b"keys ")?;
    let left = pass_keys(alloc, left, count)?;
    let (signature, left) = cut_part(alloc, left, b"signature ")?;
    if left != b"end\n".as_slice() {
        return Err(Unjudged::NoQuestion);
    }
    Ok(signature)
}
