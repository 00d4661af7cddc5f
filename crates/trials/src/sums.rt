// Digests of bytes, whole and in pieces.
use digest_reader::{Digester, Mismatch, digest_of};
use image_ref::{Digest, read_digest};
use percent_encoding::percent_decode;
use skopeo_outside::{Memory, Text};
use std::alloc::Global;

/// The digest of the bytes.
pub fn sum(alloc: Global, bytes: &[u8]) -> Result<Text, Memory> {
    digest_of(bytes).write_digest(alloc)
}

/// The same, where `%XX` stands for a byte.
pub fn sum_bytes(alloc: Global, text: &str) -> Result<Text, Memory> {
    let mut bytes = Vec::new(alloc);
    percent_decode(text.as_bytes()).append_to(&mut bytes)?;
    sum(alloc, bytes.as_slice())
}

/// What a digester finds that is fed nothing, and then at most so many of the bytes, in pieces of so many.
fn found(bytes: &[u8], step: usize, digest: &Digest, size: u64) -> Result<(), Mismatch> {
    let step = if step == 0 { 1 } else { step };
    let mut digester = Digester::new();
    digester.feed(b"");
    let mut left = 10_000usize;
    for piece in bytes.chunks(step) {
        if piece.len() > left {
            break;
        }
        left -= piece.len();
        digester.feed(piece);
    }
    digester.finish(digest, size)
}

fn mismatch_text(alloc: Global, mismatch: &Mismatch) -> Result<Text, Memory> {
    let digest = mismatch.found.write_digest(alloc)?;
    let length = mismatch.length;
    Ok(Text::from_string(format!(in alloc; "{} of {length} bytes", digest.as_str())?))
}

/// What stands before the first ` | ` of a row, and what stands behind it.
fn cell(row: &str) -> (&str, &str) {
    row.split_once(" | ").unwrap_or(("", row))
}

/// Whether bytes that are fed in pieces have a size and a digest, or else what they have; the row is how many bytes a
/// piece has, the size, the digest and the bytes.
pub fn pieces(alloc: Global, row: &str) -> Result<Text, Memory> {
    let (step, row) = cell(row);
    let (size, row) = cell(row);
    let (digest, text) = cell(row);
    let step = step.parse::<usize>().unwrap_or(1);
    let size = size.parse::<u64>().unwrap_or(0);
    let Some(digest) = read_digest(digest) else {
        return Text::from_str(alloc, "no digest");
    };
    match found(text.as_bytes(), step, &digest, size) {
        Ok(()) => Text::from_str(alloc, "whole"),
        Err(mismatch) => mismatch_text(alloc, &mismatch),
    }
}
