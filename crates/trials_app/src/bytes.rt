// Bytes that a row gives.
use skopeo_outside::{Many, Memory};
use std::fs;
use std::rt::Files;

/// So many zero bytes.
fn push_zeros<R: AllocGlobal>(rt: &R, bytes: &mut Many<u8>, count: u32) -> Result<(), Memory> {
    let zeros = vec![in rt.alloc(); 0u8; count as usize]?;
    bytes.extend(zeros.as_slice())
}

/// Bytes by their name: a number of zero bytes, what a file beside the rows holds, or `NAME+COUNT` for a file and so many
/// zero bytes behind it.
pub fn bytes_of<R: AllocGlobal + Files>(rt: &R, name: &str) -> Result<Many<u8>, Memory> {
    let (file, count) = name.split_once("+").unwrap_or((name, "0"));
    let mut bytes = Many::new(rt.alloc());
    if let Ok(count) = file.parse::<u32>() {
        push_zeros(rt, &mut bytes, count)?;
        return Ok(bytes);
    }
    match fs::read(rt, file) {
        Ok(held) => bytes.extend(held.as_slice())?,
        Err(_) => return Err(Memory),
    }
    push_zeros(rt, &mut bytes, count.parse::<u32>().unwrap_or(0))?;
    Ok(bytes)
}
