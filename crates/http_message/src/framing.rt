// Whether an answer is encoded, and how its body ends.
ghost use Rattle.std.specs.Prelude.{◌≡◌, ℕ, List, length, map, Some, None, if◌then◌else◌, IfOk};
ghost use Rattle.std.specs.Str.Parse.{digits_value};
ghost use Rattle.http_message.specs.Shown.{field_bytes};
ghost use Rattle.http_message.specs.Framing.{values_named, is_number, is_coding, is_encoded, framing_of, framing_by};

use crate::head::Field;
use http1::text::eq_ignore_case;
use std::alloc::{AllocError, Global};

/// How a body ends.
#[derive(Clone, Copy, Debug, PartialEq, Eq)]
pub enum Framing {
    /// The header lines contradict each other, or are none of the forms.
    Wrong,
    /// After so many bytes.
    Sized(u64),
    /// With its last chunk and a trailer part.
    Chunked,
    /// With the connection.
    ToEnd,
}

/// The values of the header lines of this name.
fn values_named(alloc: Global, fields: &[Field], name: &[u8]) -> Result<Vec<Vec<u8>>, AllocError>
    ensures { IfOk result (λ values. map (λ v. v.items) values.items ≡ values_named name.now (map field_bytes fields.now)) }
{
    let mut values = Vec::new(alloc);
    for field in fields {
        if eq_ignore_case(&field.name, name) {
            values.push(field.value.to_vec(alloc)?)?;
        }
    }
    Ok(values)
}

/// The number that the digits write, if they are digits and it is below 2^64.
fn parse_number(digits: &[u8]) -> Option<u64>
    ensures { result ≡ (if is_number digits.now then Some (digits_value 10 digits.now) else None) }
{
    if digits.is_empty() {
        return None;
    }
    let mut n: u64 = 0;
    for b in digits {
        if !b.is_ascii_digit() {
            return None;
        }
        n = n.checked_mul(10)?.checked_add(u64::from(*b - b'0'))?;
    }
    Some(n)
}

/// The framing by the lengths and the transfer codings.
fn framing_by(lengths: &[Vec<u8>], codings: &[Vec<u8>]) -> Framing
    ensures { result ≡ framing_by (map (λ v. v.items) lengths.now) (map (λ v. v.items) codings.now) }
{
    match (lengths, codings) {
        ([], []) => Framing::ToEnd,
        ([size], []) => match parse_number(size) {
            Some(size) => Framing::Sized(size),
            None => Framing::Wrong,
        },
        ([], [coding]) => {
            if eq_ignore_case(coding, b"chunked") {
                Framing::Chunked
            } else {
                Framing::Wrong
            }
        }
        _ => Framing::Wrong,
    }
}

/// Whether a header line has this name, and another value than `identity`.
fn is_coding(field: &Field) -> bool
    ensures { result ≡ is_coding (field_bytes field.now) }
{
    eq_ignore_case(&field.name, b"content-encoding") && !eq_ignore_case(&field.value, b"identity")
}

/// Whether the header lines have a content encoding other than `identity` (RFC 9110, section 8.4).
pub fn is_encoded(fields: &[Field]) -> bool
    ensures { result ≡ is_encoded (map field_bytes fields.now) }
{
    for field in fields {
        if is_coding(field) {
            return true;
        }
    }
    false
}

/// How the body behind these header lines ends (RFC 9112, section 6.3). The only error is want of memory.
pub fn framing_of(alloc: Global, fields: &[Field]) -> Result<Framing, AllocError>
    ensures { IfOk result (λ framing. framing ≡ framing_of (map field_bytes fields.now)) }
{
    let lengths = values_named(alloc, fields, b"content-length")?;
    let codings = values_named(alloc, fields, b"transfer-encoding")?;
    Ok(framing_by(&lengths, &codings))
}
