ghost use Rattle.std.specs.Prelude.{◌≡◌, ◌↔◌, ◌++◌, ℕ, List, Some, IfSome, IsSome, IfOk, IsTrue, MatchOption, drop, refl};
ghost use Rattle.std.specs.List.{AllPass, list_all};
ghost use Rattle.std.specs.Str.{bytes_eq};
ghost use Rattle.std.specs.Ordering.{nat_cmp};
ghost use Rattle.std.specs.Cmp.Lexicographic.{slice_cmp, nat_list_eq_equiv, nat_list_cmp_total, texts_ties, texts_po};
ghost use Rattle.std.specs.Cmp.{partial_equiv_from_equiv};
ghost use Rattle.image_ref.specs.Digest.{digest_of, digest_text, IsDigest, IsDigestText, is_lower_digit};

use skopeo_outside::{Memory, Text};
use std::alloc::Global;
use std::cmp::Ordering;
use std::marker::Model;

const PREFIX: &str = "sha256:";

/// A SHA-256 digest, which contracts see as its 32 bytes.
#[derive(Clone, Copy, Debug)]
pub struct Digest {
    bytes: [u8; 32],
}

impl Model for Digest {
    ghost use Rattle.std.specs.Prelude.{ℕ, List};
    ghost use Rattle.image_ref.specs.Digest.{IsDigest};

    ghost Value = { List ℕ };

    ghost view = { λ d. d.bytes };

    ghost invariant = { λ d. IsDigest d.bytes };

    ghost inverse = { λ bytes. record { bytes = bytes } };
}

impl PartialEq for Digest {
    ghost eq = { bytes_eq };

    ghost laws = { partial_equiv_from_equiv nat_list_eq_equiv };

    fn eq(&self, other: &Self) -> bool {
        self.bytes.as_slice() == other.bytes.as_slice()
    }
}

impl Eq for Digest {
    ghost laws = { nat_list_eq_equiv };
}

/// Digests stand in the order of their bytes.
impl PartialOrd for Digest {
    ghost partial_cmp = { λ x y. Some (slice_cmp nat_cmp x y) };

    ghost laws = { texts_po };

    fn partial_cmp(&self, other: &Self) -> Option<Ordering> {
        Some(self.cmp(other))
    }
}

impl Ord for Digest {
    ghost cmp = { slice_cmp nat_cmp };

    ghost total = { nat_list_cmp_total };

    ghost matches_partial_cmp = { λ x y. refl };

    ghost matches_eq = { texts_ties };

    fn cmp(&self, other: &Self) -> Ordering {
        self.bytes.as_slice().cmp(other.bytes.as_slice())
    }
}

fn is_lower_digit(byte: u8) -> bool
    ensures { result ≡ is_lower_digit byte }
{
    byte.is_ascii_digit() || (b'a' <= byte && byte <= b'f')
}

pub fn are_lower_digits(bytes: &[u8]) -> bool
    ensures test { result ≡ list_all is_lower_digit bytes.now }
    ensures each { IsTrue result ↔ AllPass is_lower_digit bytes.now }
{
    bytes.iter().all(|byte| is_lower_digit(*byte))
}

/// What stands behind the prefix, where the text is in the grammar.
fn digits_of(text: &str) -> Option<&[u8]>
    ensures { MatchOption result (IsDigestText text.now → ⊥)
        (λ digits. IsDigestText text.now × (digits.now ≡ drop 7 text.now)) }
{
    let digits = text.as_bytes().strip_prefix(PREFIX.as_bytes())?;
    if digits.len() != 64 {
        return None;
    }
    if !are_lower_digits(digits) {
        return None;
    }
    Some(digits)
}

/// The digest that the text spells: `sha256:` and 64 digits in lower case, and no other text.
/// The grammar stands at the head of `specs/Digest.antt`.
pub fn read_digest(text: &str) -> Option<Digest>
    ensures exact { result ≡ digest_of text.now }
    ensures value { IfSome result (λ d. IsDigest d × (text.now ≡ digest_text d)) }
    ensures some { IsSome result ↔ IsDigestText text.now }
    ensures only { (d : List ℕ) → IsDigest d → text.now ≡ digest_text d → result ≡ Some d }
{
    let digits = digits_of(text)?;
    let mut bytes = [0u8; 32];
    match hex::decode_to_slice(digits, &mut bytes) {
        Ok(()) => Some(Digest { bytes }),
        Err(_) => None,
    }
}

impl Digest {
    /// The digest of these bytes; each 32 bytes are one.
    pub fn from_bytes(bytes: [u8; 32]) -> Digest
        ensures { result ≡ bytes }
    {
        Digest { bytes }
    }

    /// Its 32 bytes.
    pub fn as_bytes(&self) -> &[u8]
        ensures value { result.now ≡ self.now }
        ensures digest { IsDigest self.now }
    {
        self.bytes.as_slice()
    }

    /// The one text that spells the digest. Its error is want of memory.
    pub fn write_digest(&self, alloc: Global) -> Result<Text, Memory>
        ensures text { IfOk result (λ t. t ≡ digest_text self.now) }
        ensures digest { IfOk result (λ t. IsDigestText t) }
    {
        let mut text = Text::from_str(alloc, PREFIX)?;
        let digits = hex::encode(alloc, self.as_bytes())?;
        text.push_str(digits.as_str())?;
        Ok(text)
    }
}
