ghost use Rattle.std.specs.Prelude.{◌≡◌, ◌==◌, ◌||◌};
ghost use Rattle.std.specs.List.{list_all};
ghost use Rattle.image_ref.specs.Characters.{dot, dash, underscore, is_alphanumeric};
ghost use Rattle.image_ref.specs.Reference.{is_tag, is_hex_name};

use crate::digest::are_lower_digits;

fn are_tag_bytes(text: &str) -> bool
    ensures { result ≡ list_all
        (λ b. (is_alphanumeric b || (b == underscore)) || ((b == dot) || (b == dash))) text.now }
{
    text.as_bytes().iter().all(|b| b.is_ascii_alphanumeric()
        || *b == b'_'
        || *b == b'.'
        || *b == b'-')
}

/// Whether a text is a tag: 1 to 128 letters, digits, `_`, `.` and `-`, the first none of the last two.
pub fn is_tag(text: &str) -> bool
    ensures { result ≡ is_tag text.now }
{
    let bytes = text.as_bytes();
    if bytes.is_empty() || bytes.len() > 128 {
        return false;
    }
    are_tag_bytes(text) && (bytes[0].is_ascii_alphanumeric() || bytes[0] == b'_')
}

pub fn is_hex_name(text: &str) -> bool
    ensures { result ≡ is_hex_name text.now }
{
    text.len() == 64 && are_lower_digits(text.as_bytes())
}
