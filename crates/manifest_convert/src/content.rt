// Content types beside the media types of manifests.
ghost use Rattle.std.specs.Prelude.{◌≡◌, ◌≤◌, length};
ghost use Rattle.std.specs.List.{before_first, position_or_len, prefix_len, suffix_len};
ghost use Rattle.manifest_convert.specs.Types.{is_space, is_semicolon, after_spaces, before_spaces, bare, kind_named};

use manifest_v2s2::Kind;

fn length_before_semicolon(text: &[u8]) -> usize
    ensures count { result ≡ position_or_len is_semicolon text.now }
    ensures bound { result ≤ length text.now }
{
    text.iter().take_while(|byte| **byte != b';').count()
}

fn spaces_at_start(text: &[u8]) -> usize
    ensures count { result ≡ prefix_len is_space text.now }
    ensures bound { result ≤ length text.now }
{
    text.iter().take_while(|byte| **byte == b' ').count()
}

fn spaces_at_end(text: &[u8]) -> usize
    ensures count { result ≡ suffix_len is_space text.now }
    ensures bound { result ≤ length text.now }
{
    text.iter().rev().take_while(|byte| **byte == b' ').count()
}

fn before_semicolon(text: &[u8]) -> &[u8]
    ensures { result.now ≡ before_first is_semicolon text.now }
{
    let end = length_before_semicolon(text);
    &text[..end]
}

fn after_spaces(text: &[u8]) -> &[u8]
    ensures { result.now ≡ after_spaces text.now }
{
    let start = spaces_at_start(text);
    &text[start..]
}

fn before_spaces(text: &[u8]) -> &[u8]
    ensures { result.now ≡ before_spaces text.now }
{
    let end = text.len() - spaces_at_end(text);
    &text[..end]
}

/// A content type up to its first semicolon, without spaces at its ends.
pub(crate) fn bare(content_type: &str) -> &[u8]
    ensures { result.now ≡ bare content_type.now }
{
    before_spaces(after_spaces(before_semicolon(content_type.as_bytes())))
}

/// The kind whose media type the text is.
#[tactic(auto, unfolding(crate::specs::Types::kind_named))]
pub(crate) fn kind_named(text: &[u8]) -> Option<Kind>
    ensures { result ≡ kind_named text.now }
{
    if text == Kind::V2s2.media_type().as_bytes() {
        return Some(Kind::V2s2);
    }
    if text == Kind::V2s2List.media_type().as_bytes() {
        return Some(Kind::V2s2List);
    }
    if text == Kind::Oci.media_type().as_bytes() {
        return Some(Kind::Oci);
    }
    if text == Kind::OciIndex.media_type().as_bytes() {
        return Some(Kind::OciIndex);
    }
    None
}
