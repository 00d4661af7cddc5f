// The parts of a text that may name no host.
ghost use Rattle.std.specs.Prelude.{◌≡◌, ◌||◌, ◌==◌, option_map, take, drop, is_none, codes};
ghost use Rattle.std.specs.List.{list_any};
ghost use Rattle.std.specs.Str.{IsCharBoundary, bytes_eq};
ghost use Rattle.image_ref.specs.Characters.{colon, dot};
ghost use Rattle.image_ref.specs.Cuts.{cut_at, cut_tag, in_front};
ghost use Rattle.image_ref.specs.Domain.{looks_like_host};
ghost use Rattle.image_ref.specs.Reading.{pieces_of, split_name};

use image_ref::cut_at;

/// Where the part past the last `/` begins.
fn leaf_at(text: &str) -> usize
    ensures boundary { IsCharBoundary text.now result }
    ensures cut { cut_tag text.now ≡ in_front (take result text.now) (cut_at colon (drop result text.now)) }
{
    match text.rfind('/') {
        None => 0,
        Some(slash) => slash + 1,
    }
}

/// Cuts the text at the first `:` past the last `/`.
pub(crate) fn cut_tag(text: &str) -> (&str, Option<&str>)
    ensures before { result.0.now ≡ (cut_tag text.now).0 }
    ensures after { option_map (λ x. x.now) result.1 ≡ (cut_tag text.now).1 }
{
    let start = leaf_at(text);
    let (_, last) = text.split_at(start);
    let (leaf, tag) = cut_at(last, ':');
    match tag {
        None => (text, None),
        Some(tag) => (text.split_at(start + leaf.len()).0, Some(tag)),
    }
}

fn has_mark(text: &str) -> bool
    ensures { result ≡ list_any (λ b. (b == dot) || (b == colon)) text.now }
{
    text.as_bytes().iter().any(|b| *b == b'.' || *b == b':')
}

fn looks_like_host(text: &str) -> bool
    ensures { result ≡ looks_like_host text.now }
{
    has_mark(text) || text == "localhost"
}

fn names_no_host(name: &str) -> bool
    ensures { result ≡ is_none (split_name name.now).0 }
{
    let (first, rest) = cut_at(name, '/');
    match rest {
        None => true,
        Some(_) => !looks_like_host(first),
    }
}

/// Whether a text names no host, and so may be a short name.
pub fn is_short(text: &str) -> bool
    ensures short { result ≡ is_none (pieces_of text.now).host }
{
    let (head, _) = cut_at(text, '@');
    let (name, _) = cut_tag(head);
    names_no_host(name)
}
