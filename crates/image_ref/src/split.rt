ghost use Rattle.std.specs.Prelude.{◌≡◌, ◌≤◌, ◌+◌, length, option_map};
ghost use Rattle.image_ref.specs.Reading.{split_name, pieces_of, seen, HasPlaces};

use crate::cut::{cut_at, cut_tag};
use crate::domain::looks_like_host;

/// What stands between the separators of a text, before any of it is judged, and where it begins.
#[derive(Clone, Copy)]
pub struct Split<'t> {
    pub host: Option<&'t str>,
    pub path: &'t str,
    pub tag: Option<&'t str>,
    pub digest: Option<&'t str>,
    pub path_at: usize,
    pub tag_at: usize,
    pub digest_at: usize,
}

fn split_name(name: &str) -> (Option<&str>, &str)
    ensures host { option_map (λ x. x.now) result.0 ≡ (split_name name.now).0 }
    ensures path { result.1.now ≡ (split_name name.now).1 }
    ensures shorter { length result.1.now ≤ length name.now }
{
    let (first, rest) = cut_at(name, '/');
    match rest {
        None => (None, name),
        Some(rest) => {
            if looks_like_host(first) {
                (Some(first), rest)
            } else {
                (None, name)
            }
        }
    }
}

pub fn pieces_of(text: &str) -> Split<'_>
    ensures pieces { seen result ≡ pieces_of text.now }
    ensures within { result.path_at + length result.path.now ≤ length text.now }
    ensures tag { result.tag_at ≤ length text.now + 1 }
    ensures digest { result.digest_at ≤ length text.now + 1 }
    ensures places { HasPlaces result }
{
    let (head, digest) = cut_at(text, '@');
    let (name, tag) = cut_tag(head);
    let (host, path) = split_name(name);
    Split {
        host,
        path,
        tag,
        digest,
        path_at: name.len() - path.len(),
        tag_at: name.len() + 1,
        digest_at: head.len() + 1,
    }
}
