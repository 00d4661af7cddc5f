ghost use Rattle.std.specs.Prelude.{◌≡◌, ◌≤◌, ◌+◌, ◌<◌, ◌^◌, ◌==◌, not, length, nat_lt, if◌then◌else◌, IfSome, IsTrue, ◌↔◌};
ghost use Rattle.image_ref.specs.Reference.{IsPath};
ghost use Rattle.std.specs.List.{list_all, position_or_len};
ghost use Rattle.image_ref.specs.Characters.{slash, is_upper};
ghost use Rattle.image_ref.specs.Cuts.{lacks};
ghost use Rattle.image_ref.specs.Reading.{bad_component, upper_at};
ghost use Rattle.image_ref.specs.Pieces.{components_of};

use crate::component::is_component;
use crate::cut::cut_at;

/// The place of the first upper-case letter.
pub fn first_upper(path: &str) -> Option<usize>
    ensures first { result ≡ upper_at path.now }
    ensures within { IfSome result (λ at. at < length path.now) }
{
    path.as_bytes().iter().position(|b| b.is_ascii_uppercase())
}

/// Where the first component begins that is not in its grammar, for a path that begins at a place.
pub fn bad_component(path: &str, begins: usize) -> Option<usize>
    requires { begins + length path.now < 2 ^ 64 }
    ensures first { result ≡ bad_component begins (components_of path.now) }
    ensures within { IfSome result (λ at. at ≤ begins + length path.now) }
{
    let mut rest = path;
    let mut at = begins;
    loop {
        let (part, more) = cut_at(rest, '/');
        if !is_component(part) {
            return Some(at);
        }
        match more {
            None => return None,
            Some(more) => {
                at = at + part.len() + 1;
                rest = more;
            }
        }
    }
}

pub fn lacks_slash(path: &str) -> bool
    ensures { result ≡ lacks slash path.now }
{
    path.as_bytes().iter().all(|b| *b != b'/')
}

/// Whether a text is one or more components, joined by slashes.
pub fn is_path(text: &str) -> bool
    ensures { IsTrue result ↔ IsPath text.now }
{
    bad_component(text, 0).is_none()
}
