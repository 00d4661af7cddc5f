ghost use Rattle.std.specs.Prelude.{◌≡◌, ◌==◌, ◌||◌, codes, ◌<◌, ◌≤◌, length, true, ◌↔◌, IsTrue};
ghost use Rattle.std.specs.Str.{bytes_eq};
ghost use Rattle.std.specs.List.{list_all, list_any, slice_split};
ghost use Rattle.image_ref.specs.Characters.{dot, dash, colon, is_digit, is_alphanumeric};
ghost use Rattle.image_ref.specs.Domain.{IsDomain, is_label, number, is_port, is_domain, looks_like_host};

use crate::cut::cut_at;

fn are_label_bytes(text: &str) -> bool
    ensures { result ≡ list_all (λ b. is_alphanumeric b || (b == dash)) text.now }
{
    text.as_bytes()
        .iter()
        .all(|b| b.is_ascii_alphanumeric() || *b == b'-')
}

fn are_digits(text: &str) -> bool
    ensures { result ≡ list_all is_digit text.now }
{
    text.as_bytes().iter().all(|b| b.is_ascii_digit())
}

fn is_label(text: &str) -> bool
    ensures { result ≡ is_label text.now }
{
    let bytes = text.as_bytes();
    if bytes.is_empty() {
        return false;
    }
    are_label_bytes(text)
        && bytes[0].is_ascii_alphanumeric()
        && bytes[bytes.len() - 1].is_ascii_alphanumeric()
}

fn number_of(text: &str) -> u32
    requires digits { list_all is_digit text.now ≡ true }
    requires some { 0 < length text.now }
    requires few { length text.now ≤ 5 }
    ensures { result ≡ number text.now }
{
    match text.parse::<u32>() {
        Ok(number) => number,
        Err(_) => 0,
    }
}

fn is_port(text: &str) -> bool
    ensures { result ≡ is_port text.now }
{
    if !are_digits(text) || text.is_empty() || text.len() > 5 {
        return false;
    }
    let number = number_of(text);
    1 <= number && number <= 65535
}

fn are_labels(text: &str) -> bool
    ensures { result ≡ list_all is_label (slice_split (λ b. b == dot) text.now) }
{
    text.split('.').all(|label| is_label(label))
}

#[tactic(auto, unfolding(crate::specs::Domain::is_domain))]
fn is_labels_and_port(text: &str) -> bool
    ensures { result ≡ is_domain text.now }
{
    let (labels, port) = cut_at(text, ':');
    if !are_labels(labels) {
        return false;
    }
    match port {
        None => true,
        Some(port) => is_port(port),
    }
}

/// Whether a text is a host, with or without a port.
pub fn is_domain(text: &str) -> bool
    ensures test { result ≡ is_domain text.now }
    ensures grammar { IsTrue result ↔ IsDomain text.now }
{
    is_labels_and_port(text)
}

fn is_localhost(text: &str) -> bool
    ensures { result ≡ bytes_eq text.now (codes "localhost") }
{
    text == "localhost"
}

fn has_mark(text: &str) -> bool
    ensures { result ≡ list_any (λ b. (b == dot) || (b == colon)) text.now }
{
    text.as_bytes().iter().any(|b| *b == b'.' || *b == b':')
}

pub fn looks_like_host(text: &str) -> bool
    ensures { result ≡ looks_like_host text.now }
{
    has_mark(text) || is_localhost(text)
}
