// What the values of options say.
ghost use Rattle.std.specs.Prelude.{◌≡◌, ◌≤◌, ◌<◌, length, true, option_map};
ghost use Rattle.std.specs.List.{list_all};
ghost use Rattle.std.specs.Str.{IsCharBoundary};
ghost use Rattle.image_ref.specs.Characters.{is_digit};
ghost use Rattle.image_ref.specs.Domain.{number, passes_or_none};
ghost use Rattle.skopeo_words.specs.Scan.{end_from};
ghost use Rattle.skopeo_words.specs.Values.{truth_value, number_upto, format_value, end_value, is_visible, is_base, without_slashes, is_value};

use crate::command::{Format, SyncEnd};
use crate::table::Kind;
use image_ref::{cut_at, is_domain};

/// What a truth value says.
pub fn truth_value(text: &str) -> Option<bool>
    ensures { result ≡ truth_value text.now }
{
    match text {
        "1" | "t" | "T" | "TRUE" | "true" | "True" => Some(true),
        "0" | "f" | "F" | "FALSE" | "false" | "False" => Some(false),
        _ => None,
    }
}

fn are_digits(text: &str) -> bool
    ensures { result ≡ list_all is_digit text.now }
{
    text.as_bytes().iter().all(|b| b.is_ascii_digit())
}

fn number_of(text: &str) -> u32
    requires digits { list_all is_digit text.now ≡ true }
    requires some { 0 < length text.now }
    requires few { length text.now ≤ 5 }
    ensures { result ≡ number text.now }
{
    match text.parse::<u32>() {
        Ok(number) => number,
        Err(_) => 0,
    }
}

/// A number from 1 to a limit, in decimal without leading zeros.
pub fn number_upto(limit: u32, text: &str) -> Option<u32>
    ensures { result ≡ number_upto limit text.now }
{
    if !are_digits(text) || text.is_empty() || text.len() > 4 {
        return None;
    }
    if text.as_bytes()[0] == b'0' {
        return None;
    }
    let number = number_of(text);
    if number <= limit { Some(number) } else { None }
}

/// What a format says.
pub fn format_value(text: &str) -> Option<Format>
    ensures { result ≡ format_value text.now }
{
    match text {
        "oci" => Some(Format::Oci),
        "v2s2" => Some(Format::V2s2),
        _ => None,
    }
}

/// What an end of `sync` says.
pub fn end_value(text: &str) -> Option<SyncEnd>
    ensures { result ≡ end_value text.now }
{
    match text {
        "docker" => Some(SyncEnd::Docker),
        "dir" => Some(SyncEnd::Dir),
        _ => None,
    }
}

fn are_visible(text: &str) -> bool
    ensures { result ≡ list_all is_visible text.now }
{
    text.as_bytes().iter().all(|b| 33 <= *b && *b <= 126)
}

fn path_passes(path: Option<&str>) -> bool
    ensures { result ≡ passes_or_none (list_all is_visible) (option_map (λ x. x.now) path.entry) }
{
    match path {
        None => true,
        Some(path) => are_visible(path),
    }
}

fn is_base(text: &str) -> bool
    ensures { result ≡ is_base text.now }
{
    let Some(rest) = text.strip_prefix("http://") else {
        return false;
    };
    let (host, path) = cut_at(rest, '/');
    is_domain(host) && path_passes(path)
}

fn end_of(text: &str) -> usize
    ensures end { result ≡ end_from 0 0 text.now }
    ensures boundary { IsCharBoundary text.now result }
{
    let mut end = 0;
    let mut at = 0;
    for byte in text.as_bytes() {
        at += 1;
        if *byte != b'/' {
            end = at;
        }
    }
    end
}

/// The text without the slashes at its end.
#[tactic(auto, using(crate::proofs::SlashLemmas::take_end_from))]
pub fn without_slashes(text: &str) -> &str
    ensures { result.now ≡ without_slashes text.now }
{
    text.split_at(end_of(text)).0
}

/// Whether a text is a value of a kind.
pub fn is_value(kind: Kind, text: &str) -> bool
    ensures { result ≡ is_value kind text.now }
{
    match kind {
        Kind::Truth => truth_value(text).is_some(),
        Kind::Text => !text.is_empty(),
        Kind::Lanes => number_upto(16, text).is_some(),
        Kind::Format => format_value(text).is_some(),
        Kind::Base => is_base(text),
        Kind::End => end_value(text).is_some(),
    }
}
