// Options and operands that do not go together.
ghost use Rattle.std.specs.Prelude.{◌≡◌, map, option_map};
ghost use Rattle.skopeo_words.specs.Scan.{seen_part};
ghost use Rattle.skopeo_words.specs.LastOf.{seen_placed};
ghost use Rattle.skopeo_words.specs.Pairs.{says, is_yes, is_on, place_of, later, bad_pair, needs_raw, bad_format, not_docker, bad_number, pair_fault};

use crate::command::CommandName;
use crate::fault::{WordsFault, WordsKind};
use crate::found::{Placed, last_of, second_text};
use crate::parts::Part;
use crate::table::OptionName;
use crate::value::{number_upto, truth_value};

fn says(text: &str, value: Option<Placed<'_>>) -> bool
    ensures { result ≡ says text.now (option_map (λ p. seen_placed p) value.entry) }
{
    match value {
        None => false,
        Some(value) => value.text == text,
    }
}

fn is_yes(choice: Option<bool>) -> bool
    ensures { result ≡ is_yes choice }
{
    match choice {
        Some(yes) => yes,
        None => false,
    }
}

/// Whether a truth option is given and its last value is true.
pub fn is_on(value: Option<Placed<'_>>) -> bool
    ensures { result ≡ is_on (option_map (λ p. seen_placed p) value.entry) }
{
    match value {
        None => false,
        Some(value) => is_yes(truth_value(value.text)),
    }
}

fn place_of(value: Option<Placed<'_>>) -> u32
    ensures { result ≡ place_of (option_map (λ p. seen_placed p) value.entry) }
{
    match value {
        None => 0,
        Some(value) => value.at,
    }
}

fn later(a: u32, b: u32) -> u32
    ensures { result ≡ later a b }
{
    if a <= b { b } else { a }
}

fn bad_pair(
    src: Option<Placed<'_>>,
    dest: Option<Placed<'_>>,
    scoped: Option<Placed<'_>>,
) -> Option<WordsFault>
    ensures { result ≡ bad_pair (option_map (λ p. seen_placed p) src.entry)
        (option_map (λ p. seen_placed p) dest.entry)
        (option_map (λ p. seen_placed p) scoped.entry) }
{
    if !says("dir", src) {
        return None;
    }
    if says("dir", dest) {
        let place = later(place_of(src), place_of(dest));
        return Some(WordsFault::At(place, WordsKind::BadPair));
    }
    if is_on(scoped) {
        let place = later(place_of(src), place_of(scoped));
        return Some(WordsFault::At(place, WordsKind::BadPair));
    }
    None
}

fn needs_raw(config: Option<Placed<'_>>, raw: Option<Placed<'_>>) -> Option<WordsFault>
    ensures { result ≡ needs_raw (option_map (λ p. seen_placed p) config.entry)
        (option_map (λ p. seen_placed p) raw.entry) }
{
    if is_on(config) && !is_on(raw) {
        return Some(WordsFault::At(place_of(config), WordsKind::NeedsRaw));
    }
    None
}

fn bad_format(format: Option<Placed<'_>>, dest: &str) -> Option<WordsFault>
    ensures { result ≡ bad_format (option_map (λ p. seen_placed p) format.entry) dest.now }
{
    if says("v2s2", format) && dest.starts_with("oci:") {
        return Some(WordsFault::At(place_of(format), WordsKind::FormatForPlace));
    }
    None
}

fn not_docker(operands: &[Placed<'_>]) -> Option<WordsFault>
    ensures { result ≡ not_docker (map (λ o. seen_placed o) operands.now) }
{
    match operands {
        [] => None,
        [operand, ..] => {
            if operand.text.starts_with("docker://") {
                None
            } else {
                Some(WordsFault::At(operand.at, WordsKind::NotDocker))
            }
        }
    }
}

fn bad_number(operands: &[Placed<'_>]) -> Option<WordsFault>
    ensures { result ≡ bad_number (map (λ o. seen_placed o) operands.now) }
{
    match operands {
        [] => None,
        [operand, ..] => {
            if number_upto(1000, operand.text).is_some() {
                None
            } else {
                Some(WordsFault::At(operand.at, WordsKind::BadNumber))
            }
        }
    }
}

/// The first options or operands of a command that do not go together.
pub fn pair_fault(
    command: CommandName,
    parts: &[Part<'_>],
    operands: &[Placed<'_>],
) -> Option<WordsFault>
    ensures { let seen = map (λ p. seen_part p) parts.now in
        result ≡ pair_fault command seen (map (λ o. seen_placed o) operands.now) }
{
    match command {
        CommandName::Copy => bad_format(last_of(OptionName::Format, parts), second_text(operands)),
        CommandName::Sync => {
            let src = last_of(OptionName::Src, parts);
            let dest = last_of(OptionName::Dest, parts);
            bad_pair(src, dest, last_of(OptionName::Scoped, parts))
        }
        CommandName::Inspect => {
            let config = last_of(OptionName::Config, parts);
            needs_raw(config, last_of(OptionName::Raw, parts))
        }
        CommandName::ListTags => not_docker(operands),
        CommandName::Delete => not_docker(operands),
        CommandName::MakeImages => bad_number(operands),
    }
}
