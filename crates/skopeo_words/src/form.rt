// What a word is by itself.
ghost use Rattle.std.specs.Prelude.{◌≡◌, option_map};
ghost use Rattle.image_ref.specs.Cuts.{cut_at};
ghost use Rattle.skopeo_words.specs.Forms.{form_of_kind, bare_form, long_form, short_named, cut_form, form_of};
ghost use Rattle.skopeo_words.specs.Scan.{seen_form};

use crate::table::{Kind, OptionName, kind_of, option_named};
use image_ref::cut_at;

/// What a word is by itself.
#[derive(Clone, Copy)]
pub enum Form<'w> {
    Operand,
    /// The word that ends the options.
    Ends,
    /// No option, though it begins with a dash.
    Unknown,
    /// An option with its value.
    Gives(OptionName, &'w str),
    /// An option whose value is the next word.
    Takes(OptionName),
}

fn form_of_kind<'w>(name: OptionName, kind: Kind) -> Form<'w>
    ensures { seen_form result ≡ form_of_kind name kind }
{
    match kind {
        Kind::Truth => Form::Gives(name, "true"),
        _ => Form::Takes(name),
    }
}

fn short_named(word: &str) -> Option<OptionName>
    ensures { result ≡ short_named word.now }
{
    match word {
        "-a" => Some(OptionName::All),
        "-q" => Some(OptionName::Quiet),
        "-n" => Some(OptionName::NoTags),
        "-f" => Some(OptionName::Format),
        "-s" => Some(OptionName::Src),
        "-d" => Some(OptionName::Dest),
        _ => None,
    }
}

fn bare_form<'w>(name: Option<OptionName>) -> Form<'w>
    ensures { seen_form result ≡ bare_form name }
{
    match name {
        None => Form::Unknown,
        Some(name) => form_of_kind(name, kind_of(name)),
    }
}

fn long_form(text: &str) -> Form<'_>
    ensures { seen_form result ≡ cut_form (cut_at 61 text.now) }
{
    let (name, value) = cut_at(text, '=');
    match (option_named(name), value) {
        (None, _) => Form::Unknown,
        (Some(name), None) => form_of_kind(name, kind_of(name)),
        (Some(name), Some(value)) => Form::Gives(name, value),
    }
}

/// What a word is by itself.
#[tactic(auto, unfolding(crate::specs::Forms::form_of))]
pub fn form_of(word: &str) -> Form<'_>
    ensures { seen_form result ≡ form_of word.now }
{
    if word == "--" {
        return Form::Ends;
    }
    if let Some(text) = word.strip_prefix("--") {
        return long_form(text);
    }
    if word.starts_with('-') && word.len() > 1 {
        return bare_form(short_named(word));
    }
    Form::Operand
}
