// What is found in the parts of words.
ghost use Rattle.std.specs.Prelude.{◌≡◌, map, option_map, IfOk};
ghost use Rattle.skopeo_words.specs.Scan.{seen_part};
ghost use Rattle.skopeo_words.specs.Found.{operands_of};
ghost use Rattle.skopeo_words.specs.LastOf.{seen_placed, value_in, last_of, text_of, first_text, second_text};

use crate::parts::Part;
use crate::table::{OptionName, same_option};
use skopeo_outside::{Many, Memory};
use std::alloc::Global;

/// An operand or a value, with the place of its word, or of its option's word.
#[derive(Clone, Copy)]
pub struct Placed<'w> {
    pub at: u32,
    pub text: &'w str,
}

/// The operands in order.
pub fn operands_of<'w>(alloc: Global, parts: &[Part<'w>]) -> Result<Many<Placed<'w>>, Memory>
    ensures { let seen = map (λ p. seen_part p) parts.now in
        IfOk result (λ os. map (λ o. seen_placed o) os ≡ operands_of seen) }
{
    let mut found = Many::new(alloc);
    for part in parts {
        if let Part::Operand(at, text) = part {
            found.push(Placed { at: *at, text })?;
        }
    }
    Ok(found)
}

fn value_in<'w>(name: OptionName, part: Part<'w>) -> Option<Placed<'w>>
    ensures { option_map (λ p. seen_placed p) result ≡ value_in name (seen_part part.entry) }
{
    match part {
        Part::Given(at, given, text) => {
            if same_option(name, given) {
                Some(Placed { at, text })
            } else {
                None
            }
        }
        _ => None,
    }
}

/// The last value of an option.
pub fn last_of<'w>(name: OptionName, parts: &[Part<'w>]) -> Option<Placed<'w>>
    ensures { let seen = map (λ p. seen_part p) parts.now in
        option_map (λ p. seen_placed p) result ≡ last_of name seen }
{
    let mut last = None;
    for part in parts {
        if let Some(value) = value_in(name, *part) {
            last = Some(value);
        }
    }
    last
}

/// The text of the last value of an option.
pub fn text_of<'w>(name: OptionName, parts: &[Part<'w>]) -> Option<&'w str>
    ensures { let seen = map (λ p. seen_part p) parts.now in
        option_map (λ t. t.now) result ≡ text_of name seen }
{
    match last_of(name, parts) {
        None => None,
        Some(value) => Some(value.text),
    }
}

/// The first operand; empty where there is none.
pub fn first_text<'w>(operands: &[Placed<'w>]) -> &'w str
    ensures { result.now ≡ first_text (map (λ o. seen_placed o) operands.now) }
{
    match operands {
        [first, ..] => first.text,
        [] => "",
    }
}

/// The second operand; empty where there are fewer.
pub fn second_text<'w>(operands: &[Placed<'w>]) -> &'w str
    ensures { result.now ≡ second_text (map (λ o. seen_placed o) operands.now) }
{
    match operands {
        [_, second, ..] => second.text,
        _ => "",
    }
}
