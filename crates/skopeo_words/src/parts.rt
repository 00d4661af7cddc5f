// Words, read from left to right into parts.
ghost use Rattle.std.specs.Prelude.{◌≡◌, ◌+◌, ◌<◌, ◌^◌, ◌++◌, length, map, option_map, IfOk, OnOk};
ghost use Rattle.std.specs.String.{string_bytes};
ghost use Rattle.skopeo_words.specs.Scan.{step, seen_part, seen_step, optional, parts_of};

use crate::form::{Form, form_of};
use crate::table::OptionName;
use skopeo_outside::{Many, Memory};
use std::alloc::Global;

/// How the next word is read.
#[derive(Clone, Copy)]
pub enum State {
    /// By its own form.
    Reading,
    /// As an operand, behind `--`.
    Ended,
    /// As the value of the option at a place.
    Waiting(u32, OptionName),
}

/// A part of the words, with the place of its word, or of its option's word, from 1.
#[derive(Clone, Copy)]
pub enum Part<'w> {
    Operand(u32, &'w str),
    /// An option and its value.
    Given(u32, OptionName, &'w str),
    /// An option whose value would stand behind the last word.
    Lacking(OptionName),
    /// The word `--`.
    Ends,
    /// A word that is no option, though it begins with a dash.
    Unknown(u32, &'w str),
}

#[tactic(auto, unfolding(crate::specs::Scan::step))]
fn step(state: State, at: u32, word: &str) -> (State, Option<Part<'_>>)
    ensures { seen_step result ≡ step state at word.now }
{
    match state {
        State::Ended => (State::Ended, Some(Part::Operand(at, word))),
        State::Waiting(place, name) => (State::Reading, Some(Part::Given(place, name, word))),
        State::Reading => match form_of(word) {
            Form::Operand => (State::Reading, Some(Part::Operand(at, word))),
            Form::Ends => (State::Ended, Some(Part::Ends)),
            Form::Unknown => (State::Reading, Some(Part::Unknown(at, word))),
            Form::Gives(name, text) => (State::Reading, Some(Part::Given(at, name, text))),
            Form::Takes(name) => (State::Waiting(at, name), None),
        },
    }
}

fn push_part<'w>(parts: &mut Many<Part<'w>>, part: Option<Part<'w>>) -> Result<(), Memory>
    ensures { let more = optional (option_map (λ p. seen_part p) part.entry) in
        OnOk result (map (λ p. seen_part p) parts.new ≡ map (λ p. seen_part p) parts.old ++ more) }
{
    match part {
        None => Ok(()),
        Some(part) => {
            parts.push(part)?;
            Ok(())
        }
    }
}

/// The parts of the words.
pub fn read_parts<'w>(alloc: Global, words: &'w [String]) -> Result<Many<Part<'w>>, Memory>
    requires { length words.now + 1 < 2 ^ 32 }
    ensures { let texts = map string_bytes words.now in
        IfOk result (λ ps. map (λ p. seen_part p) ps ≡ parts_of texts) }
{
    let mut parts = Many::new(alloc);
    let mut state = State::Reading;
    let mut at = 1;
    for word in words {
        let (next, part) = step(state, at, word.as_str());
        push_part(&mut parts, part)?;
        state = next;
        at += 1;
    }
    if let State::Waiting(_, name) = state {
        parts.push(Part::Lacking(name))?;
    }
    Ok(parts)
}
