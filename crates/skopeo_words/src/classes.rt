// What is wrong with words, class by class.
ghost use Rattle.std.specs.Prelude.{◌≡◌, map};
ghost use Rattle.skopeo_words.specs.Scan.{seen_part};
ghost use Rattle.skopeo_words.specs.LastOf.{seen_placed};
ghost use Rattle.skopeo_words.specs.Faults.{part_fault, bad_part, other_fault, other_option, not_one, not_two, operand_fault, missing_option};
ghost use Rattle.skopeo_words.specs.Reading.{command_fault};

use crate::command::CommandName;
use crate::fault::{WordsFault, WordsKind};
use crate::found::{Placed, last_of};
use crate::pairs::pair_fault;
use crate::parts::Part;
use crate::table::{OptionName, is_for, kind_of};
use crate::value::is_value;

fn part_fault(past: u32, part: Part<'_>) -> Option<WordsFault>
    ensures { result ≡ part_fault past (seen_part part.entry) }
{
    match part {
        Part::Given(at, name, text) => {
            if is_value(kind_of(name), text) {
                None
            } else {
                Some(WordsFault::At(at, WordsKind::BadValue))
            }
        }
        Part::Lacking(_) => Some(WordsFault::At(past, WordsKind::MissingValue)),
        Part::Unknown(at, _) => Some(WordsFault::At(at, WordsKind::UnknownOption)),
        Part::Operand(_, _) => None,
        Part::Ends => None,
    }
}

/// The first part that is no option, or has no value, or one that its option does not take.
pub fn bad_part(past: u32, parts: &[Part<'_>]) -> Option<WordsFault>
    ensures { result ≡ bad_part past (map (λ p. seen_part p) parts.now) }
{
    for part in parts {
        if let Some(fault) = part_fault(past, *part) {
            return Some(fault);
        }
    }
    None
}

fn other_fault(command: CommandName, part: Part<'_>) -> Option<WordsFault>
    ensures { result ≡ other_fault command (seen_part part.entry) }
{
    match part {
        Part::Given(at, name, _) => {
            if is_for(name, command) {
                None
            } else {
                Some(WordsFault::At(at, WordsKind::NotForCommand))
            }
        }
        _ => None,
    }
}

fn other_option(command: CommandName, parts: &[Part<'_>]) -> Option<WordsFault>
    ensures { result ≡ other_option command (map (λ p. seen_part p) parts.now) }
{
    for part in parts {
        if let Some(fault) = other_fault(command, *part) {
            return Some(fault);
        }
    }
    None
}

fn not_one(past: u32, operands: &[Placed<'_>]) -> Option<WordsFault>
    ensures { result ≡ not_one past (map (λ o. seen_placed o) operands.now) }
{
    match operands {
        [] => Some(WordsFault::At(past, WordsKind::MissingOperand)),
        [_] => None,
        [_, extra, ..] => Some(WordsFault::At(extra.at, WordsKind::ExtraOperand)),
    }
}

fn not_two(past: u32, operands: &[Placed<'_>]) -> Option<WordsFault>
    ensures { result ≡ not_two past (map (λ o. seen_placed o) operands.now) }
{
    match operands {
        [_, _] => None,
        [_, _, extra, ..] => Some(WordsFault::At(extra.at, WordsKind::ExtraOperand)),
        _ => Some(WordsFault::At(past, WordsKind::MissingOperand)),
    }
}

fn operand_fault(past: u32, command: CommandName, operands: &[Placed<'_>]) -> Option<WordsFault>
    ensures { result ≡ operand_fault past command (map (λ o. seen_placed o) operands.now) }
{
    match command {
        CommandName::Copy => not_two(past, operands),
        CommandName::Sync => not_two(past, operands),
        CommandName::Inspect => not_one(past, operands),
        CommandName::ListTags => not_one(past, operands),
        CommandName::Delete => not_one(past, operands),
        CommandName::MakeImages => not_two(past, operands),
    }
}

fn missing_option(past: u32, command: CommandName, parts: &[Part<'_>]) -> Option<WordsFault>
    ensures { result ≡ missing_option past command (map (λ p. seen_part p) parts.now) }
{
    match command {
        CommandName::Sync => {
            let src = last_of(OptionName::Src, parts);
            let dest = last_of(OptionName::Dest, parts);
            if src.is_some() && dest.is_some() {
                None
            } else {
                Some(WordsFault::At(past, WordsKind::MissingOption))
            }
        }
        _ => None,
    }
}

/// The first fault of a command, with the operands behind it.
pub fn command_fault(
    past: u32,
    command: CommandName,
    parts: &[Part<'_>],
    operands: &[Placed<'_>],
) -> Option<WordsFault>
    ensures { let seen = map (λ p. seen_part p) parts.now in
        result ≡ command_fault past command seen (map (λ o. seen_placed o) operands.now) }
{
    if let Some(fault) = other_option(command, parts) {
        return Some(fault);
    }
    if let Some(fault) = operand_fault(past, command, operands) {
        return Some(fault);
    }
    if let Some(fault) = missing_option(past, command, parts) {
        return Some(fault);
    }
    pair_fault(command, parts, operands)
}
