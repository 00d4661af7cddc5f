// Words, read into a command.
ghost use Rattle.std.specs.Prelude.{◌≡◌, ◌+◌, ◌<◌, ◌^◌, ◌↔◌, ℕ, List, Bool, length, map};
ghost use Rattle.std.specs.String.{string_bytes};
ghost use Rattle.image_ref.specs.Calls.{Answers};
ghost use Rattle.skopeo_words.specs.Scan.{seen_part};
ghost use Rattle.skopeo_words.specs.LastOf.{seen_placed};
ghost use Rattle.skopeo_words.specs.CommandOf.{CommandOf};
ghost use Rattle.skopeo_words.specs.CopyOf.{CopyOf};
ghost use Rattle.skopeo_words.specs.FirstFault.{FirstFaultOf};
ghost use Rattle.skopeo_words.specs.Reading.{with_operands, command_in, command_of, by_table};
ghost use Rattle.skopeo_words.specs.Faults.{bad_part};
ghost use Rattle.skopeo_words.specs.declared.command.Common.{Common};
ghost use Rattle.skopeo_words.specs.declared.command.Passing.{Passing};

use crate::asked::asked;
use crate::classes::{bad_part, command_fault};
use crate::command::Command;
use crate::fault::{WordsFault, WordsKind};
use crate::found::{Placed, operands_of};
use crate::made::made;
use crate::parts::{Part, read_parts};
use crate::table::command_named;
use std::alloc::Global;

fn with_operands(
    alloc: Global,
    past: u32,
    parts: &[Part<'_>],
    operands: &[Placed<'_>],
) -> Result<Command, WordsFault>
    ensures { let seen = map (λ p. seen_part p) parts.now in
        let found = map (λ o. seen_placed o) operands.now in
        Answers WordsFault.Memory result (with_operands past seen found) }
{
    let [first, rest @ ..] = operands else {
        return Err(WordsFault::At(past, WordsKind::MissingOperand));
    };
    let Some(name) = command_named(first.text) else {
        return Err(WordsFault::At(first.at, WordsKind::UnknownCommand));
    };
    if let Some(fault) = command_fault(past, name, parts, rest) {
        return Err(fault);
    }
    Ok(made(alloc, name, parts, rest)?)
}

fn by_table(alloc: Global, past: u32, parts: &[Part<'_>]) -> Result<Command, WordsFault>
    ensures { let seen = map (λ p. seen_part p) parts.now in
        Answers WordsFault.Memory result (by_table past seen (bad_part past seen)) }
{
    if let Some(fault) = bad_part(past, parts) {
        return Err(fault);
    }
    let operands = operands_of(alloc, parts)?;
    with_operands(alloc, past, parts, operands.as_slice())
}

#[tactic(auto, unfolding(crate::specs::Reading::command_in))]
fn command_in(alloc: Global, past: u32, parts: &[Part<'_>]) -> Result<Command, WordsFault>
    ensures { let seen = map (λ p. seen_part p) parts.now in
        Answers WordsFault.Memory result (command_in past seen) }
{
    if let Some(command) = asked(parts) {
        return Ok(command);
    }
    by_table(alloc, past, parts)
}

/// What the words ask for, or their first fault and its place, counted from 1. Want of memory,
/// which more than 4,294,967,294 words are too, says nothing of the words. The table of options
/// stands in `specs/Table.antt`, and the order of faults in `specs/FirstFault.antt`.
pub fn read_words(alloc: Global, words: &[String]) -> Result<Command, WordsFault>
    ensures exact { Answers WordsFault.Memory result (command_of (map string_bytes words.now)) }
    ensures grammar { let texts = map string_bytes words.now in
        (c : Command) → (command_of texts ≡ Ok c) ↔ CommandOf texts c }
    ensures copies { let texts = map string_bytes words.now in
        (common : Common) (passing : Passing) (quiet short_names : Bool) (source dest : List ℕ)
        → (command_of texts ≡ Ok (Command.Copy common passing quiet short_names source dest))
        ↔ CopyOf texts common passing quiet short_names source dest }
    ensures faults { let texts = map string_bytes words.now in
        (e : WordsFault) → (command_of texts ≡ Err e) ↔ FirstFaultOf texts e }
{
    if words.len() > 4294967294 {
        return Err(WordsFault::Memory);
    }
    let parts = read_parts(alloc, words)?;
    command_in(alloc, words.len() as u32 + 1, parts.as_slice())
}
