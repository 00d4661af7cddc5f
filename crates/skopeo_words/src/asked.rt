// Help and version, where the words ask for them.
ghost use Rattle.std.specs.Prelude.{◌≡◌, map};
ghost use Rattle.skopeo_words.specs.Scan.{seen_part};
ghost use Rattle.skopeo_words.specs.Asked.{asks};
ghost use Rattle.skopeo_words.specs.Reading.{asked_within, asked};

use crate::command::{Command, CommandName};
use crate::parts::Part;
use crate::table::command_named;

fn asks(name: Option<CommandName>, word: &str) -> Option<Command>
    ensures { result ≡ asks name word.now }
{
    match word {
        "--help" | "-h" => Some(Command::Help(name)),
        "--version" | "-v" => Some(Command::Version),
        _ => None,
    }
}

fn asked_within(parts: &[Part<'_>]) -> Option<Command>
    ensures { result ≡ asked_within (map (λ p. seen_part p) parts.now) }
{
    let mut command = None;
    for part in parts {
        if let Some(name) = command {
            return match part {
                Part::Unknown(_, word) => asks(Some(name), word),
                _ => None,
            };
        }
        if let Part::Operand(_, text) = part {
            let Some(name) = command_named(text) else {
                return None;
            };
            command = Some(name);
        }
    }
    None
}

/// Help or version, where the words ask for it.
pub fn asked(parts: &[Part<'_>]) -> Option<Command>
    ensures { result ≡ asked (map (λ p. seen_part p) parts.now) }
{
    match parts {
        [Part::Unknown(_, word)] => asks(None, word),
        _ => asked_within(parts),
    }
}
