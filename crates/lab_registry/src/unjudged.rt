// Why a verifier gives no answer.
ghost use Rattle.std.specs.Prelude.{◌≡◌, ◌⊎◌};
ghost use Rattle.lab_registry.specs.Outside.{IsFailed};
ghost use Rattle.lab_registry.specs.declared.unjudged.Unjudged.TheVariants as why;

use skopeo_outside::Memory;
use std::fmt::{Display, Formatter};
use std::io::ErrorKind;
use std::{fmt, io};

/// Why a verifier gives no answer.
#[derive(Debug, Drop)]
pub enum Unjudged {
    /// The input is no question.
    NoQuestion,
    /// The input cannot be read, or the output not written.
    Broken(io::Error),
    Memory,
}

impl From<Memory> for Unjudged {
    ghost from_gives = { λ _ e. e ≡ why.Memory };

    fn from(_: Memory) -> Self {
        Unjudged::Memory
    }
}

impl From<io::Error> for Unjudged {
    ghost from_gives = { λ _ e. IsFailed e };

    fn from(error: io::Error) -> Self {
        if error.kind() == ErrorKind::OutOfMemory {
            return Unjudged::Memory;
        }
        Unjudged::Broken(error)
    }
}

impl Display for Unjudged {
    fn fmt<W: fmt::Write>(&self, f: &mut Formatter<W>) -> fmt::Result {
        match self {
            Unjudged::NoQuestion => f.write_str("the input is no question"),
            Unjudged::Broken(error) => write!(f, "{error}"),
            Unjudged::Memory => f.write_str("out of memory"),
        }
    }
}
