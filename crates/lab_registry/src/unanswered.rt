// Why a connection was not answered.
ghost use Rattle.std.specs.Prelude.{◌≡◌, ◌⊎◌};
ghost use Rattle.lab_registry.specs.Outside.{IsOutside};
ghost use Rattle.lab_registry.specs.declared.unanswered.Unanswered.TheVariants as why;

use skopeo_outside::Memory;
use std::fmt::{Display, Formatter};
use std::io::ErrorKind;
use std::{fmt, io};

/// Why a connection was not answered.
#[derive(Debug, Drop)]
pub enum Unanswered {
    /// The head of the request is longer than it may be.
    TooLong,
    /// The other side ended it before the head of a request ended.
    Cut,
    /// It could not be read or written.
    Broken(io::Error),
    Memory,
}

impl From<Memory> for Unanswered {
    ghost from_gives = { λ _ e. e ≡ why.Memory };

    fn from(_: Memory) -> Self {
        Unanswered::Memory
    }
}

impl From<io::Error> for Unanswered {
    ghost from_gives = { λ _ e. IsOutside e };

    fn from(error: io::Error) -> Self {
        if error.kind() == ErrorKind::OutOfMemory {
            return Unanswered::Memory;
        }
        Unanswered::Broken(error)
    }
}

impl Display for Unanswered {
    fn fmt<W: fmt::Write>(&self, f: &mut Formatter<W>) -> fmt::Result {
        match self {
            Unanswered::TooLong => f.write_str(
                "the head of the request is longer than 65536 bytes",
            ),
            Unanswered::Cut => f.write_str("it ended before the head of a request ended"),
            Unanswered::Broken(error) => write!(f, "{error}"),
            Unanswered::Memory => f.write_str("out of memory"),
        }
    }
}
