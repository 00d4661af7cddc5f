ghost use Rattle.std.specs.Prelude.{◌≡◌};

/// What is wrong with a word.
#[derive(Clone, Copy, Debug, PartialEq, Eq)]
pub enum WordsKind {
    /// A word that begins with a dash and is no option.
    UnknownOption,
    /// An option without its value, at the end of the words.
    MissingValue,
    /// A value that the option does not take.
    BadValue,
    /// Too few operands, or no command.
    MissingOperand,
    /// The first operand names no command.
    UnknownCommand,
    /// An option of other commands.
    NotForCommand,
    /// An operand too many.
    ExtraOperand,
    /// `sync` without `--src` or `--dest`.
    MissingOption,
    /// `--src dir` with `--dest dir`, or with `--scoped`.
    BadPair,
    /// `--config` without `--raw`.
    NeedsRaw,
    /// `--format v2s2` with a destination that begins with `oci:`.
    FormatForPlace,
    /// An image or repository that does not begin with `docker://`.
    NotDocker,
    /// A number of images that is not 1 to 1,000.
    BadNumber,
}

/// The first fault of the words.
#[derive(Clone, Copy, Debug, PartialEq, Eq)]
pub enum WordsFault {
    /// At the word of this place, counted from 1. The place one past the last word stands for one
    /// that is missing.
    At(u32, WordsKind),
    /// Memory was wanting, which says nothing of the words.
    Memory,
}

impl From<skopeo_outside::Memory> for WordsFault {
    ghost use Rattle.skopeo_words.specs.declared.fault.WordsFault.TheVariants as fault;

    ghost from_gives = { λ _ e. e ≡ fault.Memory };

    fn from(_e: skopeo_outside::Memory) -> WordsFault {
        WordsFault::Memory
    }
}
