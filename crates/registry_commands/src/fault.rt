// Why a command at a registry ended without success.
ghost use Rattle.std.specs.Prelude.{◌≡◌};
ghost use Rattle.registry_commands.specs.declared.fault.CommandFault.TheVariants as fault;

use image_ref::Digest;
use skopeo_outside::{Many, Memory, Step, Text, What};
use transports::Attempt;

/// Why a command at a registry ended without success, one variant for each refusal that may come. A count of faults is that of the
/// wire when the command ended.
#[derive(Debug, Drop)]
pub enum CommandFault {
    /// The table of this number, counted from 1, is blocked, and the repository is under it.
    Blocked(u32),
    /// The host, which may not be asked without TLS, or which a redirect names with `https`.
    TlsRequired(Text),
    /// No source can be asked: the one attempt, with its cause.
    NoSource(Many<Attempt>),
    /// The digest that the reference names, and that of the bytes that came.
    ManifestDigest(Digest, Digest),
    /// The step was answered with another status than it may have, at what is to be changed.
    DestRefused(Step, u16),
    /// What passed its limit, and how much of it was counted.
    TooLarge(What, u64),
    /// The step, and the first 64 bytes of an answer outside the grammar.
    BadAnswer(Step, Many<u8>),
    /// The step was answered with another status than it may have, at what is only asked.
    SourceRefused(Step, u16),
    /// The answer of the step has a content encoding.
    Encoded(Step),
    /// The step was redirected more often than it may be.
    TooManyRedirects(Step),
    /// The count of faults of the wire, which rose in the exchange that ended the command.
    Wire(u64),
    /// Want of memory.
    Memory,
}

impl From<Memory> for CommandFault {
    ghost from_gives = { λ _ e. e ≡ fault.Memory };

    fn from(_: Memory) -> Self {
        CommandFault::Memory
    }
}
