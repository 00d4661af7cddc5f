// Why bytes are no answer.
ghost use Rattle.std.specs.Prelude.{◌≡◌, IfOk};
ghost use Rattle.http_message.specs.declared.fault.AnswerFault.TheVariants as short;
ghost use Rattle.http_message.specs.declared.fault.ExchangeFault.TheVariants as long;
ghost use Rattle.http_message.specs.Faults.{fault_of, shown};

use skopeo_outside::{Many, Memory, Step, Text};
use std::alloc::{AllocError, AllocFailed, Global};

/// Why the bytes of one conversation give no answer.
#[derive(Clone, Copy, Debug, PartialEq, Eq)]
pub enum AnswerFault {
    /// They are no answer in the grammar, or ended early.
    BadAnswer,
    /// So many bytes of a head, a trailer part or a chunk line came, without its end.
    HeadTooLong(u64),
    /// A head or a trailer part has so many header lines.
    HeadersTooMany(u32),
    /// So many bytes of a body came, one more than its limit.
    BodyTooLong(u64),
    /// The answer has a content encoding.
    Encoded,
    /// The wire failed before the answer was whole.
    Wire,
    /// Want of memory.
    Memory,
}

impl From<AllocError> for AnswerFault {
    ghost from_gives = { λ _ e. e ≡ short.Memory };

    fn from(_: AllocError) -> Self {
        AnswerFault::Memory
    }
}

impl<T: Drop> From<AllocFailed<T>> for AnswerFault {
    ghost from_gives = { λ _ e. e ≡ short.Memory };

    fn from(_: AllocFailed<T>) -> Self {
        AnswerFault::Memory
    }
}

impl From<Memory> for AnswerFault {
    ghost from_gives = { λ _ e. e ≡ short.Memory };

    fn from(_: Memory) -> Self {
        AnswerFault::Memory
    }
}

/// Why an exchange with a registry gave no response.
#[derive(Debug, Drop)]
pub enum ExchangeFault {
    /// The bytes of the last conversation are no answer; its first bytes, at most 64, beside the step.
    BadAnswer(Step, Many<u8>),
    /// The wire failed.
    Wire,
    /// So many bytes of a head, a trailer part or a chunk line came, without its end.
    HeadTooLong(u64),
    /// A head or a trailer part has so many header lines.
    HeadersTooMany(u32),
    /// So many bytes of a body came, one more than its limit.
    BodyTooLong(u64),
    /// The answer has a content encoding.
    Encoded,
    /// A sixth redirect.
    TooManyRedirects,
    /// A redirect names this host, over TLS.
    TlsRequired(Text),
    /// Want of memory.
    Memory,
}

impl ExchangeFault {
    /// The fault of a step whose conversation gave no answer, and began with these bytes.
    pub fn of(step: Step, first: Many<u8>, fault: AnswerFault) -> Self
        ensures { result ≡ fault_of step first fault }
    {
        match fault {
            AnswerFault::BadAnswer => ExchangeFault::BadAnswer(step, first),
            AnswerFault::HeadTooLong(length) => ExchangeFault::HeadTooLong(length),
            AnswerFault::HeadersTooMany(count) => ExchangeFault::HeadersTooMany(count),
            AnswerFault::BodyTooLong(length) => ExchangeFault::BodyTooLong(length),
            AnswerFault::Encoded => ExchangeFault::Encoded,
            AnswerFault::Wire => ExchangeFault::Wire,
            AnswerFault::Memory => ExchangeFault::Memory,
        }
    }
}

/// The first bytes, at most 64, as a bad answer shows them. The only error is want of memory.
#[tactic(auto, using(crate::proofs::ShownLemmas::shown_front))]
pub fn shown(alloc: Global, bytes: &[u8]) -> Result<Many<u8>, Memory>
    ensures front { IfOk result (λ first. first ≡ shown bytes.now) }
{
    let mut first = Many::new(alloc);
    first.extend(&bytes[..bytes.len().min(64)])?;
    Ok(first)
}
