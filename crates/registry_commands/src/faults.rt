// Which refusals the faults of steps at a registry are.
ghost use Rattle.std.specs.Prelude.{◌≡◌};
ghost use Rattle.registry_commands.specs.Faults.{exchange_fault, delete_fault, tags_fault};

use crate::fault::CommandFault;
use http_message::ExchangeFault;
use registry_http::RegistryFault;
use skopeo_outside::{Step, What};

/// The refusal that a fault of the exchange of a step is. The count is that of the wire's faults, here and below.
fn of_exchange(step: Step, body: What, fault: ExchangeFault, faults: u64) -> CommandFault
    ensures is { result ≡ exchange_fault step body faults fault }
{
    match fault {
        ExchangeFault::BadAnswer(step, first) => CommandFault::BadAnswer(step, first),
        ExchangeFault::Wire => CommandFault::Wire(faults),
        ExchangeFault::HeadTooLong(n) => CommandFault::TooLarge(What::Head, n),
        ExchangeFault::HeadersTooMany(n) => CommandFault::TooLarge(What::Headers, n as u64),
        ExchangeFault::BodyTooLong(n) => CommandFault::TooLarge(body, n),
        ExchangeFault::Encoded => CommandFault::Encoded(step),
        ExchangeFault::TooManyRedirects => CommandFault::TooManyRedirects(step),
        ExchangeFault::TlsRequired(host) => CommandFault::TlsRequired(host),
        ExchangeFault::Memory => CommandFault::Memory,
    }
}

/// The refusal that a fault of a step of a deletion is.
pub(crate) fn of_delete(step: Step, fault: RegistryFault, faults: u64) -> CommandFault
    ensures is { result ≡ delete_fault step faults fault }
{
    match fault {
        RegistryFault::Status(step, _, status) => CommandFault::DestRefused(step, status),
        RegistryFault::TooMany(what, n) => CommandFault::TooLarge(what, n),
        RegistryFault::Exchange(fault) => of_exchange(step, What::Manifest, fault, faults),
        RegistryFault::Memory => CommandFault::Memory,
    }
}

/// The refusal that a fault of the pages of tags is.
pub(crate) fn of_tags(fault: RegistryFault, faults: u64) -> CommandFault
    ensures is { result ≡ tags_fault faults fault }
{
    match fault {
        RegistryFault::Status(step, _, status) => CommandFault::SourceRefused(step, status),
        RegistryFault::TooMany(what, n) => CommandFault::TooLarge(what, n),
        RegistryFault::Exchange(fault) => of_exchange(Step::Tags, What::TagsPage, fault, faults),
        RegistryFault::Memory => CommandFault::Memory,
    }
}
