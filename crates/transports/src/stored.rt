// The signatures that are stored of an image at a registry.
ghost use Rattle.std.specs.Prelude.{◌≡◌};
ghost use Rattle.transports.specs.declared.source.Source.TheVariants.{Registry as AtRegistry};
ghost use Rattle.skopeo_outside.specs.LaneTold.{IsLater};
ghost use Rattle.skopeo_outside.specs.Steps.{Ends};
ghost use Rattle.image_ref.specs.Reference.{Reference};
ghost use Rattle.transports.specs.Courses.{lane_course};
ghost use Rattle.transports.specs.StepEnds.{reading};
ghost use Rattle.transports.specs.Given.{Spares, SignaturesEnd};
ghost use Rattle.transports.specs.Has.{IsUntouched};
ghost use Rattle.transports.specs.Stores.{AreStored, exchange_refusal, stored_refusal, by_store};
ghost use Rattle.std.specs.Prelude.{ℕ, List, Option};

use crate::refusal::Refusal;
use crate::store::Store;
use http_message::ExchangeFault;
use registry_http::{RegistryFault, get_signatures};
use skopeo_outside::{Files, Lane, Many, Step, What, Wire};
use std::alloc::Global;

/// The refusal that a fault of the exchange with a store is.
fn exchange_refusal(fault: ExchangeFault, faults: u64) -> Refusal
    ensures is { result ≡ exchange_refusal faults fault }
{
    match fault {
        ExchangeFault::BadAnswer(step, first) => Refusal::BadAnswer(step, first),
        ExchangeFault::Wire => Refusal::Wire(faults),
        ExchangeFault::HeadTooLong(n) => Refusal::TooLarge(What::Head, n),
        ExchangeFault::HeadersTooMany(n) => Refusal::TooLarge(What::Headers, n as u64),
        ExchangeFault::BodyTooLong(n) => Refusal::TooLarge(What::Signature, n),
        ExchangeFault::Encoded => Refusal::Encoded(Step::Signature),
        ExchangeFault::TooManyRedirects => Refusal::TooManyRedirects(Step::Signature),
        ExchangeFault::TlsRequired(host) => Refusal::TlsRequired(host),
        ExchangeFault::Memory => Refusal::Memory,
    }
}

/// The refusal that a fault of the reading of a store is.
fn stored_refusal(fault: RegistryFault, faults: u64) -> Refusal
    ensures is { result ≡ stored_refusal faults fault }
{
    match fault {
        RegistryFault::Status(_, number, status) => Refusal::LookasideRefused(number, status),
        RegistryFault::TooMany(what, n) => Refusal::TooLarge(what, n),
        RegistryFault::Exchange(fault) => exchange_refusal(fault, faults),
        RegistryFault::Memory => Refusal::Memory,
    }
}

/// What comes of the answer of a store.
fn by_store(
    answer: Result<Many<Many<u8>>, RegistryFault>,
    faults: u64,
) -> Result<Many<Many<u8>>, Refusal>
    ensures is { result ≡ by_store faults answer }
{
    match answer {
        Ok(signatures) => Ok(signatures),
        Err(fault) => Err(stored_refusal(fault, faults)),
    }
}

/// The signatures that stand in a store, asked one by one on the lane's wire to the source.
fn ask_store<W: Wire, F: Files>(
    alloc: Global,
    lane: &mut Lane<W, F>,
    store: &Store,
) -> Result<Many<Many<u8>>, Refusal>
    ensures stored { AreStored store.now lane.old lane.new result }
    ensures later { IsLater lane.old lane.new }
{
    let answer = get_signatures(
        alloc,
        &mut lane.from,
        store.base(),
        store.path(),
        store.digest(),
    );
    by_store(answer, lane.from.faults())
}

/// The signatures of an image at a registry: those that stand in its store, where it has one.
#[tactic(auto, using(crate::proofs::StoreLemmas::stored_ends, crate::proofs::StoreLemmas::stored_untouched, crate::proofs::StoreLemmas::spares_later, crate::proofs::StoreLemmas::none_stored, crate::proofs::SameLemmas::untouched_same, crate::proofs::SameLemmas::spares_same))]
pub(crate) fn stored_signatures<W: Wire, F: Files>(
    alloc: Global,
    lane: &mut Lane<W, F>,
    store: &Option<Store>,
) -> Result<Many<Many<u8>>, Refusal>
    ensures ends { (r : Reference) (part : Option (List ℕ))
        → Ends lane_course (reading (SignaturesEnd (AtRegistry r) store.now part)) lane.old lane.new result }
    ensures untouched { IsUntouched lane.old lane.new }
    ensures spares { (r : Reference) → Spares (AtRegistry r) lane.old lane.new }
{
    match store {
        Some(store) => ask_store(alloc, lane, store),
        None => Ok(Many::new(alloc)),
    }
}
