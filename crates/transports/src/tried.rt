// Sources of an image that are tried in order.
ghost use Rattle.std.specs.Prelude.{◌≡◌, ◌++◌, ◌∷◌, [], ℕ, true, List, Some, IfOk, OnOk};
ghost use Rattle.std.specs.Option.{option_map};
ghost use Rattle.skopeo_outside.specs.LaneTold.{IsLater};
ghost use Rattle.skopeo_outside.specs.Steps.{Ends};
ghost use Rattle.transports.specs.Courses.{lane_course};
ghost use Rattle.transports.specs.StepEnds.{reading};
ghost use Rattle.transports.specs.Given.{Spares};
ghost use Rattle.transports.specs.Has.{IsUntouched};
ghost use Rattle.transports.specs.Found.{trying};
ghost use Rattle.transports.specs.Tried.{AsksManifest, IsBy, IsTriedBy, IsTried, AreTried, OnSource, checked, exchange_cause, fault_cause, found_at, may_ask};

use crate::attempt::{Attempt, AttemptCause};
use crate::found::Found;
use crate::refusal::Refusal;
use crate::registry_source::{name_in, registry_of};
use crate::source::Source;
use digest_reader::digest_of;
use http_message::ExchangeFault;
use image_ref::{Digest, ImageRef};
use registry_http::RegistryFault;
use skopeo_outside::{Fetched, Files, Lane, Many, Memory, Step, Text, What, Wire};
use std::alloc::Global;

/// Why a source gave no manifest, by the fault of the exchange.
fn exchange_cause(fault: ExchangeFault, faults: u64) -> Result<AttemptCause, Memory>
    ensures is { IfOk result (λ cause. exchange_cause faults fault ≡ Some cause) }
{
    match fault {
        ExchangeFault::BadAnswer(step, first) => Ok(AttemptCause::BadAnswer(step, first)),
        ExchangeFault::Wire => Ok(AttemptCause::Wire(faults)),
        ExchangeFault::HeadTooLong(n) => Ok(AttemptCause::TooLarge(What::Head, n)),
        ExchangeFault::HeadersTooMany(n) => Ok(AttemptCause::TooLarge(What::Headers, n as u64)),
        ExchangeFault::BodyTooLong(n) => Ok(AttemptCause::TooLarge(What::Manifest, n)),
        ExchangeFault::Encoded => Ok(AttemptCause::Encoded(Step::Manifest)),
        ExchangeFault::TooManyRedirects => Ok(AttemptCause::TooManyRedirects(Step::Manifest)),
        ExchangeFault::TlsRequired(host) => Ok(AttemptCause::TlsRequired(host)),
        ExchangeFault::Memory => Err(Memory),
    }
}

/// The same by the fault of the step.
fn fault_cause(fault: RegistryFault, faults: u64) -> Result<AttemptCause, Memory>
    ensures is { IfOk result (λ cause. fault_cause faults fault ≡ Some cause) }
{
    match fault {
        RegistryFault::Status(step, _, status) => Ok(AttemptCause::SourceRefused(step, status)),
        RegistryFault::TooMany(what, n) => Ok(AttemptCause::TooLarge(what, n)),
        RegistryFault::Exchange(fault) => exchange_cause(fault, faults),
        RegistryFault::Memory => Err(Memory),
    }
}

/// The manifest, where it has the digest that is named.
fn checked(named: Option<&Digest>, fetched: Fetched) -> Result<Fetched, AttemptCause>
    ensures is { result ≡ checked (option_map (λ d. d.now) named.entry) fetched }
{
    match named {
        None => Ok(fetched),
        Some(named) => {
            let found = digest_of(fetched.bytes.as_slice());
            if found == *named {
                Ok(fetched)
            } else {
                Err(AttemptCause::ManifestDigest(*named, found))
            }
        }
    }
}

/// What comes of an answer.
fn judged(
    reference: &ImageRef,
    answer: Result<Fetched, RegistryFault>,
    faults: u64,
) -> Result<Result<Fetched, AttemptCause>, Memory>
    ensures is { IfOk result (λ x. IsBy reference.now faults answer x) }
{
    match answer {
        Ok(fetched) => Ok(checked(reference.digest(), fetched)),
        Err(fault) => match fault_cause(fault, faults) {
            Ok(cause) => Ok(Err(cause)),
            Err(wanted) => Err(wanted),
        },
    }
}

/// Asks for the manifest of a reference.
fn ask_manifest<W: Wire, F: Files>(
    alloc: Global,
    reference: &ImageRef,
    lane: &mut Lane<W, F>,
) -> Result<Result<Fetched, AttemptCause>, Memory>
    ensures asked { IfOk result (λ x. AsksManifest reference.now lane.old lane.new x) }
    ensures on { OnSource lane.old lane.new }
    ensures later { IsLater lane.old lane.new }
{
    let registry = registry_of(alloc, reference)?;
    let name = name_in(alloc, reference)?;
    let answer = registry.get_manifest(alloc, &mut lane.from, name.as_str(), Step::Manifest);
    judged(reference, answer, lane.from.faults())
}

/// The registry of a reference as the source that answered.
fn found_at(
    alloc: Global,
    reference: &ImageRef,
    answer: Result<Fetched, AttemptCause>,
) -> Result<Result<Found, AttemptCause>, Memory>
    ensures is { IfOk result (λ x. x ≡ found_at reference.now answer) }
{
    match answer {
        Ok(fetched) => {
            let from = Source::Registry(reference.copy(alloc)?);
            Ok(Ok(Found { from, fetched }))
        }
        Err(cause) => Ok(Err(cause)),
    }
}

/// Asks the registry of a reference.
fn ask_source<W: Wire, F: Files>(
    alloc: Global,
    reference: &ImageRef,
    lane: &mut Lane<W, F>,
) -> Result<Result<Found, AttemptCause>, Memory>
    ensures tried { IfOk result (λ x. (text : List ℕ) → IsTriedBy true (Some reference.now) text lane.old lane.new x) }
    ensures on { OnSource lane.old lane.new }
    ensures later { IsLater lane.old lane.new }
{
    let answer = ask_manifest(alloc, reference, lane)?;
    found_at(alloc, reference, answer)
}

/// Whether a source may be asked over plain HTTP.
fn may_ask(tls: Option<bool>, mark: bool) -> bool
    ensures is { result ≡ may_ask tls mark }
{
    match tls {
        Some(verify) => !verify,
        None => mark,
    }
}

/// Tries one source.
fn try_source<W: Wire, F: Files>(
    alloc: Global,
    source: &registries_conf::Source,
    tls: Option<bool>,
    lane: &mut Lane<W, F>,
) -> Result<Result<Found, AttemptCause>, Memory>
    ensures tried { IfOk result (λ x. IsTried tls source.now lane.old lane.new x) }
    ensures on { OnSource lane.old lane.new }
    ensures later { IsLater lane.old lane.new }
{
    let Some(reference) = &source.reference else {
        let text = Text::copy_of(alloc, source.text.as_str())?;
        return Ok(Err(AttemptCause::BadRewrite(text)));
    };
    if !may_ask(tls, source.insecure) {
        let host = Text::copy_of(alloc, reference.host())?;
        return Ok(Err(AttemptCause::TlsRequired(host)));
    }
    ask_source(alloc, reference, lane)
}

/// Notes a source that was asked in vain.
fn note(
    alloc: Global,
    source: &registries_conf::Source,
    cause: AttemptCause,
    attempts: &mut Many<Attempt>,
) -> Result<(), Memory>
    ensures noted { OnOk result (attempts.new ≡ attempts.old ++ record { source = source.now.text; cause = cause } ∷ []) }
{
    let source = Text::copy_of(alloc, source.text.as_str())?;
    attempts.push(Attempt { source, cause })
}

/// Tries sources in order, up to the first that gives the manifest, or answers the failed attempts.
#[tactic(auto, using(crate::proofs::TriedLemmas::on_same, crate::proofs::TriedLemmas::on_then, crate::proofs::SameLemmas::later_now, skopeo_outside::specs::LaneLaws::later_then, crate::proofs::TriedLemmas::none_failed))]
pub(crate) fn try_each<W: Wire, F: Files>(
    alloc: Global,
    sources: &[registries_conf::Source],
    tls: Option<bool>,
    lane: &mut Lane<W, F>,
) -> Result<Result<Found, Many<Attempt>>, Memory>
    ensures tried { IfOk result (λ x. AreTried tls sources.now lane.old lane.new x) }
    ensures on { OnSource lane.old lane.new }
    ensures later { IsLater lane.old lane.new }
{
    let mut attempts = Many::new(alloc);
    for source in sources {
        match try_source(alloc, source, tls, lane) {
            Err(wanted) => return Err(wanted),
            Ok(Ok(found)) => return Ok(Ok(found)),
            Ok(Err(cause)) => {
                if note(alloc, source, cause, &mut attempts).is_err() {
                    return Err(Memory);
                }
            }
        }
    }
    Ok(Err(attempts))
}

/// Tries sources in order; where all fail, the refusal lists the attempts.
#[tactic(auto, using(crate::proofs::TriedLemmas::trying_memory, crate::proofs::RegistryLemmas::untouched_source))]
pub(crate) fn try_sources<W: Wire, F: Files>(
    alloc: Global,
    sources: &[registries_conf::Source],
    tls: Option<bool>,
    lane: &mut Lane<W, F>,
) -> Result<Found, Refusal>
    ensures ends { Ends lane_course (reading (trying tls sources.now)) lane.old lane.new result }
    ensures untouched { IsUntouched lane.old lane.new }
    ensures spares { IfOk result (λ it. Spares it.from lane.old lane.new) }
{
    match try_each(alloc, sources, tls, lane) {
        Err(_) => Err(Refusal::Memory),
        Ok(Ok(found)) => Ok(found),
        Ok(Err(attempts)) => Err(Refusal::NoSource(attempts)),
    }
}
