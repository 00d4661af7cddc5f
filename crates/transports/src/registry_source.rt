// A registry as a source.
ghost use Rattle.std.specs.Prelude.{◌≡◌, ◌+◌, ◌<◌, ◌≤◌, ◌^◌, [], List, ℕ, false, IfOk, IfErr, length};
ghost use Rattle.skopeo_outside.specs.LaneTold.{LaneTold, IsLater};
ghost use Rattle.registry_http.specs.Requests.{IsAsked};
ghost use Rattle.registry_http.specs.Steps.{IsTagOrDigest};
ghost use Rattle.http_exchange.specs.Reader.{IsReady};
ghost use Rattle.transports.specs.declared.source.Source.{Source};
ghost use Rattle.transports.specs.declared.source.Source.TheVariants.{Registry as AtRegistry};
ghost use Rattle.transports.specs.declared.blob.Blob.TheVariants as blob;
ghost use Rattle.transports.specs.StepEnds.{FailsBy};
ghost use Rattle.transports.specs.Given.{Spares, HasGiven};
ghost use Rattle.transports.specs.Has.{IsUntouched};
ghost use Rattle.transports.specs.Next.{GivesNext};
ghost use Rattle.transports.specs.Registries.{registry_of, name_by, name_in, cause_at};
ghost use Rattle.transports.specs.Tried.{OnSource};
ghost use Rattle.transports.specs.Uploads.{is_mismatch};
ghost use Rattle.transports.specs.Calls.{exchange_by, fault_by};

use crate::blob::Blob;
use copy_workers::Cause;
use digest_reader::Job;
use http_exchange::{Answer, read_full as next_of_answer};
use http_message::ExchangeFault;
use image_ref::ImageRef;
use registry_http::{Registry, RegistryFault};
use skopeo_outside::{Files, Lane, Memory, Step, Text, What, Wire};
use std::alloc::Global;

/// The repository of a reference.
#[tactic(auto, using(crate::proofs::AskLemmas::is_asked))]
pub(crate) fn registry_of(alloc: Global, reference: &ImageRef) -> Result<Registry, Memory>
    ensures is { IfOk result (λ r. r ≡ registry_of reference.now) }
    ensures asked { IfOk result IsAsked }
{
    let host = Text::copy_of(alloc, reference.host())?;
    let path = Text::copy_of(alloc, reference.path())?;
    Ok(Registry {
        host,
        path,
        insecure: true,
    })
}

/// By which name the manifest of a reference is asked for.
#[tactic(auto, using(crate::proofs::AskLemmas::is_named_tag, crate::proofs::AskLemmas::is_latest))]
pub(crate) fn name_in(alloc: Global, reference: &ImageRef) -> Result<Text, Memory>
    ensures is { IfOk result (λ t. t ≡ name_in reference.now) }
    ensures named { IfOk result IsTagOrDigest }
{
    let _named = reference.host();
    if let Some(digest) = reference.digest() {
        return digest.write_digest(alloc);
    }
    match reference.tag() {
        Some(tag) => Text::copy_of(alloc, tag),
        None => Text::copy_of(alloc, "latest"),
    }
}

/// The cause of a job that a fault of its exchange is.
fn exchange_by(fault: ExchangeFault, faults: u64) -> Cause
    ensures is { result ≡ exchange_by faults fault }
    ensures unjudged { is_mismatch result ≡ false }
{
    match fault {
        ExchangeFault::BadAnswer(step, first) => Cause::BadAnswer(step, first),
        ExchangeFault::Wire => Cause::Wire(faults),
        ExchangeFault::HeadTooLong(n) => Cause::TooLarge(What::Head, n),
        ExchangeFault::HeadersTooMany(n) => Cause::TooLarge(What::Headers, n as u64),
        ExchangeFault::BodyTooLong(n) => Cause::TooLarge(What::Answer, n),
        ExchangeFault::Encoded => Cause::Encoded(Step::Blob),
        ExchangeFault::TooManyRedirects => Cause::TooManyRedirects(Step::Blob),
        ExchangeFault::TlsRequired(host) => Cause::TlsRequired(host),
        ExchangeFault::Memory => Cause::Memory,
    }
}

/// The cause that another status than 200 is.
fn cause_at(job: &Job, status: u16) -> Cause
    ensures is { result ≡ cause_at job.now status }
    ensures unjudged { is_mismatch result ≡ false }
{
    if status == 404 {
        Cause::BlobAbsent(job.digest)
    } else {
        Cause::SourceRefused(Step::Blob, status)
    }
}

/// The cause of a job that the fault of its opening is.
fn fault_by(job: &Job, fault: RegistryFault, faults: u64) -> Cause
    ensures is { result ≡ fault_by job.now faults fault }
    ensures unjudged { is_mismatch result ≡ false }
{
    match fault {
        RegistryFault::Status(_, _, status) => cause_at(job, status),
        RegistryFault::TooMany(what, n) => Cause::TooLarge(what, n),
        RegistryFault::Exchange(fault) => exchange_by(fault, faults),
        RegistryFault::Memory => Cause::Memory,
    }
}

/// A job's blob at a registry.
pub(crate) fn open_blob<W: Wire, F: Files>(
    alloc: Global,
    lane: &mut Lane<W, F>,
    reference: &ImageRef,
    job: &Job,
) -> Result<Blob, Cause>
    ensures opened { IfOk result (λ blob. HasGiven (AtRegistry reference.now) job.now blob lane.old lane.new []) }
    ensures failed { IfErr result (λ e. FailsBy (AtRegistry reference.now) job.now e lane.old lane.new) }
    ensures unjudged { IfErr result (λ e. is_mismatch e ≡ false) }
    ensures untouched { IsUntouched lane.old lane.new }
    ensures later { IsLater lane.old lane.new }
{
    let registry = registry_of(alloc, reference)?;
    match registry.open_blob(alloc, &mut lane.from, &job.digest) {
        Ok(answer) => Ok(Blob::Answer(answer, 0)),
        Err(fault) => Err(fault_by(job, fault, lane.from.faults())),
    }
}

/// The next bytes of an answer that is being read.
pub(crate) fn next_piece<W: Wire, F: Files>(
    alloc: Global,
    lane: &mut Lane<W, F>,
    answer: &mut Answer,
    given: &mut u64,
    into: &mut [u8],
) -> Result<usize, Cause>
    requires ready { IsReady answer.old.reader lane.old.from.is_open }
    requires room { 0 < length into.old }
    requires few { given.old + length into.old < 2 ^ 61 }
    ensures count { IfOk result (λ count. count ≤ length into.old) }
    ensures gives { (source : Source) (job : Job) (entry : LaneTold) (bytes : List ℕ)
        → HasGiven source job (blob.Answer answer.old given.old) entry lane.old bytes
        → GivesNext source job (blob.Answer answer.new given.new) entry lane.new bytes into.new result }
    ensures on { OnSource lane.old lane.new }
{
    match next_of_answer(alloc, &mut lane.from, answer, into) {
        Err(fault) => return Err(exchange_by(fault, lane.from.faults())),
        Ok(count) => {
            *given += count as u64;
            Ok(count)
        }
    }
}
