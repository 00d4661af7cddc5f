// The tags of a repository at its primary location.
ghost use Rattle.std.specs.Prelude.{◌≡◌, ◌<◌, ◌∷◌, ◌++◌, [], List, Ok, IfOk, IfErr, length};
ghost use Rattle.skopeo_outside.specs.LaneTold.{IsLater};
ghost use Rattle.image_ref.specs.Reference.{Reference};
ghost use Rattle.http_exchange.specs.Plain.{GainsPlain};
ghost use Rattle.registries_conf.specs.declared.sources.Source.{Source};
ghost use Rattle.registries_conf.specs.Settings.{Settings};
ghost use Rattle.registries_conf.specs.IsSources.{HasSources};
ghost use Rattle.transports.specs.Tried.{OnSource};
ghost use Rattle.registry_commands.specs.Calls.{IsUnsourced, TagsCome};
ghost use Rattle.registry_commands.specs.Lists.{IsPrimary, Lists, Listing, tags_end, rewritten_attempt};

use crate::asked::{may_ask, registry_of};
use crate::fault::CommandFault;
use crate::faults::of_tags;
use image_ref::ImageRef;
use registries_conf::{Conf, Source, SourcesFault};
use registry_http::RegistryFault;
use skopeo_outside::{Files, Lane, Many, Memory, Text, Wire};
use std::alloc::Global;
use transports::{Attempt, AttemptCause};

/// The sources of a repository by the configuration.
#[tactic(auto, using(crate::proofs::ListLemmas::has_sources))]
fn sources_for(
    alloc: Global,
    conf: &Conf,
    repository: &ImageRef,
) -> Result<Many<Source>, CommandFault>
    ensures has { IfOk result (λ sources. HasSources conf.now repository.now (Ok sources)) }
    ensures refused { IfErr result (λ e. IsUnsourced conf.now repository.now e) }
{
    match conf.sources(alloc, repository) {
        Ok(sources) => Ok(sources),
        Err(SourcesFault::Blocked(number)) => Err(CommandFault::Blocked(number)),
        Err(SourcesFault::Memory) => Err(CommandFault::Memory),
    }
}

/// The last of some sources.
#[tactic(auto, using(crate::proofs::ListLemmas::last_is))]
fn last_of(sources: &[Source]) -> &Source
    requires { 0 < length sources.now }
    ensures { (front : List Source) (s : Source) → sources.now ≡ front ++ s ∷ [] → result.now ≡ s }
{
    &sources[sources.len() - 1]
}

/// The one attempt at a source whose text is no reference of the repository.
fn rewritten(alloc: Global, source: &Source) -> Result<Many<Attempt>, Memory>
    ensures is { IfOk result (λ attempts. attempts ≡ rewritten_attempt source.now ∷ []) }
{
    let text = Text::copy_of(alloc, source.text.as_str())?;
    let cause = AttemptCause::BadRewrite(Text::copy_of(alloc, source.text.as_str())?);
    let mut attempts = Many::new(alloc);
    attempts.push(Attempt {
        source: text,
        cause,
    })?;
    Ok(attempts)
}

/// What the pages came to.
fn tags_end(
    answer: Result<Many<Text>, RegistryFault>,
    faults: u64,
) -> Result<Many<Text>, CommandFault>
    ensures is { result ≡ tags_end faults answer }
{
    match answer {
        Ok(tags) => Ok(tags),
        Err(fault) => Err(of_tags(fault, faults)),
    }
}

/// Asks for the tags of a repository.
#[tactic(auto, using(crate::proofs::ListLemmas::come_want, crate::proofs::ListLemmas::come_by))]
fn ask_tags<W: Wire, F: Files>(
    alloc: Global,
    repository: &ImageRef,
    lane: &mut Lane<W, F>,
) -> Result<Many<Text>, CommandFault>
    ensures come { TagsCome repository.now lane.old.from lane.new.from result }
    ensures on { OnSource lane.old lane.new }
{
    let registry = registry_of(alloc, repository)?;
    let answer = registry.tags(alloc, &mut lane.from);
    tags_end(answer, lane.from.faults())
}

/// Asks for the tags at a source, where it may be asked.
#[tactic(auto, using(crate::proofs::ListLemmas::lists_want))]
fn tags_at<W: Wire, F: Files>(
    alloc: Global,
    source: &Source,
    tls: Option<bool>,
    lane: &mut Lane<W, F>,
) -> Result<Many<Text>, CommandFault>
    ensures ends { (conf : Settings) (r : Reference) → IsPrimary conf r source.now
        → Lists conf tls r lane.old.from lane.new.from result }
    ensures on { OnSource lane.old lane.new }
{
    let Some(reference) = &source.reference else {
        let attempts = rewritten(alloc, source)?;
        return Err(CommandFault::NoSource(attempts));
    };
    if !may_ask(tls, source.insecure) {
        let host = Text::copy_of(alloc, reference.host())?;
        return Err(CommandFault::TlsRequired(host));
    }
    ask_tags(alloc, reference, lane)
}

/// The same at the primary location.
#[tactic(auto, using(crate::proofs::ListLemmas::some_source))]
fn list_by<W: Wire, F: Files>(
    alloc: Global,
    conf: &Conf,
    repository: &ImageRef,
    tls: Option<bool>,
    lane: &mut Lane<W, F>,
) -> Result<Many<Text>, CommandFault>
    ensures ends { Listing conf.now tls repository.now lane.old lane.new result }
{
    let sources = sources_for(alloc, conf, repository)?;
    let primary = last_of(sources.as_slice());
    tags_at(alloc, primary, tls, lane)
}

/// The tags of a repository, asked for page by page at its primary location on the lane's wire to a source. `tls` says whether
/// TLS is verified, where that is said.
pub fn list_tags<W: Wire, F: Files>(
    alloc: Global,
    conf: &Conf,
    repository: &ImageRef,
    tls: Option<bool>,
    lane: &mut Lane<W, F>,
) -> Result<Many<Text>, CommandFault>
    ensures ends { Listing conf.now tls repository.now lane.old lane.new result }
    ensures plain { GainsPlain lane.old.from.talks lane.new.from.talks }
    ensures later { IsLater lane.old lane.new }
{
    list_by(alloc, conf, repository, tls, lane)
}
