// The names that a short name stands for, tried in order.
ghost use Rattle.std.specs.Prelude.{◌≡◌, ◌++◌, ◌∷◌, [], Ok, Err, IfOk, OnOk};
ghost use Rattle.skopeo_outside.specs.LaneTold.{IsLater};
ghost use Rattle.skopeo_outside.specs.Steps.{Ends};
ghost use Rattle.image_ref.specs.Reference.{full};
ghost use Rattle.transports.specs.Courses.{lane_course};
ghost use Rattle.transports.specs.StepEnds.{reading};
ghost use Rattle.transports.specs.Given.{Spares};
ghost use Rattle.transports.specs.Has.{IsUntouched};
ghost use Rattle.transports.specs.Found.{trying_names};
ghost use Rattle.transports.specs.Tried.{OnSource};
ghost use Rattle.transports.specs.Names.{IsNameTried, AreNamesTried, as_named};

use crate::attempt::{Attempt, AttemptCause};
use crate::found::{Found, FoundImage};
use crate::refusal::Refusal;
use crate::tried::try_each;
use image_ref::{ImageRef, Place};
use registries_conf::{Conf, SourcesFault};
use skopeo_outside::{Files, Lane, Many, Memory, Wire};
use std::alloc::Global;

/// The attempt at a name that is blocked.
fn blocked(alloc: Global, name: &ImageRef, number: u32) -> Result<Many<Attempt>, Memory>
    ensures is { IfOk result (λ a. a ≡ record { source = full name.now; cause = AttemptCause.Blocked number } ∷ []) }
{
    let source = name.write_text(alloc)?;
    let mut attempts = Many::new(alloc);
    attempts.push(Attempt {
        source,
        cause: AttemptCause::Blocked(number),
    })?;
    Ok(attempts)
}

/// Tries the sources of a name in order.
#[tactic(auto, using(crate::proofs::TriedLemmas::on_same, crate::proofs::SameLemmas::later_now, crate::proofs::NameLemmas::name_tried, crate::proofs::NameLemmas::name_blocked))]
fn try_name<W: Wire, F: Files>(
    alloc: Global,
    conf: &Conf,
    name: &ImageRef,
    tls: Option<bool>,
    lane: &mut Lane<W, F>,
) -> Result<Result<Found, Many<Attempt>>, Memory>
    ensures tried { IfOk result (λ x. IsNameTried tls conf.now name.now lane.old lane.new x) }
    ensures on { OnSource lane.old lane.new }
    ensures later { IsLater lane.old lane.new }
{
    match conf.sources(alloc, name) {
        Ok(sources) => try_each(alloc, sources.as_slice(), tls, lane),
        Err(SourcesFault::Blocked(number)) => match blocked(alloc, name, number) {
            Ok(attempts) => Ok(Err(attempts)),
            Err(wanted) => Err(wanted),
        },
        Err(SourcesFault::Memory) => Err(Memory),
    }
}

/// Failed attempts more.
fn add_all(attempts: &mut Vec<Attempt>, more: Many<Attempt>) -> Result<(), Memory>
    ensures added { OnOk result (attempts.new.items ≡ attempts.old.items ++ more) }
{
    let mut more = more.into_vec();
    attempts.append(&mut more)?;
    Ok(())
}

/// What was found, as the image of that name.
fn image_of(alloc: Global, name: &ImageRef, found: Found) -> Result<FoundImage, Memory>
    ensures is { IfOk result (λ it. it ≡ as_named name.now found) }
{
    let place = Place::Docker(name.copy(alloc)?);
    Ok(FoundImage { place, found })
}

/// Tries names in order, up to the first of which a source gives the manifest, or answers the failed attempts.
#[tactic(auto, using(crate::proofs::TriedLemmas::on_same, crate::proofs::TriedLemmas::on_then, crate::proofs::SameLemmas::later_now, skopeo_outside::specs::LaneLaws::later_then, crate::proofs::NameLemmas::no_name_failed))]
fn try_each_name<W: Wire, F: Files>(
    alloc: Global,
    conf: &Conf,
    names: &[ImageRef],
    tls: Option<bool>,
    lane: &mut Lane<W, F>,
) -> Result<Result<FoundImage, Many<Attempt>>, Memory>
    ensures tried { IfOk result (λ x. AreNamesTried tls conf.now names.now lane.old lane.new x) }
    ensures on { OnSource lane.old lane.new }
    ensures later { IsLater lane.old lane.new }
{
    let mut attempts = Vec::new(alloc);
    for name in names {
        match try_name(alloc, conf, name, tls, lane) {
            Err(wanted) => return Err(wanted),
            Ok(Ok(found)) => match image_of(alloc, name, found) {
                Err(wanted) => return Err(wanted),
                Ok(it) => return Ok(Ok(it)),
            },
            Ok(Err(more)) => {
                if add_all(&mut attempts, more).is_err() {
                    return Err(Memory);
                }
            }
        }
    }
    Ok(Err(Many::from_vec(attempts)))
}

/// Tries names in order; where all fail, the refusal lists the attempts.
#[tactic(auto, using(crate::proofs::NameLemmas::naming_memory, crate::proofs::RegistryLemmas::untouched_source))]
pub(crate) fn try_names<W: Wire, F: Files>(
    alloc: Global,
    conf: &Conf,
    names: &[ImageRef],
    tls: Option<bool>,
    lane: &mut Lane<W, F>,
) -> Result<FoundImage, Refusal>
    ensures ends { Ends lane_course (reading (trying_names tls conf.now names.now)) lane.old lane.new result }
    ensures untouched { IsUntouched lane.old lane.new }
    ensures spares { IfOk result (λ it. Spares it.found.from lane.old lane.new) }
{
    match try_each_name(alloc, conf, names, tls, lane) {
        Err(_) => Err(Refusal::Memory),
        Ok(Ok(it)) => Ok(it),
        Ok(Err(attempts)) => Err(Refusal::NoSource(attempts)),
    }
}
