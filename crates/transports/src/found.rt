// The source that answers for a plan's source.
ghost use Rattle.std.specs.Prelude.{◌≡◌, Ok, Err, None, IfOk};
ghost use Rattle.skopeo_outside.specs.Steps.{Ends, Says};
ghost use Rattle.registries_conf.specs.SourcesOf.{sources_of};
ghost use Rattle.transports.specs.Courses.{lane_course};
ghost use Rattle.transports.specs.Given.{Spares};
ghost use Rattle.transports.specs.Has.{IsUntouched};
ghost use Rattle.registries_conf.specs.Expand.{expand};
ghost use Rattle.transports.specs.Found.{found, found_for, found_as, found_short, in_folder, at_names, at_registries, by_expansion, by_sources};

use crate::folder_source;
use crate::names::try_names;
use crate::plan::CopyPlan;
use crate::refusal::{Part, Refusal};
use crate::source::Source;
use crate::tried::try_sources;
use image_ref::{ImageRef, Place};
use layouts::DirImage;
use registries_conf::{Conf, ShortFault, SourcesFault};
use skopeo_outside::{Fetched, Files, Lane, Many, Memory, Text, Wire};
use std::alloc::Global;

/// The source that answered, and the image's manifest.
#[derive(Drop)]
pub struct Found {
    pub from: Source,
    pub fetched: Fetched,
}

/// What was found, and the image as it is named: the plan's source, or the name whose source answered.
#[derive(Drop)]
pub struct FoundImage {
    pub place: Place,
    pub found: Found,
}

/// Both together.
#[tactic(auto, unfolding(skopeo_outside::specs::Steps::Says))]
fn found_of(from: Source, fetched: Fetched) -> Result<Found, Refusal>
    ensures says { Says lane_course (Ok (record { from = from; fetched = fetched })) result }
    ensures from { IfOk result (λ it. it.from ≡ from) }
{
    Ok(Found { from, fetched })
}

/// A folder, and the image's manifest in it.
#[tactic(auto, using(skopeo_outside::proofs::StepLemmas::given_ends, skopeo_outside::proofs::StepLemmas::then_ends, skopeo_outside::proofs::StepLemmas::then_stops), unfolding(crate::specs::Found::in_folder))]
fn find_in_folder<W: Wire, F: Files>(
    alloc: Global,
    folder: DirImage,
    lane: &mut Lane<W, F>,
) -> Result<Found, Refusal>
    ensures ends { Ends lane_course (in_folder folder) lane.old lane.new result }
    ensures untouched { IsUntouched lane.old lane.new }
    ensures spares { IfOk result (λ it. Spares it.from lane.old lane.new) }
{
    let fetched = folder_source::read_manifest(alloc, lane, &folder, None)?;
    found_of(Source::Folder(folder), fetched)
}

/// The sources of a reference by the configuration.
#[tactic(auto, unfolding(skopeo_outside::specs::Steps::Says, crate::specs::Courses::lane_course))]
fn sources_for(
    alloc: Global,
    conf: &Conf,
    reference: &ImageRef,
) -> Result<Many<registries_conf::Source>, Refusal>
    ensures says { Says lane_course (by_sources (sources_of conf.now reference.now)) result }
{
    match conf.sources(alloc, reference) {
        Ok(sources) => Ok(sources),
        Err(SourcesFault::Blocked(number)) => Err(Refusal::Blocked(number)),
        Err(SourcesFault::Memory) => Err(Refusal::Memory),
    }
}

/// The first source of a reference that answers, in the order of the configuration.
#[tactic(auto, using(skopeo_outside::proofs::StepLemmas::given_goes, skopeo_outside::proofs::StepLemmas::given_stops, crate::proofs::SameLemmas::untouched_same), unfolding(crate::specs::Found::at_registries))]
fn find_at_registries<W: Wire, F: Files>(
    alloc: Global,
    conf: &Conf,
    reference: &ImageRef,
    tls: Option<bool>,
    lane: &mut Lane<W, F>,
) -> Result<Found, Refusal>
    ensures ends { Ends lane_course (at_registries tls conf.now reference.now) lane.old lane.new result }
    ensures untouched { IsUntouched lane.old lane.new }
    ensures spares { IfOk result (λ it. Spares it.from lane.old lane.new) }
{
    let sources = sources_for(alloc, conf, reference)?;
    try_sources(alloc, sources.as_slice(), tls, lane)
}

/// The source that answers for a place, and the image's manifest there.
#[tactic(auto, using(crate::proofs::FoundLemmas::found_folder, crate::proofs::FoundLemmas::found_registry, crate::proofs::FoundLemmas::found_layout, crate::proofs::SameLemmas::untouched_same, crate::proofs::SameLemmas::ends_at_once))]
fn find_for<W: Wire, F: Files>(
    alloc: Global,
    place: &Place,
    conf: &Conf,
    tls: Option<bool>,
    lane: &mut Lane<W, F>,
) -> Result<Found, Refusal>
    ensures ends { Ends lane_course (found_for tls conf.now place.now) lane.old lane.new result }
    ensures untouched { IsUntouched lane.old lane.new }
    ensures spares { IfOk result (λ it. Spares it.from lane.old lane.new) }
{
    match place {
        Place::Dir(_) => {
            let folder = DirImage::open(alloc, place)?;
            find_in_folder(alloc, folder, lane)
        }
        Place::Docker(reference) => find_at_registries(alloc, conf, reference, tls, lane),
        Place::Oci(_, _) => Err(Refusal::NotBuilt(Part::Place)),
    }
}

/// What was found for a place.
#[tactic(auto, unfolding(skopeo_outside::specs::Steps::Says, crate::specs::Courses::lane_course))]
fn image_at(alloc: Global, place: &Place, found: Found) -> Result<FoundImage, Refusal>
    ensures says { Says lane_course (Ok (record { place = place.now; found = found })) result }
    ensures from { IfOk result (λ it. it.found.from ≡ found.from) }
{
    match place.copy(alloc) {
        Ok(place) => Ok(FoundImage { place, found }),
        Err(_) => Err(Refusal::Memory),
    }
}

/// The source that answers for a place, as which the image is found.
#[tactic(auto, using(skopeo_outside::proofs::StepLemmas::given_ends, skopeo_outside::proofs::StepLemmas::then_ends, skopeo_outside::proofs::StepLemmas::then_stops), unfolding(crate::specs::Found::found_as))]
fn find_as<W: Wire, F: Files>(
    alloc: Global,
    place: &Place,
    conf: &Conf,
    tls: Option<bool>,
    lane: &mut Lane<W, F>,
) -> Result<FoundImage, Refusal>
    ensures ends { Ends lane_course (found_as tls conf.now place.now) lane.old lane.new result }
    ensures untouched { IsUntouched lane.old lane.new }
    ensures spares { IfOk result (λ it. Spares it.found.from lane.old lane.new) }
{
    let found = find_for(alloc, place, conf, tls, lane)?;
    image_at(alloc, place, found)
}

/// The names that a short name stands for.
#[tactic(auto, unfolding(skopeo_outside::specs::Steps::Says, crate::specs::Courses::lane_course))]
fn names_for(alloc: Global, conf: &Conf, text: &str) -> Result<Many<ImageRef>, Refusal>
    ensures says { Says lane_course (by_expansion text.now (expand conf.now text.now)) result }
{
    match conf.resolve_short(alloc, text) {
        Ok(names) => Ok(names),
        Err(ShortFault::Ambiguous(count)) => short_refused(alloc, text, count),
        Err(ShortFault::NoRegistry) => short_refused(alloc, text, 0),
        Err(ShortFault::Ref(joined, fault)) => Err(Refusal::BadReference(joined, fault)),
        Err(ShortFault::Memory) => Err(Refusal::Memory),
    }
}

/// The refusal of a short name.
#[tactic(auto, unfolding(skopeo_outside::specs::Steps::Says, crate::specs::Courses::lane_course))]
fn short_refused(alloc: Global, text: &str, count: u32) -> Result<Many<ImageRef>, Refusal>
    ensures says { Says lane_course (Err (Refusal.ShortName text.now count)) result }
{
    match Text::copy_of(alloc, text) {
        Ok(text) => Err(Refusal::ShortName(text, count)),
        Err(_) => Err(Refusal::Memory),
    }
}

/// The place of a name.
fn place_of(alloc: Global, name: &ImageRef) -> Result<Place, Memory>
    ensures is { IfOk result (λ place. place ≡ Place.Docker name.now) }
{
    Ok(Place::Docker(name.copy(alloc)?))
}

/// The source that answers for one name, as if that were given whole.
#[tactic(auto, using(crate::proofs::SameLemmas::ends_at_once, crate::proofs::SameLemmas::untouched_same))]
fn find_one<W: Wire, F: Files>(
    alloc: Global,
    name: &ImageRef,
    conf: &Conf,
    tls: Option<bool>,
    lane: &mut Lane<W, F>,
) -> Result<FoundImage, Refusal>
    ensures ends { Ends lane_course (found_as tls conf.now (Place.Docker name.now)) lane.old lane.new result }
    ensures untouched { IsUntouched lane.old lane.new }
    ensures spares { IfOk result (λ it. Spares it.found.from lane.old lane.new) }
{
    let place = place_of(alloc, name)?;
    find_as(alloc, &place, conf, tls, lane)
}

/// The source that answers for a name among those that a short name stands for.
#[tactic(auto, unfolding(crate::specs::Found::at_names))]
fn find_at_names<W: Wire, F: Files>(
    alloc: Global,
    names: &[ImageRef],
    conf: &Conf,
    tls: Option<bool>,
    lane: &mut Lane<W, F>,
) -> Result<FoundImage, Refusal>
    ensures ends { Ends lane_course (at_names tls conf.now names.now) lane.old lane.new result }
    ensures untouched { IsUntouched lane.old lane.new }
    ensures spares { IfOk result (λ it. Spares it.found.from lane.old lane.new) }
{
    match names {
        [] => try_names(alloc, conf, names, tls, lane),
        [one] => find_one(alloc, one, conf, tls, lane),
        _ => try_names(alloc, conf, names, tls, lane),
    }
}

/// The source that answers for a short name.
#[tactic(auto, using(skopeo_outside::proofs::StepLemmas::given_goes, skopeo_outside::proofs::StepLemmas::given_stops, crate::proofs::SameLemmas::untouched_same), unfolding(crate::specs::Found::found_short))]
fn find_short<W: Wire, F: Files>(
    alloc: Global,
    text: &str,
    conf: &Conf,
    tls: Option<bool>,
    lane: &mut Lane<W, F>,
) -> Result<FoundImage, Refusal>
    ensures ends { Ends lane_course (found_short tls conf.now text.now) lane.old lane.new result }
    ensures untouched { IsUntouched lane.old lane.new }
    ensures spares { IfOk result (λ it. Spares it.found.from lane.old lane.new) }
{
    let names = names_for(alloc, conf, text)?;
    find_at_names(alloc, names.as_slice(), conf, tls, lane)
}

/// The source that answers for the plan's source, the image's manifest there, and the image as it is named.
#[tactic(auto, using(crate::proofs::FoundLemmas::found_place, crate::proofs::FoundLemmas::found_by_short))]
pub fn find_source<W: Wire, F: Files>(
    alloc: Global,
    plan: &CopyPlan,
    conf: &Conf,
    lane: &mut Lane<W, F>,
) -> Result<FoundImage, Refusal>
    ensures ends { Ends lane_course (found plan.now conf.now) lane.old lane.new result }
    ensures untouched { IsUntouched lane.old lane.new }
    ensures spares { IfOk result (λ it. Spares it.found.from lane.old lane.new) }
{
    match &plan.short {
        None => find_as(alloc, &plan.source, conf, plan.src_tls, lane),
        Some(text) => find_short(alloc, text.as_str(), conf, plan.src_tls, lane),
    }
}
