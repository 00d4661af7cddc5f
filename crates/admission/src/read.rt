// What is put to the gate of a plan's image.
ghost use Rattle.std.specs.Prelude.{◌≡◌, None, Ok, IfOk};
ghost use Rattle.json_tree.specs.Tree.{tree};
ghost use Rattle.skopeo_outside.specs.Steps.{Ends, Says};
ghost use Rattle.manifest_v2s2.specs.IsImage.{SaysImage};
ghost use Rattle.transports.specs.Courses.{lane_course};
ghost use Rattle.transports.specs.StepEnds.{reading};
ghost use Rattle.transports.specs.Stores.{store_of};
ghost use Rattle.transports.specs.Given.{Spares, SignaturesEnd};
ghost use Rattle.transports.specs.Has.{IsUntouched};
ghost use Rattle.admission.specs.Walk.{submission};

use crate::parts::{read_parts, require_kind};
use image_ref::Place;
use manifest_v2s2::{Image, Kind};
use registries_conf::Conf;
use skopeo_outside::{Fetched, Files, Lane, Many, Wire};
use std::alloc::Global;
use std::marker::Model;
use transports::{CopyPlan, Found, FoundImage, Refusal, Source, find_source, store_of};

/// What is put to the gate: the source that answered, the image as it is named, its manifest, what that is, and its
/// signatures.
#[derive(Drop)]
pub(crate) struct Submission {
    pub(crate) from: Source,
    pub(crate) place: Place,
    pub(crate) manifest: Many<u8>,
    pub(crate) kind: Kind,
    pub(crate) image: Image,
    pub(crate) signatures: Many<Many<u8>>,
}

impl Model for Submission {
    ghost use Rattle.admission.specs.Judged as judged;

    ghost Value = { judged.Submission };

    ghost view = { λ s. record { from = s.from; place = s.place; manifest = s.manifest; kind = s.kind; image = s.image; signatures = s.signatures } };
}

/// What is put to the gate, together.
#[tactic(auto, unfolding(skopeo_outside::specs::Steps::Says))]
fn submitted(
    from: Source,
    place: Place,
    fetched: Fetched,
    kind: Kind,
    image: Image,
    signatures: Many<Many<u8>>,
) -> Result<Submission, Refusal>
    requires image { SaysImage kind (tree fetched.bytes) image }
    ensures says { Says lane_course (Ok (record { from = from; place = place; manifest = fetched.bytes; kind = kind; image = image; signatures = signatures })) result }
    ensures from { IfOk result (λ s. s.from ≡ from) }
    ensures image { IfOk result (λ s. SaysImage s.kind (tree s.manifest) s.image) }
{
    Ok(Submission {
        from,
        place,
        manifest: fetched.bytes,
        kind,
        image,
        signatures,
    })
}

/// The signatures of the image at a place, as it is named, whose manifest was fetched from its source.
#[tactic(auto, using(transports::proofs::SameLemmas::ends_at_once, transports::proofs::SameLemmas::untouched_same, transports::proofs::SameLemmas::spares_same))]
fn signatures_of<W: Wire, F: Files>(
    alloc: Global,
    plan: &CopyPlan,
    place: &Place,
    from: &Source,
    fetched: &Fetched,
    lane: &mut Lane<W, F>,
) -> Result<Many<Many<u8>>, Refusal>
    ensures ends { let store = store_of plan.now place.now fetched.now.bytes in
        Ends lane_course (reading (SignaturesEnd from.now store None)) lane.old lane.new result }
    ensures untouched { IsUntouched lane.old lane.new }
    ensures spares { Spares from.now lane.old lane.new }
{
    let store = store_of(alloc, plan, place, fetched.bytes.as_slice())?;
    from.read_signatures(alloc, lane, &store, None)
}

/// Reads the plan's source: the image's manifest, and its signatures.
#[tactic(auto, using(skopeo_outside::proofs::StepLemmas::given_goes, skopeo_outside::proofs::StepLemmas::given_stops, skopeo_outside::proofs::StepLemmas::given_ends, skopeo_outside::proofs::StepLemmas::then_ends, skopeo_outside::proofs::StepLemmas::then_stops, transports::proofs::HasLemmas::untouched_then, transports::proofs::GivenLemmas::spares_then), unfolding(crate::specs::Walk::submission))]
pub(crate) fn read_source<W: Wire, F: Files>(
    alloc: Global,
    plan: &CopyPlan,
    conf: &Conf,
    lane: &mut Lane<W, F>,
) -> Result<Submission, Refusal>
    ensures ends { Ends lane_course (submission plan.now conf.now) lane.old lane.new result }
    ensures untouched { IsUntouched lane.old lane.new }
    ensures spares { IfOk result (λ s. Spares s.from lane.old lane.new) }
    ensures image { IfOk result (λ s. SaysImage s.kind (tree s.manifest) s.image) }
{
    let FoundImage { place, found } = find_source(alloc, plan, conf, lane)?;
    let Found { from, fetched } = found;
    let kind = require_kind(alloc, &fetched)?;
    let image = read_parts(alloc, kind, &fetched)?;
    let signatures = signatures_of(alloc, plan, &place, &from, &fetched, lane)?;
    submitted(from, place, fetched, kind, image, signatures)
}
