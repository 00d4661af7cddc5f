// An image that the policy admits.
ghost use Rattle.std.specs.Prelude.{◌≡◌, Ok, IfOk};
ghost use Rattle.json_tree.specs.Tree.{tree};
ghost use Rattle.skopeo_outside.specs.Steps.{Ends, Says};
ghost use Rattle.manifest_v2s2.specs.IsImage.{SaysImage};
ghost use Rattle.policy_scope.specs.Chosen.{chosen};
ghost use Rattle.policy_gate.specs.Gate.{AreHeld};
ghost use Rattle.policy_gate.specs.Calls.{Gained};
ghost use Rattle.transports.specs.Has.{IsUntouched};
ghost use Rattle.transports.specs.Given.{Spares};
ghost use Rattle.admission.specs.GateTold.{gate_course, told_at};
ghost use Rattle.admission.specs.Admission.{IsAdmitted, HasJobs};
ghost use Rattle.admission.specs.Judged.{case_in, judging, AsksOnly};
ghost use Rattle.admission.specs.Calls.{taken_at};

use crate::gate::{judge_image, refusal_of};
use crate::read::Submission;
use crate::take::Taken;
use digest_reader::Job;
use image_ref::Place;
use manifest_convert::blobs_of;
use manifest_v2s2::{Image, Kind};
use policy_file::Policy;
use skopeo_outside::{Files, Helper, Lane, Many, Wire};
use std::alloc::Global;
use std::marker::Model;
use std::snapshot::Snapshot;
use transports::{CopyPlan, Refusal};

/// An image that the policy admits as it is named: the bytes that were judged, and what they are. Only `admit` makes one.
#[derive(Drop)]
pub struct Admitted<F: Files, H: Helper> {
    manifest: Many<u8>,
    kind: Kind,
    jobs: Many<Job>,
    signatures: Many<Many<u8>>,
    image: Snapshot<Image>,
    policy: Snapshot<Policy>,
    place: Snapshot<Place>,
    plan: Snapshot<CopyPlan>,
    files: Snapshot<F>,
    before: Snapshot<H>,
    after: Snapshot<H>,
}

impl<F: Files, H: Helper> Model for Admitted<F, H> {
    ghost use Rattle.std.specs.Coded.{codes};
    ghost use Rattle.skopeo_outside.specs.Shelf.{tree_code};
    ghost use Rattle.admission.specs.Admission.{Admission, IsSound};

    ghost Value = { Admission };

    ghost coded = { Prim.hlevel (codes, tree_code) };

    ghost view = { λ a. record { policy = a.policy.value; place = a.place.value; manifest = a.manifest; kind = a.kind; image = a.image.value; jobs = a.jobs; signatures = a.signatures; program = a.plan.value.verifier; cwd = a.plan.value.cwd; files = F.tree a.files.value; before = H.runs a.before.value; after = H.runs a.after.value } };

    ghost invariant = { λ a. IsSound (record { policy = a.policy.value; place = a.place.value; manifest = a.manifest; kind = a.kind; image = a.image.value; jobs = a.jobs; signatures = a.signatures; program = a.plan.value.verifier; cwd = a.plan.value.cwd; files = F.tree a.files.value; before = H.runs a.before.value; after = H.runs a.after.value }) };
}

/// No image has more layers.
const MOST: usize = 4_294_967_278;

/// The image of which every requirement of its list holds, with its source.
#[tactic(auto, using(crate::proofs::AdmitLemmas::is_sound, crate::proofs::AdmitLemmas::takes, crate::proofs::AdmitLemmas::wants))]
fn take<F: Files, H: Helper>(
    alloc: Global,
    plan: &CopyPlan,
    policy: &Policy,
    submission: Submission,
    files: Snapshot<F>,
    before: Snapshot<H>,
    after: Snapshot<H>,
) -> Result<Taken<F, H>, Refusal>
    requires image { SaysImage submission.kind (tree submission.manifest) submission.image }
    requires held { Gained (H.runs before.value) (H.runs after.value)
        (AreHeld (case_in plan.now submission (F.tree files.value)) (chosen policy.now submission.place).list) }
    ensures says { let tree = F.tree files.value in
        Says gate_course (Ok (taken_at plan.now policy.now submission tree (H.runs before.value) (H.runs after.value))) result }
    ensures from { IfOk result (λ it. it.from ≡ submission.from) }
{
    let Submission {
        from,
        place,
        manifest,
        kind,
        image,
        signatures,
    } = submission;
    if image.layers.len() > MOST {
        return Err(Refusal::Memory);
    }
    let Ok(jobs) = blobs_of(alloc, &image) else {
        return Err(Refusal::Memory);
    };
    Ok(Taken {
        from,
        image: Admitted {
            manifest,
            kind,
            jobs,
            signatures,
            image: Snapshot::of(&image),
            policy: Snapshot::of(policy),
            place: Snapshot::of(&place),
            plan: Snapshot::of(plan),
            files,
            before,
            after,
        },
    })
}

/// Judges an image by the list that the policy has for it as it is named; signatures are asked of the plan's verifier.
#[tactic(auto, using(crate::proofs::AdmitLemmas::judged_refuses, crate::proofs::AdmitLemmas::judged_takes, crate::proofs::AdmitLemmas::spares_judged, transports::proofs::FolderLemmas::untouched_by))]
pub(crate) fn admit<W: Wire, F: Files, H: Helper>(
    alloc: Global,
    plan: &CopyPlan,
    policy: &Policy,
    submission: Submission,
    lane: &mut Lane<W, F>,
    helper: &mut H,
) -> Result<Taken<F, H>, Refusal>
    requires image { SaysImage submission.kind (tree submission.manifest) submission.image }
    ensures ends { Ends gate_course (judging plan.now policy.now submission)
        (told_at lane.old (H.runs helper.old) (H.faults helper.old))
        (told_at lane.new (H.runs helper.new) (H.faults helper.new)) result }
    ensures untouched { IsUntouched lane.old lane.new }
    ensures spares { Spares submission.from lane.old lane.new }
    ensures from { IfOk result (λ it. it.from ≡ submission.from) }
    ensures asks { AsksOnly plan.now (H.runs helper.old) (H.runs helper.new) }
{
    let files = Snapshot::of(&lane.files);
    let before = Snapshot::of(&*helper);
    let judged = judge_image(alloc, plan, policy, submission, &mut lane.files, helper);
    match judged {
        Err(fault) => return Err(refusal_of(fault, lane.files.faults(), helper.faults())),
        Ok(submission) => {
            let after = Snapshot::of(&*helper);
            take(alloc, plan, policy, submission, files, before, after)
        }
    }
}

impl<F: Files, H: Helper> Admitted<F, H> {
    /// The bytes of its manifest.
    pub fn manifest(&self) -> &[u8]
        ensures is { result.now ≡ self.now.manifest }
        ensures admitted { IsAdmitted self.now }
    {
        self.manifest.as_slice()
    }

    /// What its manifest is.
    pub fn kind(&self) -> Kind
        ensures is { result ≡ self.now.kind }
    {
        self.kind
    }

    /// Its blobs, a job each.
    pub fn jobs(&self) -> &[Job]
        ensures is { result.now ≡ self.now.jobs }
        ensures jobs { HasJobs self.now }
    {
        self.jobs.as_slice()
    }

    /// Its signatures.
    pub fn signatures(&self) -> &[Many<u8>]
        ensures is { result.now ≡ self.now.signatures }
    {
        self.signatures.as_slice()
    }
}
