// The gate over what was read of an image.
ghost use Rattle.std.specs.Prelude.{◌≡◌, ◌-◌, ◌^◌, ◌<◌, IfOk, length, option_map};
ghost use Rattle.policy_scope.specs.Chosen.{chosen};
ghost use Rattle.policy_gate.specs.Gate.{Ends as GateEnds};
ghost use Rattle.policy_gate.specs.Calls.{Gained, GateCause};
ghost use Rattle.policy_gate.specs.Admission.{done};
ghost use Rattle.admission.specs.Judged as judged;
ghost use Rattle.admission.specs.Judged.{case_in, AsksOnly};
ghost use Rattle.admission.specs.Calls.{case_at};

use crate::read::Submission;
use image_ref::Place;
use policy_file::Policy;
use policy_gate::{GateFault, admit};
use policy_scope::{Chosen, Identity, choose};
use skopeo_outside::{Files, Helper, Many};
use std::alloc::Global;
use transports::{CopyPlan, Refusal};

/// No list has more requirements.
const MOST: usize = 4_294_967_279;

/// The refusal that a fault of the gate is, with the counts of the files' and the helper's faults.
pub(crate) fn refusal_of(fault: GateFault, files: u64, helper: u64) -> Refusal
    ensures is { result ≡ judged.refusal_of files helper fault }
{
    match fault {
        GateFault::Rejected { scope, place, why } => Refusal::Rejected(scope, place, why),
        GateFault::Garbled(status, front) => Refusal::Garbled(status, front),
        GateFault::TooLarge(what, length) => Refusal::TooLarge(what, length),
        GateFault::Files => Refusal::Files(files),
        GateFault::Helper => Refusal::Helper(helper),
        GateFault::Memory => Refusal::Memory,
    }
}

/// The program that judges signatures.
fn verifier_of(plan: &CopyPlan) -> Option<&str>
    ensures is { option_map (λ p. p.now) result ≡ plan.now.verifier }
{
    match &plan.verifier {
        Some(program) => Some(program.as_str()),
        None => None,
    }
}

/// Judges a manifest by a list, with its signatures.
#[tactic(auto, using(crate::proofs::GateLemmas::put_ends, crate::proofs::GateLemmas::cause_ok, crate::proofs::GateLemmas::cause_err))]
fn judge_by<'a, F: Files, H: Helper>(
    alloc: Global,
    plan: &'a CopyPlan,
    chosen: &Chosen<'a>,
    identity: &'a Identity,
    manifest: Many<u8>,
    signatures: &'a [Many<u8>],
    files: &mut F,
    helper: &mut H,
) -> Result<Many<u8>, GateFault>
    requires few { length chosen.now.list.now < 2 ^ 32 - 16 }
    ensures ends { let scope = option_map (λ s. s.now) chosen.now.scope in Gained (H.runs helper.old) (H.runs helper.new)
        (GateEnds (case_at plan.now identity.now manifest signatures.now (F.tree files.old)) scope chosen.now.list.now (done result)) }
    ensures kept { IfOk result (λ bytes. bytes ≡ manifest) }
    ensures asks { AsksOnly plan.now (H.runs helper.old) (H.runs helper.new) }
    ensures same { F.tree files.new ≡ F.tree files.old }
    ensures cause { GateCause (F.faults files.old) (F.faults files.new) (H.faults helper.old) (H.faults helper.new) result }
{
    match admit(
        alloc,
        chosen,
        identity,
        manifest,
        signatures,
        files,
        plan.cwd.as_str(),
        helper,
        verifier_of(plan),
    ) {
        Err(fault) => Err(fault),
        Ok(admitted) => Ok(admitted.into_bytes()),
    }
}

/// Judges a manifest by the list that the policy has for its image as it is named, with its signatures.
#[tactic(auto, using(crate::proofs::GateLemmas::wants_at_once, crate::proofs::GateLemmas::asks_none, crate::proofs::GateLemmas::cause_same))]
fn judge_named<F: Files, H: Helper>(
    alloc: Global,
    plan: &CopyPlan,
    policy: &Policy,
    place: &Place,
    manifest: Many<u8>,
    signatures: &[Many<u8>],
    files: &mut F,
    helper: &mut H,
) -> Result<Many<u8>, GateFault>
    ensures ends { let choice = chosen policy.now place.now in Gained (H.runs helper.old) (H.runs helper.new)
        (GateEnds (case_at plan.now place.now manifest signatures.now (F.tree files.old)) choice.scope choice.list (done result)) }
    ensures kept { IfOk result (λ bytes. bytes ≡ manifest) }
    ensures asks { AsksOnly plan.now (H.runs helper.old) (H.runs helper.new) }
    ensures same { F.tree files.new ≡ F.tree files.old }
    ensures cause { GateCause (F.faults files.old) (F.faults files.new) (H.faults helper.old) (H.faults helper.new) result }
{
    let identity = Identity::of(alloc, place)?;
    let chosen = choose(policy, &identity);
    if chosen.list.len() > MOST {
        return Err(GateFault::Memory);
    }
    judge_by(
        alloc, plan, &chosen, &identity, manifest, signatures, files, helper,
    )
}

/// Judges an image by the list that the policy has for it as it is named.
#[tactic(auto, using(crate::proofs::GateLemmas::cause_ok, crate::proofs::GateLemmas::cause_err))]
pub(crate) fn judge_image<F: Files, H: Helper>(
    alloc: Global,
    plan: &CopyPlan,
    policy: &Policy,
    submission: Submission,
    files: &mut F,
    helper: &mut H,
) -> Result<Submission, GateFault>
    ensures ends { let choice = chosen policy.now submission.place in Gained (H.runs helper.old) (H.runs helper.new)
        (GateEnds (case_in plan.now submission (F.tree files.old)) choice.scope choice.list (done result)) }
    ensures kept { IfOk result (λ s. s ≡ submission) }
    ensures asks { AsksOnly plan.now (H.runs helper.old) (H.runs helper.new) }
    ensures same { F.tree files.new ≡ F.tree files.old }
    ensures cause { GateCause (F.faults files.old) (F.faults files.new) (H.faults helper.old) (H.faults helper.new) result }
{
    let Submission {
        from,
        place,
        manifest,
        kind,
        image,
        signatures,
    } = submission;
    match judge_named(
        alloc,
        plan,
        policy,
        &place,
        manifest,
        signatures.as_slice(),
        files,
        helper,
    ) {
        Err(fault) => Err(fault),
        Ok(manifest) => Ok(Submission {
            from,
            place,
            manifest,
            kind,
            image,
            signatures,
        }),
    }
}
