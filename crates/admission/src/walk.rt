// From the plan's source to the image that the policy admits.
ghost use Rattle.std.specs.Prelude.{IfOk};
ghost use Rattle.skopeo_outside.specs.Steps.{Ends};
ghost use Rattle.transports.specs.Given.{Spares};
ghost use Rattle.transports.specs.Has.{IsUntouched};
ghost use Rattle.admission.specs.GateTold.{gate_course, told_at};
ghost use Rattle.admission.specs.Judged.{AsksOnly};
ghost use Rattle.admission.specs.Walk.{admission};

use crate::admitted::admit;
use crate::read::read_source;
use crate::take::Taken;
use policy_file::Policy;
use registries_conf::Conf;
use skopeo_outside::{Files, Helper, Lane, Wire};
use std::alloc::Global;
use transports::{CopyPlan, Refusal};

/// Reads the plan's source, and judges the image as it is named.
#[tactic(auto, using(crate::proofs::WalkLemmas::read_goes, crate::proofs::WalkLemmas::read_stops, crate::proofs::GateLemmas::asks_none, transports::proofs::HasLemmas::untouched_then, transports::proofs::GivenLemmas::spares_then), unfolding(crate::specs::Walk::admission))]
pub fn admit_source<W: Wire, F: Files, H: Helper>(
    alloc: Global,
    plan: &CopyPlan,
    conf: &Conf,
    policy: &Policy,
    lane: &mut Lane<W, F>,
    helper: &mut H,
) -> Result<Taken<F, H>, Refusal>
    ensures ends { Ends gate_course (admission plan.now conf.now policy.now)
        (told_at lane.old (H.runs helper.old) (H.faults helper.old))
        (told_at lane.new (H.runs helper.new) (H.faults helper.new)) result }
    ensures untouched { IsUntouched lane.old lane.new }
    ensures spares { IfOk result (λ it. Spares it.from lane.old lane.new) }
    ensures asks { AsksOnly plan.now (H.runs helper.old) (H.runs helper.new) }
{
    let submission = read_source(alloc, plan, conf, lane)?;
    admit(alloc, plan, policy, submission, lane, helper)
}
