// An image that was admitted, at its destination.
ghost use Rattle.std.specs.Prelude.{◌≡◌, ◌<◌, None, OnOk, OnErr, IfOk};
ghost use Rattle.skopeo_outside.specs.Seen.{AreLanes, KeepsFrom, seen};
ghost use Rattle.skopeo_outside.specs.Steps.{Ends};
ghost use Rattle.transports.specs.Places.{AreApart, GoesTo};
ghost use Rattle.transports.specs.Courses.{call_course};
ghost use Rattle.copy_engine.specs.Placed.{LeavesPlaced, IsLost, IsPlaced};
ghost use Rattle.copy_engine.specs.Report.{copied_of};
ghost use Rattle.copy_engine.specs.Walk.{placing};

use crate::ready::make_ready;
use crate::report::{Account, account_of};
use crate::write::write_manifest;
use admission::{Admitted, Taken};
use skopeo_outside::{Files, Helper, Lane, Many, Wire};
use std::alloc::Global;
use std::thread::Threads;
use transports::{Copied, CopyPlan, Dest, Refusal, Source};

/// Puts an image that was admitted, from its source, at the plan's destination. What is told of it is made first, so that after
/// the manifest nothing wants memory.
#[tactic(auto, using(crate::proofs::SameLemmas::memory_at_once, crate::proofs::PlacedLemmas::placed_same, crate::proofs::PlacedLemmas::lost_same, skopeo_outside::proofs::PlaceLemmas::keeps_same))]
fn place_parts<R: Threads + Sync, W: Wire + Send, F: Files + Send, H: Helper>(
    rt: &R,
    alloc: Global,
    plan: &CopyPlan,
    from: Source,
    image: Admitted<F, H>,
    dest: Dest,
    lanes: &mut Vec<Lane<W, F>>,
) -> Result<Copied, Refusal>
    requires apart { AreApart from dest }
    requires dest { GoesTo plan.now.dest dest }
    requires count { 0 < plan.now.lanes }
    requires lanes { AreLanes lanes.old.items }
    ensures ends { Ends call_course (placing from dest image)
        (seen lanes.old.items None 0) (seen lanes.new.items None 0) result }
    ensures placed { OnOk result (IsPlaced from dest image lanes.old.items lanes.new.items) }
    ensures told { IfOk result (λ copied. copied ≡ copied_of image) }
    ensures leaves { LeavesPlaced dest image lanes.old.items lanes.new.items }
    ensures lost { OnErr result (IsLost dest lanes.old.items lanes.new.items) }
    ensures rest { KeepsFrom plan.now.lanes lanes.old.items lanes.new.items }
{
    let Account {
        mut rows,
        row,
        lines,
    } = account_of(alloc, &image)?;
    let ready = make_ready(rt, alloc, &from, dest, image, row, lanes, plan.lanes)?;
    let row = write_manifest(alloc, plan, ready, lanes)?;
    rows.push(row).unwrap();
    Ok(Copied {
        rows: Many::from_vec(rows),
        lines,
    })
}

/// Puts an image that was admitted at the plan's destination.
pub(crate) fn place_image<R: Threads + Sync, W: Wire + Send, F: Files + Send, H: Helper>(
    rt: &R,
    alloc: Global,
    plan: &CopyPlan,
    it: Taken<F, H>,
    dest: Dest,
    lanes: &mut Vec<Lane<W, F>>,
) -> Result<Copied, Refusal>
    requires apart { AreApart it.from dest }
    requires dest { GoesTo plan.now.dest dest }
    requires count { 0 < plan.now.lanes }
    requires lanes { AreLanes lanes.old.items }
    ensures ends { Ends call_course (placing it.from dest it.image)
        (seen lanes.old.items None 0) (seen lanes.new.items None 0) result }
    ensures placed { OnOk result (IsPlaced it.from dest it.image lanes.old.items lanes.new.items) }
    ensures told { IfOk result (λ copied. copied ≡ copied_of it.image) }
    ensures leaves { LeavesPlaced dest it.image lanes.old.items lanes.new.items }
    ensures lost { OnErr result (IsLost dest lanes.old.items lanes.new.items) }
    ensures rest { KeepsFrom plan.now.lanes lanes.old.items lanes.new.items }
{
    let Taken { from, image } = it;
    place_parts(rt, alloc, plan, from, image, dest, lanes)
}
