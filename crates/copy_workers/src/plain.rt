// All jobs on one lane.
ghost use Rattle.std.specs.Prelude.{◌≡◌, ◌≤◌, [], take, length, vec_capacity};
ghost use Rattle.copy_workers.specs.Lanes.{IsUnused};
ghost use Rattle.copy_workers.specs.Kept.{KeepsAll};
ghost use Rattle.copy_workers.specs.Jobs.{AreJobs};
ghost use Rattle.copy_workers.specs.Plain.{HasDone};

use crate::finish::finish;
use crate::lane::BlobLane;
use crate::receipt::Outcome;
use digest_reader::Job;

/// Does the jobs in order, up to the first that fails.
pub(crate) fn run_plain<L: BlobLane>(jobs: &[Job], lane: &mut L, outcomes: &mut Vec<Outcome>)
    requires jobs { AreJobs jobs.now }
    requires unused { IsUnused L.tells jobs.now lane.old }
    requires empty { outcomes.old.items ≡ [] }
    requires room { length jobs.now ≤ vec_capacity outcomes.old }
    ensures done { HasDone L.tells jobs.now lane.new outcomes.new.items }
    ensures asked { KeepsAll L.tells (take (length outcomes.new.items) jobs.now) lane.old lane.new }
{
    for job in jobs {
        let end = finish(lane, job);
        let failed = end.is_err();
        outcomes
            .push(Outcome {
                job: job.number,
                lane: 0,
                end,
            })
            .unwrap();
        if failed {
            return;
        }
    }
}
