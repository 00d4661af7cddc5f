// Workers that run at the same time.
ghost use Rattle.std.specs.Prelude.{◌≡◌, ◌<◌, All, length, vec_len};
ghost use Rattle.copy_workers.specs.Jobs.{AreJobs};
ghost use Rattle.copy_workers.specs.Teams.{IsReady, HasWorked, EachWorked};

use crate::lane::BlobLane;
use crate::worker::Worker;
use digest_reader::Job;
use location_cache::{Desk, Jobs};
use std::thread;
use std::thread::Threads;

fn run_one<L: BlobLane, J: Jobs>(desk: &Desk<J>, jobs: &[Job], worker: &mut Worker<L, J>)
    requires jobs { AreJobs jobs.now × (length jobs.now ≡ J.jobs) }
    requires ready { IsReady L.tells desk.now jobs.now worker.old }
    ensures { HasWorked L.tells desk.now jobs.now worker.old worker.new }
{
    worker.work(desk, jobs);
}

/// Runs each worker in a thread of its own.
pub(crate) fn run_all<R: Threads + Sync, L: BlobLane + Send, J: Jobs + Send + Sync>(
    rt: &R,
    desk: &Desk<J>,
    jobs: &[Job],
    workers: &mut Vec<Worker<L, J>>,
)
    requires some { 0 < vec_len workers.old }
    requires jobs { AreJobs jobs.now × (length jobs.now ≡ J.jobs) }
    requires ready { All (IsReady L.tells desk.now jobs.now) workers.old.items }
    ensures count { vec_len workers.new ≡ vec_len workers.old }
    ensures worked { EachWorked L.tells desk.now jobs.now workers.old.items workers.new.items }
{
    let threads = workers.len();
    thread::for_each_mut(
        rt,
        workers.as_mut_slice(),
        threads,
        &|_, worker: &mut Worker<L, J>|
            requires { AreJobs jobs.now × (length jobs.now ≡ J.jobs) × IsReady L.tells desk.now jobs.now worker.now }
            ensures { HasWorked L.tells desk.entry.now jobs.entry.now worker.entry.now worker.exit.now }
        { run_one(desk, jobs, worker) },
    );
}
