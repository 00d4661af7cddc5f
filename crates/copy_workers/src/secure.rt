// All jobs, on all lanes.
ghost use Rattle.std.specs.Prelude.{◌≡◌, ◌-◌, ◌^◌, ◌<◌, ◌≤◌, All, IfOk, IfErr, OnErr, MatchResult, length, vec_len, vec_capacity};
ghost use Rattle.copy_workers.specs.Kept.{EachKeeps};
ghost use Rattle.copy_workers.specs.Jobs.{AreJobs};
ghost use Rattle.copy_workers.specs.Teams.{HasRoom, AreUnused};
ghost use Rattle.copy_workers.specs.Secured.{AreNames, AreLanes, AreSecured, IsLeastFault, IsJobFault, OnlyAsked};

use crate::cause::Cause;
use crate::conclude::conclude;
use crate::gather::gather;
use crate::lane::BlobLane;
use crate::plain::run_plain;
use crate::receipt::{Done, JobFault, Outcome, Receipt};
use crate::settle::settle;
use crate::staff::staff;
use crate::team::run_all;
use digest_reader::Job;
use location_cache::{Cache, Desk, Jobs};
use skopeo_outside::{Many, Memory};
use std::alloc::Global;
use std::marker::Brand;
use std::thread::Threads;

/// The most lanes that run at the same time.
const MOST_LANES: usize = 16;

/// A list with room for an outcome of each job, for each lane.
fn make_lists(alloc: Global, jobs: usize, lanes: usize) -> Result<Vec<Vec<Outcome>>, Memory>
    ensures { IfOk result (λ lists. (vec_len lists ≡ lanes) × All (HasRoom jobs) lists.items) }
{
    let mut lists = Vec::with_capacity(alloc, lanes)?;
    for _ in 0..lanes {
        lists.push(Vec::with_capacity(alloc, jobs)?)?;
    }
    Ok(lists)
}

/// Runs the jobs at a desk. Its error is want of memory before any lane was used.
fn run_at_desk<R: Threads + Sync, L: BlobLane + Send, J: Jobs + Send + Sync>(
    rt: &R,
    alloc: Global,
    jobs: &[Job],
    lanes: &mut Vec<L>,
) -> Result<Result<Vec<Receipt>, JobFault>, Memory>
    requires named { length jobs.now ≡ J.jobs }
    requires jobs { AreJobs jobs.now × (length jobs.now < 2 ^ 32 - 16) }
    requires lanes { (0 < vec_len lanes.old) × (vec_len lanes.old ≤ 16) }
    requires unused { AreUnused L.tells jobs.now lanes.old.items }
    ensures count { vec_len lanes.new ≡ vec_len lanes.old }
    ensures outcome { IfOk result (λ end. MatchResult end
        (λ receipts. AreSecured L.tells jobs.now lanes.new.items receipts.items)
        (IsLeastFault L.tells jobs.now lanes.new.items)) }
    ensures untouched { OnErr result (lanes.new.items ≡ lanes.old.items) }
    ensures kept { EachKeeps L.tells jobs.now lanes.old.items lanes.new.items }
{
    let mut lists = make_lists(alloc, jobs.len(), lanes.len())?;
    let mut outcomes = Vec::with_capacity(alloc, MOST_LANES * jobs.len())?;
    let receipts = Vec::with_capacity(alloc, jobs.len())?;
    let (desk, seat) = Desk::<J>::new(alloc, jobs.len() as u32)?;
    let mut workers = Vec::with_capacity(alloc, lanes.len())?;
    staff(&desk, seat, jobs, lanes, &mut lists, &mut workers);
    run_all(rt, &desk, jobs, &mut workers);
    gather(desk, workers, jobs, lanes, &mut outcomes);
    Ok(settle(outcomes, receipts))
}

/// Runs the jobs on a lane that works alone. Its error is want of memory before the lane was used.
fn run_alone<L: BlobLane>(
    alloc: Global,
    jobs: &[Job],
    lanes: &mut Vec<L>,
) -> Result<Result<Vec<Receipt>, JobFault>, Memory>
    requires jobs { AreJobs jobs.now }
    requires one { length lanes.old.items ≡ 1 }
    requires unused { AreUnused L.tells jobs.now lanes.old.items }
    ensures count { length lanes.new.items ≡ 1 }
    ensures outcome { IfOk result (λ end. MatchResult end
        (λ receipts. AreSecured L.tells jobs.now lanes.new.items receipts.items)
        (λ fault. IsLeastFault L.tells jobs.now lanes.new.items fault
        × OnlyAsked L.tells jobs.now fault.job lanes.old.items lanes.new.items)) }
    ensures untouched { OnErr result (lanes.new.items ≡ lanes.old.items) }
    ensures kept { EachKeeps L.tells jobs.now lanes.old.items lanes.new.items }
{
    let mut outcomes = Vec::with_capacity(alloc, jobs.len())?;
    let receipts = Vec::with_capacity(alloc, jobs.len())?;
    let Some(mut lane) = lanes.pop() else {
        unreachable!()
    };
    run_plain(jobs, &mut lane, &mut outcomes);
    lanes.push(lane).unwrap();
    Ok(conclude(outcomes, receipts))
}

/// Runs the jobs: on one lane without a desk. Its error is want of memory before any lane was used.
fn run_jobs<R: Threads + Sync, L: BlobLane + Send>(
    rt: &R,
    alloc: Global,
    jobs: &[Job],
    lanes: &mut Vec<L>,
) -> Result<Result<Vec<Receipt>, JobFault>, Memory>
    requires jobs { AreJobs jobs.now × (length jobs.now < 2 ^ 32 - 16) }
    requires lanes { (0 < vec_len lanes.old) × (vec_len lanes.old ≤ 16) }
    requires unused { AreUnused L.tells jobs.now lanes.old.items }
    ensures count { vec_len lanes.new ≡ vec_len lanes.old }
    ensures outcome { IfOk result (λ end. MatchResult end
        (λ receipts. AreSecured L.tells jobs.now lanes.new.items receipts.items)
        (λ fault. IsLeastFault L.tells jobs.now lanes.new.items fault
        × (vec_len lanes.old ≡ 1 → OnlyAsked L.tells jobs.now fault.job lanes.old.items lanes.new.items))) }
    ensures untouched { OnErr result (lanes.new.items ≡ lanes.old.items) }
    ensures kept { EachKeeps L.tells jobs.now lanes.old.items lanes.new.items }
{
    if lanes.len() == 1 {
        return run_alone(alloc, jobs, lanes);
    }
    run_at_desk::<R, L, Brand>(rt, alloc, jobs, lanes)
}

/// Does all jobs on 1 to 16 lanes, which run at the same time: a receipt for each job in their order exactly where no job
/// failed, else the least job that failed. A fault of job 0 is want of memory before any lane was used. On one lane no job
/// after the first that failed is asked for. The cache is lent to the lanes and comes back.
pub fn secure_all<R: Threads + Sync, L: BlobLane + Send>(
    rt: &R,
    alloc: Global,
    jobs: &[Job],
    lanes: &mut Vec<L>,
    cache: Cache,
) -> Done
    requires jobs { AreJobs jobs.now × (length jobs.now < 2 ^ 32 - 16) }
    requires count { (0 < vec_len lanes.old) × (vec_len lanes.old ≤ 16) }
    requires lanes { AreLanes L.tells jobs.now lanes.old.items }
    requires names { AreNames cache }
    ensures count { vec_len lanes.new ≡ vec_len lanes.old }
    ensures secured { IfOk result.outcome (λ receipts. AreSecured L.tells jobs.now lanes.new.items receipts) }
    ensures fault { IfErr result.outcome (IsJobFault L.tells jobs.now lanes.old.items lanes.new.items) }
    ensures asked { vec_len lanes.old ≡ 1 → IfErr result.outcome (λ fault.
        OnlyAsked L.tells jobs.now fault.job lanes.old.items lanes.new.items) }
    ensures kept { EachKeeps L.tells jobs.now lanes.old.items lanes.new.items }
    ensures cache { result.cache ≡ cache }
{
    let outcome = match run_jobs(rt, alloc, jobs, lanes) {
        Ok(Ok(receipts)) => Ok(Many::from_vec(receipts)),
        Ok(Err(fault)) => Err(fault),
        Err(Memory) => Err(JobFault {
            job: 0,
            cause: Cause::Memory,
        }),
    };
    Done { outcome, cache }
}
