// The jobs of an image on the first lanes.
ghost use Rattle.std.specs.Prelude.{◌≡◌, ◌<◌, ◌≤◌, ◌-◌, ◌^◌, [], OnOk, IfOk, length, vec_capacity};
ghost use Rattle.skopeo_outside.specs.Seen.{OnEach, KeepsFrom};
ghost use Rattle.copy_workers.specs.Jobs.{AreJobs};
ghost use Rattle.copy_workers.specs.Secured.{AreNames};
ghost use Rattle.transports.specs.Places.{AreApart};
ghost use Rattle.transports.specs.Fair.{AllWork};
ghost use Rattle.transports.specs.Named.{AddsOnly, IsOfJobs};
ghost use Rattle.transports.specs.Refusals.{by_cause};
ghost use Rattle.copy_jobs.specs.Lent.{HasRun};
ghost use Rattle.copy_jobs.specs.Secured.{JobsEnd, AreReceipts};

use crate::lane::EngineLane;
use crate::lend::{give_back, lend};
use copy_workers::{Cause, Done, JobFault, Receipt, secure_all};
use digest_reader::Job;
use location_cache::Cache;
use skopeo_outside::{Files, Lane, Many, Memory, Wire};
use std::alloc::Global;
use std::thread::Threads;
use transports::{Dest, Refusal, Source};

/// A cache without rows.
fn empty_cache(alloc: Global) -> Result<Cache, Memory>
    ensures names { IfOk result AreNames }
{
    Cache::new(alloc, Many::new(alloc))
}

/// Room for so many.
fn room_for<L>(alloc: Global, count: usize) -> Result<Vec<L>, Memory>
    ensures empty { IfOk result (λ list. list.items ≡ []) }
    ensures room { IfOk result (λ list. count ≤ vec_capacity list) }
{
    Ok(Vec::with_capacity(alloc, count)?)
}

/// The refusal that the fault of a job is.
fn refusal_of(fault: JobFault) -> Refusal
    ensures is { result ≡ by_cause fault.job fault.cause }
{
    let JobFault { job, cause } = fault;
    match cause {
        Cause::Memory => Refusal::Memory,
        _ => Refusal::Job(job, cause),
    }
}

/// Does the jobs on so many first lanes, which are lent in the list.
fn run_lent<'a, R: Threads + Sync, W: Wire + Send, F: Files + Send>(
    rt: &R,
    alloc: Global,
    source: &'a Source,
    dest: &'a Dest,
    jobs: &[Job],
    lanes: &mut Vec<Lane<W, F>>,
    count: usize,
    mut list: Vec<EngineLane<'a, W, F>>,
    cache: Cache,
) -> Result<Many<Receipt>, JobFault>
    requires apart { AreApart source.now dest.now }
    requires jobs { AreJobs jobs.now × (length jobs.now < 2 ^ 32 - 16) }
    requires count { (0 < count) × (count ≤ 16) × (count ≤ length lanes.old.items) }
    requires list { (list.items ≡ []) × (count ≤ vec_capacity list) }
    requires names { AreNames cache }
    ensures run { HasRun source.now dest.now jobs.now count lanes.old.items lanes.new.items result }
{
    lend(alloc, lanes, &mut list, source, dest, count);
    let Done { outcome, cache: _ } = secure_all(rt, alloc, jobs, &mut list, cache);
    give_back(list, lanes);
    outcome
}

/// Does the jobs on so many first lanes: each was done on some lane, or the least that failed is told, with its number.
#[tactic(auto, using(crate::proofs::SecureLemmas::none_begun, transports::proofs::SameLemmas::all_work_same, skopeo_outside::proofs::PlaceLemmas::keeps_same))]
pub fn secure_jobs<R: Threads + Sync, W: Wire + Send, F: Files + Send>(
    rt: &R,
    alloc: Global,
    source: &Source,
    dest: &Dest,
    jobs: &[Job],
    lanes: &mut Vec<Lane<W, F>>,
    count: usize,
) -> Result<Many<Receipt>, Refusal>
    requires apart { AreApart source.now dest.now }
    requires jobs { AreJobs jobs.now × (length jobs.now < 2 ^ 32 - 16) }
    requires count { (0 < count) × (count ≤ 16) × (count ≤ length lanes.old.items) }
    ensures ends { JobsEnd source.now dest.now jobs.now lanes.old.items lanes.new.items result }
    ensures receipts { IfOk result (AreReceipts jobs.now) }
    ensures adds { OnOk result (OnEach (λ place a b. AddsOnly dest.now (IsOfJobs jobs.now) a b) lanes.old.items lanes.new.items) }
    ensures works { AllWork dest.now lanes.old.items lanes.new.items }
    ensures rest { KeepsFrom count lanes.old.items lanes.new.items }
{
    let Ok(cache) = empty_cache(alloc) else {
        return Err(Refusal::Memory);
    };
    let Ok(list) = room_for(alloc, count) else {
        return Err(Refusal::Memory);
    };
    match run_lent(rt, alloc, source, dest, jobs, lanes, count, list, cache) {
        Ok(receipts) => Ok(receipts),
        Err(fault) => Err(refusal_of(fault)),
    }
}
