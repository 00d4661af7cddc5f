// A blob that is passed on piece by piece: each is read, fed to a digester, and added at the destination.
ghost use Rattle.std.specs.Prelude.{◌≡◌, ◌+◌, ◌<◌, ◌≤◌, ◌++◌, ℕ, List, OnOk, OnErr, IfErr, length};
ghost use Rattle.skopeo_outside.specs.LaneTold.{LaneTold, IsLater};
ghost use Rattle.transports.specs.Blobs.{limit_of};
ghost use Rattle.transports.specs.StepEnds.{FailsFreely};
ghost use Rattle.transports.specs.Uploads.{Holds, TookSome, OnlyPart};
ghost use Rattle.copy_jobs.specs.Passed.{IsRoute, IsPassing, PassesPiece, PassesAll};

use copy_workers::Cause;
use digest_reader::{Digester, Job};
use skopeo_outside::{Files, Lane, Wire};
use std::alloc::Global;
use std::snapshot::Snapshot;
use transports::{Blob, Dest, Source, Upload};

/// So many bytes of a blob are looked at, at most.
const MOST: u64 = (1 << 61) - 1;

/// A piece has so many bytes, at most.
const PIECE: u64 = 65536;

/// Where a job's blob is carried from and to, and what the lane told before.
#[derive(Drop)]
pub(crate) struct Route<'a, W: Wire, F: Files> {
    pub alloc: Global,
    pub source: &'a Source,
    pub dest: &'a Dest,
    pub job: &'a Job,
    pub entry: Snapshot<Lane<W, F>>,
}

/// A blob that is being carried.
#[derive(Drop)]
pub(crate) struct Passing {
    pub blob: Blob,
    pub upload: Upload,
    pub digester: Digester,
}

/// How many bytes of a blob are looked at: one more than the job has.
fn limit_for(job: &Job) -> u64
    ensures is { result ≡ limit_of job.now }
{
    job.size.min(MOST - 1) + 1
}

/// Adds a piece, which may be empty.
#[tactic(auto, using(transports::proofs::SameLemmas::part_same))]
fn add_some<W: Wire, F: Files>(
    lane: &mut Lane<W, F>,
    route: &Route<'_, W, F>,
    upload: &mut Upload,
    piece: &[u8],
) -> Result<(), Cause>
    requires few { length piece.now ≤ 65536 }
    ensures added { let to = route.now.dest.now in let job = route.now.job.now in
        (entry : LaneTold) (bytes : List ℕ) → Holds to job upload.old entry lane.old bytes
        → OnOk result (Holds to job upload.new entry lane.new (bytes ++ piece.now)) }
    ensures cut { let to = route.now.dest.now in let job = route.now.job.now in
        (entry : LaneTold) (bytes : List ℕ) → Holds to job upload.old entry lane.old bytes
        → OnErr result (TookSome to job entry lane.new bytes piece.now) }
    ensures failed { IfErr result (λ e. FailsFreely e lane.old lane.new) }
    ensures part { let to = route.now.dest.now in let job = route.now.job.now in
        (entry : LaneTold) (bytes : List ℕ) → Holds to job upload.old entry lane.old bytes
        → OnlyPart to job lane.old lane.new }
    ensures later { IsLater lane.old lane.new }
    ensures from { lane.new.from ≡ lane.old.from }
{
    if piece.is_empty() {
        return Ok(());
    }
    route
        .dest
        .add_piece(route.alloc, lane, route.job, upload, piece)
}

/// Passes on the next piece after so many bytes; 0 is the end of the blob. Of a blob that is longer than its job no more
/// than the job has is added.
fn pass_piece<W: Wire, F: Files>(
    lane: &mut Lane<W, F>,
    route: &Route<'_, W, F>,
    passing: &mut Passing,
    at: u64,
    into: &mut [u8],
) -> Result<usize, Cause>
    requires route { IsRoute route.now.source.now route.now.dest.now route.now.job.now route.now.entry.value }
    requires room { (0 < length into.old) × (length into.old ≤ 65536) }
    requires few { at + length into.old ≤ limit_of route.now.job.now }
    requires passing { let r = route.now in
        IsPassing r.source.now r.dest.now r.job.now passing.old r.entry.value lane.old at }
    ensures passed { let r = route.now in
        PassesPiece r.source.now r.dest.now r.job.now passing.new r.entry.value lane.new at (length into.old) result }
{
    let count = route
        .source
        .next_piece(route.alloc, lane, route.job, &mut passing.blob, into)?;
    passing.digester.feed(&into[..count]);
    let fits = (route.job.size - at).min(count as u64) as usize;
    add_some(lane, route, &mut passing.upload, &into[..fits])?;
    Ok(count)
}

/// Passes on all pieces that are looked at.
pub(crate) fn pass_all<W: Wire, F: Files>(
    lane: &mut Lane<W, F>,
    route: &Route<'_, W, F>,
    passing: &mut Passing,
    buffer: &mut [u8],
) -> Result<(), Cause>
    requires route { IsRoute route.now.source.now route.now.dest.now route.now.job.now route.now.entry.value }
    requires room { 0 < length buffer.old }
    requires passing { let r = route.now in
        IsPassing r.source.now r.dest.now r.job.now passing.old r.entry.value lane.old 0 }
    ensures passed { let r = route.now in
        PassesAll r.source.now r.dest.now r.job.now passing.new r.entry.value lane.new result }
{
    let limit = limit_for(route.job);
    let mut at = 0;
    while at < limit {
        let room = (limit - at).min(buffer.len() as u64).min(PIECE) as usize;
        let count = match pass_piece(lane, route, passing, at, &mut buffer[..room]) {
            Err(cause) => return Err(cause),
            Ok(count) => count,
        };
        if count == 0 {
            return Ok(());
        }
        at += count as u64;
    }
    Ok(())
}
