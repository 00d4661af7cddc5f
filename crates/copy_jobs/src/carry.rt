// One blob, from a source to a destination.
ghost use Rattle.std.specs.Prelude.{◌≡◌, ◌<◌, ℕ, List, true, OnOk, OnErr, IfErr, length, vec_len};
ghost use Rattle.skopeo_outside.specs.LaneTold.{LaneTold};
ghost use Rattle.digest_reader.specs.Fed.{HasFed};
ghost use Rattle.transports.specs.Places.{AreApart};
ghost use Rattle.transports.specs.StepEnds.{IsDone, FailsBy};
ghost use Rattle.transports.specs.Given.{Rests};
ghost use Rattle.transports.specs.Has.{KeepsBlobs};
ghost use Rattle.transports.specs.Fair.{Works};
ghost use Rattle.transports.specs.Named.{AddsOnly};
ghost use Rattle.transports.specs.Uploads.{Holds, IsLeft, is_mismatch};
ghost use Rattle.copy_jobs.specs.Lane.{GivesUpPart};
ghost use Rattle.copy_jobs.specs.Passed.{IsRoute, IsOpened, IsPassed, GivesUp, Carries, compared, unless_files};

use crate::pass::{Passing, Route, pass_all};
use copy_workers::{BlobMismatch, Cause};
use digest_reader::{Digester, Job, Mismatch};
use layouts::piece_buffer;
use skopeo_outside::{Files, Lane, Memory, Wire};
use std::alloc::Global;
use std::snapshot::Snapshot;
use transports::{Blob, Dest, Source, Upload};

/// Room for a piece in a buffer that has none.
fn make_room(alloc: Global, buffer: &mut Vec<u8>) -> Result<(), Memory>
    ensures room { OnOk result (0 < vec_len buffer.new) }
{
    if buffer.is_empty() {
        *buffer = piece_buffer(alloc)?;
    }
    Ok(())
}

/// Compares what was fed with the job.
fn compare(job: &Job, digester: Digester) -> Result<(), Cause>
    ensures is { (fed : List ℕ) → HasFed digester fed → result ≡ compared job.now fed }
{
    match digester.finish(&job.digest, job.size) {
        Ok(()) => Ok(()),
        Err(Mismatch { found, length }) => Err(Cause::BlobMismatch(BlobMismatch {
            expected: job.digest,
            size: job.size,
            found,
            length,
        })),
    }
}

/// The cause, unless what kept a part from being removed was no fault of the files.
fn or_fault(cause: Cause, fault: Cause) -> Cause
    ensures is { result ≡ unless_files cause fault }
{
    match fault {
        Cause::Files(_) => cause,
        _ => fault,
    }
}

/// Gives up a blob in which other bytes were found, and answers why it fails: for these also where a fault of the files kept
/// its part.
fn give_up<W: Wire, F: Files>(
    lane: &mut Lane<W, F>,
    route: &Route<'_, W, F>,
    upload: Upload,
    cause: Cause,
) -> Cause
    ensures given_up { let to = route.now.dest.now in let job = route.now.job.now in
        (entry : LaneTold) (bytes : List ℕ) → Holds to job upload entry lane.old bytes
        → GivesUp to job cause lane.old lane.new result }
{
    match route.dest.drop_blob(route.alloc, lane, route.job, upload) {
        Ok(()) => cause,
        Err(fault) => or_fault(cause, fault),
    }
}

/// Names a blob that is whole, and gives up another.
fn end_blob<W: Wire, F: Files>(
    lane: &mut Lane<W, F>,
    route: &Route<'_, W, F>,
    passing: Passing,
) -> Result<(), Cause>
    requires route { IsRoute route.now.source.now route.now.dest.now route.now.job.now route.now.entry.value }
    requires passed { let r = route.now in
        IsPassed r.source.now r.dest.now r.job.now passing r.entry.value lane.old }
    ensures carried { let r = route.now in
        Carries r.source.now r.dest.now r.job.now r.entry.value lane.new result }
{
    let Passing {
        blob: _,
        upload,
        digester,
    } = passing;
    match compare(route.job, digester) {
        Ok(()) => route.dest.keep_blob(route.alloc, lane, route.job, upload),
        Err(cause) => Err(give_up(lane, route, upload, cause)),
    }
}

/// Carries a blob that was opened.
fn carry_open<W: Wire, F: Files>(
    lane: &mut Lane<W, F>,
    route: &Route<'_, W, F>,
    blob: Blob,
    buffer: &mut [u8],
) -> Result<(), Cause>
    requires route { IsRoute route.now.source.now route.now.dest.now route.now.job.now route.now.entry.value }
    requires room { 0 < length buffer.old }
    requires opened { let r = route.now in
        IsOpened r.source.now r.job.now blob r.entry.value lane.old }
    ensures carried { let r = route.now in
        Carries r.source.now r.dest.now r.job.now r.entry.value lane.new result }
{
    let upload = route.dest.begin_blob(route.alloc, lane, route.job)?;
    let mut passing = Passing {
        blob,
        upload,
        digester: Digester::new(),
    };
    pass_all(lane, route, &mut passing, buffer)?;
    end_blob(lane, route, passing)
}

/// Opens a blob, and carries it.
fn open_and_carry<W: Wire, F: Files>(
    lane: &mut Lane<W, F>,
    route: &Route<'_, W, F>,
    buffer: &mut [u8],
) -> Result<(), Cause>
    requires route { IsRoute route.now.source.now route.now.dest.now route.now.job.now route.now.entry.value }
    requires room { 0 < length buffer.old }
    requires entry { route.now.entry.value ≡ lane.old }
    ensures carried { let r = route.now in
        Carries r.source.now r.dest.now r.job.now r.entry.value lane.new result }
{
    let blob = route.source.open_blob(route.alloc, lane, route.job)?;
    carry_open(lane, route, blob, buffer)
}

/// The same, and closes the connection to the source, of whose blob no more is wanted.
#[tactic(auto, using(crate::proofs::CloseLemmas::carries_closed))]
fn carry_and_close<W: Wire, F: Files>(
    lane: &mut Lane<W, F>,
    route: &Route<'_, W, F>,
    buffer: &mut [u8],
) -> Result<(), Cause>
    requires route { IsRoute route.now.source.now route.now.dest.now route.now.job.now route.now.entry.value }
    requires room { 0 < length buffer.old }
    requires entry { route.now.entry.value ≡ lane.old }
    ensures carried { let r = route.now in
        Carries r.source.now r.dest.now r.job.now r.entry.value lane.new result }
    ensures rests { Rests route.now.source.now lane.new }
{
    let carried = open_and_carry(lane, route, buffer);
    route.source.close(lane);
    carried
}

/// Carries one blob piece by piece through the buffer, which is made where it has no room: the blob is named only where all
/// of it was compared. Of one that is not whole nothing stays but, after a fault or want of memory, its part.
#[tactic(auto, using(transports::proofs::SameLemmas::wants_memory, transports::proofs::SameLemmas::works_same, transports::proofs::SameLemmas::keeps_same, transports::proofs::SameLemmas::left_same))]
pub fn carry_blob<W: Wire, F: Files>(
    source: &Source,
    dest: &Dest,
    alloc: Global,
    lane: &mut Lane<W, F>,
    buffer: &mut Vec<u8>,
    job: &Job,
) -> Result<(), Cause>
    requires apart { AreApart source.now dest.now }
    ensures done { OnOk result (IsDone source.now dest.now job.now lane.old lane.new) }
    ensures adds { OnOk result (AddsOnly dest.now (λ d. d ≡ job.now.digest) lane.old lane.new) }
    ensures failed { IfErr result (λ e. FailsBy source.now job.now e lane.old lane.new) }
    ensures left { OnErr result (IsLeft source.now dest.now job.now lane.old lane.new) }
    ensures dropped { IfErr result (λ e. is_mismatch e ≡ true → GivesUpPart dest.now job.now lane.old lane.new) }
    ensures others { KeepsBlobs dest.now job.now lane.old lane.new }
    ensures works { Works dest.now lane.old lane.new }
    ensures rests { Rests source.now lane.old → Rests source.now lane.new }
{
    let _digest = job.digest.as_bytes();
    let _number = lane.number;
    make_room(alloc, buffer)?;
    let route = Route {
        alloc,
        source,
        dest,
        job,
        entry: Snapshot::of(lane),
    };
    carry_and_close(lane, &route, buffer)
}
