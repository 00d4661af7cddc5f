// A folder of the transport `dir` as a destination of blobs.
ghost use Rattle.std.specs.Prelude.{◌≡◌, ◌<◌, ◌≤◌, ◌++◌, ◌^◌, [], List, ℕ, OnOk, OnErr, IfOk, IfErr, length};
ghost use Rattle.skopeo_outside.specs.Tree.{HasPartOf, with_file, with_more, with_moved, without_file};
ghost use Rattle.skopeo_outside.specs.Outside.{Told};
ghost use Rattle.skopeo_outside.specs.LaneTold.{LaneTold, IsLater};
ghost use Rattle.layouts.specs.Paths.{blob_path, blob_part};
ghost use Rattle.transports.specs.declared.dest.Dest.TheVariants.{Folder};
ghost use Rattle.transports.specs.StepEnds.{FailsFreely};
ghost use Rattle.transports.specs.Fair.{Works};
ghost use Rattle.transports.specs.Has.{HasBlob, KeepsBlobs};
ghost use Rattle.transports.specs.Named.{AddsOnly};
ghost use Rattle.transports.specs.Uploads.{Holds, HoldsWhole, TookSome, OnlyPart, LeavesNoPart};
ghost use Rattle.transports.specs.Calls.{OnFiles, FilesDid};

use crate::blob::Upload;
use crate::stopped::caused_in;
use copy_workers::Cause;
use digest_reader::Job;
use layouts::DirImage;
use skopeo_outside::{Files, Lane, Wire};
use std::alloc::Global;

/// Makes the lane's part empty.
fn begin_part<W: Wire, F: Files>(
    alloc: Global,
    lane: &mut Lane<W, F>,
    folder: &DirImage,
    job: &Job,
) -> Result<(), Cause>
    ensures did { let part = blob_part folder.now job.now.digest lane.old.number in
        OnOk result (FilesDid (λ t. with_file t part []) lane.old lane.new) }
    ensures same { OnErr result (lane.new.files.tree ≡ lane.old.files.tree) }
    ensures failed { IfErr result (λ e. FailsFreely e lane.old lane.new) }
    ensures on { OnFiles lane.old lane.new }
    ensures later { lane.old.files.faults ≤ lane.new.files.faults }
{
    match folder.begin_blob(alloc, &mut lane.files, lane.number, job) {
        Err(fault) => return Err(caused_in(fault, lane.files.faults())),
        Ok(()) => Ok(()),
    }
}

/// Adds a piece to the lane's part.
fn add_part<W: Wire, F: Files>(
    alloc: Global,
    lane: &mut Lane<W, F>,
    folder: &DirImage,
    job: &Job,
    piece: &[u8],
) -> Result<(), Cause>
    requires piece { (0 < length piece.now) × (length piece.now ≤ 65536) }
    ensures did { let part = blob_part folder.now job.now.digest lane.old.number in
        OnOk result (FilesDid (λ t. with_more t part piece.now) lane.old lane.new) }
    ensures cut { let part = blob_part folder.now job.now.digest lane.old.number in
        OnErr result (Told (HasPartOf part piece.now) lane.old.files.tree lane.new.files.tree) }
    ensures failed { IfErr result (λ e. FailsFreely e lane.old lane.new) }
    ensures on { OnFiles lane.old lane.new }
    ensures later { lane.old.files.faults ≤ lane.new.files.faults }
{
    match folder.add_piece(alloc, &mut lane.files, lane.number, job, piece) {
        Err(fault) => return Err(caused_in(fault, lane.files.faults())),
        Ok(()) => Ok(()),
    }
}

/// Names the lane's part.
fn keep_part<W: Wire, F: Files>(
    alloc: Global,
    lane: &mut Lane<W, F>,
    folder: &DirImage,
    job: &Job,
) -> Result<(), Cause>
    ensures did { let part = blob_part folder.now job.now.digest lane.old.number in let path = blob_path folder.now job.now.digest in
        OnOk result (FilesDid (λ t. with_moved t part path) lane.old lane.new) }
    ensures same { OnErr result (lane.new.files.tree ≡ lane.old.files.tree) }
    ensures failed { IfErr result (λ e. FailsFreely e lane.old lane.new) }
    ensures on { OnFiles lane.old lane.new }
    ensures later { lane.old.files.faults ≤ lane.new.files.faults }
    ensures small { lane.old.number < 2 ^ 64 }
{
    match folder.keep_blob(alloc, &mut lane.files, lane.number, job) {
        Err(fault) => return Err(caused_in(fault, lane.files.faults())),
        Ok(()) => Ok(()),
    }
}

/// Removes the lane's part.
fn drop_part<W: Wire, F: Files>(
    alloc: Global,
    lane: &mut Lane<W, F>,
    folder: &DirImage,
    job: &Job,
) -> Result<(), Cause>
    ensures did { let part = blob_part folder.now job.now.digest lane.old.number in
        OnOk result (FilesDid (λ t. without_file t part) lane.old lane.new) }
    ensures same { OnErr result (lane.new.files.tree ≡ lane.old.files.tree) }
    ensures failed { IfErr result (λ e. FailsFreely e lane.old lane.new) }
    ensures on { OnFiles lane.old lane.new }
    ensures later { lane.old.files.faults ≤ lane.new.files.faults }
{
    match folder.drop_blob(alloc, &mut lane.files, lane.number, job) {
        Err(fault) => return Err(caused_in(fault, lane.files.faults())),
        Ok(()) => Ok(()),
    }
}

/// A job's blob in a folder, of which nothing stands yet.
#[tactic(auto, using(crate::proofs::UploadLemmas::begun, crate::proofs::UploadLemmas::part_begun, crate::proofs::UploadLemmas::part_kept, crate::proofs::UploadLemmas::did_later, crate::proofs::FolderLemmas::later_by))]
pub(crate) fn begin_blob<W: Wire, F: Files>(
    alloc: Global,
    lane: &mut Lane<W, F>,
    folder: &DirImage,
    job: &Job,
) -> Result<Upload, Cause>
    ensures begun { IfOk result (λ upload. Holds (Folder folder.now) job.now upload lane.old lane.new []) }
    ensures failed { IfErr result (λ e. FailsFreely e lane.old lane.new) }
    ensures part { OnlyPart (Folder folder.now) job.now lane.old lane.new }
    ensures same { OnErr result (lane.new.files.tree ≡ lane.old.files.tree) }
    ensures later { IsLater lane.old lane.new }
    ensures from { lane.new.from ≡ lane.old.from }
{
    begin_part(alloc, lane, folder, job)?;
    Ok(Upload::File)
}

/// More of a job's blob in a folder.
#[tactic(auto, using(crate::proofs::UploadLemmas::filled, crate::proofs::UploadLemmas::filled_in_part, crate::proofs::UploadLemmas::part_more, crate::proofs::UploadLemmas::part_cut, crate::proofs::UploadLemmas::did_later, crate::proofs::UploadLemmas::cut_later))]
pub(crate) fn add_piece<W: Wire, F: Files>(
    alloc: Global,
    lane: &mut Lane<W, F>,
    folder: &DirImage,
    job: &Job,
    upload: &mut Upload,
    piece: &[u8],
) -> Result<(), Cause>
    requires piece { (0 < length piece.now) × (length piece.now ≤ 65536) }
    ensures added { (entry : LaneTold) (bytes : List ℕ) → Holds (Folder folder.now) job.now upload.old entry lane.old bytes
        → OnOk result (Holds (Folder folder.now) job.now upload.new entry lane.new (bytes ++ piece.now)) }
    ensures cut { (entry : LaneTold) (bytes : List ℕ) → Holds (Folder folder.now) job.now upload.old entry lane.old bytes
        → OnErr result (TookSome (Folder folder.now) job.now entry lane.new bytes piece.now) }
    ensures failed { IfErr result (λ e. FailsFreely e lane.old lane.new) }
    ensures part { OnlyPart (Folder folder.now) job.now lane.old lane.new }
    ensures later { IsLater lane.old lane.new }
    ensures from { lane.new.from ≡ lane.old.from }
{
    add_part(alloc, lane, folder, job, piece)?;
    Ok(())
}

/// Names a job's blob in a folder.
#[tactic(auto, using(crate::proofs::UploadLemmas::kept_has, crate::proofs::UploadLemmas::kept_adds, crate::proofs::UploadLemmas::kept_others, crate::proofs::UploadLemmas::kept_works, crate::proofs::UploadLemmas::works_kept, crate::proofs::UploadLemmas::blobs_kept, crate::proofs::UploadLemmas::part_kept))]
pub(crate) fn keep_blob<W: Wire, F: Files>(
    alloc: Global,
    lane: &mut Lane<W, F>,
    folder: &DirImage,
    job: &Job,
    upload: Upload,
) -> Result<(), Cause>
    requires whole { HoldsWhole (Folder folder.now) job.now upload lane.old }
    ensures has { (entry : LaneTold) (bytes : List ℕ) → Holds (Folder folder.now) job.now upload entry lane.old bytes
        → OnOk result (HasBlob (Folder folder.now) job.now entry lane.new) }
    ensures failed { IfErr result (λ e. FailsFreely e lane.old lane.new) }
    ensures adds { (entry : LaneTold) (bytes : List ℕ) → Holds (Folder folder.now) job.now upload entry lane.old bytes
        → OnOk result (AddsOnly (Folder folder.now) (λ d. d ≡ job.now.digest) entry lane.new) }
    ensures others { KeepsBlobs (Folder folder.now) job.now lane.old lane.new }
    ensures works { Works (Folder folder.now) lane.old lane.new }
    ensures same { OnErr result (lane.new.files.tree ≡ lane.old.files.tree) }
    ensures part { OnErr result (OnlyPart (Folder folder.now) job.now lane.old lane.new) }
    ensures from { lane.new.from ≡ lane.old.from }
{
    keep_part(alloc, lane, folder, job)?;
    Ok(())
}

/// Gives up a job's blob in a folder.
#[tactic(auto, using(crate::proofs::UploadLemmas::dropped, crate::proofs::UploadLemmas::part_gone, crate::proofs::UploadLemmas::part_kept, crate::proofs::UploadLemmas::did_later, crate::proofs::FolderLemmas::later_by))]
pub(crate) fn drop_blob<W: Wire, F: Files>(
    alloc: Global,
    lane: &mut Lane<W, F>,
    folder: &DirImage,
    job: &Job,
) -> Result<(), Cause>
    ensures dropped { OnOk result (LeavesNoPart (Folder folder.now) job.now lane.old lane.new) }
    ensures failed { IfErr result (λ e. FailsFreely e lane.old lane.new) }
    ensures part { OnlyPart (Folder folder.now) job.now lane.old lane.new }
    ensures same { OnErr result (lane.new.files.tree ≡ lane.old.files.tree) }
    ensures later { IsLater lane.old lane.new }
    ensures from { lane.new.from ≡ lane.old.from }
{
    drop_part(alloc, lane, folder, job)?;
    Ok(())
}
