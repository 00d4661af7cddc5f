// A folder of the transport `dir` as a source.
ghost use Rattle.std.specs.Prelude.{◌≡◌, ◌+◌, ◌<◌, ◌≤◌, ◌++◌, ◌^◌, [], List, ℕ, false, Option, Ok, IfOk, IfErr, IfSome, length, take};
ghost use Rattle.std.specs.Option.{option_map};
ghost use Rattle.skopeo_outside.specs.Tree.{file_at};
ghost use Rattle.skopeo_outside.specs.Folders.{joined};
ghost use Rattle.skopeo_outside.specs.Outside.{HasCause};
ghost use Rattle.skopeo_outside.specs.LaneTold.{LaneTold, IsLater};
ghost use Rattle.skopeo_outside.specs.Steps.{Ends, Says};
ghost use Rattle.layouts.specs.Bounds.{limited};
ghost use Rattle.layouts.specs.Names.{manifest_name};
ghost use Rattle.digest_reader.specs.declared.job.Job.{Job};
ghost use Rattle.transports.specs.declared.source.Source.{Source};
ghost use Rattle.transports.specs.declared.source.Source.TheVariants.{Folder};
ghost use Rattle.transports.specs.Courses.{lane_course};
ghost use Rattle.transports.specs.StepEnds.{reading, FailsBy};
ghost use Rattle.transports.specs.declared.blob.Blob.TheVariants as blob;
ghost use Rattle.transports.specs.Given.{Spares, ManifestEnds, SignaturesEnd, HasGiven, manifest_in};
ghost use Rattle.transports.specs.Next.{GivesNext};
ghost use Rattle.transports.specs.Stores.{StoreAt};
ghost use Rattle.transports.specs.Has.{IsUntouched};
ghost use Rattle.transports.specs.Uploads.{is_mismatch};

use crate::blob::Blob;
use crate::refusal::Refusal;
use crate::stopped::{caused_by, refused, refused_by};
use copy_workers::Cause;
use digest_reader::Job;
use image_ref::Digest;
use layouts::{DirImage, Limited, in_folder, limit, manifest_name, read_limited, read_piece};
use skopeo_outside::{Fetched, Files, Lane, Many, Stop, Text, What, Wire};
use std::alloc::Global;

/// The file of a manifest: the image's, or that of its instance with this digest.
fn manifest_file<F: Files>(
    alloc: Global,
    files: &mut F,
    folder: &str,
    part: Option<&Digest>,
) -> Result<Limited, Stop>
    ensures bytes { let name = manifest_name (option_map (λ d. d.now) part.entry) in
        IfSome (F.tree files.old) (λ t. IfOk result (λ file. file ≡ limited (file_at t (joined folder.now name)))) }
    ensures same { F.tree files.new ≡ F.tree files.old }
    ensures cause { HasCause (F.faults files.old) (F.faults files.new) result }
{
    let name = manifest_name(alloc, part)?;
    let path = in_folder(alloc, folder, name.as_str())?;
    read_limited(alloc, files, path.as_str())
}

/// The manifest that a file is, or why there is none.
#[tactic(auto, unfolding(skopeo_outside::specs::Steps::Says, crate::specs::Courses::lane_course))]
fn manifest_in(alloc: Global, folder: &str, file: Limited) -> Result<Fetched, Refusal>
    ensures says { Says lane_course (manifest_in folder.now file) result }
{
    match file {
        Limited::Absent => Err(Refusal::NotAnImageDir(Text::copy_of(alloc, folder)?)),
        Limited::TooLong => Err(Refusal::TooLarge(What::Manifest, limit() as u64 + 1)),
        Limited::Whole(bytes) => Ok(Fetched {
            bytes,
            content_type: Text::new(alloc),
        }),
    }
}

/// The manifest of a folder.
#[tactic(auto, using(crate::proofs::FolderLemmas::files_stopped, crate::proofs::FolderLemmas::manifest_ended, crate::proofs::FolderLemmas::spares_by, crate::proofs::FolderLemmas::untouched_by))]
pub(crate) fn read_manifest<W: Wire, F: Files>(
    alloc: Global,
    lane: &mut Lane<W, F>,
    folder: &DirImage,
    part: Option<&Digest>,
) -> Result<Fetched, Refusal>
    ensures ends { let digest = option_map (λ d. d.now) part.entry in
        Ends lane_course (reading (ManifestEnds (Folder folder.now) digest)) lane.old lane.new result }
    ensures untouched { IsUntouched lane.old lane.new }
    ensures spares { Spares (Folder folder.now) lane.old lane.new }
{
    match manifest_file(alloc, &mut lane.files, folder.folder(), part) {
        Err(stop) => return Err(refused_by(stop, lane.files.faults())),
        Ok(file) => manifest_in(alloc, folder.folder(), file),
    }
}

/// The signatures in a folder.
#[tactic(auto, using(crate::proofs::FolderLemmas::signatures_refused, crate::proofs::FolderLemmas::signatures_ended, crate::proofs::FolderLemmas::spares_by, crate::proofs::FolderLemmas::untouched_by))]
pub(crate) fn read_signatures<W: Wire, F: Files>(
    alloc: Global,
    lane: &mut Lane<W, F>,
    folder: &DirImage,
    part: Option<&Digest>,
) -> Result<Many<Many<u8>>, Refusal>
    ensures ends { (store : Option StoreAt) → let digest = option_map (λ d. d.now) part.entry in
        Ends lane_course (reading (SignaturesEnd (Folder folder.now) store digest)) lane.old lane.new result }
    ensures untouched { IsUntouched lane.old lane.new }
    ensures spares { Spares (Folder folder.now) lane.old lane.new }
{
    match folder.read_signatures(alloc, &mut lane.files, part) {
        Err(fault) => return Err(refused(alloc, folder.folder(), fault, lane.files.faults())),
        Ok(signatures) => Ok(signatures),
    }
}

/// A job's blob in a folder.
#[tactic(auto, using(crate::proofs::BlobLemmas::files_caused, crate::proofs::BlobLemmas::memory_fails, crate::proofs::BlobLemmas::blob_absent, crate::proofs::BlobLemmas::blob_opened, crate::proofs::FolderLemmas::later_by, crate::proofs::FolderLemmas::spares_by, crate::proofs::FolderLemmas::untouched_by))]
pub(crate) fn open_blob<W: Wire, F: Files>(
    alloc: Global,
    lane: &mut Lane<W, F>,
    folder: &DirImage,
    job: &Job,
) -> Result<Blob, Cause>
    ensures opened { IfOk result (λ blob. HasGiven (Folder folder.now) job.now blob lane.old lane.new []) }
    ensures failed { IfErr result (λ e. FailsBy (Folder folder.now) job.now e lane.old lane.new) }
    ensures unjudged { IfErr result (λ e. is_mismatch e ≡ false) }
    ensures untouched { IsUntouched lane.old lane.new }
    ensures later { IsLater lane.old lane.new }
{
    let path = folder.blob_path(alloc, &job.digest)?;
    match lane.files.size(path.as_str()) {
        Err(stop) => return Err(caused_by(stop, lane.files.faults())),
        Ok(None) => return Err(Cause::BlobAbsent(job.digest)),
        Ok(Some(_)) => Ok(Blob::File(path, 0)),
    }
}

/// The next bytes of a blob's file, of whichever source it is.
#[tactic(auto, using(crate::proofs::FolderLemmas::later_by, crate::proofs::FolderLemmas::untouched_by))]
pub(crate) fn next_piece<W: Wire, F: Files>(
    lane: &mut Lane<W, F>,
    job: &Job,
    path: &str,
    given: &mut u64,
    into: &mut [u8],
) -> Result<usize, Cause>
    requires room { (0 < length into.old) × (length into.old ≤ 65536) }
    requires few { given.old + length into.old < 2 ^ 61 }
    ensures count { IfOk result (λ count. count ≤ length into.old) }
    ensures gives { (source : Source) (entry : LaneTold) (bytes : List ℕ)
        → HasGiven source job.now (blob.File path.now given.old) entry lane.old bytes
        → GivesNext source job.now (blob.File path.now given.new) entry lane.new bytes into.new result }
    ensures untouched { IsUntouched lane.old lane.new }
    ensures number { lane.new.number ≡ lane.old.number }
{
    match read_piece(&mut lane.files, path, *given, into) {
        Err(stop) => return Err(caused_by(stop, lane.files.faults())),
        Ok(None) => return Err(Cause::BlobAbsent(job.digest)),
        Ok(Some(count)) => {
            *given += count as u64;
            Ok(count)
        }
    }
}
