// A folder of the transport `dir` as a destination of an image: what stands beside its blobs.
ghost use Rattle.std.specs.Prelude.{◌≡◌, ◌<◌, ◌≤◌, ◌^◌, [], List, ℕ, None, OnOk, OnErr, length};
ghost use Rattle.std.specs.Option.{option_map};
ghost use Rattle.skopeo_outside.specs.Outside.{Told};
ghost use Rattle.skopeo_outside.specs.LaneTold.{LaneTold};
ghost use Rattle.skopeo_outside.specs.Steps.{Ends};
ghost use Rattle.digest_reader.specs.declared.job.Job.{Job};
ghost use Rattle.layouts.specs.Names.{prefix_of};
ghost use Rattle.layouts.specs.Trees.{OnlyAt, IsPut};
ghost use Rattle.layouts.specs.Destination.{IsReady, IsHalfReady};
ghost use Rattle.layouts.specs.Written as written;
ghost use Rattle.transports.specs.declared.dest.Dest.TheVariants.{Folder};
ghost use Rattle.transports.specs.Courses.{lane_course};
ghost use Rattle.transports.specs.StepEnds.{taking, putting};
ghost use Rattle.transports.specs.Fair.{Works, IsFairOn};
ghost use Rattle.transports.specs.Has.{OnlyAtDest, RemovesInOrder, KeepsAllBlobs, TakesLate};
ghost use Rattle.transports.specs.Named.{IsPrepared, AreSigned, IsNamed, IsAlone};
ghost use Rattle.transports.specs.Writes.{WritesOnly, spot_of};
ghost use Rattle.transports.specs.Beside.{SignsIn, NamesIn, manifest_at, manifest_part_at};
ghost use Rattle.transports.specs.Calls.{OnFiles};

use crate::refusal::Refusal;
use crate::stopped::{refused_in, refused_there};
use image_ref::Digest;
use layouts::DirImage;
use skopeo_outside::{Files, Lane, Many, Wire};
use std::alloc::Global;

/// Empties a folder that may be replaced, and makes it.
#[tactic(auto, using(crate::proofs::ReadyLemmas::late_by))]
fn prepare_folder<W: Wire, F: Files>(
    alloc: Global,
    lane: &mut Lane<W, F>,
    folder: &DirImage,
) -> Result<(), Refusal>
    requires first { lane.old.number ≡ 0 }
    ensures ends { Ends lane_course (taking (Folder folder.now)) lane.old lane.new result }
    ensures ready { OnOk result (Told (IsReady folder.now) lane.old.files.tree lane.new.files.tree) }
    ensures kept { OnErr result (Told (IsHalfReady folder.now) lane.old.files.tree lane.new.files.tree) }
    ensures late { TakesLate (Folder folder.now) lane.old lane.new }
    ensures on { OnFiles lane.old lane.new }
    ensures later { lane.old.files.faults ≤ lane.new.files.faults }
{
    match folder.prepare(alloc, &mut lane.files) {
        Err(fault) => return Err(refused_there(alloc, folder.folder(), fault, lane.files.faults())),
        Ok(()) => Ok(()),
    }
}

/// Empties a folder that may be replaced, its manifests first, and makes it.
#[tactic(auto, using(crate::proofs::ReadyLemmas::ready_works, crate::proofs::ReadyLemmas::half_works, crate::proofs::ReadyLemmas::half_order, crate::proofs::ReadyLemmas::prepared_by))]
pub(crate) fn prepare<W: Wire, F: Files>(
    alloc: Global,
    lane: &mut Lane<W, F>,
    folder: &DirImage,
) -> Result<(), Refusal>
    requires first { lane.old.number ≡ 0 }
    ensures ends { Ends lane_course (taking (Folder folder.now)) lane.old lane.new result }
    ensures prepared { OnOk result (IsPrepared (Folder folder.now) lane.old lane.new) }
    ensures works { Works (Folder folder.now) lane.old lane.new }
    ensures late { TakesLate (Folder folder.now) lane.old lane.new }
    ensures order { OnErr result (RemovesInOrder (Folder folder.now) lane.old lane.new) }
{
    prepare_folder(alloc, lane, folder)?;
    Ok(())
}

/// Puts the signatures of an image, or of an instance, in a folder.
#[tactic(auto, using(crate::proofs::ImageLemmas::told_signs, crate::proofs::ImageLemmas::told_signs_cut))]
fn sign<W: Wire, F: Files>(
    alloc: Global,
    lane: &mut Lane<W, F>,
    folder: &DirImage,
    part: Option<&Digest>,
    signatures: &[Many<u8>],
) -> Result<(), Refusal>
    ensures ends { Ends lane_course (putting (Folder folder.now)) lane.old lane.new result }
    ensures signed { let prefix = prefix_of (option_map (λ d. d.now) part.entry) in
        OnOk result (Told (written.AreSigned folder.now prefix signatures.now (length signatures.now)) lane.old.files.tree lane.new.files.tree) }
    ensures beside { let digest = option_map (λ d. d.now) part.entry in
        Told (SignsIn folder.now digest) lane.old.files.tree lane.new.files.tree }
    ensures few { length signatures.now < 2 ^ 64 }
    ensures on { OnFiles lane.old lane.new }
    ensures later { lane.old.files.faults ≤ lane.new.files.faults }
{
    match folder.put_signatures(alloc, &mut lane.files, part, signatures) {
        Err(fault) => return Err(refused_in(fault, lane.files.faults())),
        Ok(()) => Ok(()),
    }
}

/// Names the manifest of an image, or of an instance, in a folder.
#[tactic(auto, using(crate::proofs::ImageLemmas::told_names, crate::proofs::ImageLemmas::told_names_cut))]
fn name<W: Wire, F: Files>(
    alloc: Global,
    lane: &mut Lane<W, F>,
    folder: &DirImage,
    part: Option<&Digest>,
    media: &str,
    bytes: &[u8],
) -> Result<(), Refusal>
    ensures ends { Ends lane_course (putting (Folder folder.now)) lane.old lane.new result }
    ensures named { let digest = option_map (λ d. d.now) part.entry in
        OnOk result (Told (IsPut (manifest_part_at folder.now digest) (manifest_at folder.now digest) bytes.now) lane.old.files.tree lane.new.files.tree) }
    ensures cut { let digest = option_map (λ d. d.now) part.entry in
        OnErr result (Told (OnlyAt (manifest_part_at folder.now digest)) lane.old.files.tree lane.new.files.tree) }
    ensures beside { let digest = option_map (λ d. d.now) part.entry in
        Told (NamesIn folder.now digest bytes.now) lane.old.files.tree lane.new.files.tree }
    ensures on { OnFiles lane.old lane.new }
    ensures later { lane.old.files.faults ≤ lane.new.files.faults }
{
    match folder.put_manifest(alloc, &mut lane.files, part, media, bytes) {
        Err(fault) => return Err(refused_in(fault, lane.files.faults())),
        Ok(()) => Ok(()),
    }
}

/// Writes the signatures of an image, or of its instance with this digest, in a folder.
#[tactic(auto, using(crate::proofs::ImageLemmas::signs_work, crate::proofs::ImageLemmas::signs_blobs, crate::proofs::ImageLemmas::signed_are))]
pub(crate) fn put_signatures<W: Wire, F: Files>(
    alloc: Global,
    lane: &mut Lane<W, F>,
    folder: &DirImage,
    part: Option<&Digest>,
    signatures: &[Many<u8>],
) -> Result<(), Refusal>
    requires first { lane.old.number ≡ 0 }
    ensures ends { Ends lane_course (putting (Folder folder.now)) lane.old lane.new result }
    ensures signed { let digest = option_map (λ d. d.now) part.entry in
        OnOk result (AreSigned (Folder folder.now) digest signatures.now lane.old lane.new) }
    ensures alone { (jobs : List Job) (entry : LaneTold) → IsAlone (Folder folder.now) jobs [] entry lane.old
        → OnOk result (part.entry ≡ None → IsAlone (Folder folder.now) jobs signatures.now entry lane.new) }
    ensures blobs { KeepsAllBlobs (Folder folder.now) lane.old lane.new }
    ensures works { Works (Folder folder.now) lane.old lane.new }
{
    sign(alloc, lane, folder, part, signatures)?;
    Ok(())
}

/// Writes the manifest of an image, or of its instance with this digest, in a folder.
#[tactic(auto, using(crate::proofs::ImageLemmas::names_only, crate::proofs::ImageLemmas::names_fair, crate::proofs::ImageLemmas::names_write, crate::proofs::ImageLemmas::names_blobs, crate::proofs::ImageLemmas::names_signed, crate::proofs::ImageLemmas::named_by, crate::proofs::ImageLemmas::cut_works))]
pub(crate) fn put_manifest<W: Wire, F: Files>(
    alloc: Global,
    lane: &mut Lane<W, F>,
    folder: &DirImage,
    part: Option<&Digest>,
    media: &str,
    bytes: &[u8],
) -> Result<(), Refusal>
    requires first { lane.old.number ≡ 0 }
    ensures ends { Ends lane_course (putting (Folder folder.now)) lane.old lane.new result }
    ensures named { let digest = option_map (λ d. d.now) part.entry in
        OnOk result (IsNamed (Folder folder.now) digest bytes.now lane.old lane.new) }
    ensures signed { let digest = option_map (λ d. d.now) part.entry in
        (signatures : List (List ℕ)) (entry : LaneTold) → AreSigned (Folder folder.now) digest signatures entry lane.old
        → AreSigned (Folder folder.now) digest signatures entry lane.new }
    ensures alone { (jobs : List Job) (signatures : List (List ℕ)) (entry : LaneTold) → IsAlone (Folder folder.now) jobs signatures entry lane.old
        → OnOk result (part.entry ≡ None → IsAlone (Folder folder.now) jobs signatures entry lane.new) }
    ensures blobs { KeepsAllBlobs (Folder folder.now) lane.old lane.new }
    ensures writes { let digest = option_map (λ d. d.now) part.entry in
        WritesOnly (spot_of (Folder folder.now) digest) bytes.now lane.old lane.new }
    ensures works { OnErr result (Works (Folder folder.now) lane.old lane.new) }
    ensures only { OnlyAtDest (Folder folder.now) lane.old lane.new }
    ensures fair { IsFairOn (Folder folder.now) lane.old.number lane.old lane.new }
{
    name(alloc, lane, folder, part, media, bytes)?;
    Ok(())
}
