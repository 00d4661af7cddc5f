// What a destination has of an image, and how it is written.
ghost use Rattle.std.specs.Prelude.{◌≡◌, ◌<◌, ◌≤◌, ◌++◌, [], List, ℕ, None, IfOk, IfErr, OnOk, OnErr, IsTrue, length};
ghost use Rattle.std.specs.Option.{option_map};
ghost use Rattle.skopeo_outside.specs.LaneTold.{LaneTold, IsLater};
ghost use Rattle.skopeo_outside.specs.Steps.{Ends, Says};
ghost use Rattle.digest_reader.specs.declared.job.Job.{Job};
ghost use Rattle.transports.specs.Places.{dest_at};
ghost use Rattle.transports.specs.Courses.{lane_course};
ghost use Rattle.transports.specs.StepEnds.{taking, putting, FailsFreely};
ghost use Rattle.transports.specs.Fair.{Works, IsFairOn};
ghost use Rattle.transports.specs.Has.{HasBlob, IsReported, KeepsBlobs, OnlyAtDest, RemovesInOrder, KeepsAllBlobs, TakesLate};
ghost use Rattle.transports.specs.Named.{IsPrepared, AreSigned, IsNamed, IsAlone, AddsOnly};
ghost use Rattle.transports.specs.Uploads.{Holds, HoldsWhole, TookSome, OnlyPart, LeavesNoPart};
ghost use Rattle.transports.specs.Writes.{WritesNone, WritesOnly, spot_of};

use crate::blob::Upload;
use crate::refusal::{Part, Refusal};
use crate::{folder_dest, folder_image};
use copy_workers::Cause;
use digest_reader::Job;
use image_ref::{Digest, Place};
use layouts::DirImage;
use skopeo_outside::{Files, Lane, Many, Wire};
use std::alloc::Global;

/// Where an image goes to, one variant a kind that is built.
#[derive(Debug, Drop)]
pub enum Dest {
    /// A folder of the transport `dir`.
    Folder(DirImage),
}

impl Dest {
    /// The destination that a place is.
    #[tactic(auto, unfolding(skopeo_outside::specs::Steps::Says, crate::specs::Courses::lane_course))]
    pub fn at(alloc: Global, place: &Place) -> Result<Dest, Refusal>
        ensures says { Says lane_course (dest_at place.now) result }
    {
        match place {
            Place::Dir(_) => Ok(Dest::Folder(DirImage::open(alloc, place)?)),
            Place::Docker(_) => Err(Refusal::NotBuilt(Part::Place)),
            Place::Oci(_, _) => Err(Refusal::NotBuilt(Part::Place)),
        }
    }

    /// Empties what may be replaced, its manifests first, and makes the destination.
    pub fn prepare<W: Wire, F: Files>(
        &self,
        alloc: Global,
        lane: &mut Lane<W, F>,
    ) -> Result<(), Refusal>
        requires first { lane.old.number ≡ 0 }
        ensures ends { Ends lane_course (taking self.now) lane.old lane.new result }
        ensures prepared { OnOk result (IsPrepared self.now lane.old lane.new) }
        ensures works { Works self.now lane.old lane.new }
        ensures late { TakesLate self.now lane.old lane.new }
        ensures order { OnErr result (RemovesInOrder self.now lane.old lane.new) }
    {
        match self {
            Dest::Folder(folder) => folder_image::prepare(alloc, lane, folder),
        }
    }

    /// Whether the destination reports a job's blob. A folder reports none.
    #[tactic(auto, using(crate::proofs::SameLemmas::fails_freely, crate::proofs::SameLemmas::works_same, crate::proofs::SameLemmas::keeps_same))]
    pub fn have<W: Wire, F: Files>(
        &self,
        alloc: Global,
        lane: &mut Lane<W, F>,
        job: &Job,
    ) -> Result<bool, Cause>
        ensures has { IfOk result (λ has. IsTrue has → HasBlob self.now job.now lane.old lane.new) }
        ensures reported { IfOk result (λ has. IsTrue has → IsReported self.now job.now lane.old lane.new) }
        ensures failed { IfErr result (λ e. FailsFreely e lane.old lane.new) }
        ensures others { KeepsBlobs self.now job.now lane.old lane.new }
        ensures works { Works self.now lane.old lane.new }
    {
        match self {
            Dest::Folder(_) => Ok(false),
        }
    }

    /// Makes room for a job's blob, of which nothing stands yet.
    pub fn begin_blob<W: Wire, F: Files>(
        &self,
        alloc: Global,
        lane: &mut Lane<W, F>,
        job: &Job,
    ) -> Result<Upload, Cause>
        ensures begun { IfOk result (λ upload. Holds self.now job.now upload lane.old lane.new []) }
        ensures failed { IfErr result (λ e. FailsFreely e lane.old lane.new) }
        ensures part { OnlyPart self.now job.now lane.old lane.new }
        ensures same { OnErr result (lane.new.files.tree ≡ lane.old.files.tree) }
        ensures later { IsLater lane.old lane.new }
        ensures from { lane.new.from ≡ lane.old.from }
    {
        match self {
            Dest::Folder(folder) => folder_dest::begin_blob(alloc, lane, folder, job),
        }
    }

    /// Adds a piece of 1 to 65,536 bytes to a job's blob. A fault may leave some of its first bytes there.
    pub fn add_piece<W: Wire, F: Files>(
        &self,
        alloc: Global,
        lane: &mut Lane<W, F>,
        job: &Job,
        upload: &mut Upload,
        piece: &[u8],
    ) -> Result<(), Cause>
        requires piece { (0 < length piece.now) × (length piece.now ≤ 65536) }
        ensures added { (entry : LaneTold) (bytes : List ℕ) → Holds self.now job.now upload.old entry lane.old bytes
            → OnOk result (Holds self.now job.now upload.new entry lane.new (bytes ++ piece.now)) }
        ensures cut { (entry : LaneTold) (bytes : List ℕ) → Holds self.now job.now upload.old entry lane.old bytes
            → OnErr result (TookSome self.now job.now entry lane.new bytes piece.now) }
        ensures failed { IfErr result (λ e. FailsFreely e lane.old lane.new) }
        ensures part { (entry : LaneTold) (bytes : List ℕ) → Holds self.now job.now upload.old entry lane.old bytes
            → OnlyPart self.now job.now lane.old lane.new }
        ensures later { IsLater lane.old lane.new }
        ensures from { lane.new.from ≡ lane.old.from }
    {
        match self {
            Dest::Folder(folder) => folder_dest::add_piece(alloc, lane, folder, job, upload, piece),
        }
    }

    /// Names a job's blob, which was compared.
    pub fn keep_blob<W: Wire, F: Files>(
        &self,
        alloc: Global,
        lane: &mut Lane<W, F>,
        job: &Job,
        upload: Upload,
    ) -> Result<(), Cause>
        requires whole { HoldsWhole self.now job.now upload lane.old }
        ensures has { (entry : LaneTold) (bytes : List ℕ) → Holds self.now job.now upload entry lane.old bytes
            → OnOk result (HasBlob self.now job.now entry lane.new) }
        ensures failed { IfErr result (λ e. FailsFreely e lane.old lane.new) }
        ensures adds { (entry : LaneTold) (bytes : List ℕ) → Holds self.now job.now upload entry lane.old bytes
            → OnOk result (AddsOnly self.now (λ d. d ≡ job.now.digest) entry lane.new) }
        ensures others { KeepsBlobs self.now job.now lane.old lane.new }
        ensures works { Works self.now lane.old lane.new }
        ensures same { OnErr result (lane.new.files.tree ≡ lane.old.files.tree) }
        ensures part { OnErr result (OnlyPart self.now job.now lane.old lane.new) }
        ensures from { lane.new.from ≡ lane.old.from }
    {
        match self {
            Dest::Folder(folder) => folder_dest::keep_blob(alloc, lane, folder, job, upload),
        }
    }

    /// Gives up a job's blob, in which other bytes were found.
    pub fn drop_blob<W: Wire, F: Files>(
        &self,
        alloc: Global,
        lane: &mut Lane<W, F>,
        job: &Job,
        upload: Upload,
    ) -> Result<(), Cause>
        ensures dropped { (entry : LaneTold) (bytes : List ℕ) → Holds self.now job.now upload entry lane.old bytes
            → OnOk result (LeavesNoPart self.now job.now lane.old lane.new) }
        ensures failed { IfErr result (λ e. FailsFreely e lane.old lane.new) }
        ensures part { (entry : LaneTold) (bytes : List ℕ) → Holds self.now job.now upload entry lane.old bytes
            → OnlyPart self.now job.now lane.old lane.new }
        ensures same { OnErr result (lane.new.files.tree ≡ lane.old.files.tree) }
        ensures later { IsLater lane.old lane.new }
        ensures from { lane.new.from ≡ lane.old.from }
    {
        match self {
            Dest::Folder(folder) => folder_dest::drop_blob(alloc, lane, folder, job),
        }
    }

    /// Writes the signatures of the image, or of its instance with this digest.
    pub fn put_signatures<W: Wire, F: Files>(
        &self,
        alloc: Global,
        lane: &mut Lane<W, F>,
        part: Option<&Digest>,
        signatures: &[Many<u8>],
    ) -> Result<(), Refusal>
        requires first { lane.old.number ≡ 0 }
        ensures ends { Ends lane_course (putting self.now) lane.old lane.new result }
        ensures signed { let digest = option_map (λ d. d.now) part.entry in
            OnOk result (AreSigned self.now digest signatures.now lane.old lane.new) }
        ensures alone { (jobs : List Job) (entry : LaneTold) → IsAlone self.now jobs [] entry lane.old
            → OnOk result (part.entry ≡ None → IsAlone self.now jobs signatures.now entry lane.new) }
        ensures blobs { KeepsAllBlobs self.now lane.old lane.new }
        ensures works { Works self.now lane.old lane.new }
    {
        match self {
            Dest::Folder(folder) => folder_image::put_signatures(
                alloc, lane, folder, part, signatures,
            ),
        }
    }

    /// Writes the manifest of the image, or of its instance with this digest, by its media type.
    pub fn put_manifest<W: Wire, F: Files>(
        &self,
        alloc: Global,
        lane: &mut Lane<W, F>,
        part: Option<&Digest>,
        media: &str,
        bytes: &[u8],
    ) -> Result<(), Refusal>
        requires first { lane.old.number ≡ 0 }
        ensures ends { Ends lane_course (putting self.now) lane.old lane.new result }
        ensures named { let digest = option_map (λ d. d.now) part.entry in
            OnOk result (IsNamed self.now digest bytes.now lane.old lane.new) }
        ensures signed { let digest = option_map (λ d. d.now) part.entry in
            (signatures : List (List ℕ)) (entry : LaneTold) → AreSigned self.now digest signatures entry lane.old
            → AreSigned self.now digest signatures entry lane.new }
        ensures alone { (jobs : List Job) (signatures : List (List ℕ)) (entry : LaneTold) → IsAlone self.now jobs signatures entry lane.old
            → OnOk result (part.entry ≡ None → IsAlone self.now jobs signatures entry lane.new) }
        ensures blobs { KeepsAllBlobs self.now lane.old lane.new }
        ensures writes { let digest = option_map (λ d. d.now) part.entry in
            WritesOnly (spot_of self.now digest) bytes.now lane.old lane.new }
        ensures works { OnErr result (Works self.now lane.old lane.new) }
        ensures only { OnlyAtDest self.now lane.old lane.new }
        ensures fair { IsFairOn self.now lane.old.number lane.old lane.new }
    {
        match self {
            Dest::Folder(folder) => folder_image::put_manifest(
                alloc, lane, folder, part, media, bytes,
            ),
        }
    }
}
