// What a source gives of an image.
ghost use Rattle.std.specs.Prelude.{◌≡◌, ◌+◌, ◌<◌, ◌≤◌, ◌^◌, [], List, ℕ, false, IfOk, IfErr, length};
ghost use Rattle.std.specs.Option.{option_map};
ghost use Rattle.skopeo_outside.specs.LaneTold.{LaneTold, IsLater};
ghost use Rattle.skopeo_outside.specs.Steps.{Ends};
ghost use Rattle.transports.specs.Courses.{lane_course};
ghost use Rattle.transports.specs.StepEnds.{reading, FailsBy};
ghost use Rattle.transports.specs.Given.{Spares, SignaturesEnd, HasGiven, Rests, count_of};
ghost use Rattle.transports.specs.Has.{IsUntouched};
ghost use Rattle.transports.specs.Next.{IsReadyOn, GivesNext};
ghost use Rattle.transports.specs.Registries.{IsClosed};
ghost use Rattle.transports.specs.Uploads.{is_mismatch};

use crate::blob::Blob;
use crate::refusal::Refusal;
use crate::store::Store;
use crate::stored::stored_signatures;
use crate::{folder_source, registry_source};
use copy_workers::Cause;
use digest_reader::Job;
use image_ref::{Digest, ImageRef};
use layouts::DirImage;
use skopeo_outside::{Files, Lane, Many, Wire};
use std::alloc::Global;

/// Where an image comes from, one variant a kind that is built.
#[derive(Debug, Drop)]
pub enum Source {
    /// A folder of the transport `dir`.
    Folder(DirImage),
    /// A registry: the location that answered, which may be asked over plain HTTP.
    Registry(ImageRef),
}

impl Source {
    /// The signatures of the image, or of its instance with this digest. Those of an image at a registry stand in its store,
    /// where it has one, under the manifest's digest.
    pub fn read_signatures<W: Wire, F: Files>(
        &self,
        alloc: Global,
        lane: &mut Lane<W, F>,
        store: &Option<Store>,
        part: Option<&Digest>,
    ) -> Result<Many<Many<u8>>, Refusal>
        ensures ends { let digest = option_map (λ d. d.now) part.entry in
            Ends lane_course (reading (SignaturesEnd self.now store.now digest)) lane.old lane.new result }
        ensures untouched { IsUntouched lane.old lane.new }
        ensures spares { Spares self.now lane.old lane.new }
    {
        match self {
            Source::Folder(folder) => folder_source::read_signatures(alloc, lane, folder, part),
            Source::Registry(_) => stored_signatures(alloc, lane, store),
        }
    }

    /// A job's blob, of which nothing was read.
    pub fn open_blob<W: Wire, F: Files>(
        &self,
        alloc: Global,
        lane: &mut Lane<W, F>,
        job: &Job,
    ) -> Result<Blob, Cause>
        ensures opened { IfOk result (λ blob. HasGiven self.now job.now blob lane.old lane.new []) }
        ensures failed { IfErr result (λ e. FailsBy self.now job.now e lane.old lane.new) }
        ensures unjudged { IfErr result (λ e. is_mismatch e ≡ false) }
        ensures untouched { IsUntouched lane.old lane.new }
        ensures later { IsLater lane.old lane.new }
    {
        match self {
            Source::Folder(folder) => folder_source::open_blob(alloc, lane, folder, job),
            Source::Registry(reference) => {
                registry_source::open_blob(alloc, lane, reference, job)
            }
        }
    }

    /// Reads the next 1 to 65,536 bytes of a job's blob, and says how many; 0 only at its end. The wire of an answer is to be
    /// the one that it was opened on, and not to be used in between.
    pub fn next_piece<W: Wire, F: Files>(
        &self,
        alloc: Global,
        lane: &mut Lane<W, F>,
        job: &Job,
        blob: &mut Blob,
        into: &mut [u8],
    ) -> Result<usize, Cause>
        requires room { (0 < length into.old) × (length into.old ≤ 65536) }
        requires few { count_of blob.old + length into.old < 2 ^ 61 }
        requires ready { IsReadyOn blob.old lane.old }
        ensures count { IfOk result (λ count. count ≤ length into.old) }
        ensures gives { (entry : LaneTold) (given : List ℕ) → HasGiven self.now job.now blob.old entry lane.old given
            → GivesNext self.now job.now blob.new entry lane.new given into.new result }
        ensures untouched { IsUntouched lane.old lane.new }
        ensures number { lane.new.number ≡ lane.old.number }
    {
        match blob {
            Blob::File(path, count) => {
                folder_source::next_piece(lane, job, path.as_str(), count, into)
            }
            Blob::Answer(answer, count) => {
                registry_source::next_piece(alloc, lane, answer, count, into)
            }
        }
    }

    /// Closes the connection of a source of which no more is wanted.
    #[tactic(auto, using(crate::proofs::RegistryLemmas::rests_folder, crate::proofs::RegistryLemmas::rests_closed))]
    pub fn close<W: Wire, F: Files>(&self, lane: &mut Lane<W, F>)
        ensures rests { Rests self.now lane.new }
        ensures same { IsClosed lane.old lane.new }
    {
        match self {
            Source::Folder(_) => {}
            Source::Registry(_) => lane.from.close(),
        }
    }
}
