// A blob of an image, written piece by piece into the part of a lane.
ghost use Rattle.std.specs.Prelude.{◌≡◌, [], OnOk, OnErr, length};
ghost use Rattle.std.specs.Option.{option_map};
ghost use Rattle.skopeo_outside.specs.Outside.{Told};
ghost use Rattle.skopeo_outside.specs.Tree.{with_file, without_file, with_more, with_moved, HasPartOf};
ghost use Rattle.oci_layout.specs.Layout.{blob_path, blob_part};
ghost use Rattle.layouts.specs.Pieces.{IsRoom};
ghost use Rattle.layouts.specs.Faults.{StopsFreely, LayoutCause};

use crate::image::OciImage;
use crate::paths::blob_part;
use digest_reader::Job;
use layouts::LayoutFault;
use skopeo_outside::Files;
use std::alloc::Global;

impl OciImage {
    /// Makes the lane's part of a job's blob empty.
    #[tactic(auto, using(layouts::proofs::FaultLemmas::free_stop))]
    pub fn begin_blob<F: Files>(
        &self,
        alloc: Global,
        files: &mut F,
        lane: u32,
        job: &Job,
    ) -> Result<(), LayoutFault>
        ensures begun { let part = blob_part self.now.folder job.now.digest lane in
            OnOk result (F.tree files.new ≡ option_map (λ t. with_file t part []) (F.tree files.old)) }
        ensures kept { OnErr result (F.tree files.new ≡ F.tree files.old) }
        ensures free { StopsFreely result }
        ensures cause { LayoutCause (F.faults files.old) (F.faults files.new) result }
    {
        let part = blob_part(alloc, self.folder.as_str(), &job.digest, lane)?;
        files.create(part.as_str())?;
        Ok(())
    }

    /// Adds a piece of 1 to 65,536 bytes at the end of the lane's part of a job's blob. `Files` may leave some of its first
    /// bytes there.
    #[tactic(auto, using(layouts::proofs::FaultLemmas::free_stop, layouts::proofs::BlobLemmas::none_of))]
    pub fn add_piece<F: Files>(
        &self,
        alloc: Global,
        files: &mut F,
        lane: u32,
        job: &Job,
        bytes: &[u8],
    ) -> Result<(), LayoutFault>
        requires piece { IsRoom (length bytes.now) }
        ensures added { let part = blob_part self.now.folder job.now.digest lane in
            OnOk result (F.tree files.new ≡ option_map (λ t. with_more t part bytes.now) (F.tree files.old)) }
        ensures cut { let part = blob_part self.now.folder job.now.digest lane in
            OnErr result (Told (HasPartOf part bytes.now) (F.tree files.old) (F.tree files.new)) }
        ensures free { StopsFreely result }
        ensures cause { LayoutCause (F.faults files.old) (F.faults files.new) result }
    {
        let part = blob_part(alloc, self.folder.as_str(), &job.digest, lane)?;
        files.append(part.as_str(), bytes)?;
        Ok(())
    }

    /// Names the lane's part of a job's blob as the blob.
    #[tactic(auto, using(layouts::proofs::FaultLemmas::free_stop))]
    pub fn keep_blob<F: Files>(
        &self,
        alloc: Global,
        files: &mut F,
        lane: u32,
        job: &Job,
    ) -> Result<(), LayoutFault>
        ensures named { let part = blob_part self.now.folder job.now.digest lane in let path = blob_path self.now.folder job.now.digest in
            OnOk result (F.tree files.new ≡ option_map (λ t. with_moved t part path) (F.tree files.old)) }
        ensures kept { OnErr result (F.tree files.new ≡ F.tree files.old) }
        ensures free { StopsFreely result }
        ensures cause { LayoutCause (F.faults files.old) (F.faults files.new) result }
    {
        let part = blob_part(alloc, self.folder.as_str(), &job.digest, lane)?;
        let path = self.blob_path(alloc, &job.digest)?;
        files.rename(part.as_str(), path.as_str())?;
        Ok(())
    }

    /// Removes the lane's part of a job's blob.
    #[tactic(auto, using(layouts::proofs::FaultLemmas::free_stop))]
    pub fn drop_blob<F: Files>(
        &self,
        alloc: Global,
        files: &mut F,
        lane: u32,
        job: &Job,
    ) -> Result<(), LayoutFault>
        ensures dropped { let part = blob_part self.now.folder job.now.digest lane in
            OnOk result (F.tree files.new ≡ option_map (λ t. without_file t part) (F.tree files.old)) }
        ensures kept { OnErr result (F.tree files.new ≡ F.tree files.old) }
        ensures free { StopsFreely result }
        ensures cause { LayoutCause (F.faults files.old) (F.faults files.new) result }
    {
        let part = blob_part(alloc, self.folder.as_str(), &job.digest, lane)?;
        files.remove(part.as_str())?;
        Ok(())
    }
}
