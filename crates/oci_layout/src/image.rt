// An image in an OCI layout.
ghost use Rattle.std.specs.Prelude.{◌≡◌, ◌⊎◌, List, ℕ, Option, [], IfOk, IfErr, IfSome, OnOk, OnErr, Ok, false, true, length, option_map};
ghost use Rattle.skopeo_outside.specs.Outside.{Told};
ghost use Rattle.skopeo_outside.specs.Tree.{file_at};
ghost use Rattle.digest_reader.specs.Digests.{digest};
ghost use Rattle.layouts.specs.Faults.{Answers, StopsFreely, LayoutCause, is_free};
ghost use Rattle.oci_layout.specs.Layout.{IsOci, IsOciOf, blob_path};
ghost use Rattle.oci_layout.specs.Source.{IsManifest, IsInstance, is_sized, is_of_oci};
ghost use Rattle.oci_layout.specs.Destination.{MayReplace, JudgesDestination, IsReady, IsHalfReady};
ghost use Rattle.oci_layout.specs.Written.{entry_for, JudgesPut, IsManifestPut, IsNotEntered};

use crate::destination::prepare;
use crate::paths::blob_path;
use crate::source::{read_blob, read_manifest};
use crate::written::{enter_manifest, put_instance};
use digest_reader::Job;
use image_ref::{Digest, Place};
use layouts::LayoutFault;
use skopeo_outside::{Fetched, Files, Many, Memory, Text};
use std::alloc::Global;

/// An image in an OCI layout.
#[derive(Debug, Drop)]
pub struct OciImage {
    /// The layout's folder.
    pub folder: Text,
    /// The ref name of the image's entry, where one was given.
    pub name: Option<Text>,
}

fn name_in(name: &Option<Text>) -> Option<&str>
    ensures { option_map (λ t. t.now) result ≡ name.now }
{
    match name {
        Some(name) => Some(name.as_str()),
        None => None,
    }
}

fn copy_name(alloc: Global, name: &Option<Text>) -> Result<Option<Text>, Memory>
    ensures { IfOk result (λ copy. copy ≡ name.now) }
{
    match name {
        Some(name) => Ok(Some(Text::copy_of(alloc, name.as_str())?)),
        None => Ok(None),
    }
}

#[tactic(auto, using(crate::proofs::FoundLemmas::sized_some, crate::proofs::FoundLemmas::sized_none))]
fn is_sized(found: Option<u64>, size: u64) -> bool
    ensures { (file : Option (List ℕ)) → found ≡ option_map length file → result ≡ is_sized size file }
{
    match found {
        Some(found) => found == size,
        None => false,
    }
}

impl OciImage {
    /// The image of a layout. Its error is want of memory.
    pub fn open(alloc: Global, place: &Place) -> Result<OciImage, Memory>
        requires place { IsOci place.now }
        ensures image { IfOk result (λ image. IsOciOf place.now image.folder image.name) }
    {
        match place {
            Place::Oci(path, name) => Ok(OciImage {
                folder: Text::copy_of(alloc, path.as_str())?,
                name: copy_name(alloc, name)?,
            }),
            _ => unreachable!(),
        }
    }

    /// The layout's folder.
    pub fn folder(&self) -> &str
        ensures folder { result.now ≡ self.now.folder }
    {
        self.folder.as_str()
    }

    /// Where the blob of this digest stands. Its error is want of memory.
    pub fn blob_path(&self, alloc: Global, digest: &Digest) -> Result<Text, Memory>
        ensures path { IfOk result (λ path. path ≡ blob_path self.now.folder digest.now) }
    {
        blob_path(alloc, self.folder.as_str(), digest)
    }

    /// Whether the blob of this job is taken to be there already: exactly where its file has the job's size. Its bytes are not
    /// looked at.
    #[tactic(auto, using(layouts::proofs::FaultLemmas::free_stop))]
    pub fn have_blob<F: Files>(
        &self,
        alloc: Global,
        files: &mut F,
        job: &Job,
    ) -> Result<bool, LayoutFault>
        ensures sized { let path = blob_path self.now.folder job.now.digest in
            IfSome (F.tree files.old) (λ t. IfOk result (λ found. found ≡ is_sized job.now.size (file_at t path))) }
        ensures free { StopsFreely result }
        ensures same { F.tree files.new ≡ F.tree files.old }
        ensures cause { LayoutCause (F.faults files.old) (F.faults files.new) result }
    {
        let path = blob_path(alloc, self.folder.as_str(), &job.digest)?;
        let found = files.size(path.as_str())?;
        Ok(is_sized(found, job.size))
    }

    /// The manifest of the entry with the place's ref name, or of the one entry where it has none, with the entry's media type.
    /// `LayoutInvalid` where there is no index, or by its first bad member; `RefAbsent` where no entry fits, and `RefAmbiguous`
    /// where several do; then `LayoutInvalid` where the manifest's blob is absent, `TooLarge` of an index and of a manifest of
    /// more than 4,194,304 bytes, and `Digest` where the blob has another one than its entry says.
    pub fn read_manifest<F: Files>(
        &self,
        alloc: Global,
        files: &mut F,
    ) -> Result<Fetched, LayoutFault>
        ensures read { IfSome (F.tree files.old) (λ t. Answers (IsManifest t self.now.folder self.now.name) result) }
        ensures of_oci { IfErr result (λ e. is_of_oci e ≡ true) }
        ensures same { F.tree files.new ≡ F.tree files.old }
        ensures cause { LayoutCause (F.faults files.old) (F.faults files.new) result }
    {
        read_manifest(alloc, files, self.folder.as_str(), name_in(&self.name))
    }

    /// The manifest of an instance of a list, by its digest, without a content type. `LayoutInvalid` where its blob is absent,
    /// `TooLarge` where it has more than 4,194,304 bytes, and `Digest` where they have another digest.
    pub fn read_instance<F: Files>(
        &self,
        alloc: Global,
        files: &mut F,
        digest: &Digest,
    ) -> Result<Fetched, LayoutFault>
        ensures read { IfSome (F.tree files.old) (λ t. Answers (IsInstance t self.now.folder digest.now) result) }
        ensures of_oci { IfErr result (λ e. is_of_oci e ≡ true) }
        ensures same { F.tree files.new ≡ F.tree files.old }
        ensures cause { LayoutCause (F.faults files.old) (F.faults files.new) result }
    {
        read_blob(alloc, files, self.folder.as_str(), Text::new(alloc), digest)
    }

    /// No signatures: a layout has none.
    pub fn read_signatures<F: Files>(
        &self,
        alloc: Global,
        files: &mut F,
        instance: Option<&Digest>,
    ) -> Result<Many<Many<u8>>, LayoutFault>
        ensures none { result ≡ Ok [] }
        ensures same { F.tree files.new ≡ F.tree files.old }
        ensures cause { LayoutCause (F.faults files.old) (F.faults files.new) result }
    {
        Ok(Many::new(alloc))
    }

    /// Makes the folder of blobs, with its parents, and the file `oci-layout` where it is absent. `LayoutInvalid`, with nothing
    /// touched, exactly where `oci-layout` is there and is none, or else an index is there and is none; `TooLarge` where one of
    /// them has more than 4,194,304 bytes. Nothing is removed. `Files` or `Memory` leave at most the part of `oci-layout`.
    pub fn prepare<F: Files>(&self, alloc: Global, files: &mut F) -> Result<(), LayoutFault>
        ensures judged { IfSome (F.tree files.old) (λ t. Answers (JudgesDestination t self.now.folder) result) }
        ensures ready { OnOk result (Told (IsReady self.now.folder) (F.tree files.old) (F.tree files.new)) }
        ensures kept { OnErr result (Told (IsHalfReady self.now.folder) (F.tree files.old) (F.tree files.new)) }
        ensures of_oci { IfErr result (λ e. is_of_oci e ≡ true) }
        ensures refused { IfErr result (λ e. is_free e ≡ false → F.tree files.new ≡ F.tree files.old) }
        ensures late { (F.tree files.new ≡ F.tree files.old) ⊎ IfSome (F.tree files.old) (λ t. MayReplace t self.now.folder) }
        ensures cause { LayoutCause (F.faults files.old) (F.faults files.new) result }
    {
        prepare(alloc, files, self.folder.as_str())
    }

    /// Writes no signatures: a layout keeps none.
    pub fn put_signatures<F: Files>(
        &self,
        files: &mut F,
        instance: Option<&Digest>,
        signatures: &[Many<u8>],
    ) -> Result<(), LayoutFault>
        requires none { signatures.now ≡ [] }
        ensures put { result ≡ Ok tt }
        ensures same { F.tree files.new ≡ F.tree files.old }
        ensures cause { LayoutCause (F.faults files.old) (F.faults files.new) result }
    {
        Ok(())
    }

    /// Writes the blob of the image's manifest, and then the index with an entry for it: the last one, with the place's ref name.
    /// Entries of that name go, or, without a name, those of the same digest that have none; all others stay in order. Of an
    /// instance the blob alone is written. `LayoutInvalid` and `TooLarge`, with nothing touched, come of the index that is there,
    /// and `TooLarge` also where the new one has more than 4,194,304 bytes. `Files` or `Memory` leave the index as it was.
    #[tactic(auto, using(crate::proofs::FoundLemmas::free_oci, crate::proofs::FoundLemmas::free_not_refused))]
    pub fn put_manifest<F: Files>(
        &self,
        alloc: Global,
        files: &mut F,
        instance: Option<&Digest>,
        media: &str,
        bytes: &[u8],
    ) -> Result<(), LayoutFault>
        ensures judged { let entry = entry_for self.now.name media.now bytes.now in let of_instance = option_map (λ d. d.now) instance.entry in
            IfSome (F.tree files.old) (λ t. Answers (JudgesPut t self.now.folder of_instance entry) result) }
        ensures put { let entry = entry_for self.now.name media.now bytes.now in let of_instance = option_map (λ d. d.now) instance.entry in
            OnOk result (Told (IsManifestPut self.now.folder of_instance entry bytes.now) (F.tree files.old) (F.tree files.new)) }
        ensures kept { OnErr result (Told (IsNotEntered self.now.folder (digest bytes.now) bytes.now) (F.tree files.old) (F.tree files.new)) }
        ensures of_oci { IfErr result (λ e. is_of_oci e ≡ true) }
        ensures refused { IfErr result (λ e. is_free e ≡ false → F.tree files.new ≡ F.tree files.old) }
        ensures cause { LayoutCause (F.faults files.old) (F.faults files.new) result }
    {
        match instance {
            None => enter_manifest(
                alloc,
                files,
                self.folder.as_str(),
                name_in(&self.name),
                media,
                bytes,
            ),
            Some(_) => put_instance(alloc, files, self.folder.as_str(), bytes),
        }
    }
}
