// A layout as a source.
ghost use Rattle.std.specs.Prelude.{◌≡◌, option_map, IfErr, IfSome, true};
ghost use Rattle.layouts.specs.Faults.{Answers, LayoutCause};
ghost use Rattle.oci_layout.specs.Source.{is_of_bytes, compared, fetched, manifest_at, entry_in, IsManifest, is_of_oci};

use crate::index::pick;
use crate::paths::blob_path;
use digest_reader::digest_of;
use image_ref::Digest;
use layouts::{LayoutFault, Limited, in_folder, limit, read_limited};
use manifest_v2s2::Descriptor;
use skopeo_outside::{Fetched, Files, Many, Text, What};
use std::alloc::Global;

fn compared(expected: &Digest, media: Text, bytes: Many<u8>) -> Result<Fetched, LayoutFault>
    ensures is { result ≡ compared expected.now media bytes }
    ensures of_bytes { IfErr result (λ e. is_of_bytes e ≡ true) }
{
    let found = digest_of(bytes.as_slice());
    if found == *expected {
        Ok(Fetched {
            bytes,
            content_type: media,
        })
    } else {
        Err(LayoutFault::Digest(*expected, found))
    }
}

/// The manifest of this digest that a limited file is, or why there is none.
fn fetched(
    alloc: Global,
    expected: &Digest,
    media: Text,
    file: Limited,
) -> Result<Fetched, LayoutFault>
    ensures is { result ≡ fetched expected.now media file }
    ensures of_bytes { IfErr result (λ e. is_of_bytes e ≡ true) }
{
    match file {
        Limited::Absent => Err(LayoutFault::LayoutInvalid(Text::new(alloc))),
        Limited::TooLong => Err(LayoutFault::TooLarge(What::Manifest, limit() as u64 + 1)),
        Limited::Whole(bytes) => compared(expected, media, bytes),
    }
}

/// The manifest of this digest, with a content type.
#[tactic(auto, using(layouts::proofs::FaultLemmas::free_stop, crate::proofs::FoundLemmas::oci_stop, crate::proofs::FoundLemmas::found_oci, crate::proofs::FoundLemmas::found_cause))]
pub fn read_blob<F: Files>(
    alloc: Global,
    files: &mut F,
    folder: &str,
    media: Text,
    digest: &Digest,
) -> Result<Fetched, LayoutFault>
    ensures read { IfSome (F.tree files.old) (λ t. Answers (λ r. r ≡ manifest_at t folder.now media digest.now) result) }
    ensures of_oci { IfErr result (λ e. is_of_oci e ≡ true) }
    ensures same { F.tree files.new ≡ F.tree files.old }
    ensures cause { LayoutCause (F.faults files.old) (F.faults files.new) result }
{
    let path = blob_path(alloc, folder, digest)?;
    let file = read_limited(alloc, files, path.as_str())?;
    fetched(alloc, digest, media, file)
}

/// The entry that is asked for.
#[tactic(auto, using(layouts::proofs::FaultLemmas::free_stop, crate::proofs::FoundLemmas::oci_stop, crate::proofs::FoundLemmas::found_oci, crate::proofs::FoundLemmas::found_cause))]
fn read_entry<F: Files>(
    alloc: Global,
    files: &mut F,
    folder: &str,
    name: Option<&str>,
) -> Result<Descriptor, LayoutFault>
    ensures read { let name = option_map (λ t. t.now) name.entry in
        IfSome (F.tree files.old) (λ t. Answers (λ r. r ≡ entry_in t folder.now name) result) }
    ensures of_oci { IfErr result (λ e. is_of_oci e ≡ true) }
    ensures same { F.tree files.new ≡ F.tree files.old }
    ensures cause { LayoutCause (F.faults files.old) (F.faults files.new) result }
{
    let path = in_folder(alloc, folder, "index.json")?;
    let file = read_limited(alloc, files, path.as_str())?;
    pick(alloc, name, file)
}

/// The manifest of the entry that is asked for, with its media type.
#[tactic(auto, using(layouts::proofs::FaultLemmas::free_stop, crate::proofs::FoundLemmas::oci_stop, crate::proofs::FoundLemmas::found_oci, crate::proofs::FoundLemmas::found_cause))]
pub fn read_manifest<F: Files>(
    alloc: Global,
    files: &mut F,
    folder: &str,
    name: Option<&str>,
) -> Result<Fetched, LayoutFault>
    ensures read { let name = option_map (λ t. t.now) name.entry in
        IfSome (F.tree files.old) (λ t. Answers (IsManifest t folder.now name) result) }
    ensures of_oci { IfErr result (λ e. is_of_oci e ≡ true) }
    ensures same { F.tree files.new ≡ F.tree files.old }
    ensures cause { LayoutCause (F.faults files.old) (F.faults files.new) result }
{
    let entry = read_entry(alloc, files, folder, name)?;
    let digest = entry.digest;
    read_blob(alloc, files, folder, entry.media, &digest)
}
