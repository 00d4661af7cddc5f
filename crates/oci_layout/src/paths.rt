// Paths of a layout's files.
ghost use Rattle.std.specs.Prelude.{◌≡◌, IfOk};
ghost use Rattle.oci_layout.specs.Layout.{blob_path, blob_part, manifest_part};

use image_ref::Digest;
use layouts::in_folder;
use skopeo_outside::{Memory, Text};
use std::alloc::Global;

/// Where the blob of this digest stands.
pub fn blob_path(alloc: Global, folder: &str, digest: &Digest) -> Result<Text, Memory>
    ensures { IfOk result (λ path. path ≡ blob_path folder.now digest.now) }
{
    let blobs = in_folder(alloc, folder, "blobs/sha256")?;
    layouts::blob_path(alloc, blobs.as_str(), digest)
}

/// Where the lane of this number writes the blob until it is whole.
pub fn blob_part(alloc: Global, folder: &str, digest: &Digest, lane: u32) -> Result<Text, Memory>
    ensures { IfOk result (λ path. path ≡ blob_part folder.now digest.now lane) }
{
    let digits = hex::encode(alloc, digest.as_bytes())?;
    let digits = digits.as_str();
    let name = format!(in alloc; "{digits}.part-{lane}")?;
    in_folder(alloc, folder, name.as_str())
}

/// Where a manifest is written until it is whole.
pub fn manifest_part(alloc: Global, folder: &str, digest: &Digest) -> Result<Text, Memory>
    ensures { IfOk result (λ path. path ≡ manifest_part folder.now digest.now) }
{
    let digits = hex::encode(alloc, digest.as_bytes())?;
    let digits = digits.as_str();
    let name = format!(in alloc; "{digits}.part")?;
    in_folder(alloc, folder, name.as_str())
}
