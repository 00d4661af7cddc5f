ghost use Rattle.std.specs.Prelude.{◌≡◌, IfOk, Some, Ok};
ghost use Rattle.serde_json.specs.Written.{compact_text};
ghost use Rattle.json_tree.specs.Tree.{tree};
ghost use Rattle.manifest_v2s2.specs.declared.kind.Kind.TheVariants.{Oci};
ghost use Rattle.manifest_v2s2.specs.Bad.{BadImage};
ghost use Rattle.manifest_v2s2.specs.Calls.{Reads, NamesFirstBad, TellsOnly};
ghost use Rattle.manifest_v2s2.specs.Image.{image_of};
ghost use Rattle.manifest_v2s2.specs.Written.{image_data};
ghost use Rattle.manifest_oci.specs.OciImage.{SaysOciImage};
ghost use Rattle.manifest_oci.specs.Calls.{IsWritableOci};

use manifest_v2s2::{Image, Kind, ManifestFault, read_image_as};
use skopeo_outside::{Many, Memory};
use std::alloc::Global;

/// The OCI image that the bytes are (OCI Image Specification 1.1, "OCI Image Manifest Specification").
///
/// A fault is the pointer (RFC 6901) of the first bad member: of those at the least depth the first in byte order of
/// names and by number of places; the empty pointer where the bytes are no JSON object.
pub fn read_image(alloc: Global, bytes: &[u8]) -> Result<Image, ManifestFault>
    ensures exact { Reads result (image_of Oci (tree bytes.now)) }
    ensures first { NamesFirstBad result (BadImage Oci (tree bytes.now)) }
    // The same in the words of the format alone.
    ensures format { TellsOnly (SaysOciImage (tree bytes.now)) result }
{
    read_image_as(alloc, bytes, Kind::Oci)
}

/// The compact text of an image, with the media type of its kind.
pub fn write_image(alloc: Global, image: &Image) -> Result<Many<u8>, Memory>
    ensures text { IfOk result (λ b. b ≡ compact_text (image_data image.now)) }
    ensures tree { IfOk result (λ b. tree b ≡ Some (image_data image.now)) }
    // What is written is read again as the same image, and the format says no other.
    ensures again { IsWritableOci image.now → IfOk result (λ b. image_of Oci (tree b) ≡ Ok image.now) }
    ensures format { IsWritableOci image.now → IfOk result (λ b. SaysOciImage (tree b) image.now) }
{
    manifest_v2s2::write_image(alloc, image)
}
