// What fetched bytes are.
ghost use Rattle.std.specs.Prelude.{◌≡◌, false, IfOk};
ghost use Rattle.json_tree.specs.Tree.{tree};
ghost use Rattle.skopeo_outside.specs.Steps.{Says};
ghost use Rattle.manifest_v2s2.specs.IsImage.{SaysImage};
ghost use Rattle.manifest_v2s2.specs.Media.{is_list};
ghost use Rattle.transports.specs.Courses.{lane_course};
ghost use Rattle.admission.specs.Parts.{kind_in, image_in};

use manifest_convert::kind_of;
use manifest_v2s2::{Image, Kind, ManifestFault, read_image_as};
use skopeo_outside::Fetched;
use std::alloc::Global;
use transports::{Part, Refusal};

/// The kind of a manifest that copies are built for.
#[tactic(auto, unfolding(skopeo_outside::specs::Steps::Says, transports::specs::Courses::lane_course, crate::specs::Parts::kind_in))]
pub(crate) fn require_kind(alloc: Global, fetched: &Fetched) -> Result<Kind, Refusal>
    ensures says { Says lane_course (kind_in fetched.now) result }
    ensures image { IfOk result (λ kind. is_list kind ≡ false) }
{
    match kind_of(
        alloc,
        fetched.bytes.as_slice(),
        fetched.content_type.as_str(),
    ) {
        Ok(Kind::V2s2) => Ok(Kind::V2s2),
        Ok(Kind::V2s2List) => Err(Refusal::NotBuilt(Part::Manifest)),
        Ok(Kind::Oci) => Ok(Kind::Oci),
        Ok(Kind::OciIndex) => Err(Refusal::NotBuilt(Part::Manifest)),
        Err(ManifestFault::Memory) => Err(Refusal::Memory),
        Err(ManifestFault::Member(member)) => Err(Refusal::ManifestInvalid(member)),
    }
}

/// The image that a manifest of this kind is.
#[tactic(auto, unfolding(skopeo_outside::specs::Steps::Says, transports::specs::Courses::lane_course, crate::specs::Parts::image_in))]
pub(crate) fn read_parts(alloc: Global, kind: Kind, fetched: &Fetched) -> Result<Image, Refusal>
    requires image { is_list kind ≡ false }
    ensures says { Says lane_course (image_in kind fetched.now) result }
    ensures is { IfOk result (λ image. SaysImage kind (tree fetched.now.bytes) image) }
{
    match read_image_as(alloc, fetched.bytes.as_slice(), kind) {
        Ok(image) => Ok(image),
        Err(ManifestFault::Memory) => Err(Refusal::Memory),
        Err(ManifestFault::Member(member)) => Err(Refusal::ManifestInvalid(member)),
    }
}
