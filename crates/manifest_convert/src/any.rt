ghost use Rattle.json_tree.specs.Tree.{tree};
ghost use Rattle.manifest_v2s2.specs.Calls.{Reads, NamesFirstBad, TellsOnly};
ghost use Rattle.manifest_v2s2.specs.IsImage.{SaysImage};
ghost use Rattle.manifest_convert.specs.AnyImage.{any_image_of, BadAnyImage};

use manifest_v2s2::{Image, Kind, ManifestFault, read_image_as};
use skopeo_outside::Text;
use std::alloc::Global;

/// The image of that kind that the bytes are, or the first bad member. No bytes are an image of a list's kind: then
/// the member is the root, whose pointer is empty.
pub fn read_any_image(alloc: Global, bytes: &[u8], kind: Kind) -> Result<Image, ManifestFault>
    ensures exact { Reads result (any_image_of kind (tree bytes.now)) }
    ensures first { NamesFirstBad result (BadAnyImage kind (tree bytes.now)) }
    // The same in the words of the format alone.
    ensures format { TellsOnly (SaysImage kind (tree bytes.now)) result }
{
    if kind.is_list() {
        return Err(ManifestFault::Member(Text::new(alloc)));
    }
    read_image_as(alloc, bytes, kind)
}
