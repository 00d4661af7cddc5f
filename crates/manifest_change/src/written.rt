ghost use Rattle.std.specs.Prelude.{◌≡◌, ◌≢◌, ◌-◌, ◌<◌, ◌^◌, false, length, IfOk, Ok, Option};
ghost use Rattle.serde_json.specs.Data.{Data};
ghost use Rattle.manifest_v2s2.specs.IsImage.{SaysImage};
ghost use Rattle.manifest_v2s2.specs.Media.{is_list};
ghost use Rattle.manifest_change.specs.Changed.{Answers, converted};
ghost use Rattle.manifest_change.specs.IsChange.{ByRows, IsReadAgain};

use crate::change::changed;
use crate::fault::ConvertFault;
use manifest_v2s2::{Image, Kind, write_image};
use skopeo_outside::{Many, Memory};
use std::alloc::Global;

/// The text of an image as one of the kind `to`, an image's, or its first member that has no conversion, the config
/// before the layers. An image has fewer than 2^32 - 16 layers.
pub fn convert(alloc: Global, image: &Image, to: Kind) -> Result<Many<u8>, ConvertFault>
    requires of_images { is_list to ≡ false }
    requires few { length image.now.layers < 2 ^ 32 - 16 }
    ensures exact { Answers result (converted to image.now) }
    // The same by the rows of the table of media types.
    ensures rows { ByRows to image.now result }
    // The text of an image that some tree says is read again; what it becomes in the first kind is that image once more.
    ensures again { (d : Option Data) → SaysImage image.now.kind d image.now
        → IfOk result (IsReadAgain to image.now) }
{
    let new = changed(alloc, image, to)?;
    Ok(write_image(alloc, &new)?)
}

fn copy_of(alloc: Global, bytes: &[u8]) -> Result<Many<u8>, Memory>
    ensures { IfOk result (λ copy. copy ≡ bytes.now) }
{
    let mut copy = Many::new(alloc);
    copy.extend(bytes)?;
    Ok(copy)
}

/// What is written, as one of the kind `to`, of an image that was read from these bytes: the bytes themselves where they
/// are of that kind, else the text of its conversion.
pub fn conversion(
    alloc: Global,
    bytes: &[u8],
    image: &Image,
    to: Kind,
) -> Result<Many<u8>, ConvertFault>
    requires of_images { is_list to ≡ false }
    requires few { length image.now.layers < 2 ^ 32 - 16 }
    ensures kept { image.now.kind ≡ to → Answers result (Ok bytes.now) }
    ensures changed { image.now.kind ≢ to → Answers result (converted to image.now) }
    ensures rows { image.now.kind ≢ to → ByRows to image.now result }
{
    if image.kind == to {
        return Ok(copy_of(alloc, bytes)?);
    }
    convert(alloc, image, to)
}
