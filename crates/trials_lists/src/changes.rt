// Conversions of images: the text that is written, or the first member that has none.
ghost use Rattle.std.specs.Prelude.{◌≡◌, ◌<◌, IsTrue, false, length};
ghost use Rattle.manifest_v2s2.specs.Media.{is_list};

use manifest_change::{ConvertFault, conversion, convert};
use manifest_convert::read_any_image;
use manifest_v2s2::{Image, Kind, ManifestFault};
use skopeo_outside::{Many, Memory, Text};
use std::alloc::Global;

/// The text that some bytes are.
pub fn shown(alloc: Global, bytes: &[u8]) -> Result<Text, Memory> {
    Text::from_str(alloc, str::from_utf8(bytes).unwrap_or("no UTF-8"))
}

pub fn fault_text(alloc: Global, fault: &ManifestFault) -> Result<Text, Memory> {
    Ok(Text::from_string(format!(in alloc; "{fault:?}")?))
}

pub fn text_of(alloc: Global, written: Result<Many<u8>, ConvertFault>) -> Result<Text, Memory> {
    match written {
        Ok(bytes) => shown(alloc, bytes.as_slice()),
        Err(fault) => Ok(Text::from_string(format!(in alloc; "{fault:?}")?)),
    }
}

fn kind_named(name: &str) -> Kind
    ensures { is_list result ≡ false }
{
    if name == "Oci" { Kind::Oci } else { Kind::V2s2 }
}

fn has_few_layers(image: &Image) -> bool
    ensures { IsTrue result → length image.now.layers < 100 }
{
    image.layers.len() < 100
}

fn converted_text(
    alloc: Global,
    bytes: &[u8],
    from: Kind,
    to: Kind,
) -> Result<Result<Many<u8>, ConvertFault>, ManifestFault>
    requires of_images { is_list to ≡ false }
{
    let image = read_any_image(alloc, bytes, from)?;
    if !has_few_layers(&image) {
        return Err(ManifestFault::Memory);
    }
    Ok(convert(alloc, &image, to))
}

/// The conversion of an image.
pub fn converted(alloc: Global, row: &str) -> Result<Text, Memory> {
    let (kinds, text) = row.split_once(" | ").unwrap_or(("", row));
    let (from, to) = kinds.split_once(" ").unwrap_or(("", kinds));
    match converted_text(alloc, text.as_bytes(), kind_named(from), kind_named(to)) {
        Ok(written) => text_of(alloc, written),
        Err(fault) => fault_text(alloc, &fault),
    }
}

fn written_text(
    alloc: Global,
    bytes: &[u8],
    from: Kind,
    to: Kind,
) -> Result<Result<Many<u8>, ConvertFault>, ManifestFault>
    requires of_images { is_list to ≡ false }
{
    let image = read_any_image(alloc, bytes, from)?;
    if !has_few_layers(&image) {
        return Err(ManifestFault::Memory);
    }
    Ok(conversion(alloc, bytes, &image, to))
}

/// What is written of an image.
pub fn written(alloc: Global, row: &str) -> Result<Text, Memory> {
    let (kinds, text) = row.split_once(" | ").unwrap_or(("", row));
    let (from, to) = kinds.split_once(" ").unwrap_or(("", kinds));
    match written_text(alloc, text.as_bytes(), kind_named(from), kind_named(to)) {
        Ok(written) => text_of(alloc, written),
        Err(fault) => fault_text(alloc, &fault),
    }
}

fn back_text(
    alloc: Global,
    bytes: &[u8],
    from: Kind,
    to: Kind,
) -> Result<Result<Many<u8>, ConvertFault>, ManifestFault>
    requires from_images { is_list from ≡ false }
    requires to_images { is_list to ≡ false }
{
    match converted_text(alloc, bytes, from, to)? {
        Ok(there) => converted_text(alloc, there.as_slice(), to, from),
        Err(fault) => Ok(Err(fault)),
    }
}

/// The conversion, converted to the first kind.
pub fn back(alloc: Global, row: &str) -> Result<Text, Memory> {
    let (kinds, text) = row.split_once(" | ").unwrap_or(("", row));
    let (from, to) = kinds.split_once(" ").unwrap_or(("", kinds));
    match back_text(alloc, text.as_bytes(), kind_named(from), kind_named(to)) {
        Ok(written) => text_of(alloc, written),
        Err(fault) => fault_text(alloc, &fault),
    }
}
