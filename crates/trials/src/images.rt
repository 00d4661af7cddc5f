// Manifests: an image is told by the manifest that is written of it, a fault by the pointer of its member.
ghost use Rattle.std.specs.Prelude.{◌<◌, IsTrue, length};

use digest_reader::Job;
use manifest_convert::{blobs_of, kind_of, read_any_image};
use manifest_v2s2::{Image, Kind, ManifestFault, read_image, write_image};
use percent_encoding::percent_decode;
use skopeo_outside::{Many, Memory, Text};
use std::alloc::Global;

fn fault_text(alloc: Global, fault: &ManifestFault) -> Result<Text, Memory> {
    Ok(Text::from_string(format!(in alloc; "{fault:?}")?))
}

/// The text that some bytes are.
fn shown(alloc: Global, bytes: &[u8]) -> Result<Text, Memory> {
    Text::from_str(alloc, str::from_utf8(bytes).unwrap_or("no UTF-8"))
}

fn image_text(alloc: Global, read: Result<Image, ManifestFault>) -> Result<Text, Memory> {
    match read {
        Ok(image) => shown(alloc, write_image(alloc, &image)?.as_slice()),
        Err(fault) => fault_text(alloc, &fault),
    }
}

/// The schema 2 image that the bytes are.
pub fn image(alloc: Global, bytes: &[u8]) -> Result<Text, Memory> {
    image_text(alloc, read_image(alloc, bytes))
}

/// The same, where `%XX` stands for a byte.
pub fn image_bytes(alloc: Global, text: &str) -> Result<Text, Memory> {
    let mut bytes = Vec::new(alloc);
    percent_decode(text.as_bytes()).append_to(&mut bytes)?;
    image(alloc, bytes.as_slice())
}

/// The OCI image that a text is, as the writer of these writes it.
pub fn oci(alloc: Global, text: &str) -> Result<Text, Memory> {
    match manifest_oci::read_image(alloc, text.as_bytes()) {
        Ok(image) => shown(alloc, manifest_oci::write_image(alloc, &image)?.as_slice()),
        Err(fault) => fault_text(alloc, &fault),
    }
}

fn kind_named(name: &str) -> Kind {
    match name {
        "V2s2List" => Kind::V2s2List,
        "Oci" => Kind::Oci,
        "OciIndex" => Kind::OciIndex,
        _ => Kind::V2s2,
    }
}

/// The image that a text is, whose kind stands before it.
pub fn any(alloc: Global, row: &str) -> Result<Text, Memory> {
    let (kind, text) = row.split_once(" | ").unwrap_or(("", row));
    image_text(
        alloc,
        read_any_image(alloc, text.as_bytes(), kind_named(kind)),
    )
}

/// The OCI image that a text is, written as one of the kind that stands before it.
pub fn written(alloc: Global, row: &str) -> Result<Text, Memory> {
    let (kind, text) = row.split_once(" | ").unwrap_or(("", row));
    match manifest_oci::read_image(alloc, text.as_bytes()) {
        Ok(read) => {
            let image = Image {
                kind: kind_named(kind),
                config: read.config,
                layers: read.layers,
            };
            shown(alloc, manifest_oci::write_image(alloc, &image)?.as_slice())
        }
        Err(fault) => fault_text(alloc, &fault),
    }
}

/// The image once more, of copies of its descriptors.
fn copy_of(alloc: Global, image: &Image) -> Result<Image, Memory> {
    let mut layers = Many::new(alloc);
    for layer in image.layers.as_slice() {
        layers.push(layer.copy(alloc)?)?;
    }
    Ok(Image {
        kind: image.kind,
        config: image.config.copy(alloc)?,
        layers,
    })
}

/// A copy of the schema 2 image that a text is.
pub fn copied(alloc: Global, text: &str) -> Result<Text, Memory> {
    match read_image(alloc, text.as_bytes()) {
        Ok(image) => image_text(alloc, Ok(copy_of(alloc, &image)?)),
        Err(fault) => fault_text(alloc, &fault),
    }
}

/// The kind of a manifest, before which its content type stands.
pub fn kind(alloc: Global, row: &str) -> Result<Text, Memory> {
    let (content_type, text) = row.split_once(" | ").unwrap_or(("", row));
    match kind_of(alloc, text.as_bytes(), content_type) {
        Ok(kind) => Ok(Text::from_string(format!(in alloc; "{kind:?}")?)),
        Err(fault) => fault_text(alloc, &fault),
    }
}

fn has_few_layers(image: &Image) -> bool
    ensures { IsTrue result → length image.now.layers < 100 }
{
    image.layers.len() < 100
}

/// The number, the digest and the size of each job.
fn jobs_text(alloc: Global, jobs: &[Job]) -> Result<Text, Memory> {
    let mut text = Text::new(alloc);
    for job in jobs {
        let digest = job.digest.write_digest(alloc)?;
        let (number, size) = (job.number, job.size);
        let one = format!(in alloc; "{number} {} {size}; ", digest.as_str())?;
        text.push_str(one.as_str())?;
    }
    Ok(text)
}

/// The jobs of the schema 2 image that a text is.
pub fn blobs(alloc: Global, text: &str) -> Result<Text, Memory> {
    match read_image(alloc, text.as_bytes()) {
        Ok(image) => {
            if !has_few_layers(&image) {
                return Text::from_str(alloc, "too many layers for a row");
            }
            jobs_text(alloc, blobs_of(alloc, &image)?.as_slice())
        }
        Err(fault) => fault_text(alloc, &fault),
    }
}
