// The images that short names stand for.
use crate::confs::conf_of;
use image_ref::ImageRef;
use registries_conf::{Conf, is_short};
use skopeo_outside::{Memory, Text};
use std::alloc::Global;

fn full_text(alloc: Global, image: &ImageRef) -> Result<String, Memory> {
    let text = image.write_text(alloc)?;
    Ok(String::from_str(alloc, text.as_str())?)
}

fn listed(alloc: Global, images: &[ImageRef]) -> Result<Text, Memory> {
    let mut texts = Vec::new(alloc);
    for image in images {
        texts.push(full_text(alloc, image)?)?;
    }
    Ok(Text::from_string(format!(in alloc; "{texts:?}")?))
}

fn images_of(alloc: Global, conf: &Conf, text: &str) -> Result<Text, Memory> {
    match conf.resolve_short(alloc, text) {
        Ok(images) => listed(alloc, images.as_slice()),
        Err(fault) => Ok(Text::from_string(format!(in alloc; "{fault:?}")?)),
    }
}

/// The images of the name behind a configuration, in order.
pub fn short(alloc: Global, row: &str) -> Result<Text, Memory> {
    let (conf, text) = row.rsplit_once(" | ").unwrap_or(("", row));
    match conf_of(alloc, conf) {
        Ok(conf) => images_of(alloc, &conf, text),
        Err(fault) => Ok(Text::from_string(format!(in alloc; "{fault:?}")?)),
    }
}

/// Whether a text names no host.
pub fn is_short_name(alloc: Global, text: &str) -> Result<Text, Memory> {
    let short = is_short(text);
    Ok(Text::from_string(format!(in alloc; "{short}")?))
}
