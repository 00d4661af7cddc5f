// Where an image is asked for, and whether it may be asked without TLS.
use crate::confs::conf_of;
use image_ref::{ImageRef, parse_docker};
use registries_conf::{Conf, Source};
use skopeo_outside::{Memory, Text};
use std::alloc::Global;

/// The text of a source, whether it needs TLS, and whether the text is no reference for the image.
fn source_text(alloc: Global, source: &Source) -> Result<String, Memory> {
    let mark = if source.insecure {
        "insecure"
    } else {
        "secure"
    };
    let reading = if source.reference.is_some() {
        ""
    } else {
        " BadRewrite"
    };
    Ok(format!(in alloc; "{} {mark}{reading}", source.text.as_str())?)
}

/// The sources of an image in order.
fn sources_of(alloc: Global, conf: &Conf, image: &ImageRef) -> Result<Text, Memory> {
    match conf.sources(alloc, image) {
        Ok(sources) => listed(alloc, sources.as_slice()),
        Err(fault) => Ok(Text::from_string(format!(in alloc; "{fault:?}")?)),
    }
}

fn listed(alloc: Global, sources: &[Source]) -> Result<Text, Memory> {
    let mut texts = Vec::new(alloc);
    for source in sources {
        texts.push(source_text(alloc, source)?)?;
    }
    Ok(Text::from_string(format!(in alloc; "{texts:?}")?))
}

fn sources_at(alloc: Global, conf: &Conf, text: &str) -> Result<Text, Memory> {
    match parse_docker(alloc, text) {
        Ok(image) => sources_of(alloc, conf, &image),
        Err(fault) => Ok(Text::from_string(format!(in alloc; "{fault:?}")?)),
    }
}

/// The sources of the image behind a configuration.
pub fn sources(alloc: Global, row: &str) -> Result<Text, Memory> {
    let (conf, image) = row.rsplit_once(" | ").unwrap_or(("", row));
    match conf_of(alloc, conf) {
        Ok(conf) => sources_at(alloc, &conf, image),
        Err(fault) => Ok(Text::from_string(format!(in alloc; "{fault:?}")?)),
    }
}

/// The sources of an image under one table with the prefix before it, which leads to `to.local/x`.
pub fn prefix(alloc: Global, row: &str) -> Result<Text, Memory> {
    let (prefix, image) = row.split_once(" ").unwrap_or(("", row));
    let conf = format!(in alloc; "[[registry]];prefix = \"{prefix}\";location = \"to.local/x\"")?;
    match conf_of(alloc, conf.as_str()) {
        Ok(conf) => sources_at(alloc, &conf, image),
        Err(fault) => Ok(Text::from_string(format!(in alloc; "{fault:?}")?)),
    }
}

fn insecure_at(alloc: Global, conf: &Conf, text: &str) -> Result<Text, Memory> {
    match parse_docker(alloc, text) {
        Ok(image) => {
            let insecure = conf.insecure(alloc, &image)?;
            Ok(Text::from_string(format!(in alloc; "{insecure}")?))
        }
        Err(fault) => Ok(Text::from_string(format!(in alloc; "{fault:?}")?)),
    }
}

/// The mark of the image behind a configuration.
pub fn insecure(alloc: Global, row: &str) -> Result<Text, Memory> {
    let (conf, image) = row.rsplit_once(" | ").unwrap_or(("", row));
    match conf_of(alloc, conf) {
        Ok(conf) => insecure_at(alloc, &conf, image),
        Err(fault) => Ok(Text::from_string(format!(in alloc; "{fault:?}")?)),
    }
}
