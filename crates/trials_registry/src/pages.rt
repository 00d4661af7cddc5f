// The tags of a repository and the signatures of a manifest, which come in several answers.
ghost use Rattle.registry_http.specs.Requests.{IsAsked};

use crate::script::{ended, ended_last, wire_to};
use crate::sites::{of_abc, registry_at};
use crate::told::{fault_text, text_of};
use image_ref::is_path;
use registry_http::{Registry, RegistryFault, get_signatures, is_base};
use skopeo_outside::{Many, Memory, Text};
use std::alloc::Global;

fn tags_text(alloc: Global, found: &Result<Many<Text>, RegistryFault>) -> Result<String, Memory> {
    match found {
        Ok(tags) => {
            let mut told = Vec::new(alloc);
            for tag in tags.as_slice() {
                told.push(tag.as_str())?;
            }
            Ok(format!(in alloc; "{told:?}")?)
        }
        Err(fault) => fault_text(alloc, fault),
    }
}

fn tags_at(alloc: Global, registry: &Registry, answers: &str) -> Result<Text, Memory>
    requires { IsAsked registry.now }
{
    let mut wire = wire_to(alloc, answers)?;
    let found = registry.tags(alloc, &mut wire);
    ended(alloc, &wire, tags_text(alloc, &found)?.as_str())
}

/// The tags of a repository. A row is `HOST | ANSWERS`.
pub fn tags(alloc: Global, row: &str) -> Result<Text, Memory> {
    let (host, answers) = row.split_once(" | ").unwrap_or((row, ""));
    match registry_at(alloc, host)? {
        Some(registry) => tags_at(alloc, &registry, answers),
        None => Text::from_str(alloc, "no host"),
    }
}

fn signatures_text(
    alloc: Global,
    found: &Result<Many<Many<u8>>, RegistryFault>,
) -> Result<String, Memory> {
    match found {
        Ok(signatures) => {
            let mut told = Vec::new(alloc);
            for signature in signatures.as_slice() {
                told.push(text_of(signature.as_slice()))?;
            }
            Ok(format!(in alloc; "{told:?}")?)
        }
        Err(fault) => fault_text(alloc, fault),
    }
}

/// The signatures at a base, how many requests there were, and the last of them. A row is `BASE PATH | ANSWERS`.
pub fn signatures(alloc: Global, row: &str) -> Result<Text, Memory> {
    let (names, answers) = row.split_once(" | ").unwrap_or((row, ""));
    let (base, path) = names.split_once(" ").unwrap_or((names, ""));
    if !is_base(base) || !is_path(path) {
        return Text::from_str(alloc, "no base or no path");
    }
    let digest = of_abc()?;
    let mut wire = wire_to(alloc, answers)?;
    let found = get_signatures(alloc, &mut wire, base, path, &digest);
    ended_last(alloc, &wire, signatures_text(alloc, &found)?.as_str())
}

/// Whether a text is a base of signatures.
pub fn base(alloc: Global, text: &str) -> Result<Text, Memory> {
    let truth = is_base(text);
    Ok(Text::from_string(format!(in alloc; "{truth}")?))
}
