// The identity rules, each put to the name of an image and to the name that was signed.
use identity_match::matches;
use image_ref::{ImageRef, RefFault, parse_docker, parse_named};
use policy_file::IdentityRule;
use skopeo_outside::{Memory, Text};
use std::alloc::Global;

/// The rule of a type, with the reference behind it, or the prefix and the one in its place.
fn rule_of(alloc: Global, words: &str) -> Result<IdentityRule, RefFault> {
    let (name, value) = words.split_once(" ").unwrap_or((words, ""));
    match name {
        "matchExact" => Ok(IdentityRule::Exact),
        "matchRepository" => Ok(IdentityRule::Repository),
        "exactReference" => Ok(IdentityRule::ExactReference(parse_named(alloc, value)?)),
        "exactRepository" => Ok(IdentityRule::ExactRepository(parse_named(alloc, value)?)),
        "remapIdentity" => remap_of(alloc, value),
        _ => Ok(IdentityRule::RepoDigestOrExact),
    }
}

fn remap_of(alloc: Global, prefixes: &str) -> Result<IdentityRule, RefFault> {
    let (prefix, signed) = prefixes.split_once(" ").unwrap_or((prefixes, ""));
    let prefix = Text::from_str(alloc, prefix)?;
    Ok(IdentityRule::Remap(prefix, Text::from_str(alloc, signed)?))
}

/// The name of an image, and none for an image of a folder.
fn image_of(alloc: Global, text: &str) -> Result<Option<ImageRef>, RefFault> {
    if text == "none" {
        return Ok(None);
    }
    Ok(Some(parse_docker(alloc, text)?))
}

fn is_match(alloc: Global, rule: &str, image: &str, signed: &str) -> Result<bool, RefFault> {
    let rule = rule_of(alloc, rule)?;
    let image = image_of(alloc, image)?;
    let signed = parse_named(alloc, signed)?;
    Ok(matches(&rule, image.as_ref(), &signed))
}

/// Whether the rule holds of the signed name behind that of the image.
pub fn rule(alloc: Global, row: &str) -> Result<Text, Memory> {
    let (rule, names) = row.split_once(" | ").unwrap_or(("", row));
    let (image, signed) = names.split_once(" | ").unwrap_or((names, ""));
    match is_match(alloc, rule, image, signed) {
        Ok(holds) => Ok(Text::from_string(format!(in alloc; "{holds}")?)),
        Err(fault) => Ok(Text::from_string(format!(in alloc; "{fault:?}")?)),
    }
}
