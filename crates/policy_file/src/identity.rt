// The identity rule of a `signedBy`.
ghost use Rattle.std.specs.Prelude.{◌≡◌, option_map, IfOk, Bool};
ghost use Rattle.serde_json.specs.View.{view};
ghost use Rattle.policy_file.specs.Judged.{Judges};
ghost use Rattle.policy_file.specs.Identity.{reference_at, is_versioned, is_prefix, prefix_at, plain_rule, exact_reference_of, exact_repository_of, remap_of, rule_by, rule_of, identity_of};

use crate::fault::PolicyKind;
use crate::members::{has_only, text_at};
use crate::refusal::{Refusal, refused_at};
use crate::requirement::IdentityRule;
use image_ref::{ImageRef, RefFault, parse_named};
use serde_json::Value;
use skopeo_outside::{Memory, Text};
use std::alloc::Global;

/// The reference that the text of a member names.
fn reference_at(alloc: Global, name: &str, value: &Value) -> Result<Option<ImageRef>, Memory>
    ensures { IfOk result (λ o. o ≡ reference_at name.now (view value.now)) }
{
    let Some(text) = text_at(value, name) else {
        return Ok(None);
    };
    match parse_named(alloc, text) {
        Ok(reference) => Ok(Some(reference)),
        Err(RefFault::Memory) => Err(Memory),
        Err(_) => Ok(None),
    }
}

fn is_versioned(reference: &ImageRef) -> bool
    ensures { result ≡ is_versioned reference.now }
{
    reference.tag().is_some() || reference.digest().is_some()
}

fn is_prefix(text: &str) -> bool
    ensures { result ≡ is_prefix text.now }
{
    !text.is_empty() && !text.as_bytes().ends_with(b"/")
}

fn prefix_at(alloc: Global, name: &str, value: &Value) -> Result<Option<Text>, Memory>
    ensures { IfOk result (λ o. o ≡ prefix_at name.now (view value.now)) }
{
    match text_at(value, name) {
        Some(text) => {
            if is_prefix(text) {
                Ok(Some(Text::from_str(alloc, text)?))
            } else {
                Ok(None)
            }
        }
        None => Ok(None),
    }
}

fn plain_rule(rule: IdentityRule, value: &Value) -> Option<IdentityRule>
    ensures { result ≡ plain_rule rule (view value.now) }
{
    if has_only(&["type"], value) {
        Some(rule)
    } else {
        None
    }
}

fn exact_reference(alloc: Global, value: &Value) -> Result<Option<IdentityRule>, Memory>
    ensures { IfOk result (λ o. o ≡ exact_reference_of (view value.now)) }
{
    if !has_only(&["type", "dockerReference"], value) {
        return Ok(None);
    }
    let Some(reference) = reference_at(alloc, "dockerReference", value)? else {
        return Ok(None);
    };
    if is_versioned(&reference) {
        Ok(Some(IdentityRule::ExactReference(reference)))
    } else {
        Ok(None)
    }
}

fn exact_repository(alloc: Global, value: &Value) -> Result<Option<IdentityRule>, Memory>
    ensures { IfOk result (λ o. o ≡ exact_repository_of (view value.now)) }
{
    if !has_only(&["type", "dockerRepository"], value) {
        return Ok(None);
    }
    match reference_at(alloc, "dockerRepository", value)? {
        Some(reference) => Ok(Some(IdentityRule::ExactRepository(reference))),
        None => Ok(None),
    }
}

fn remap(alloc: Global, value: &Value) -> Result<Option<IdentityRule>, Memory>
    ensures { IfOk result (λ o. o ≡ remap_of (view value.now)) }
{
    if !has_only(&["type", "prefix", "signedPrefix"], value) {
        return Ok(None);
    }
    let Some(prefix) = prefix_at(alloc, "prefix", value)? else {
        return Ok(None);
    };
    match prefix_at(alloc, "signedPrefix", value)? {
        Some(signed) => Ok(Some(IdentityRule::Remap(prefix, signed))),
        None => Ok(None),
    }
}

/// The rule of that type.
#[tactic(auto, unfolding(crate::specs::Identity::rule_by))]
fn rule_by(alloc: Global, word: &str, value: &Value) -> Result<Option<IdentityRule>, Memory>
    ensures { IfOk result (λ o. o ≡ rule_by word.now (view value.now)) }
{
    match word {
        "matchExact" => Ok(plain_rule(IdentityRule::Exact, value)),
        "matchRepoDigestOrExact" => Ok(plain_rule(IdentityRule::RepoDigestOrExact, value)),
        "matchRepository" => Ok(plain_rule(IdentityRule::Repository, value)),
        "exactReference" => exact_reference(alloc, value),
        "exactRepository" => exact_repository(alloc, value),
        "remapIdentity" => remap(alloc, value),
        _ => Ok(None),
    }
}

fn rule_in(alloc: Global, value: &Value) -> Result<Option<IdentityRule>, Memory>
    ensures { IfOk result (λ o. o ≡ rule_of (view value.now)) }
{
    match text_at(value, "type") {
        Some(word) => rule_by(alloc, word, value),
        None => Ok(None),
    }
}

/// The rule of the member `signedIdentity`.
pub(crate) fn identity_in(alloc: Global, value: Option<&Value>) -> Result<IdentityRule, Refusal>
    ensures { Judges result (identity_of (option_map (λ v. view v.now) value.entry)) }
{
    let Some(value) = value else {
        return Ok(IdentityRule::RepoDigestOrExact);
    };
    match rule_in(alloc, value)? {
        Some(rule) => Ok(rule),
        None => Err(refused_at(alloc, PolicyKind::BadIdentity, "signedIdentity")?),
    }
}
