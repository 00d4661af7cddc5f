// The identity rule of a `signedBy`.
ghost use Rattle.std.specs.Prelude.{◌≡◌, ◌↔◌, IsTrue, Some, None, option_map};
ghost use Rattle.image_ref.specs.Reference.{repository_of};
ghost use Rattle.identity_match.specs.Match.{IsMatch, IsSame};

use crate::names::{has_repository, is_default, is_same};
use crate::remap::is_remapped;
use image_ref::ImageRef;
use policy_file::IdentityRule;

/// Whether a rule holds of a signed name for an image with a reference.
fn matches_named(rule: &IdentityRule, named: &ImageRef, signed: &ImageRef) -> bool
    ensures { IsTrue result ↔ IsMatch rule.now (Some named.now) signed.now }
{
    match rule {
        IdentityRule::Exact => is_same(named, signed),
        IdentityRule::RepoDigestOrExact => is_default(named, signed),
        IdentityRule::Repository => has_repository(named, signed),
        IdentityRule::ExactReference(own) => is_same(own, signed),
        IdentityRule::ExactRepository(own) => has_repository(own, signed),
        IdentityRule::Remap(prefix, front) => {
            is_remapped(prefix.as_str(), front.as_str(), named, signed)
        }
    }
}

/// Whether a rule holds of a signed name for an image without a reference: only the two exact rules can.
fn matches_unnamed(rule: &IdentityRule, signed: &ImageRef) -> bool
    ensures { IsTrue result ↔ IsMatch rule.now None signed.now }
{
    match rule {
        IdentityRule::Exact => false,
        IdentityRule::RepoDigestOrExact => false,
        IdentityRule::Repository => false,
        IdentityRule::ExactReference(own) => is_same(own, signed),
        IdentityRule::ExactRepository(own) => has_repository(own, signed),
        IdentityRule::Remap(_, _) => false,
    }
}

/// Whether a rule holds of a signed name, for the image that was named so, or has no reference. The table of the
/// rules stands at the head of `specs/Match.antt`. It takes no memory: texts are compared piece by piece.
pub fn matches(rule: &IdentityRule, named: Option<&ImageRef>, signed: &ImageRef) -> bool
    ensures exact { IsTrue result ↔ IsMatch rule.now (option_map (λ r. r.now) named.entry) signed.now }
{
    match named {
        Some(named) => matches_named(rule, named, signed),
        None => matches_unnamed(rule, signed),
    }
}
