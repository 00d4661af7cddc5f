ghost use Rattle.std.specs.Prelude.{◌≡◌, option_map};
ghost use Rattle.policy_file.specs.Lookup.{scopes_for};
ghost use Rattle.policy_scope.specs.Chosen.{transport_of, chosen};
ghost use Rattle.policy_scope.specs.Scopes.{image_scopes, path_scopes, scopes};
ghost use Rattle.policy_scope.specs.Calls.{first_known, seen};

use crate::docker::DockerName;
use crate::identity::{Identity, Judged};
use crate::lookup::{first_front, first_of, scope_at};
use policy_file::{Policy, Requirement, Transport};

/// The list that counts for an image, and the scope that has it, or `None` for the default list.
#[derive(Clone, Copy, Debug)]
pub struct Chosen<'p> {
    pub scope: Option<&'p str>,
    pub list: &'p [Requirement],
}

fn image_scope<'p>(policy: &'p Policy, name: &DockerName) -> Option<(&'p str, &'p [Requirement])>
    ensures { seen result ≡ first_known policy.now.docker (image_scopes name.now) }
{
    let whole = scope_at(policy, Transport::Docker, name.whole());
    if whole.is_some() {
        return whole;
    }
    let front = first_front(policy, Transport::Docker, name.repository());
    if front.is_some() {
        return front;
    }
    let wildcard = first_of(policy, Transport::Docker, name.wildcards());
    if wildcard.is_some() {
        return wildcard;
    }
    scope_at(policy, Transport::Docker, "")
}

fn path_scope<'p>(
    policy: &'p Policy,
    transport: Transport,
    path: &str,
) -> Option<(&'p str, &'p [Requirement])>
    ensures { seen result ≡ first_known (scopes_for transport policy.now) (path_scopes path.now) }
{
    let front = first_front(policy, transport, path);
    if front.is_some() {
        return front;
    }
    scope_at(policy, transport, "")
}

/// The most specific scope of the image that the policy has.
fn first_scope<'p>(policy: &'p Policy, identity: &Identity) -> Option<(&'p str, &'p [Requirement])>
    ensures { let there = scopes_for (transport_of identity.now) policy.now in
        seen result ≡ first_known there (scopes identity.now) }
{
    match &identity.judged {
        Judged::Docker(name) => image_scope(policy, name),
        Judged::Dir(path) => path_scope(policy, Transport::Dir, path.as_str()),
        Judged::Oci(path, _) => path_scope(policy, Transport::Oci, path.as_str()),
    }
}

/// The list of the most specific scope of the image that the policy has, else the default list.
/// It takes no memory: each scope of the image is looked up in the policy's ordered map.
pub fn choose<'p>(policy: &'p Policy, identity: &Identity) -> Chosen<'p>
    ensures scope { let wanted = chosen policy.now identity.now in
        option_map (λ s. s.now) result.scope ≡ wanted.scope }
    ensures list { result.list.now ≡ (chosen policy.now identity.now).list }
{
    match first_scope(policy, identity) {
        Some((scope, list)) => Chosen {
            scope: Some(scope),
            list,
        },
        None => Chosen {
            scope: None,
            list: policy.default_list(),
        },
    }
}
