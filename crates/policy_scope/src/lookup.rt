// Look-ups of scopes in the policy's ordered maps.
ghost use Rattle.std.specs.Prelude.{◌≡◌, option_map};
ghost use Rattle.policy_file.specs.Lookup.{scopes_for};
ghost use Rattle.policy_scope.specs.Chosen.{scope_at};
ghost use Rattle.policy_scope.specs.Calls.{shortened, first_known, seen};

use policy_file::{Policy, Requirement, Transport};
use skopeo_outside::Text;

/// The scope of that name with its list.
pub(crate) fn scope_at<'p>(
    policy: &'p Policy,
    transport: Transport,
    name: &str,
) -> Option<(&'p str, &'p [Requirement])>
    ensures { seen result ≡ scope_at (scopes_for transport policy.now) name.now }
{
    policy.list_at(transport, name)
}

/// The first of the text, and of what stands before its slashes, that is a scope of the policy.
pub(crate) fn first_front<'p>(
    policy: &'p Policy,
    transport: Transport,
    text: &str,
) -> Option<(&'p str, &'p [Requirement])>
    ensures { seen result ≡ first_known (scopes_for transport policy.now) (shortened text.now) }
{
    let mut name = text;
    loop {
        let found = scope_at(policy, transport, name);
        if found.is_some() {
            return found;
        }
        match name.rfind('/') {
            None => return None,
            Some(slash) => name = name.split_at(slash).0,
        }
    }
}

/// The first of the names that is a scope of the policy.
pub(crate) fn first_of<'p>(
    policy: &'p Policy,
    transport: Transport,
    names: &[Text],
) -> Option<(&'p str, &'p [Requirement])>
    ensures { seen result ≡ first_known (scopes_for transport policy.now) names.now }
{
    for name in names {
        let found = scope_at(policy, transport, name.as_str());
        if found.is_some() {
            return found;
        }
    }
    None
}
