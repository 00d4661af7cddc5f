// The policy of a file.
ghost use Rattle.std.specs.Prelude.{◌≡◌, ◌↔◌, Ok, Err, option_map};
ghost use Rattle.serde_json.specs.Data.{object};
ghost use Rattle.serde_json.specs.View.{view, members_view};
ghost use Rattle.policy_file.specs.Judged.{Judges};
ghost use Rattle.image_ref.specs.Calls.{Answers};
ghost use Rattle.json_tree.specs.Tree.{tree};
ghost use Rattle.policy_file.specs.FirstFault.{IsFirstPolicyFault};
ghost use Rattle.policy_file.specs.IsPolicy.{IsPolicy};
ghost use Rattle.policy_file.specs.PolicyLists.{PolicyLists};
ghost use Rattle.policy_file.specs.PolicyOf.{members_by, scope_of, scopes_of, with_transports, transports_of, default_of, members_of, policy_of, policy_in};

use crate::fault::{PolicyFault, PolicyKind};
use crate::list::list_in;
use crate::members::only;
use crate::policy::Policy;
use crate::refusal::{Refusal, at, refused, refused_at, told};
use crate::requirement::Requirement;
use crate::scopes::Scopes;
use json_tree::read_tree;
use serde_json::{Map, Value};
use skopeo_outside::Many;
use std::alloc::Global;

/// Each scope in turn.
fn scopes_from(alloc: Global, members: &Map<String, Value>) -> Result<Scopes, Refusal>
    ensures { Judges result (members_by scope_of (members_view members.now.entries)) }
{
    let mut scopes = Scopes::new(alloc);
    for (name, value) in members {
        let list = at(alloc, name.as_str(), list_in(alloc, value))?;
        scopes.add(alloc, name.as_str(), list)?;
    }
    Ok(scopes)
}

fn scopes_in(alloc: Global, value: &Value) -> Result<Scopes, Refusal>
    ensures { Judges result (scopes_of (view value.now)) }
{
    match value {
        Value::Object(members) => scopes_from(alloc, members),
        _ => Err(refused(alloc, PolicyKind::Shape)),
    }
}

/// The policy with the scopes of each transport in turn.
fn with_transports(
    alloc: Global,
    mut policy: Policy,
    members: &Map<String, Value>,
) -> Result<Policy, Refusal>
    ensures { Judges result (with_transports policy (members_view members.now.entries)) }
{
    for (name, value) in members {
        let scopes = at(alloc, name.as_str(), scopes_in(alloc, value))?;
        policy.keep(name.as_str(), scopes);
    }
    Ok(policy)
}

fn transports_in(alloc: Global, policy: Policy, value: Option<&Value>) -> Result<Policy, Refusal>
    ensures { Judges result (transports_of policy (option_map (λ v. view v.now) value.entry)) }
{
    let Some(value) = value else {
        return Ok(policy);
    };
    match value {
        Value::Object(members) => at(alloc, "transports", with_transports(alloc, policy, members)),
        _ => Err(refused_at(alloc, PolicyKind::Shape, "transports")?),
    }
}

fn default_in(alloc: Global, value: Option<&Value>) -> Result<Many<Requirement>, Refusal>
    ensures { Judges result (default_of (option_map (λ v. view v.now) value.entry)) }
{
    match value {
        Some(value) => at(alloc, "default", list_in(alloc, value)),
        None => Err(refused(alloc, PolicyKind::NoDefault)),
    }
}

#[tactic(auto, unfolding(crate::specs::PolicyOf::members_of))]
fn members_in(alloc: Global, value: &Value, members: &Map<String, Value>) -> Result<Policy, Refusal>
    requires { view value.now ≡ object (members_view members.now.entries) }
    ensures { Judges result (members_of (members_view members.now.entries)) }
{
    only(alloc, &["default", "transports"], members)?;
    let list = default_in(alloc, value.get("default"))?;
    let policy = Policy::of_default(alloc, list);
    transports_in(alloc, policy, value.get("transports"))
}

/// The policy that a tree is, or its first fault.
fn policy_in(alloc: Global, value: Option<&Value>) -> Result<Policy, Refusal>
    ensures { Judges result (policy_of (option_map (λ v. view v.now) value.entry)) }
{
    let Some(value) = value else {
        return Err(refused(alloc, PolicyKind::NotJson));
    };
    match value {
        Value::Object(members) => members_in(alloc, value, members),
        _ => Err(refused(alloc, PolicyKind::Shape)),
    }
}

/// The policy that the bytes of a file are, or their first fault with its place
/// (containers-policy.json(5)). Of a member that is repeated the last counts.
pub fn read_policy(alloc: Global, bytes: &[u8]) -> Result<Policy, PolicyFault>
    ensures exact { Answers PolicyFault.Memory result (policy_in bytes.now) }
    ensures grammar { (lists : PolicyLists)
        → (policy_in bytes.now ≡ Ok lists) ↔ IsPolicy (tree bytes.now) lists }
    ensures faults { (e : PolicyFault)
        → (policy_in bytes.now ≡ Err e) ↔ IsFirstPolicyFault (tree bytes.now) e }
{
    let tree = read_tree(alloc, bytes)?;
    match policy_in(alloc, tree.as_ref()) {
        Ok(policy) => Ok(policy),
        Err(refusal) => Err(told(alloc, refusal)),
    }
}
