// The names of an object's members, and the texts at them.
ghost use Rattle.std.specs.Prelude.{◌≡◌, ℕ, List, option_map, map, Bool};
ghost use Rattle.std.specs.List.{list_any};
ghost use Rattle.std.specs.Str.{bytes_eq};
ghost use Rattle.serde_json.specs.View.{view, members_view};
ghost use Rattle.policy_file.specs.Judged.{Judges};
ghost use Rattle.policy_file.specs.Members.{unknown_name, only, has_only, text_at};

use crate::fault::PolicyKind;
use crate::refusal::{Refusal, refused_at};
use serde_json::{Map, Value};
use std::alloc::Global;

fn is_among(names: &[&str], name: &str) -> bool
    ensures { result ≡ list_any (λ n. bytes_eq name.now n.now) names.now }
{
    names.iter().any(|n| *name == **n)
}

/// The least name of a member that is none of these.
fn unknown_name<'m>(names: &[&str], members: &'m Map<String, Value>) -> Option<&'m str>
    ensures { option_map (λ n. n.now) result
        ≡ unknown_name (map (λ n. n.now) names.now) (members_view members.now.entries) }
{
    for (name, _) in members {
        let name = name.as_str();
        if !is_among(names, name) {
            return Some(name);
        }
    }
    None
}

/// That no member has another name than these.
pub(crate) fn only(
    alloc: Global,
    names: &[&str],
    members: &Map<String, Value>,
) -> Result<(), Refusal>
    ensures { Judges result (only (map (λ n. n.now) names.now) (members_view members.now.entries)) }
{
    match unknown_name(names, members) {
        Some(name) => Err(refused_at(alloc, PolicyKind::UnknownKey, name)?),
        None => Ok(()),
    }
}

/// Whether the value is an object and no member has another name than these.
pub(crate) fn has_only(names: &[&str], value: &Value) -> bool
    ensures { result ≡ has_only (map (λ n. n.now) names.now) (view value.now) }
{
    match value {
        Value::Object(members) => unknown_name(names, members).is_none(),
        _ => false,
    }
}

/// The text of a member.
pub(crate) fn text_at<'v>(value: &'v Value, name: &str) -> Option<&'v str>
    ensures { option_map (λ t. t.now) result ≡ text_at name.now (view value.now) }
{
    value.get(name).and_then(Value::as_str)
}
