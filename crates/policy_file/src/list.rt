// Lists of requirements.
ghost use Rattle.std.specs.Prelude.{◌≡◌, ◌∷◌, codes, MatchResult, Ok};
ghost use Rattle.serde_json.specs.Data.{object};
ghost use Rattle.serde_json.specs.View.{view, items_view, members_view};
ghost use Rattle.policy_file.specs.Judged.{Judges, IsRefusal};
ghost use Rattle.policy_file.specs.PolicyOf.{items_by, type_word, plain_of, signed_by_of, by_type, requirement_of, some_of, list_of};

use crate::fault::PolicyKind;
use crate::identity::identity_in;
use crate::keys::keys_in;
use crate::members::{only, text_at};
use crate::refusal::{Refusal, at_place, refused, refused_at};
use crate::requirement::Requirement;
use serde_json::{Map, Value};
use skopeo_outside::Many;
use std::alloc::Global;

fn word_of<'v>(alloc: Global, value: &'v Value) -> Result<&'v str, Refusal>
    ensures { MatchResult result (λ w. type_word (view value.now) ≡ Ok w.now)
        (λ e. IsRefusal e (type_word (view value.now))) }
{
    match text_at(value, "type") {
        Some(word) => Ok(word),
        None => Err(refused_at(alloc, PolicyKind::Shape, "type")?),
    }
}

#[tactic(auto, unfolding(crate::specs::PolicyOf::plain_of))]
fn plain_in(
    alloc: Global,
    requirement: Requirement,
    members: &Map<String, Value>,
) -> Result<Requirement, Refusal>
    ensures { Judges result (plain_of requirement (members_view members.now.entries)) }
{
    only(alloc, &["type"], members)?;
    Ok(requirement)
}

#[tactic(auto, unfolding(crate::specs::PolicyOf::signed_by_of))]
fn signed_by_in(
    alloc: Global,
    value: &Value,
    members: &Map<String, Value>,
) -> Result<Requirement, Refusal>
    requires { view value.now ≡ object (members_view members.now.entries) }
    ensures { Judges result (signed_by_of (members_view members.now.entries)) }
{
    let names = [
        "type",
        "keyData",
        "keyPath",
        "keyPaths",
        "keyType",
        "signedIdentity",
    ];
    only(alloc, &names, members)?;
    let keys = keys_in(alloc, value)?;
    let rule = identity_in(alloc, value.get("signedIdentity"))?;
    Ok(Requirement::SignedBy(keys, rule))
}

#[tactic(auto, unfolding(crate::specs::PolicyOf::by_type))]
fn by_type(
    alloc: Global,
    word: &str,
    value: &Value,
    members: &Map<String, Value>,
) -> Result<Requirement, Refusal>
    requires { view value.now ≡ object (members_view members.now.entries) }
    ensures { Judges result (by_type word.now (members_view members.now.entries)) }
{
    match word {
        "insecureAcceptAnything" => plain_in(alloc, Requirement::Accept, members),
        "reject" => plain_in(alloc, Requirement::Reject, members),
        "signedBy" => signed_by_in(alloc, value, members),
        "sigstoreSigned" => Ok(Requirement::Sigstore),
        _ => Err(refused_at(alloc, PolicyKind::UnknownType, "type")?),
    }
}

fn requirement_in(alloc: Global, value: &Value) -> Result<Requirement, Refusal>
    ensures { Judges result (requirement_of (view value.now)) }
{
    match value {
        Value::Object(members) => by_type(alloc, word_of(alloc, value)?, value, members),
        _ => Err(refused(alloc, PolicyKind::Shape)),
    }
}

/// Each requirement in turn.
fn requirements_in(alloc: Global, items: &[Value]) -> Result<Many<Requirement>, Refusal>
    ensures { Judges result (items_by requirement_of 0 (items_view items.now)) }
{
    let mut list = Many::new(alloc);
    for (place, item) in items.iter().enumerate() {
        let requirement = at_place(place, requirement_in(alloc, item))?;
        list.push(requirement)?;
    }
    Ok(list)
}

fn some_in(alloc: Global, items: &[Value]) -> Result<Many<Requirement>, Refusal>
    ensures { Judges result (some_of (items_view items.now)) }
{
    if items.is_empty() {
        return Err(refused(alloc, PolicyKind::EmptyList));
    }
    requirements_in(alloc, items)
}

/// A list of one or more requirements.
pub(crate) fn list_in(alloc: Global, value: &Value) -> Result<Many<Requirement>, Refusal>
    ensures { Judges result (list_of (view value.now)) }
{
    match value {
        Value::Array(items) => some_in(alloc, items.as_slice()),
        _ => Err(refused(alloc, PolicyKind::Shape)),
    }
}
