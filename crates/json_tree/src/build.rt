ghost use Rattle.std.specs.Prelude.{◌≡◌, OnOk, OnErr, IfOk, All, map};
ghost use Rattle.serde_json.specs.Data.{Data, string, array, object, no_members, put};
ghost use Rattle.serde_json.specs.View.{view, items_of, members_view};
ghost use Rattle.json_tree.specs.Build.{WasMade, put_all};

use serde_json::{Map, Value};
use skopeo_outside::{Memory, Pair, Text};
use std::alloc::Global;

/// Adds a member, in the place of one with that name. Where memory is wanting the members stay as they were.
pub fn put(
    alloc: Global,
    members: &mut Map<String, Value>,
    name: &str,
    value: Value,
) -> Result<(), Memory>
    ensures put { OnOk result (members_view members.new.entries ≡ put name.now (view value) (members_view members.old.entries)) }
    ensures kept { OnErr result (members.new.entries ≡ members.old.entries) }
{
    let name = String::from_str(alloc, name)?;
    members.insert(name, value)?;
    Ok(())
}

pub fn text_value(alloc: Global, text: &Text) -> Result<Value, Memory>
    ensures { IfOk result (λ v. view v ≡ string text.now) }
{
    Ok(Value::try_from_str(alloc, text.as_str())?)
}

/// The list of what a function makes of each item.
pub fn list_value<A, F: Fn(&A) -> Result<Value, Memory>>(
    alloc: Global,
    items: &[A],
    one: F,
) -> Result<Value, Memory>
    requires { F.IsAlwaysCallable one }
    ensures value { (f : A → Data) → ((x : _) (r : _) → F.post one x r → IfOk r (λ v. view v ≡ f x.now))
        → IfOk result (λ v. view v ≡ array (items_of (map f items.now))) }
    // Each item was made by a call that answered Ok.
    ensures each { OnOk result (All (WasMade (F.post one)) items.now) }
{
    let mut values = Vec::new(alloc);
    for item in items {
        values.push(one(item)?)?;
    }
    Ok(Value::from(values))
}

/// The pairs as an object.
pub fn pairs_value(alloc: Global, pairs: &[Pair]) -> Result<Value, Memory>
    ensures { IfOk result (λ v. view v ≡ object (put_all pairs.now no_members)) }
{
    let mut members = Map::new(alloc);
    for pair in pairs {
        let value = text_value(alloc, &pair.value)?;
        put(alloc, &mut members, pair.name.as_str(), value)?;
    }
    Ok(Value::Object(members))
}
