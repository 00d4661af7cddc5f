ghost use Rattle.std.specs.Prelude.{◌≡◌, ℕ, Option, List, option_map, string_bytes};
ghost use Rattle.serde_json.specs.Data.{Data};
ghost use Rattle.serde_json.specs.View.{view, items_view, members_view};
ghost use Rattle.json_tree.specs.Checked.{Checked, Gives, with_last};
ghost use Rattle.json_tree.specs.Leaf.{text_of, whole_of, items_by, members_by, optional_list, optional_object};

use crate::fault::{Fault, at, both, under};
use crate::path::{Path, Step};
use serde_json::{Map, Value};
use skopeo_outside::{Many, Text};
use std::alloc::Global;

/// A text.
pub fn read_text(alloc: Global, value: Option<&Value>) -> Result<Text, Fault>
    ensures { Gives result (text_of (option_map (λ v. view v.now) value.entry)) }
{
    match value {
        Some(Value::String(text)) => Ok(Text::copy_of(alloc, text.as_str())?),
        _ => Err(Fault::Member(Path::root(alloc))),
    }
}

const LIMIT: u64 = 9_223_372_036_854_775_808;

/// A whole number below 2 ^ 63.
pub fn read_whole(alloc: Global, value: Option<&Value>) -> Result<u64, Fault>
    ensures { Gives result (whole_of (option_map (λ v. view v.now) value.entry)) }
{
    match value.and_then(Value::as_u64) {
        Some(n) if n < LIMIT => Ok(n),
        _ => Err(Fault::Member(Path::root(alloc))),
    }
}

/// The list with one more item at its end, or the nearer fault.
pub fn push<A: Drop>(all: Result<Many<A>, Fault>, one: Result<A, Fault>) -> Result<Many<A>, Fault>
    ensures { (x : Checked (List A)) (y : Checked A) → Gives all x → Gives one y → Gives result (with_last x y) }
{
    let (mut all, one) = both(all, one)?;
    all.push(one)?;
    Ok(all)
}

/// Each item by a function, the first at place 0.
pub fn read_items<A: Drop, F: Fn(Option<&Value>) -> Result<A, Fault>>(
    alloc: Global,
    items: &[Value],
    read: F,
) -> Result<Many<A>, Fault>
    requires { F.IsAlwaysCallable read }
    ensures { (f : Option Data → Checked A)
        → ((v : _) (r : _) → F.post read v r → Gives r (f (option_map (λ v. view v.now) v)))
        → Gives result (items_by f 0 (items_view items.now)) }
{
    let mut all = Ok(Many::new(alloc));
    for (place, item) in items.iter().enumerate() {
        all = push(all, under(Step::Place(place), read(Some(item))));
    }
    all
}

/// Each member by a function of its name and value.
pub fn read_members<A: Drop, F: Fn(&String, Option<&Value>) -> Result<A, Fault>>(
    alloc: Global,
    members: &Map<String, Value>,
    read: F,
) -> Result<Many<A>, Fault>
    requires { F.IsAlwaysCallable read }
    ensures { (f : List ℕ → Option Data → Checked A)
        → ((k : _) (v : _) (r : _) → F.post read k v r
        → Gives r (f (string_bytes k.now) (option_map (λ v. view v.now) v)))
        → Gives result (members_by f (members_view members.now.entries)) }
{
    let mut all = Ok(Many::new(alloc));
    for (name, value) in members {
        all = push(all, at(alloc, name.as_str(), read(name, Some(value))));
    }
    all
}

/// A list, which may be absent or null.
pub fn read_optional_list<A: Drop, F: Fn(Option<&Value>) -> Result<A, Fault>>(
    alloc: Global,
    value: Option<&Value>,
    read: F,
) -> Result<Many<A>, Fault>
    requires { F.IsAlwaysCallable read }
    ensures { (f : Option Data → Checked A)
        → ((v : _) (r : _) → F.post read v r → Gives r (f (option_map (λ v. view v.now) v)))
        → Gives result (optional_list f (option_map (λ v. view v.now) value.entry)) }
{
    match value {
        None => Ok(Many::new(alloc)),
        Some(Value::Null) => Ok(Many::new(alloc)),
        Some(Value::Array(items)) => read_items(alloc, items.as_slice(), read),
        _ => Err(Fault::Member(Path::root(alloc))),
    }
}

/// An object, which may be absent or null.
pub fn read_optional_object<A: Drop, F: Fn(&String, Option<&Value>) -> Result<A, Fault>>(
    alloc: Global,
    value: Option<&Value>,
    read: F,
) -> Result<Many<A>, Fault>
    requires { F.IsAlwaysCallable read }
    ensures { (f : List ℕ → Option Data → Checked A)
        → ((k : _) (v : _) (r : _) → F.post read k v r
        → Gives r (f (string_bytes k.now) (option_map (λ v. view v.now) v)))
        → Gives result (optional_object f (option_map (λ v. view v.now) value.entry)) }
{
    let Some(value) = value else {
        return Ok(Many::new(alloc));
    };
    match value {
        Value::Null => Ok(Many::new(alloc)),
        Value::Object(members) => read_members(alloc, members, read),
        _ => Err(Fault::Member(Path::root(alloc))),
    }
}
