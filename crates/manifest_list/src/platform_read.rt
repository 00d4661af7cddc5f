// Platforms, read of a tree.
ghost use Rattle.std.specs.Prelude.{◌≡◌, ℕ, ◌++◌, [], List, Option, Some, option_map, IfOk, OnOk};
ghost use Rattle.serde_json.specs.Data.{Data, object};
ghost use Rattle.serde_json.specs.View.{view, items_view, members_view};
ghost use Rattle.json_tree.specs.Checked.{Checked, Gives, checked_map};
ghost use Rattle.json_tree.specs.Leaf.{items_by, text_of};
ghost use Rattle.manifest_list.specs.Platform.{kept, platform_in, platform_of, platform_with, several, text_there, value_kept, with_member};

use crate::platform::{MemberValue, Platform, PlatformMember};
use json_tree::{Fault, Path, at, both, read_items, read_text};
use serde_json::{Map, Value};
use skopeo_outside::{Many, Memory, Text};
use std::alloc::Global;

fn texts_in(alloc: Global, items: &[Value]) -> Result<Many<Text>, Fault>
    ensures { Gives result (items_by text_of 0 (items_view items.now)) }
{
    read_items(alloc, items, |value| read_text(alloc, value))
}

fn several(read: Result<Many<Text>, Fault>) -> Result<Option<MemberValue>, Memory>
    ensures { (x : Checked (List (List ℕ))) → Gives read x → IfOk result (λ o. o ≡ several x) }
{
    match read {
        Ok(texts) => Ok(Some(MemberValue::Several(texts))),
        Err(Fault::Member(_)) => Ok(None),
        Err(Fault::Memory) => Err(Memory),
    }
}

fn value_kept(alloc: Global, value: &Value) -> Result<Option<MemberValue>, Memory>
    ensures { IfOk result (λ o. o ≡ value_kept (view value.now)) }
{
    match value {
        Value::String(text) => Ok(Some(MemberValue::One(Text::copy_of(alloc, text.as_str())?))),
        Value::Array(items) => several(texts_in(alloc, items.as_slice())),
        _ => Ok(None),
    }
}

fn push_member(
    alloc: Global,
    all: &mut Many<PlatformMember>,
    name: &str,
    value: Option<MemberValue>,
) -> Result<(), Memory>
    ensures { OnOk result (all.new ≡ all.old ++ with_member name.now value []) }
{
    match value {
        Some(value) => {
            let name = Text::copy_of(alloc, name)?;
            all.push(PlatformMember { name, value })
        }
        None => Ok(()),
    }
}

/// The members that are texts or lists of texts.
fn kept(alloc: Global, members: &Map<String, Value>) -> Result<Many<PlatformMember>, Memory>
    ensures { IfOk result (λ all. all ≡ kept (members_view members.now.entries)) }
{
    let mut all = Many::new(alloc);
    for (name, value) in members {
        let value = value_kept(alloc, value)?;
        push_member(alloc, &mut all, name.as_str(), value)?;
    }
    Ok(all)
}

fn text_there(alloc: Global, value: Option<&Value>) -> Result<Option<Text>, Memory>
    ensures { IfOk result (λ o. o ≡ text_there (option_map (λ v. view v.now) value.entry)) }
{
    match value {
        Some(Value::String(text)) => Ok(Some(Text::copy_of(alloc, text.as_str())?)),
        _ => Ok(None),
    }
}

fn platform_with(
    alloc: Global,
    value: &Value,
    members: &Map<String, Value>,
    read: Result<(Text, Text), Fault>,
) -> Result<Platform, Fault>
    requires { view value.now ≡ object (members_view members.now.entries) }
    ensures { (x : Checked (List ℕ × List ℕ)) → Gives read x
        → Gives result (checked_map (platform_with (members_view members.now.entries)) x) }
{
    let (arch, os) = read?;
    let variant = text_there(alloc, value.get("variant"))?;
    let members = kept(alloc, members)?;
    Ok(Platform {
        os,
        arch,
        variant,
        members,
    })
}

fn platform_in(
    alloc: Global,
    value: &Value,
    members: &Map<String, Value>,
) -> Result<Platform, Fault>
    requires { view value.now ≡ object (members_view members.now.entries) }
    ensures { Gives result (platform_in (members_view members.now.entries)) }
{
    let arch = at(
        alloc,
        "architecture",
        read_text(alloc, value.get("architecture")),
    );
    let os = at(alloc, "os", read_text(alloc, value.get("os")));
    platform_with(alloc, value, members, both(arch, os))
}

fn some_platform(read: Result<Platform, Fault>) -> Result<Option<Platform>, Fault>
    ensures { (x : Checked Platform) → Gives read x → Gives result (checked_map (λ p. Some p) x) }
{
    Ok(Some(read?))
}

/// A platform, which may be absent.
pub(crate) fn read_platform(alloc: Global, value: Option<&Value>) -> Result<Option<Platform>, Fault>
    ensures { Gives result (platform_of (option_map (λ v. view v.now) value.entry)) }
{
    let Some(value) = value else {
        return Ok(None);
    };
    match value {
        Value::Object(members) => some_platform(platform_in(alloc, value, members)),
        _ => Err(Fault::Member(Path::root(alloc))),
    }
}
