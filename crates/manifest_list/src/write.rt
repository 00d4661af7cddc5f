ghost use Rattle.std.specs.Prelude.{◌≡◌, ℕ, codes, List, Option, IfOk, OnOk, Some, map};
ghost use Rattle.serde_json.specs.Data.{Data, string, number, unsigned, array, object, no_members, put};
ghost use Rattle.serde_json.specs.View.{view, items_of, members_view};
ghost use Rattle.serde_json.specs.Written.{compact_text};
ghost use Rattle.json_tree.specs.Tree.{tree};
ghost use Rattle.manifest_v2s2.specs.Written.{texts_data};
ghost use Rattle.manifest_list.specs.Written.{entry_data, list_data, platform_data, put_members, value_data, with_platform};

use crate::list::{List, ListEntry};
use crate::platform::{MemberValue, Platform, PlatformMember};
use json_tree::{list_value, put, text_value};
use manifest_v2s2::descriptor_value;
use serde_json::{Map, Value};
use skopeo_outside::{Many, Memory, Text};
use std::alloc::Global;

fn texts_value(alloc: Global, texts: &[Text]) -> Result<Value, Memory>
    ensures { IfOk result (λ v. view v ≡ texts_data texts.now) }
{
    list_value(alloc, texts, |text| text_value(alloc, text))
}

fn member_value(alloc: Global, value: &MemberValue) -> Result<Value, Memory>
    ensures { IfOk result (λ v. view v ≡ value_data value.now) }
{
    match value {
        MemberValue::One(text) => text_value(alloc, text),
        MemberValue::Several(texts) => texts_value(alloc, texts.as_slice()),
    }
}

fn platform_members(alloc: Global, all: &[PlatformMember]) -> Result<Map<String, Value>, Memory>
    ensures { IfOk result (λ ms. members_view ms.entries ≡ put_members all.now no_members) }
{
    let mut members = Map::new(alloc);
    for member in all {
        let value = member_value(alloc, &member.value)?;
        put(alloc, &mut members, member.name.as_str(), value)?;
    }
    Ok(members)
}

fn platform_value(alloc: Global, platform: &Platform) -> Result<Value, Memory>
    ensures { IfOk result (λ v. view v ≡ platform_data platform.now) }
{
    Ok(Value::Object(platform_members(alloc, platform.members.as_slice())?))
}

fn with_platform(alloc: Global, platform: &Option<Platform>, value: Value) -> Result<Value, Memory>
    ensures { IfOk result (λ v. view v ≡ with_platform platform.now (view value)) }
{
    let Some(platform) = platform else {
        return Ok(value);
    };
    match value {
        Value::Object(members) => {
            let mut members = members;
            put(
                alloc,
                &mut members,
                "platform",
                platform_value(alloc, platform)?,
            )?;
            Ok(Value::Object(members))
        }
        other => Ok(other),
    }
}

fn entry_value(alloc: Global, entry: &ListEntry) -> Result<Value, Memory>
    ensures { IfOk result (λ v. view v ≡ entry_data entry.now) }
{
    let value = descriptor_value(alloc, &entry.target)?;
    with_platform(alloc, &entry.platform, value)
}

fn entries_value(alloc: Global, entries: &[ListEntry]) -> Result<Value, Memory>
    ensures { IfOk result (λ v. view v ≡ array (items_of (map entry_data entries.now))) }
{
    list_value(alloc, entries, |entry| entry_value(alloc, entry))
}

#[tactic(auto, unfolding(crate::specs::Written::list_data))]
fn list_value_of(alloc: Global, list: &List) -> Result<Value, Memory>
    ensures { IfOk result (λ v. view v ≡ list_data list.now) }
{
    let mut members = Map::new(alloc);
    let entries = entries_value(alloc, list.entries.as_slice())?;
    put(alloc, &mut members, "manifests", entries)?;
    put(
        alloc,
        &mut members,
        "mediaType",
        Value::try_from_str(alloc, list.kind.media_type())?,
    )?;
    put(alloc, &mut members, "schemaVersion", Value::from(2u64))?;
    Ok(Value::Object(members))
}

/// The compact text of a list.
pub fn write_list(alloc: Global, list: &List) -> Result<Many<u8>, Memory>
    ensures text { IfOk result (λ b. b ≡ compact_text (list_data list.now)) }
    ensures tree { IfOk result (λ b. tree b ≡ Some (list_data list.now)) }
{
    let value = list_value_of(alloc, list)?;
    Ok(Many::from_vec(value.to_vec(alloc)?))
}
