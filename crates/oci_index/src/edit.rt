// The text of an index with one more entry.
ghost use Rattle.std.specs.Prelude.{◌≡◌, ◌++◌, ◌∷◌, [], false, filter, map, option_map, OnOk, IfOk, IfSome, List, Some};
ghost use Rattle.serde_json.specs.Data.{object, no_members, put};
ghost use Rattle.serde_json.specs.View.{view, items_view, members_view};
ghost use Rattle.serde_json.specs.Written.{has_float, compact_text};
ghost use Rattle.json_tree.specs.Tree.{tree};
ghost use Rattle.oci_index.specs.Edited.{items_at, list_of, is_string, ref_in, is_replaced, stays, put_name, entry_data, no_index, members_in, manifests_in, entries_after, edited, IsWritableThere};

use crate::choice::REF_KEY;
use image_ref::Digest;
use json_tree::{put, text_value};
use serde_json::{Map, Value};
use skopeo_outside::{Many, Memory, Text};
use std::alloc::Global;

/// A manifest that enters an index.
#[derive(Debug, Drop)]
pub struct NewEntry {
    /// Its ref name, where it has one.
    pub name: Option<Text>,
    pub media: Text,
    pub digest: Digest,
    /// In bytes.
    pub size: u64,
}

fn name_in(name: &Option<Text>) -> Option<&str>
    ensures { option_map (λ t. t.now) result ≡ name.now }
{
    match name {
        Some(name) => Some(name.as_str()),
        None => None,
    }
}

fn is_string(text: &str, value: Option<&Value>) -> bool
    ensures { result ≡ is_string text.now (option_map (λ v. view v.now) value.entry) }
{
    match value {
        Some(Value::String(s)) => s.as_str() == text,
        _ => false,
    }
}

/// The ref name of an entry.
fn ref_in(entry: &Value) -> Option<&Value>
    ensures { option_map (λ v. view v.now) result ≡ ref_in (view entry.now) }
{
    match entry.get("annotations") {
        Some(annotations) => annotations.get(REF_KEY),
        None => None,
    }
}

fn is_replaced(name: Option<&str>, digest: &str, entry: &Value) -> bool
    ensures { result ≡ is_replaced (option_map (λ t. t.now) name.entry) digest.now (view entry.now) }
{
    match name {
        Some(name) => is_string(name, ref_in(entry)),
        None => is_string(digest, entry.get("digest")) && !ref_in(entry).is_some(),
    }
}

/// Copies of the entries that stay.
#[tactic(auto, using(crate::proofs::EditedLemmas::kept_more, crate::proofs::EditedLemmas::kept_same, crate::proofs::EditedLemmas::kept_all))]
fn kept(
    alloc: Global,
    name: Option<&str>,
    digest: &str,
    entries: &[Value],
) -> Result<Vec<Value>, Memory>
    ensures { let stays = stays (option_map (λ t. t.now) name.entry) digest.now in
        IfOk result (λ kept. map view kept.items ≡ filter stays (map view entries.now)) }
{
    let mut kept = Vec::new(alloc);
    for entry in entries {
        if !is_replaced(name, digest, entry) {
            kept.push(entry.clone()?)?;
        }
    }
    Ok(kept)
}

fn kept_at(
    alloc: Global,
    name: Option<&str>,
    digest: &str,
    manifests: Option<&Value>,
) -> Result<Vec<Value>, Memory>
    ensures { let stays = stays (option_map (λ t. t.now) name.entry) digest.now in
        IfOk result (λ kept. map view kept.items ≡ filter stays (items_at (option_map (λ v. view v.now) manifests.entry))) }
{
    let Some(manifests) = manifests else {
        return Ok(Vec::new(alloc));
    };
    match manifests {
        Value::Array(entries) => kept(alloc, name, digest, entries.as_slice()),
        _ => Ok(Vec::new(alloc)),
    }
}

fn put_name(
    alloc: Global,
    name: Option<&str>,
    members: &mut Map<String, Value>,
) -> Result<(), Memory>
    ensures { OnOk result (members_view members.new.entries ≡ put_name (option_map (λ t. t.now) name.entry) (members_view members.old.entries)) }
{
    let Some(name) = name else {
        return Ok(());
    };
    let mut annotations = Map::new(alloc);
    put(
        alloc,
        &mut annotations,
        REF_KEY,
        Value::try_from_str(alloc, name)?,
    )?;
    put(alloc, members, "annotations", Value::Object(annotations))
}

#[tactic(auto, unfolding(crate::specs::Edited::entry_data))]
fn entry_value(alloc: Global, entry: &NewEntry) -> Result<Value, Memory>
    ensures { IfOk result (λ v. view v ≡ entry_data entry.now) }
{
    let mut members = Map::new(alloc);
    put_name(alloc, name_in(&entry.name), &mut members)?;
    let digest = entry.digest.write_digest(alloc)?;
    put(alloc, &mut members, "digest", text_value(alloc, &digest)?)?;
    put(
        alloc,
        &mut members,
        "mediaType",
        text_value(alloc, &entry.media)?,
    )?;
    put(alloc, &mut members, "size", Value::from(entry.size))?;
    Ok(Value::Object(members))
}

fn entries_after(
    alloc: Global,
    manifests: Option<&Value>,
    entry: &NewEntry,
) -> Result<Vec<Value>, Memory>
    ensures { let manifests = option_map (λ v. view v.now) manifests.entry in
        IfOk result (λ entries. map view entries.items ≡ entries_after manifests entry.now) }
{
    let digest = entry.digest.write_digest(alloc)?;
    let mut entries = kept_at(alloc, name_in(&entry.name), digest.as_str(), manifests)?;
    entries.push(entry_value(alloc, entry)?)?;
    Ok(entries)
}

fn no_index(alloc: Global) -> Result<Map<String, Value>, Memory>
    ensures { IfOk result (λ ms. members_view ms.entries ≡ no_index) }
{
    let mut members = Map::new(alloc);
    put(alloc, &mut members, "schemaVersion", Value::from(2u64))?;
    Ok(members)
}

fn members_in(alloc: Global, old: Option<&Value>) -> Result<Map<String, Value>, Memory>
    ensures { IfOk result (λ ms. members_view ms.entries ≡ members_in (option_map (λ v. view v.now) old.entry)) }
{
    let Some(value) = old else {
        return no_index(alloc);
    };
    match value.clone()? {
        Value::Object(members) => Ok(members),
        _ => no_index(alloc),
    }
}

fn manifests_in(old: Option<&Value>) -> Option<&Value>
    ensures { option_map (λ v. view v.now) result ≡ manifests_in (option_map (λ v. view v.now) old.entry) }
{
    match old {
        Some(value) => value.get("manifests"),
        None => None,
    }
}

#[tactic(auto, unfolding(crate::specs::Edited::edited))]
fn edited(alloc: Global, old: Option<&Value>, entry: &NewEntry) -> Result<Value, Memory>
    ensures { IfOk result (λ v. view v ≡ edited (option_map (λ v. view v.now) old.entry) entry.now) }
{
    let mut members = members_in(alloc, old)?;
    let entries = entries_after(alloc, manifests_in(old), entry)?;
    put(alloc, &mut members, "manifests", Value::from(entries))?;
    Ok(Value::Object(members))
}

/// The compact text of an index with one more entry, its last. Of those that were there the ones of its ref name go, or,
/// where it has none, those of its digest without a name. All others stay in order, and so do the index's other members.
pub fn new_index(alloc: Global, old: Option<&Value>, entry: &NewEntry) -> Result<Many<u8>, Memory>
    requires writable { IsWritableThere (option_map (λ v. view v.now) old) }
    ensures text { let new = edited (option_map (λ v. view v.now) old.entry) entry.now in
        IfOk result (λ b. b ≡ compact_text new) }
    ensures tree { let new = edited (option_map (λ v. view v.now) old.entry) entry.now in
        IfOk result (λ b. tree b ≡ Some new) }
{
    let value = edited(alloc, old, entry)?;
    Ok(Many::from_vec(value.to_vec(alloc)?))
}
