// An entry of an index, read member by member.
ghost use Rattle.std.specs.Prelude.{◌≡◌, ℕ, [], List, Option, Some, option_map, string_bytes, ⊤};
ghost use Rattle.serde_json.specs.Data.{Data};
ghost use Rattle.serde_json.specs.View.{view, items_view};
ghost use Rattle.json_tree.specs.Checked.{Checked, Gives, checked_map};
ghost use Rattle.json_tree.specs.Leaf.{text_of, whole_of, optional_list, optional_object};
ghost use Rattle.manifest_v2s2.specs.declared.sizes.Known.{Known};
ghost use Rattle.manifest_v2s2.specs.Known.{AreFirstSizes, agrees};
ghost use Rattle.manifest_v2s2.specs.Descriptor.{digest_checked, annotation_of, agreeing};
ghost use Rattle.oci_index.specs.Entries.{both_checked, platform_members, platform_checked, EntryMembers, made, members_of, entry_of, entries_by, entries_of};

use image_ref::{Digest, read_digest};
use json_tree::{
    Fault, Path, Step, at, both, push, read_optional_list, read_optional_object, read_text,
    read_whole, under,
};
use manifest_v2s2::{Descriptor, Sizes};
use serde_json::Value;
use skopeo_outside::{Many, Pair, Text};
use std::alloc::Global;

fn read_digest_member(alloc: Global, value: Option<&Value>) -> Result<Digest, Fault>
    ensures { Gives result (digest_checked (option_map (λ v. view v.now) value.entry)) }
{
    match value {
        Some(Value::String(text)) => match read_digest(text.as_str()) {
            Some(digest) => Ok(digest),
            None => Err(Fault::Member(Path::root(alloc))),
        },
        _ => Err(Fault::Member(Path::root(alloc))),
    }
}

fn read_annotation(alloc: Global, name: &String, value: Option<&Value>) -> Result<Pair, Fault>
    ensures { Gives result (annotation_of (string_bytes name.now) (option_map (λ v. view v.now) value.entry)) }
{
    let value = read_text(alloc, value)?;
    let name = Text::copy_of(alloc, name.as_str())?;
    Ok(Pair { name, value })
}

fn read_annotations(alloc: Global, value: Option<&Value>) -> Result<Many<Pair>, Fault>
    ensures { Gives result (optional_object annotation_of (option_map (λ v. view v.now) value.entry)) }
{
    read_optional_object(
        alloc,
        value,
        |name, value| read_annotation(alloc, name, value),
    )
}

fn read_urls(alloc: Global, value: Option<&Value>) -> Result<Many<Text>, Fault>
    ensures { Gives result (optional_list text_of (option_map (λ v. view v.now) value.entry)) }
{
    read_optional_list(alloc, value, |value| read_text(alloc, value))
}

fn agrees(first: Option<u64>, size: u64) -> bool
    ensures { result ≡ agrees first size }
{
    match first {
        Some(first) => first == size,
        None => true,
    }
}

/// The size, unless the first size of the digest is another one.
fn agreeing(
    alloc: Global,
    sizes: &Sizes,
    digest: &Result<Digest, Fault>,
    size: Result<u64, Fault>,
) -> Result<u64, Fault>
    ensures { (known : List Known) (x : Checked (List ℕ)) (y : Checked ℕ) → AreFirstSizes sizes.now known
        → Gives digest.now x → Gives size y → Gives result (agreeing known x y) }
{
    match digest {
        Ok(digest) => {
            let size = size?;
            let first = sizes.first(digest);
            if agrees(first, size) {
                Ok(size)
            } else {
                Err(Fault::Member(Path::root(alloc)))
            }
        }
        Err(Fault::Memory) => Err(Fault::Memory),
        Err(Fault::Member(_)) => size,
    }
}

fn both_checked(members: Result<(Text, Text), Fault>) -> Result<(), Fault>
    ensures { (x : Checked (List ℕ × List ℕ)) → Gives members x → Gives result (checked_map both_checked x) }
{
    let (_, _) = members?;
    Ok(())
}

fn platform_members(alloc: Global, value: &Value) -> Result<(), Fault>
    ensures { Gives result (platform_members (view value.now)) }
{
    let architecture = read_text(alloc, value.get("architecture"));
    let os = read_text(alloc, value.get("os"));
    both_checked(both(at(alloc, "architecture", architecture), at(alloc, "os", os)))
}

fn check_platform(alloc: Global, value: Option<&Value>) -> Result<(), Fault>
    ensures { Gives result (platform_checked (option_map (λ v. view v.now) value.entry)) }
{
    match value {
        None => Ok(()),
        Some(value) if value.is_object() => platform_members(alloc, value),
        Some(_) => Err(Fault::Member(Path::root(alloc))),
    }
}

type Members = (Many<Pair>, (Digest, (Text, ((), (u64, Many<Text>)))));

fn made(members: Result<Members, Fault>) -> Result<Descriptor, Fault>
    ensures { (x : Checked EntryMembers) → Gives members x → Gives result (checked_map made x) }
{
    let (annotations, (digest, (media, (_, (size, urls))))) = members?;
    Ok(Descriptor {
        media,
        digest,
        size,
        urls,
        annotations,
    })
}

fn members_of(alloc: Global, sizes: &Sizes, value: &Value) -> Result<Descriptor, Fault>
    ensures { (known : List Known) → AreFirstSizes sizes.now known → Gives result (members_of known (view value.now)) }
{
    let annotations = read_annotations(alloc, value.get("annotations"));
    let digest = read_digest_member(alloc, value.get("digest"));
    let media = read_text(alloc, value.get("mediaType"));
    let platform = check_platform(alloc, value.get("platform"));
    let size = agreeing(alloc, sizes, &digest, read_whole(alloc, value.get("size")));
    let urls = read_urls(alloc, value.get("urls"));
    let last = both(at(alloc, "size", size), at(alloc, "urls", urls));
    let behind = both(at(alloc, "platform", platform), last);
    let later = both(
        at(alloc, "digest", digest),
        both(at(alloc, "mediaType", media), behind),
    );
    made(both(at(alloc, "annotations", annotations), later))
}

/// The entry that a tree is, behind those whose first sizes are given, or its first bad member.
fn read_entry(alloc: Global, sizes: &Sizes, value: Option<&Value>) -> Result<Descriptor, Fault>
    ensures { (known : List Known) → AreFirstSizes sizes.now known
        → Gives result (entry_of known (option_map (λ v. view v.now) value.entry)) }
{
    match value {
        Some(value) if value.is_object() => members_of(alloc, sizes, value),
        _ => Err(Fault::Member(Path::root(alloc))),
    }
}

fn entries_by(alloc: Global, items: &[Value]) -> Result<Many<Descriptor>, Fault>
    ensures { Gives result (entries_by [] 0 (items_view items.now)) }
{
    let mut sizes = Sizes::new(alloc);
    let mut all = Ok(Many::new(alloc));
    for (place, item) in items.iter().enumerate() {
        let entry = read_entry(alloc, &sizes, Some(item));
        all = push(all, under(Step::Place(place), entry));
        sizes.learn(Some(item))?;
    }
    all
}

/// The entries that a list is, which may be null, or its first bad member.
pub fn read_entries(alloc: Global, value: Option<&Value>) -> Result<Many<Descriptor>, Fault>
    ensures { Gives result (entries_of (option_map (λ v. view v.now) value.entry)) }
{
    let Some(value) = value else {
        return Err(Fault::Member(Path::root(alloc)));
    };
    match value {
        Value::Null => Ok(Many::new(alloc)),
        Value::Array(items) => entries_by(alloc, items.as_slice()),
        _ => Err(Fault::Member(Path::root(alloc))),
    }
}
