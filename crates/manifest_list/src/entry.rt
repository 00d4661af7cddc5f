// Entries of lists, read of a tree.
ghost use Rattle.std.specs.Prelude.{◌≡◌, List, Option, Some, option_map};
ghost use Rattle.serde_json.specs.Data.{Data};
ghost use Rattle.serde_json.specs.View.{view, items_view};
ghost use Rattle.json_tree.specs.Checked.{Checked, Gives, checked_map};
ghost use Rattle.manifest_v2s2.specs.Known.{AreFirstSizes};
ghost use Rattle.manifest_v2s2.specs.declared.sizes.Known.{Known};
ghost use Rattle.manifest_list.specs.Entry.{Members, entries_by, entries_of, entry_in, entry_of, entry_with};

use crate::list::ListEntry;
use crate::platform::Platform;
use crate::platform_read::read_platform;
use image_ref::Digest;
use json_tree::{Fault, Path, Step, at, both, push, read_text, under};
use manifest_v2s2::{
    Descriptor, Sizes, annotations_member, digest_member, size_member, urls_member,
};
use serde_json::Value;
use skopeo_outside::{Many, Pair, Text};
use std::alloc::Global;

type Members = (
    Many<Pair>,
    (Digest, (Text, (Option<Platform>, (u64, Many<Text>)))),
);

fn entry_with(members: Result<Members, Fault>) -> Result<ListEntry, Fault>
    ensures { (x : Checked Members) → Gives members x → Gives result (checked_map entry_with x) }
{
    let (annotations, (digest, (media, (platform, (size, urls))))) = members?;
    Ok(ListEntry {
        target: Descriptor {
            media,
            digest,
            size,
            urls,
            annotations,
        },
        platform,
    })
}

fn entry_in(alloc: Global, sizes: &Sizes, value: &Value) -> Result<ListEntry, Fault>
    ensures { (known : List Known) → AreFirstSizes sizes.now known → Gives result (entry_in known (view value.now)) }
{
    let annotations = annotations_member(alloc, value);
    let digest = digest_member(alloc, value);
    let text = read_text(alloc, value.get("mediaType"));
    let media = at(alloc, "mediaType", text);
    let read = read_platform(alloc, value.get("platform"));
    let platform = at(alloc, "platform", read);
    let size = size_member(alloc, sizes, value);
    let last = both(platform, both(size, urls_member(alloc, value)));
    let later = both(digest, both(media, last));
    entry_with(both(annotations, later))
}

/// The entry that a tree is, behind the descriptors whose first sizes are given, or its first bad member.
fn read_entry(alloc: Global, sizes: &Sizes, value: Option<&Value>) -> Result<ListEntry, Fault>
    ensures { (known : List Known) → AreFirstSizes sizes.now known
        → Gives result (entry_of known (option_map (λ v. view v.now) value.entry)) }
{
    match value {
        Some(value) if value.is_object() => entry_in(alloc, sizes, value),
        _ => Err(Fault::Member(Path::root(alloc))),
    }
}

fn entries_by(alloc: Global, sizes: Sizes, items: &[Value]) -> Result<Many<ListEntry>, Fault>
    ensures { (known : List Known) → AreFirstSizes sizes known → Gives result (entries_by known 0 (items_view items.now)) }
{
    let mut sizes = sizes;
    let mut all = Ok(Many::new(alloc));
    for (place, item) in items.iter().enumerate() {
        let entry = read_entry(alloc, &sizes, Some(item));
        all = push(all, under(Step::Place(place), entry));
        sizes.learn(Some(item))?;
    }
    all
}

/// A list of entries, which may be null.
pub(crate) fn read_entries(alloc: Global, value: Option<&Value>) -> Result<Many<ListEntry>, Fault>
    ensures { Gives result (entries_of (option_map (λ v. view v.now) value.entry)) }
{
    let Some(value) = value else {
        return Err(Fault::Member(Path::root(alloc)));
    };
    match value {
        Value::Null => Ok(Many::new(alloc)),
        Value::Array(items) => entries_by(alloc, Sizes::new(alloc), items.as_slice()),
        _ => Err(Fault::Member(Path::root(alloc))),
    }
}
