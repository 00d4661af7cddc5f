ghost use Rattle.std.specs.Prelude.{◌≡◌, Option, Some, option_map, ⊤, true};
ghost use Rattle.serde_json.specs.Data.{Data};
ghost use Rattle.serde_json.specs.View.{view};
ghost use Rattle.json_tree.specs.Checked.{Checked, Gives, checked_map};
ghost use Rattle.json_tree.specs.Parsed.{tree_of};
ghost use Rattle.json_tree.specs.Tree.{tree};
ghost use Rattle.manifest_v2s2.specs.Calls.{Reads, NamesFirstBad, TellsOnly};
ghost use Rattle.manifest_v2s2.specs.Media.{is_list};
ghost use Rattle.manifest_list.specs.BadList.{BadList};
ghost use Rattle.manifest_list.specs.AnyList.{Bytes, any_list_of, BadAnyList};
ghost use Rattle.manifest_list.specs.Entry.{ListMembers, list_in, list_of, list_with};
ghost use Rattle.manifest_list.specs.IsList.{SaysList};

use crate::entry::read_entries;
use crate::list::{List, ListEntry};
use json_tree::{Fault, Parsed, Path, at, both};
use manifest_v2s2::{Kind, ManifestFault, media_member, read_absent, read_version, told};
use serde_json::Value;
use skopeo_outside::{Many, Text};
use std::alloc::Global;

type ListMembers = ((), ((), (Many<ListEntry>, ((), ()))));

fn list_with(kind: Kind, members: Result<ListMembers, Fault>) -> Result<List, Fault>
    ensures { (x : Checked ListMembers) → Gives members x → Gives result (checked_map (list_with kind) x) }
{
    let (_, (_, (entries, _))) = members?;
    Ok(List { kind, entries })
}

fn list_in(alloc: Global, kind: Kind, value: &Value) -> Result<List, Fault>
    ensures { Gives result (list_in kind (view value.now)) }
{
    let config = read_absent(alloc, value.get("config"));
    let layers = read_absent(alloc, value.get("layers"));
    let entries = read_entries(alloc, value.get("manifests"));
    let media = media_member(alloc, kind, value);
    let version = read_version(alloc, value.get("schemaVersion"));
    let last = both(media, at(alloc, "schemaVersion", version));
    let later = both(
        at(alloc, "layers", layers),
        both(at(alloc, "manifests", entries), last),
    );
    list_with(kind, both(at(alloc, "config", config), later))
}

/// The list that a tree is, or its first bad member.
#[tactic(auto, unfolding(crate::specs::Entry::list_of))]
fn list_in_tree(alloc: Global, kind: Kind, value: Option<&Value>) -> Result<List, Fault>
    ensures { Gives result (list_of kind (option_map (λ v. view v.now) value.entry)) }
{
    match value {
        Some(value) if value.is_object() => list_in(alloc, kind, value),
        _ => Err(Fault::Member(Path::root(alloc))),
    }
}

fn list_in_parsed(alloc: Global, parsed: &Parsed, kind: Kind) -> Result<List, ManifestFault>
    ensures { Reads result (list_of kind (tree_of parsed.now)) }
{
    told(alloc, list_in_tree(alloc, kind, parsed.root()))
}

fn list_of_bytes(alloc: Global, bytes: &[u8], kind: Kind) -> Result<List, ManifestFault>
    ensures { Reads result (list_of kind (tree bytes.now)) }
{
    let parsed = Parsed::of(alloc, bytes)?;
    list_in_parsed(alloc, &parsed, kind)
}

/// The list of that kind, no image's, that bytes are which were parsed before.
///
/// A fault is the pointer (RFC 6901) of the first bad member: of those at the least depth the first in byte order of
/// names and by number of places; the empty pointer where the bytes are no JSON object.
pub fn list_of_parsed(alloc: Global, parsed: &Parsed, kind: Kind) -> Result<List, ManifestFault>
    requires of_lists { is_list kind ≡ true }
    ensures exact { Reads result (list_of kind (tree_of parsed.now)) }
    ensures first { (bytes : Bytes) → tree_of parsed.now ≡ tree bytes
        → NamesFirstBad result (BadList kind (tree bytes)) }
    // The same in the words of the format alone.
    ensures format { TellsOnly (SaysList kind (tree_of parsed.now)) result }
{
    list_in_parsed(alloc, parsed, kind)
}

/// The list of that kind, no image's, that the bytes are; faults are those of `list_of_parsed`.
pub fn read_list_as(alloc: Global, bytes: &[u8], kind: Kind) -> Result<List, ManifestFault>
    requires of_lists { is_list kind ≡ true }
    ensures exact { Reads result (list_of kind (tree bytes.now)) }
    ensures first { NamesFirstBad result (BadList kind (tree bytes.now)) }
    ensures format { TellsOnly (SaysList kind (tree bytes.now)) result }
{
    list_of_bytes(alloc, bytes, kind)
}

/// The list of that kind that the bytes are, or the first bad member. No bytes are a list of an image's kind: then the
/// member is the root, whose pointer is empty.
pub fn read_any_list(alloc: Global, bytes: &[u8], kind: Kind) -> Result<List, ManifestFault>
    ensures exact { Reads result (any_list_of kind (tree bytes.now)) }
    ensures first { NamesFirstBad result (BadAnyList kind (tree bytes.now)) }
    ensures format { TellsOnly (SaysList kind (tree bytes.now)) result }
{
    if kind.is_list() {
        return read_list_as(alloc, bytes, kind);
    }
    Err(ManifestFault::Member(Text::new(alloc)))
}
