ghost use Rattle.std.specs.Prelude.{◌≡◌, Option, option_map, ⊤};
ghost use Rattle.serde_json.specs.View.{view};
ghost use Rattle.json_tree.specs.Checked.{Checked, Gives, checked_map};
ghost use Rattle.json_tree.specs.Parsed.{tree_of};
ghost use Rattle.json_tree.specs.Tree.{tree};
ghost use Rattle.manifest_v2s2.specs.Calls.{Reads, NamesFirstBad, TellsOnly};
ghost use Rattle.manifest_v2s2.specs.Descriptor.{checked_some};
ghost use Rattle.manifest_v2s2.specs.Media.{is_list};
ghost use Rattle.manifest_convert.specs.Kinds.{or_else, kind_shown, kind_by_media, kind_given, absent_where, is_image, Members, kind_in, kind_checked, kind_of};
ghost use Rattle.manifest_convert.specs.Types.{bare, kind_named};
ghost use Rattle.manifest_convert.specs.HasKind.{HasKind};
ghost use Rattle.manifest_convert.specs.BadKind.{BadKind};

use crate::content::{bare, kind_named};
use json_tree::{Fault, Parsed, Path, at, both};
use manifest_v2s2::{Kind, ManifestFault, read_absent, read_version, told};
use serde_json::Value;
use std::alloc::Global;

fn kind_shown(value: &Value) -> Option<Kind>
    ensures { result ≡ kind_shown (view value.now) }
{
    if value.get("manifests").is_some() {
        return Some(Kind::OciIndex);
    }
    if value.get("config").is_some() {
        return Some(Kind::Oci);
    }
    None
}

fn kind_beside(value: &Value, content_type: &str) -> Option<Kind>
    ensures { result ≡ or_else (kind_named (bare content_type.now)) (kind_shown (view value.now)) }
{
    match kind_named(bare(content_type)) {
        Some(kind) => Some(kind),
        None => kind_shown(value),
    }
}

fn kind_by_media(value: &Value, content_type: &str, media: Option<&Value>) -> Option<Kind>
    ensures { result ≡ kind_by_media content_type.now (view value.now) (option_map (λ v. view v.now) media.entry) }
{
    match media {
        Some(Value::String(text)) => kind_named(text.as_bytes()),
        _ => kind_beside(value, content_type),
    }
}

fn absent_in_list(alloc: Global, kind: Option<Kind>, value: Option<&Value>) -> Result<(), Fault>
    ensures { Gives result (absent_where is_list kind (option_map (λ v. view v.now) value.entry)) }
{
    match kind {
        Some(kind) => {
            if kind.is_list() {
                read_absent(alloc, value)
            } else {
                Ok(())
            }
        }
        None => Ok(()),
    }
}

fn absent_in_image(alloc: Global, kind: Option<Kind>, value: Option<&Value>) -> Result<(), Fault>
    ensures { Gives result (absent_where is_image kind (option_map (λ v. view v.now) value.entry)) }
{
    match kind {
        Some(kind) => {
            if kind.is_list() {
                Ok(())
            } else {
                read_absent(alloc, value)
            }
        }
        None => Ok(()),
    }
}

fn read_given(alloc: Global, kind: Option<Kind>) -> Result<Kind, Fault>
    ensures { Gives result (checked_some kind) }
{
    match kind {
        Some(kind) => Ok(kind),
        None => Err(Fault::Member(Path::root(alloc))),
    }
}

type Members = ((), ((), ((), (Kind, ()))));

fn kind_in(members: Result<Members, Fault>) -> Result<Kind, Fault>
    ensures { (x : Checked Members) → Gives members x → Gives result (checked_map kind_in x) }
{
    let (_, (_, (_, (kind, _)))) = members?;
    Ok(kind)
}

fn kind_checked(alloc: Global, kind: Option<Kind>, value: &Value) -> Result<Kind, Fault>
    ensures { Gives result (kind_checked kind (view value.now)) }
{
    let config = absent_in_list(alloc, kind, value.get("config"));
    let layers = absent_in_list(alloc, kind, value.get("layers"));
    let manifests = absent_in_image(alloc, kind, value.get("manifests"));
    let given = read_given(alloc, kind);
    let version = read_version(alloc, value.get("schemaVersion"));
    let last = both(
        at(alloc, "mediaType", given),
        at(alloc, "schemaVersion", version),
    );
    let later = both(
        at(alloc, "layers", layers),
        both(at(alloc, "manifests", manifests), last),
    );
    kind_in(both(at(alloc, "config", config), later))
}

fn kind_of_object(alloc: Global, value: &Value, content_type: &str) -> Result<Kind, Fault>
    ensures { Gives result (kind_checked (kind_given content_type.now (view value.now)) (view value.now)) }
{
    let kind = kind_by_media(value, content_type, value.get("mediaType"));
    kind_checked(alloc, kind, value)
}

/// The kind of manifest that a tree is, or its first bad member.
#[tactic(auto, unfolding(crate::specs::Kinds::kind_of))]
fn kind_in_tree(alloc: Global, value: Option<&Value>, content_type: &str) -> Result<Kind, Fault>
    ensures { Gives result (kind_of content_type.now (option_map (λ v. view v.now) value.entry)) }
{
    match value {
        Some(value) if value.is_object() => kind_of_object(alloc, value, content_type),
        _ => Err(Fault::Member(Path::root(alloc))),
    }
}

fn kind_in_parsed(alloc: Global, parsed: &Parsed, content_type: &str) -> Result<Kind, ManifestFault>
    ensures { Reads result (kind_of content_type.now (tree_of parsed.now)) }
{
    told(alloc, kind_in_tree(alloc, parsed.root(), content_type))
}

fn kind_of_bytes(alloc: Global, bytes: &[u8], content_type: &str) -> Result<Kind, ManifestFault>
    ensures { Reads result (kind_of content_type.now (tree bytes.now)) }
{
    let parsed = Parsed::of(alloc, bytes)?;
    kind_in_parsed(alloc, &parsed, content_type)
}

/// The kind of manifest that bytes are which were parsed before, and came under a content type (empty where there was
/// none).
///
/// A fault is the pointer (RFC 6901) of the first bad member in byte order of names; the empty pointer where the
/// bytes are no JSON object.
pub fn kind_of_parsed(
    alloc: Global,
    parsed: &Parsed,
    content_type: &str,
) -> Result<Kind, ManifestFault>
    ensures exact { Reads result (kind_of content_type.now (tree_of parsed.now)) }
    ensures first { NamesFirstBad result (BadKind content_type.now (tree_of parsed.now)) }
    // The same by the rows of the table.
    ensures rows { TellsOnly (HasKind content_type.now (tree_of parsed.now)) result }
{
    kind_in_parsed(alloc, parsed, content_type)
}

/// The kind of manifest that the bytes are; faults are those of `kind_of_parsed`.
pub fn kind_of(alloc: Global, bytes: &[u8], content_type: &str) -> Result<Kind, ManifestFault>
    ensures exact { Reads result (kind_of content_type.now (tree bytes.now)) }
    ensures first { NamesFirstBad result (BadKind content_type.now (tree bytes.now)) }
    ensures rows { TellsOnly (HasKind content_type.now (tree bytes.now)) result }
{
    kind_of_bytes(alloc, bytes, content_type)
}
