ghost use Rattle.std.specs.Prelude.{◌≡◌, ℕ, [], ◌++◌, List, Option, Some, option_map, ⊤, Result, false};
ghost use Rattle.serde_json.specs.Data.{Data};
ghost use Rattle.serde_json.specs.View.{view, items_view};
ghost use Rattle.json_tree.specs.Checked.{Checked, Gives, checked_map};
ghost use Rattle.json_tree.specs.Parsed.{tree_of};
ghost use Rattle.json_tree.specs.Tree.{tree};
ghost use Rattle.manifest_v2s2.specs.declared.kind.Kind.TheVariants.{V2s2};
ghost use Rattle.manifest_v2s2.specs.declared.sizes.Known.{Known};
ghost use Rattle.manifest_v2s2.specs.Bad.{BadImage};
ghost use Rattle.manifest_v2s2.specs.Calls.{Reads, NamesFirstBad, TellsOnly};
ghost use Rattle.manifest_v2s2.specs.IsImage.{SaysImage};
ghost use Rattle.manifest_v2s2.specs.Known.{AreFirstSizes};
ghost use Rattle.manifest_v2s2.specs.Media.{is_list};
ghost use Rattle.manifest_v2s2.specs.Descriptor.{descriptor_of, known_of};
ghost use Rattle.manifest_v2s2.specs.Image.{absent, media_checked, version_checked, layers_by, layers_of, Members, made, members_of, image_of};

use crate::descriptor::Descriptor;
use crate::fault::{ManifestFault, told};
use crate::kind::Kind;
use crate::reading::read_descriptor;
use crate::sizes::Sizes;
use json_tree::{Fault, Parsed, Path, Step, at, both, push, under};
use serde_json::Value;
use skopeo_outside::Many;
use std::alloc::Global;

/// An image's config and layers.
#[derive(Debug, Drop)]
pub struct Image {
    pub kind: Kind,
    pub config: Descriptor,
    pub layers: Many<Descriptor>,
}

/// Nothing.
pub fn read_absent(alloc: Global, value: Option<&Value>) -> Result<(), Fault>
    ensures { Gives result (absent (option_map (λ v. view v.now) value.entry)) }
{
    match value {
        None => Ok(()),
        Some(_) => Err(Fault::Member(Path::root(alloc))),
    }
}

pub(crate) fn read_media(alloc: Global, kind: Kind, value: Option<&Value>) -> Result<(), Fault>
    ensures { Gives result (media_checked kind (option_map (λ v. view v.now) value.entry)) }
{
    match value {
        Some(Value::String(text)) => {
            if text.as_str() == kind.media_type() {
                Ok(())
            } else {
                Err(Fault::Member(Path::root(alloc)))
            }
        }
        _ => Ok(()),
    }
}

/// The number 2.
pub fn read_version(alloc: Global, value: Option<&Value>) -> Result<(), Fault>
    ensures { Gives result (version_checked (option_map (λ v. view v.now) value.entry)) }
{
    match value.and_then(Value::as_u64) {
        Some(2) => Ok(()),
        _ => Err(Fault::Member(Path::root(alloc))),
    }
}

fn read_layers(alloc: Global, sizes: Sizes, items: &[Value]) -> Result<Many<Descriptor>, Fault>
    ensures { (known : List Known) → AreFirstSizes sizes known → Gives result (layers_by known 0 (items_view items.now)) }
{
    let mut sizes = sizes;
    let mut all = Ok(Many::new(alloc));
    for (place, item) in items.iter().enumerate() {
        let layer = read_descriptor(alloc, &sizes, Some(item));
        all = push(all, under(Step::Place(place), layer));
        sizes.learn(Some(item))?;
    }
    all
}

fn layers_in(
    alloc: Global,
    config: Option<&Value>,
    layers: Option<&Value>,
) -> Result<Many<Descriptor>, Fault>
    ensures { Gives result (layers_of (known_of (option_map (λ v. view v.now) config.entry)) (option_map (λ v. view v.now) layers.entry)) }
{
    let Some(layers) = layers else {
        return Err(Fault::Member(Path::root(alloc)));
    };
    match layers {
        Value::Null => Ok(Many::new(alloc)),
        Value::Array(items) => {
            let mut sizes = Sizes::new(alloc);
            sizes.learn(config)?;
            read_layers(alloc, sizes, items.as_slice())
        }
        _ => Err(Fault::Member(Path::root(alloc))),
    }
}

type Members = (Descriptor, (Many<Descriptor>, ((), ((), ()))));

fn made(kind: Kind, members: Result<Members, Fault>) -> Result<Image, Fault>
    ensures { (x : Checked Members) → Gives members x → Gives result (checked_map (made kind) x) }
{
    let (config, (layers, _)) = members?;
    Ok(Image {
        kind,
        config,
        layers,
    })
}

fn members_of(alloc: Global, kind: Kind, value: &Value) -> Result<Image, Fault>
    ensures { Gives result (members_of kind (view value.now)) }
{
    let sizes = Sizes::new(alloc);
    let config = read_descriptor(alloc, &sizes, value.get("config"));
    let layers = layers_in(alloc, value.get("config"), value.get("layers"));
    let manifests = read_absent(alloc, value.get("manifests"));
    let media = read_media(alloc, kind, value.get("mediaType"));
    let version = read_version(alloc, value.get("schemaVersion"));
    let last = both(
        at(alloc, "mediaType", media),
        at(alloc, "schemaVersion", version),
    );
    let later = both(
        at(alloc, "layers", layers),
        both(at(alloc, "manifests", manifests), last),
    );
    made(kind, both(at(alloc, "config", config), later))
}

/// The image that a tree is, or its first bad member.
#[tactic(auto, unfolding(crate::specs::Image::image_of))]
fn image_in(alloc: Global, kind: Kind, value: Option<&Value>) -> Result<Image, Fault>
    ensures { Gives result (image_of kind (option_map (λ v. view v.now) value.entry)) }
{
    match value {
        Some(value) if value.is_object() => members_of(alloc, kind, value),
        _ => Err(Fault::Member(Path::root(alloc))),
    }
}

fn image_in_parsed(alloc: Global, parsed: &Parsed, kind: Kind) -> Result<Image, ManifestFault>
    ensures { Reads result (image_of kind (tree_of parsed.now)) }
{
    told(alloc, image_in(alloc, kind, parsed.root()))
}

fn image_of_bytes(alloc: Global, bytes: &[u8], kind: Kind) -> Result<Image, ManifestFault>
    ensures { Reads result (image_of kind (tree bytes.now)) }
{
    let parsed = Parsed::of(alloc, bytes)?;
    image_in_parsed(alloc, &parsed, kind)
}

/// The image of that kind, no list's, that bytes are which were parsed before.
///
/// A fault is the pointer (RFC 6901) of the first bad member: of those at the least depth the first in byte order of
/// names and by number of places; the empty pointer where the bytes are no JSON object.
pub fn image_of_parsed(alloc: Global, parsed: &Parsed, kind: Kind) -> Result<Image, ManifestFault>
    requires { is_list kind ≡ false }
    ensures exact { Reads result (image_of kind (tree_of parsed.now)) }
    ensures first { (bytes : List ℕ) → tree_of parsed.now ≡ tree bytes
        → NamesFirstBad result (BadImage kind (tree bytes)) }
    // The same in the words of the format alone.
    ensures format { TellsOnly (SaysImage kind (tree_of parsed.now)) result }
{
    image_in_parsed(alloc, parsed, kind)
}

/// The image of that kind, no list's, that the bytes are; faults are those of `image_of_parsed`.
pub fn read_image_as(alloc: Global, bytes: &[u8], kind: Kind) -> Result<Image, ManifestFault>
    requires { is_list kind ≡ false }
    ensures exact { Reads result (image_of kind (tree bytes.now)) }
    ensures first { NamesFirstBad result (BadImage kind (tree bytes.now)) }
    ensures format { TellsOnly (SaysImage kind (tree bytes.now)) result }
{
    image_of_bytes(alloc, bytes, kind)
}

/// The schema 2 image that the bytes are, or the first bad member (Image Manifest Version 2, Schema 2).
pub fn read_image(alloc: Global, bytes: &[u8]) -> Result<Image, ManifestFault>
    ensures exact { Reads result (image_of V2s2 (tree bytes.now)) }
    ensures first { NamesFirstBad result (BadImage V2s2 (tree bytes.now)) }
    ensures format { TellsOnly (SaysImage V2s2 (tree bytes.now)) result }
{
    read_image_as(alloc, bytes, Kind::V2s2)
}
