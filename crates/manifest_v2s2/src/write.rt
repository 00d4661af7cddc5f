ghost use Rattle.std.specs.Prelude.{◌≡◌, ℕ, codes, List, OnOk, IfOk, Some};
ghost use Rattle.serde_json.specs.Data.{Data, string, number, unsigned, array, object, no_members, put};
ghost use Rattle.serde_json.specs.View.{view, members_view};
ghost use Rattle.serde_json.specs.Written.{compact_text};
ghost use Rattle.json_tree.specs.Build.{put_all};
ghost use Rattle.json_tree.specs.Tree.{tree};
ghost use Rattle.manifest_v2s2.specs.Calls.{HasDigest, HaveDigests};
ghost use Rattle.manifest_v2s2.specs.Image.{image_of};
ghost use Rattle.manifest_v2s2.specs.Writable.{IsWritable};
ghost use Rattle.manifest_v2s2.specs.Written.{texts_data, put_urls, put_annotations, descriptor_data, image_data};

use crate::descriptor::Descriptor;
use crate::image::Image;
use json_tree::{list_value, pairs_value, put, text_value};
use serde_json::{Map, Value};
use skopeo_outside::{Many, Memory, Pair, Text};
use std::alloc::Global;

fn urls_value(alloc: Global, urls: &[Text]) -> Result<Value, Memory>
    ensures { IfOk result (λ v. view v ≡ texts_data urls.now) }
{
    list_value(alloc, urls, |url| text_value(alloc, url))
}

fn put_urls(alloc: Global, urls: &[Text], members: &mut Map<String, Value>) -> Result<(), Memory>
    ensures { OnOk result (members_view members.new.entries ≡ put_urls urls.now (members_view members.old.entries)) }
{
    if urls.is_empty() {
        return Ok(());
    }
    let value = urls_value(alloc, urls)?;
    put(alloc, members, "urls", value)
}

fn put_annotations(
    alloc: Global,
    annotations: &[Pair],
    members: &mut Map<String, Value>,
) -> Result<(), Memory>
    ensures { OnOk result (members_view members.new.entries ≡ put_annotations annotations.now (members_view members.old.entries)) }
{
    if annotations.is_empty() {
        return Ok(());
    }
    let value = pairs_value(alloc, annotations)?;
    put(alloc, members, "annotations", value)
}

/// The object that is written for a descriptor.
#[tactic(auto, unfolding(crate::specs::Written::descriptor_data))]
pub fn descriptor_value(alloc: Global, x: &Descriptor) -> Result<Value, Memory>
    ensures value { IfOk result (λ v. view v ≡ descriptor_data x.now) }
    ensures digest { OnOk result (HasDigest x.now) }
{
    let mut members = Map::new(alloc);
    // That it has 32 bytes is what its text is read again by.
    let _bytes = x.digest.as_bytes();
    let digest = x.digest.write_digest(alloc)?;
    put(alloc, &mut members, "digest", text_value(alloc, &digest)?)?;
    put(
        alloc,
        &mut members,
        "mediaType",
        text_value(alloc, &x.media)?,
    )?;
    put(alloc, &mut members, "size", Value::from(x.size))?;
    put_urls(alloc, x.urls.as_slice(), &mut members)?;
    put_annotations(alloc, x.annotations.as_slice(), &mut members)?;
    Ok(Value::Object(members))
}

#[tactic(auto, unfolding(crate::specs::Written::image_data))]
fn image_value(alloc: Global, image: &Image) -> Result<Value, Memory>
    ensures value { IfOk result (λ v. view v ≡ image_data image.now) }
    ensures digests { OnOk result (HaveDigests image.now) }
{
    let mut members = Map::new(alloc);
    put(
        alloc,
        &mut members,
        "config",
        descriptor_value(alloc, &image.config)?,
    )?;
    let layers = list_value(
        alloc,
        image.layers.as_slice(),
        |layer| descriptor_value(alloc, layer),
    )?;
    put(alloc, &mut members, "layers", layers)?;
    put(
        alloc,
        &mut members,
        "mediaType",
        Value::try_from_str(alloc, image.kind.media_type())?,
    )?;
    put(alloc, &mut members, "schemaVersion", Value::from(2u64))?;
    Ok(Value::Object(members))
}

/// The compact text of an image.
pub fn write_image(alloc: Global, image: &Image) -> Result<Many<u8>, Memory>
    ensures text { IfOk result (λ b. b ≡ compact_text (image_data image.now)) }
    ensures tree { IfOk result (λ b. tree b ≡ Some (image_data image.now)) }
    // What is written is read again as the same image.
    ensures again { IsWritable image.now → IfOk result (λ b. image_of image.now.kind (tree b) ≡ Ok image.now) }
{
    let value = image_value(alloc, image)?;
    Ok(Many::from_vec(value.to_vec(alloc)?))
}
