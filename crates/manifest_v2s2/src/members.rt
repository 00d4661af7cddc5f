// The members of a descriptor and of a manifest one by one, for objects that have more of them.
ghost use Rattle.std.specs.Prelude.{ℕ, List, codes};
ghost use Rattle.serde_json.specs.Find.{get};
ghost use Rattle.serde_json.specs.View.{view};
ghost use Rattle.json_tree.specs.Checked.{Gives};
ghost use Rattle.json_tree.specs.Leaf.{text_of, optional_list, optional_object};
ghost use Rattle.manifest_v2s2.specs.declared.sizes.Known.{Known};
ghost use Rattle.manifest_v2s2.specs.Known.{AreFirstSizes};
ghost use Rattle.manifest_v2s2.specs.Descriptor.{annotation_of, at, digest_checked, size_agreeing};
ghost use Rattle.manifest_v2s2.specs.Image.{media_checked};

use crate::image::read_media;
use crate::kind::Kind;
use crate::reading::{agreeing, read_annotations, read_digest_member, read_urls};
use crate::sizes::Sizes;
use image_ref::Digest;
use json_tree::{Fault, at, read_whole};
use serde_json::Value;
use skopeo_outside::{Many, Pair, Text};
use std::alloc::Global;

/// The annotations of a descriptor's object.
pub fn annotations_member(alloc: Global, value: &Value) -> Result<Many<Pair>, Fault>
    ensures exact { Gives result (at (codes "annotations") (optional_object annotation_of) (view value.now)) }
{
    at(
        alloc,
        "annotations",
        read_annotations(alloc, value.get("annotations")),
    )
}

/// The digest of a descriptor's object.
pub fn digest_member(alloc: Global, value: &Value) -> Result<Digest, Fault>
    ensures exact { Gives result (at (codes "digest") digest_checked (view value.now)) }
{
    at(
        alloc,
        "digest",
        read_digest_member(alloc, value.get("digest")),
    )
}

fn agreeing_size(alloc: Global, sizes: &Sizes, value: &Value) -> Result<u64, Fault>
    ensures { (known : List Known) → AreFirstSizes sizes.now known
        → Gives result (size_agreeing known (digest_checked (get (codes "digest") (view value.now)))
        (get (codes "size") (view value.now))) }
{
    let digest = read_digest_member(alloc, value.get("digest"));
    let size = read_whole(alloc, value.get("size"));
    agreeing(alloc, sizes, &digest, size)
}

/// The size of a descriptor's object, behind the descriptors whose first sizes are given.
pub fn size_member(alloc: Global, sizes: &Sizes, value: &Value) -> Result<u64, Fault>
    ensures exact { (known : List Known) → AreFirstSizes sizes.now known
        → Gives result (at (codes "size")
        (size_agreeing known (digest_checked (get (codes "digest") (view value.now)))) (view value.now)) }
{
    at(alloc, "size", agreeing_size(alloc, sizes, value))
}

/// The URLs of a descriptor's object.
pub fn urls_member(alloc: Global, value: &Value) -> Result<Many<Text>, Fault>
    ensures exact { Gives result (at (codes "urls") (optional_list text_of) (view value.now)) }
{
    at(alloc, "urls", read_urls(alloc, value.get("urls")))
}

/// The media type of a manifest's object, which is that of its kind where it is a text.
pub fn media_member(alloc: Global, kind: Kind, value: &Value) -> Result<(), Fault>
    ensures exact { Gives result (at (codes "mediaType") (media_checked kind) (view value.now)) }
{
    at(
        alloc,
        "mediaType",
        read_media(alloc, kind, value.get("mediaType")),
    )
}
