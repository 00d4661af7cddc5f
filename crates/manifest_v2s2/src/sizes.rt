ghost use Rattle.std.specs.Prelude.{◌≡◌, ◌++◌, ◌∷◌, [], ℕ, List, Option, Some, option_map, option_to_list, OnOk, OnErr};
ghost use Rattle.serde_json.specs.Data.{Data};
ghost use Rattle.serde_json.specs.View.{view};
ghost use Rattle.json_tree.specs.Leaf.{whole_of};
ghost use Rattle.manifest_v2s2.specs.Known.{AreFirstSizes, first_size};
ghost use Rattle.manifest_v2s2.specs.Descriptor.{checked_some, digest_checked, known_by, known_of};

use image_ref::{Digest, read_digest};
use serde_json::Value;
use skopeo_outside::Memory;
use std::alloc::Global;
use std::collections::BTreeMap;

/// The size that a descriptor gives its digest.
#[derive(Clone, Copy)]
pub struct Known {
    pub digest: Digest,
    pub size: u64,
}

/// The size that the first of some descriptors gives each digest.
#[derive(Drop)]
pub struct Sizes {
    first: BTreeMap<Digest, u64>,
}

const LIMIT: u64 = 9_223_372_036_854_775_808;

fn digest_in(value: Option<&Value>) -> Option<Digest>
    ensures { checked_some result ≡ digest_checked (option_map (λ v. view v.now) value.entry) }
{
    match value {
        Some(Value::String(text)) => read_digest(text.as_str()),
        _ => None,
    }
}

fn whole_in(value: Option<&Value>) -> Option<u64>
    ensures { checked_some result ≡ whole_of (option_map (λ v. view v.now) value.entry) }
{
    match value.and_then(Value::as_u64) {
        Some(size) if size < LIMIT => Some(size),
        _ => None,
    }
}

fn known_as(digest: Option<Digest>, size: Option<u64>) -> Option<Known>
    ensures { known_by (checked_some digest) (checked_some size) ≡ option_to_list result }
{
    match digest {
        Some(digest) => match size {
            Some(size) => Some(Known { digest, size }),
            None => None,
        },
        None => None,
    }
}

/// The digest and the size of a descriptor that has both.
fn known_in(value: Option<&Value>) -> Option<Known>
    ensures { known_of (option_map (λ v. view v.now) value.entry) ≡ option_to_list result }
{
    match value {
        Some(value) => known_as(digest_in(value.get("digest")), whole_in(value.get("size"))),
        None => None,
    }
}

impl Sizes {
    pub fn new(alloc: Global) -> Sizes
        ensures { AreFirstSizes result [] }
    {
        Sizes {
            first: BTreeMap::new(alloc),
        }
    }

    /// The first size of the digest. It takes no memory.
    pub fn first(&self, digest: &Digest) -> Option<u64>
        ensures { (known : List Known) → AreFirstSizes self.now known → result ≡ first_size known digest.now }
    {
        self.first.get(digest).copied()
    }

    fn add(&mut self, one: Known) -> Result<(), Memory>
        ensures learnt { (known : List Known) → AreFirstSizes self.old known
            → OnOk result (AreFirstSizes self.new (known ++ one ∷ [])) }
        ensures kept { (known : List Known) → AreFirstSizes self.old known
            → OnErr result (AreFirstSizes self.new known) }
    {
        if self.first.contains_key(&one.digest) {
            return Ok(());
        }
        self.first.insert(one.digest, one.size)?;
        Ok(())
    }

    /// Adds a descriptor's digest and size, where it has both, behind those that were added before. Where memory is
    /// wanting the sizes are those of before.
    pub fn learn(&mut self, value: Option<&Value>) -> Result<(), Memory>
        ensures learnt { (known : List Known) → AreFirstSizes self.old known
            → OnOk result (AreFirstSizes self.new (known ++ known_of (option_map (λ v. view v.now) value.entry))) }
        ensures kept { (known : List Known) → AreFirstSizes self.old known
            → OnErr result (AreFirstSizes self.new known) }
    {
        match known_in(value) {
            Some(one) => self.add(one),
            None => Ok(()),
        }
    }
}
