// Entries of a list as those of another one.
ghost use Rattle.std.specs.Prelude.{◌≡◌, ◌-◌, ◌<◌, ◌^◌, [], length, IfOk};
ghost use Rattle.manifest_change.specs.Changed.{Answers, each};
ghost use Rattle.list_change.specs.Changed.{entry_changed, entry_with, lacks_platform, paired};

use image_ref::Digest;
use manifest_change::{ConvertFault, manifest_type};
use manifest_list::{ListEntry, Platform};
use manifest_v2s2::{Descriptor, Kind};
use skopeo_outside::{Many, Memory, Text};
use std::alloc::Global;

/// An instance as it is written: the digest of its bytes and their number.
#[derive(Clone, Copy, Debug, PartialEq, Eq)]
pub struct Written {
    pub digest: Digest,
    pub size: u64,
}

fn copy_platform(alloc: Global, platform: &Option<Platform>) -> Result<Option<Platform>, Memory>
    ensures { IfOk result (λ copy. copy ≡ platform.now) }
{
    match platform {
        Some(platform) => Ok(Some(platform.copy(alloc)?)),
        None => Ok(None),
    }
}

/// The entry of a media type, for its instance as it is written.
fn entry_with(
    alloc: Global,
    entry: &ListEntry,
    written: &Written,
    media: &str,
) -> Result<ListEntry, Memory>
    ensures { IfOk result (λ e. e ≡ entry_with media.now entry.now written.now) }
{
    let copy = entry.target.copy(alloc)?;
    let platform = copy_platform(alloc, &entry.platform)?;
    Ok(ListEntry {
        target: Descriptor {
            media: Text::copy_of(alloc, media)?,
            digest: written.digest,
            size: written.size,
            urls: copy.urls,
            annotations: Many::new(alloc),
        },
        platform,
    })
}

fn lacks_platform(entry: &ListEntry, to: Kind) -> bool
    ensures { result ≡ lacks_platform to entry.now }
{
    match to {
        Kind::V2s2List => entry.platform.is_none(),
        Kind::OciIndex => false,
        Kind::V2s2 => false,
        Kind::Oci => false,
    }
}

fn entry_changed(
    alloc: Global,
    place: u32,
    entry: &ListEntry,
    written: &Written,
    to: Kind,
) -> Result<ListEntry, ConvertFault>
    ensures { Answers result (entry_changed to place (entry.now, written.now)) }
{
    let Some(media) = manifest_type(entry.target.media.as_str(), to) else {
        return Err(ConvertFault::NotAnImage(place));
    };
    if lacks_platform(entry, to) {
        return Err(ConvertFault::NoPlatform(place));
    }
    Ok(entry_with(alloc, entry, written, media)?)
}

/// Each entry in turn.
pub(crate) fn entries_changed(
    alloc: Global,
    entries: &[ListEntry],
    written: &[Written],
    to: Kind,
) -> Result<Many<ListEntry>, ConvertFault>
    requires few { length entries.now < 2 ^ 32 - 16 }
    requires all { length written.now ≡ length entries.now }
    ensures { Answers result (each (entry_changed to) 1 (paired entries.now written.now)) }
{
    let mut changed = Many::new(alloc);
    for (place, entry) in entries.iter().enumerate() {
        let one = entry_changed(alloc, place as u32 + 1, entry, &written[place], to)?;
        changed.push(one)?;
    }
    Ok(changed)
}
