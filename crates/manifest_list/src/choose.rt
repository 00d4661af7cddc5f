ghost use Rattle.std.specs.Prelude.{◌≡◌, ◌-◌, ◌<◌, ◌^◌, ℕ, List, Option, option_map, length};
ghost use Rattle.std.specs.Option.{option_copied};
ghost use Rattle.manifest_list.specs.Choice.{IsChosen, asked, fits, has_variant, instance_from, is_image_type, is_there, suits, suits_there};

use crate::list::{List, ListEntry};
use crate::platform::Platform;
use manifest_v2s2::Kind;

fn is_image_type(media: &str) -> bool
    ensures { result ≡ is_image_type media.now }
{
    media == Kind::V2s2.media_type() || media == Kind::Oci.media_type()
}

fn is_there(text: &str, other: Option<&str>) -> bool
    ensures { result ≡ is_there text.now (option_copied other.entry) }
{
    match other {
        Some(other) => other == text,
        None => false,
    }
}

fn has_variant(asked: Option<&str>, platform: &Platform) -> bool
    ensures { result ≡ has_variant (option_copied asked.entry) platform.now.variant }
{
    match asked {
        Some(text) => is_there(text, platform.variant()),
        None => true,
    }
}

fn suits(platform: &Platform, os: &str, arch: &str, variant: Option<&str>) -> bool
    ensures { result ≡ suits (asked os.now arch.now (option_copied variant.entry)) platform.now }
{
    platform.os() == os && platform.arch() == arch && has_variant(variant, platform)
}

fn fits(entry: &ListEntry, os: &str, arch: &str, variant: Option<&str>) -> bool
    ensures { result ≡ fits (asked os.now arch.now (option_copied variant.entry)) entry.now }
{
    if !is_image_type(entry.target.media.as_str()) {
        return false;
    }
    match &entry.platform {
        Some(platform) => suits(platform, os, arch, variant),
        None => false,
    }
}

/// The place, counted from 0, of the first entry of an image whose platform has this operating system, this
/// architecture and, where one is asked for, this variant. It takes no memory. A list has fewer than 2^32 - 16 entries.
pub fn choose_instance(list: &List, os: &str, arch: &str, variant: Option<&str>) -> Option<u32>
    requires few { length list.now.entries < 2 ^ 32 - 16 }
    ensures exact { result ≡ instance_from (asked os.now arch.now (option_copied variant.entry)) 0 list.now.entries }
    // The same as a relation.
    ensures chosen { IsChosen (asked os.now arch.now (option_copied variant.entry)) list.now.entries result }
{
    for (place, entry) in list.entries.as_slice().iter().enumerate() {
        if fits(entry, os, arch, variant) {
            return Some(place as u32);
        }
    }
    None
}
