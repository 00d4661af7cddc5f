ghost use Rattle.std.specs.Prelude.{◌≡◌, ◌-◌, ◌<◌, ◌^◌, true, length};
ghost use Rattle.manifest_v2s2.specs.Media.{is_list};
ghost use Rattle.manifest_change.specs.Changed.{Answers};
ghost use Rattle.list_change.specs.Changed.{list_changed, list_converted};
ghost use Rattle.list_change.specs.IsListChange.{ByRows};

use crate::entry::{Written, entries_changed};
use manifest_change::ConvertFault;
use manifest_list::{List, write_list};
use manifest_v2s2::Kind;
use skopeo_outside::Many;
use std::alloc::Global;

#[tactic(auto, unfolding(crate::specs::Changed::list_changed))]
fn list_changed(
    alloc: Global,
    list: &List,
    to: Kind,
    written: &[Written],
) -> Result<List, ConvertFault>
    requires few { length list.now.entries < 2 ^ 32 - 16 }
    requires all { length written.now ≡ length list.now.entries }
    ensures { Answers result (list_changed to list.now written.now) }
{
    let entries = entries_changed(alloc, list.entries.as_slice(), written, to)?;
    Ok(List { kind: to, entries })
}

/// The text of a list as one of the kind `to`, a list's, with the digests and sizes that its instances have as they are
/// written; or its first entry that has no conversion. A list has fewer than 2^32 - 16 entries.
pub fn convert_list(
    alloc: Global,
    list: &List,
    to: Kind,
    written: &[Written],
) -> Result<Many<u8>, ConvertFault>
    requires of_lists { is_list to ≡ true }
    requires few { length list.now.entries < 2 ^ 32 - 16 }
    requires all { length written.now ≡ length list.now.entries }
    ensures exact { Answers result (list_converted to list.now written.now) }
    // The same by the row of the table of media types.
    ensures rows { ByRows to list.now written.now result }
{
    let new = list_changed(alloc, list, to, written)?;
    Ok(write_list(alloc, &new)?)
}
