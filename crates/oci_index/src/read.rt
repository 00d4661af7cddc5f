// An index as a whole.
ghost use Rattle.std.specs.Prelude.{◌≡◌, [], List, Option, option_map, ⊤};
ghost use Rattle.serde_json.specs.View.{view};
ghost use Rattle.json_tree.specs.Checked.{Checked, Gives};
ghost use Rattle.json_tree.specs.Parsed.{tree_of};
ghost use Rattle.manifest_v2s2.specs.Calls.{Reads, TellsOnly};
ghost use Rattle.manifest_v2s2.specs.declared.descriptor.Descriptor.{Descriptor};
ghost use Rattle.manifest_v2s2.specs.declared.kind.Kind.{Kind};
ghost use Rattle.manifest_convert.specs.Kinds.{kind_of};
ghost use Rattle.oci_index.specs.Numbers.{whole_there};
ghost use Rattle.oci_index.specs.Reading.{entries_there, where_index, where_whole, index_of};
ghost use Rattle.oci_index.specs.Index.{SaysIndex};

use crate::entry::read_entries;
use crate::numbers::check_numbers;
use json_tree::{Fault, Parsed, Path, at};
use manifest_convert::kind_of_parsed;
use manifest_v2s2::{Descriptor, Kind, ManifestFault, told};
use serde_json::Value;
use skopeo_outside::{Many, Text};
use std::alloc::Global;

fn entries_there(alloc: Global, root: Option<&Value>) -> Result<Many<Descriptor>, Fault>
    ensures { Gives result (entries_there (option_map (λ v. view v.now) root.entry)) }
{
    match root {
        None => Err(Fault::Member(Path::root(alloc))),
        Some(value) => at(
            alloc,
            "manifests",
            read_entries(alloc, value.get("manifests")),
        ),
    }
}

fn whole_there(alloc: Global, root: Option<&Value>) -> Result<(), Fault>
    ensures { Gives result (whole_there (option_map (λ v. view v.now) root.entry)) }
{
    match root {
        None => Err(Fault::Member(Path::root(alloc))),
        Some(value) => check_numbers(alloc, value),
    }
}

fn entries_in(alloc: Global, parsed: &Parsed) -> Result<Many<Descriptor>, ManifestFault>
    ensures { Reads result (entries_there (tree_of parsed.now)) }
{
    told(alloc, entries_there(alloc, parsed.root()))
}

fn numbers_in(alloc: Global, parsed: &Parsed) -> Result<(), ManifestFault>
    ensures { Reads result (whole_there (tree_of parsed.now)) }
{
    told(alloc, whole_there(alloc, parsed.root()))
}

fn where_index(
    alloc: Global,
    kind: Result<Kind, ManifestFault>,
    entries: Result<Many<Descriptor>, ManifestFault>,
) -> Result<Many<Descriptor>, ManifestFault>
    ensures { (x : Checked Kind) (y : Checked (List Descriptor)) → Reads kind x → Reads entries y
        → Reads result (where_index x y) }
{
    match kind {
        Err(fault) => Err(fault),
        Ok(Kind::OciIndex) => entries,
        Ok(Kind::V2s2) => Err(ManifestFault::Member(Text::new(alloc))),
        Ok(Kind::V2s2List) => Err(ManifestFault::Member(Text::new(alloc))),
        Ok(Kind::Oci) => Err(ManifestFault::Member(Text::new(alloc))),
    }
}

fn where_whole(
    entries: Result<Many<Descriptor>, ManifestFault>,
    numbers: Result<(), ManifestFault>,
) -> Result<Many<Descriptor>, ManifestFault>
    ensures { (x : Checked (List Descriptor)) (y : Checked ⊤) → Reads entries x → Reads numbers y
        → Reads result (where_whole x y) }
{
    match entries {
        Err(fault) => Err(fault),
        Ok(entries) => match numbers {
            Ok(_) => Ok(entries),
            Err(fault) => Err(fault),
        },
    }
}

/// The entries of the OCI index that bytes are which were parsed before, by their descriptors.
///
/// A fault is a pointer (RFC 6901). First the kind is asked for, without a content type: its fault, and the empty pointer
/// for another kind. Then the first bad member of the entries counts, and then the first number that is not read as a
/// whole one, in byte order of names and by number of places.
#[tactic(auto, unfolding(crate::specs::Reading::index_of))]
pub fn read_index(alloc: Global, parsed: &Parsed) -> Result<Many<Descriptor>, ManifestFault>
    ensures exact { Reads result (index_of (tree_of parsed.now)) }
    // The same in the words of the format alone.
    ensures format { TellsOnly (SaysIndex (tree_of parsed.now)) result }
{
    let kind = kind_of_parsed(alloc, parsed, "");
    let entries = entries_in(alloc, parsed);
    let numbers = numbers_in(alloc, parsed);
    where_whole(where_index(alloc, kind, entries), numbers)
}
