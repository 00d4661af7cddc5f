// The index of a layout, and its file `oci-layout`, by their bytes.
ghost use Rattle.std.specs.Prelude.{◌≡◌, List, Result, option_map, IfErr, true};
ghost use Rattle.json_tree.specs.Checked.{Checked};
ghost use Rattle.manifest_v2s2.specs.Calls.{Reads};
ghost use Rattle.manifest_v2s2.specs.declared.descriptor.Descriptor.{Descriptor};
ghost use Rattle.oci_index.specs.Chosen.{chosen, Chooses};
ghost use Rattle.oci_index.specs.declared.choice.ChoiceFault.{ChoiceFault};
ghost use Rattle.oci_layout.specs.Source.{told, followed, by_name, source_index, Finds, is_of_bytes};
ghost use Rattle.oci_layout.specs.Destination.{layout_judged, layout_judged_bytes, kept_bytes, kept_index, kept_tree, Keeps};
ghost use Rattle.oci_layout.specs.Written.{index_fitting, index_after};
ghost use Rattle.oci_index.specs.Reading.{index_of};
ghost use Rattle.json_tree.specs.Tree.{tree};
ghost use Rattle.serde_json.specs.View.{view};

use json_tree::Parsed;
use layouts::{LayoutFault, Limited, limit};
use manifest_v2s2::{Descriptor, ManifestFault};
use oci_index::{ChoiceFault, NewEntry, choose, new_index, read_index, says_version};
use serde_json::Value;
use skopeo_outside::{Many, Text, What};
use std::alloc::Global;

/// The entries that were read, a bad member by its pointer.
#[tactic(auto, using(crate::proofs::FoundLemmas::told_ok, crate::proofs::FoundLemmas::told_member, crate::proofs::FoundLemmas::finds_memory))]
fn told(read: Result<Many<Descriptor>, ManifestFault>) -> Result<Many<Descriptor>, LayoutFault>
    ensures { (x : Checked (List Descriptor)) → Reads read x → Finds (told x) result }
{
    match read {
        Ok(entries) => Ok(entries),
        Err(ManifestFault::Memory) => Err(LayoutFault::Memory),
        Err(ManifestFault::Member(member)) => Err(LayoutFault::LayoutInvalid(member)),
    }
}

/// The entries of parsed bytes.
#[tactic(auto, using(crate::proofs::FoundLemmas::finds_memory))]
fn entries_in(alloc: Global, bytes: &[u8]) -> Result<Many<Descriptor>, LayoutFault>
    ensures { Finds (told (index_of (tree bytes.now))) result }
{
    let parsed = Parsed::of(alloc, bytes)?;
    told(read_index(alloc, &parsed))
}

/// The entries of an index file that must be there.
#[tactic(auto, using(crate::proofs::FoundLemmas::finds_is))]
fn source_index(alloc: Global, file: Limited) -> Result<Many<Descriptor>, LayoutFault>
    ensures { Finds (source_index file) result }
{
    match file {
        Limited::Absent => Err(LayoutFault::LayoutInvalid(Text::new(alloc))),
        Limited::TooLong => Err(LayoutFault::TooLarge(What::Index, limit() as u64 + 1)),
        Limited::Whole(bytes) => entries_in(alloc, bytes.as_slice()),
    }
}

#[tactic(auto, using(crate::proofs::FoundLemmas::chosen_ok, crate::proofs::FoundLemmas::chosen_absent, crate::proofs::FoundLemmas::chosen_ambiguous, crate::proofs::FoundLemmas::finds_memory))]
fn by_name(found: Result<Descriptor, ChoiceFault>) -> Result<Descriptor, LayoutFault>
    ensures { (x : Result Descriptor ChoiceFault) → Chooses found x → Finds (by_name x) result }
{
    match found {
        Ok(entry) => Ok(entry),
        Err(ChoiceFault::Absent) => Err(LayoutFault::RefAbsent),
        Err(ChoiceFault::Ambiguous(count)) => Err(LayoutFault::RefAmbiguous(count)),
        Err(ChoiceFault::Memory) => Err(LayoutFault::Memory),
    }
}

/// The one entry of a name in an index file, or the one entry where no name is asked for.
#[tactic(auto, using(crate::proofs::FoundLemmas::then_finds, crate::proofs::FoundLemmas::refuses_then))]
pub fn pick(alloc: Global, name: Option<&str>, file: Limited) -> Result<Descriptor, LayoutFault>
    ensures { let name = option_map (λ t. t.now) name.entry in
        Finds (followed (source_index file) (λ entries. by_name (chosen name entries))) result }
{
    let entries = source_index(alloc, file)?;
    by_name(choose(alloc, name, entries.as_slice()))
}

#[tactic(auto, using(crate::proofs::FoundLemmas::finds_memory, crate::proofs::JudgedLemmas::layout_says, crate::proofs::JudgedLemmas::layout_lacks))]
fn judge_layout_bytes(alloc: Global, bytes: &[u8]) -> Result<bool, LayoutFault>
    ensures { Finds (layout_judged_bytes bytes.now) result }
{
    let parsed = Parsed::of(alloc, bytes)?;
    if says_version(&parsed) {
        return Ok(false);
    }
    let member = Text::copy_of(alloc, "/imageLayoutVersion")?;
    Err(LayoutFault::LayoutInvalid(member))
}

/// Whether a file `oci-layout` is absent; one that is there has the version.
#[tactic(auto, using(crate::proofs::FoundLemmas::finds_is))]
pub fn judge_layout(alloc: Global, file: Limited) -> Result<bool, LayoutFault>
    ensures { Finds (layout_judged file) result }
{
    match file {
        Limited::Absent => Ok(true),
        Limited::TooLong => Err(LayoutFault::TooLarge(What::Index, limit() as u64 + 1)),
        Limited::Whole(bytes) => judge_layout_bytes(alloc, bytes.as_slice()),
    }
}

#[tactic(auto, using(crate::proofs::JudgedLemmas::kept_ok, crate::proofs::JudgedLemmas::kept_err))]
fn kept_bytes(alloc: Global, bytes: &[u8]) -> Result<Option<Parsed>, LayoutFault>
    ensures keeps { Keeps (kept_bytes bytes.now) result }
    ensures of_bytes { IfErr result (λ e. is_of_bytes e ≡ true) }
{
    let parsed = Parsed::of(alloc, bytes)?;
    match told(read_index(alloc, &parsed)) {
        Ok(_) => Ok(Some(parsed)),
        Err(fault) => Err(fault),
    }
}

/// What an index file holds, which may be absent.
pub fn kept_index(alloc: Global, file: Limited) -> Result<Option<Parsed>, LayoutFault>
    ensures keeps { Keeps (kept_index file) result }
    ensures of_bytes { IfErr result (λ e. is_of_bytes e ≡ true) }
{
    match file {
        Limited::Absent => Ok(None),
        Limited::TooLong => Err(LayoutFault::TooLarge(What::Index, limit() as u64 + 1)),
        Limited::Whole(bytes) => kept_bytes(alloc, bytes.as_slice()),
    }
}

fn root_in(kept: &Option<Parsed>) -> Option<&Value>
    ensures { option_map (λ v. view v.now) result ≡ kept_tree kept.now }
{
    match kept {
        Some(parsed) => parsed.root(),
        None => None,
    }
}

fn index_fitting(text: Many<u8>) -> Result<Many<u8>, LayoutFault>
    ensures is { result ≡ index_fitting text }
    ensures of_bytes { IfErr result (λ e. is_of_bytes e ≡ true) }
{
    if text.len() <= limit() {
        Ok(text)
    } else {
        Err(LayoutFault::TooLarge(What::Index, limit() as u64 + 1))
    }
}

/// The text of an index file with one more entry.
#[tactic(auto, using(crate::proofs::FoundLemmas::finds_memory, crate::proofs::JudgedLemmas::keeps_refuse, crate::proofs::JudgedLemmas::after_finds))]
pub fn index_after(alloc: Global, entry: &NewEntry, file: Limited) -> Result<Many<u8>, LayoutFault>
    ensures { Finds (index_after entry.now file) result }
{
    let kept = kept_index(alloc, file)?;
    let text = new_index(alloc, root_in(&kept), entry)?;
    index_fitting(text)
}
