// A manifest that is written into a layout: its blob first, and then the index.
ghost use Rattle.std.specs.Prelude.{◌≡◌, OnOk, OnErr, IfOk, IfErr, IfSome, option_map, false, true};
ghost use Rattle.skopeo_outside.specs.Outside.{Told};
ghost use Rattle.digest_reader.specs.Digests.{digest};
ghost use Rattle.layouts.specs.Trees.{OnlyAt, IsPut};
ghost use Rattle.layouts.specs.Faults.{Answers, StopsFreely, LayoutCause, is_free};
ghost use Rattle.oci_layout.specs.Layout.{index_path, index_part, blob_path, manifest_part};
ghost use Rattle.oci_layout.specs.Source.{is_of_oci};
ghost use Rattle.oci_layout.specs.Written.{entry_for, new_index_in, JudgesManifest, AreBothPut, IsEntered, IsNotEntered, IsBlobPut};

use crate::index::index_after;
use crate::paths::{blob_path, manifest_part};
use crate::put::put_file;
use digest_reader::digest_of;
use image_ref::Digest;
use layouts::{LayoutFault, in_folder, read_limited};
use oci_index::NewEntry;
use skopeo_outside::{Files, Many, Memory, Text};
use std::alloc::Global;

/// Writes a manifest's blob under another name, and then names it.
#[tactic(auto, using(layouts::proofs::FaultLemmas::free_stop))]
pub fn put_blob<F: Files>(
    alloc: Global,
    files: &mut F,
    folder: &str,
    digest: &Digest,
    bytes: &[u8],
) -> Result<(), LayoutFault>
    ensures put { let part = manifest_part folder.now digest.now in let path = blob_path folder.now digest.now in
        OnOk result (Told (IsPut part path bytes.now) (F.tree files.old) (F.tree files.new)) }
    ensures kept { OnErr result (Told (OnlyAt (manifest_part folder.now digest.now)) (F.tree files.old) (F.tree files.new)) }
    ensures free { StopsFreely result }
    ensures cause { LayoutCause (F.faults files.old) (F.faults files.new) result }
{
    let part = manifest_part(alloc, folder, digest)?;
    let path = blob_path(alloc, folder, digest)?;
    put_file(files, part.as_str(), path.as_str(), bytes)?;
    Ok(())
}

/// Writes the index under another name, and then names it.
#[tactic(auto, using(layouts::proofs::FaultLemmas::free_stop))]
fn put_index<F: Files>(
    alloc: Global,
    files: &mut F,
    folder: &str,
    text: &[u8],
) -> Result<(), LayoutFault>
    ensures put { OnOk result (Told (IsPut (index_part folder.now) (index_path folder.now) text.now) (F.tree files.old) (F.tree files.new)) }
    ensures kept { OnErr result (Told (OnlyAt (index_part folder.now)) (F.tree files.old) (F.tree files.new)) }
    ensures free { StopsFreely result }
    ensures cause { LayoutCause (F.faults files.old) (F.faults files.new) result }
{
    let part = in_folder(alloc, folder, "index.json.part")?;
    let path = in_folder(alloc, folder, "index.json")?;
    put_file(files, part.as_str(), path.as_str(), text)?;
    Ok(())
}

/// The text of the index with one more entry.
#[tactic(auto, using(layouts::proofs::FaultLemmas::free_stop, crate::proofs::FoundLemmas::oci_stop, crate::proofs::FoundLemmas::found_oci, crate::proofs::FoundLemmas::found_cause))]
fn read_new_index<F: Files>(
    alloc: Global,
    files: &mut F,
    folder: &str,
    entry: &NewEntry,
) -> Result<Many<u8>, LayoutFault>
    ensures read { IfSome (F.tree files.old) (λ t. Answers (λ r. r ≡ new_index_in t folder.now entry.now) result) }
    ensures of_oci { IfErr result (λ e. is_of_oci e ≡ true) }
    ensures same { F.tree files.new ≡ F.tree files.old }
    ensures cause { LayoutCause (F.faults files.old) (F.faults files.new) result }
{
    let path = in_folder(alloc, folder, "index.json")?;
    let file = read_limited(alloc, files, path.as_str())?;
    index_after(alloc, entry, file)
}

fn copy_name(alloc: Global, name: Option<&str>) -> Result<Option<Text>, Memory>
    ensures { IfOk result (λ copy. copy ≡ option_map (λ t. t.now) name.entry) }
{
    match name {
        Some(name) => Ok(Some(Text::copy_of(alloc, name)?)),
        None => Ok(None),
    }
}

/// The entry of a manifest.
fn entry_for(
    alloc: Global,
    name: Option<&str>,
    media: &str,
    bytes: &[u8],
) -> Result<NewEntry, Memory>
    ensures { IfOk result (λ entry. entry ≡ entry_for (option_map (λ t. t.now) name.entry) media.now bytes.now) }
{
    Ok(NewEntry {
        name: copy_name(alloc, name)?,
        media: Text::copy_of(alloc, media)?,
        digest: digest_of(bytes),
        size: bytes.len() as u64,
    })
}

/// Writes a manifest's blob, and then the index with this text.
#[tactic(auto, using(layouts::proofs::FaultLemmas::free_stop, crate::proofs::PutLemmas::told_both, crate::proofs::PutLemmas::told_blob_cut, crate::proofs::PutLemmas::told_index_cut))]
fn put_both<F: Files>(
    alloc: Global,
    files: &mut F,
    folder: &str,
    digest: &Digest,
    bytes: &[u8],
    text: &[u8],
) -> Result<(), LayoutFault>
    ensures put { OnOk result (Told (AreBothPut folder.now digest.now bytes.now text.now) (F.tree files.old) (F.tree files.new)) }
    ensures kept { OnErr result (Told (IsNotEntered folder.now digest.now bytes.now) (F.tree files.old) (F.tree files.new)) }
    ensures free { StopsFreely result }
    ensures cause { LayoutCause (F.faults files.old) (F.faults files.new) result }
{
    put_blob(alloc, files, folder, digest, bytes)?;
    put_index(alloc, files, folder, text)?;
    Ok(())
}

/// Writes a manifest's blob, and then the index with an entry for it, the last one.
#[tactic(auto, using(layouts::proofs::FaultLemmas::free_stop, crate::proofs::FoundLemmas::free_oci, crate::proofs::FoundLemmas::free_not_refused, crate::proofs::PutLemmas::told_none_entered))]
pub fn enter_manifest<F: Files>(
    alloc: Global,
    files: &mut F,
    folder: &str,
    name: Option<&str>,
    media: &str,
    bytes: &[u8],
) -> Result<(), LayoutFault>
    ensures judged { let entry = entry_for (option_map (λ t. t.now) name.entry) media.now bytes.now in
        IfSome (F.tree files.old) (λ t. Answers (JudgesManifest t folder.now entry) result) }
    ensures put { let entry = entry_for (option_map (λ t. t.now) name.entry) media.now bytes.now in
        OnOk result (Told (IsEntered folder.now entry bytes.now) (F.tree files.old) (F.tree files.new)) }
    ensures kept { OnErr result (Told (IsNotEntered folder.now (digest bytes.now) bytes.now) (F.tree files.old) (F.tree files.new)) }
    ensures of_oci { IfErr result (λ e. is_of_oci e ≡ true) }
    ensures refused { IfErr result (λ e. is_free e ≡ false → F.tree files.new ≡ F.tree files.old) }
    ensures cause { LayoutCause (F.faults files.old) (F.faults files.new) result }
{
    let entry = entry_for(alloc, name, media, bytes)?;
    let text = read_new_index(alloc, files, folder, &entry)?;
    put_both(alloc, files, folder, &entry.digest, bytes, text.as_slice())?;
    Ok(())
}

/// Writes the blob of an instance's manifest.
#[tactic(auto, using(layouts::proofs::FaultLemmas::free_stop))]
pub fn put_instance<F: Files>(
    alloc: Global,
    files: &mut F,
    folder: &str,
    bytes: &[u8],
) -> Result<(), LayoutFault>
    ensures put { OnOk result (Told (IsBlobPut folder.now (digest bytes.now) bytes.now) (F.tree files.old) (F.tree files.new)) }
    ensures kept { OnErr result (Told (IsNotEntered folder.now (digest bytes.now) bytes.now) (F.tree files.old) (F.tree files.new)) }
    ensures free { StopsFreely result }
    ensures cause { LayoutCause (F.faults files.old) (F.faults files.new) result }
{
    let digest = digest_of(bytes);
    put_blob(alloc, files, folder, &digest, bytes)?;
    Ok(())
}
