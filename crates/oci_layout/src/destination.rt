// A destination layout before its first blob.
ghost use Rattle.std.specs.Prelude.{◌≡◌, ◌⊎◌, OnOk, OnErr, IfErr, IfSome, Ok, true, false};
ghost use Rattle.skopeo_outside.specs.Outside.{HasCause, Told};
ghost use Rattle.layouts.specs.Faults.{Answers, LayoutCause, is_free};
ghost use Rattle.oci_layout.specs.Source.{is_of_oci};
ghost use Rattle.oci_layout.specs.Destination.{destination_judged, JudgesDestination, MayReplace, IsMade, IsHalfReady, IsReady};

use crate::index::{judge_layout, kept_index};
use crate::put::put_file;
use layouts::{LayoutFault, Limited, in_folder, read_limited};
use oci_index::LAYOUT;
use skopeo_outside::{Files, Stop};
use std::alloc::Global;

/// Refuses a folder that holds something else than a layout; else says whether it lacks its `oci-layout`.
#[tactic(auto, using(layouts::proofs::FaultLemmas::free_stop, crate::proofs::FoundLemmas::oci_stop, crate::proofs::FoundLemmas::found_oci, crate::proofs::FoundLemmas::found_cause))]
fn judge<F: Files>(alloc: Global, files: &mut F, folder: &str) -> Result<bool, LayoutFault>
    ensures judged { IfSome (F.tree files.old) (λ t. Answers (λ r. r ≡ destination_judged t folder.now) result) }
    ensures of_oci { IfErr result (λ e. is_of_oci e ≡ true) }
    ensures same { F.tree files.new ≡ F.tree files.old }
    ensures cause { LayoutCause (F.faults files.old) (F.faults files.new) result }
{
    let path = in_folder(alloc, folder, "oci-layout")?;
    let file = read_limited(alloc, files, path.as_str())?;
    let absent = judge_layout(alloc, file)?;
    let path = in_folder(alloc, folder, "index.json")?;
    let file = read_limited(alloc, files, path.as_str())?;
    kept_index(alloc, file)?;
    Ok(absent)
}

/// Makes the folder of blobs, and the file `oci-layout` where it is absent.
#[tactic(auto, using(crate::proofs::MadeLemmas::told_half_none))]
fn make<F: Files>(alloc: Global, files: &mut F, folder: &str, absent: bool) -> Result<(), Stop>
    ensures made { OnOk result (Told (IsMade folder.now absent) (F.tree files.old) (F.tree files.new)) }
    ensures kept { OnErr result (Told (IsHalfReady folder.now) (F.tree files.old) (F.tree files.new)) }
    ensures cause { HasCause (F.faults files.old) (F.faults files.new) result }
{
    let blobs = in_folder(alloc, folder, "blobs/sha256")?;
    let part = in_folder(alloc, folder, "oci-layout.part")?;
    let path = in_folder(alloc, folder, "oci-layout")?;
    files.make_dir(blobs.as_str())?;
    if !absent {
        return Ok(());
    }
    put_file(files, part.as_str(), path.as_str(), LAYOUT)?;
    Ok(())
}

/// Makes a folder a layout, unless it holds something else than one.
#[tactic(auto, using(layouts::proofs::FaultLemmas::free_stop, crate::proofs::FoundLemmas::oci_stop, crate::proofs::MadeLemmas::told_half_none))]
pub fn prepare<F: Files>(alloc: Global, files: &mut F, folder: &str) -> Result<(), LayoutFault>
    ensures judged { IfSome (F.tree files.old) (λ t. Answers (JudgesDestination t folder.now) result) }
    ensures ready { OnOk result (Told (IsReady folder.now) (F.tree files.old) (F.tree files.new)) }
    ensures kept { OnErr result (Told (IsHalfReady folder.now) (F.tree files.old) (F.tree files.new)) }
    ensures of_oci { IfErr result (λ e. is_of_oci e ≡ true) }
    ensures refused { IfErr result (λ e. is_free e ≡ false → F.tree files.new ≡ F.tree files.old) }
    ensures late { (F.tree files.new ≡ F.tree files.old) ⊎ IfSome (F.tree files.old) (λ t. MayReplace t folder.now) }
    ensures cause { LayoutCause (F.faults files.old) (F.faults files.new) result }
{
    let absent = judge(alloc, files, folder)?;
    make(alloc, files, folder, absent)?;
    Ok(())
}
