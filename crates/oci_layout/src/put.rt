// A file that is written under another name and then named.
ghost use Rattle.std.specs.Prelude.{◌≡◌, OnOk, OnErr};
ghost use Rattle.skopeo_outside.specs.Outside.{HasCause, Told};
ghost use Rattle.layouts.specs.Trees.{OnlyAt, IsPut};

use skopeo_outside::{Files, Stop};

/// Writes the bytes under the part's path and then names the file. At an `Err` the part may stay.
#[tactic(auto, using(layouts::proofs::PutLemmas::cut_append, layouts::proofs::PutLemmas::part_only, layouts::proofs::PutLemmas::part_named))]
pub fn put_file<F: Files>(files: &mut F, part: &str, path: &str, bytes: &[u8]) -> Result<(), Stop>
    ensures put { OnOk result (Told (IsPut part.now path.now bytes.now) (F.tree files.old) (F.tree files.new)) }
    ensures kept { OnErr result (Told (OnlyAt part.now) (F.tree files.old) (F.tree files.new)) }
    ensures cause { HasCause (F.faults files.old) (F.faults files.new) result }
{
    files.create(part)?;
    files.append(part, bytes)?;
    files.rename(part, path)?;
    Ok(())
}
