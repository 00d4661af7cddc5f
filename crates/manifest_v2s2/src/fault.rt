ghost use Rattle.std.specs.Prelude.{◌≡◌};
ghost use Rattle.json_tree.specs.Checked.{Checked, Gives};
ghost use Rattle.manifest_v2s2.specs.Calls.{Reads};
ghost use Rattle.manifest_v2s2.specs.declared.fault.ManifestFault.TheVariants.{Memory};

use json_tree::Fault;
use skopeo_outside::Text;
use std::alloc::Global;

/// Why a manifest is refused.
#[derive(Debug, Drop)]
pub enum ManifestFault {
    /// The pointer (RFC 6901) of the first bad member; empty where the bytes are no JSON object.
    Member(Text),
    Memory,
}

impl From<skopeo_outside::Memory> for ManifestFault {
    ghost from_gives = { λ _ e. e ≡ Memory };

    fn from(_e: skopeo_outside::Memory) -> ManifestFault {
        ManifestFault::Memory
    }
}

/// What was read of a tree, the member at fault by its pointer.
pub fn told<A: Drop>(alloc: Global, read: Result<A, Fault>) -> Result<A, ManifestFault>
    ensures { (x : Checked A) → Gives read x → Reads result x }
{
    match read {
        Ok(a) => Ok(a),
        Err(Fault::Memory) => Err(ManifestFault::Memory),
        Err(Fault::Member(path)) => match path.pointer(alloc) {
            Ok(text) => Err(ManifestFault::Member(text)),
            Err(_) => Err(ManifestFault::Memory),
        },
    }
}
