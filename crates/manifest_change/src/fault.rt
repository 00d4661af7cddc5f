ghost use Rattle.std.specs.Prelude.{◌≡◌};
ghost use Rattle.manifest_change.specs.declared.fault.ConvertFault.TheVariants.{Memory};

use skopeo_outside::Text;

/// Why a manifest has no conversion: its first member that has none.
#[derive(Debug, Drop)]
pub enum ConvertFault {
    /// The layer of this number, counted from 1, and its media type.
    Layer(u32, Text),
    /// The config's media type.
    Config(Text),
    /// The list's entry of this number, counted from 1, is no image.
    NotAnImage(u32),
    /// The list's entry of this number, counted from 1, has no platform.
    NoPlatform(u32),
    /// Memory was wanting, which says nothing of the manifest.
    Memory,
}

impl From<skopeo_outside::Memory> for ConvertFault {
    ghost from_gives = { λ _ e. e ≡ Memory };

    fn from(_e: skopeo_outside::Memory) -> ConvertFault {
        ConvertFault::Memory
    }
}
