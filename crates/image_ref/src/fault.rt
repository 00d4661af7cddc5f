ghost use Rattle.std.specs.Prelude.{◌≡◌};
ghost use Rattle.image_ref.specs.declared.fault.RefFault.TheVariants.{Memory};

use std::alloc::{AllocError, AllocFailed};

/// The first fault of a text that is no reference, by the order of these variants. A number is the
/// offset in bytes of what is wrong, from the start of the text.
#[derive(Clone, Copy, Debug, PartialEq, Eq)]
pub enum RefFault {
    /// The text is empty.
    Empty,
    /// The whole text is 64 digits in lower-case hexadecimal.
    HexName,
    /// What follows the first `@` is no digest; it begins here.
    BadDigest(usize),
    /// What follows the first `:` past the last `/` is no tag; it begins here.
    BadTag(usize),
    /// The host is not in its grammar; it begins here.
    BadHost(usize),
    /// The path holds `A` to `Z`, here for the first time.
    UpperCase(usize),
    /// A component is not in its grammar; the first such one begins here.
    BadPath(usize),
    /// Host, slash and path of the normal form have more than 255 bytes.
    TooLong,
    /// The text has a tag and a digest, and is to name an image.
    TagAndDigest,
    /// Memory was wanting, which says nothing of the text.
    Memory,
}

impl From<skopeo_outside::Memory> for RefFault {
    ghost from_gives = { λ _ e. e ≡ Memory };

    fn from(_e: skopeo_outside::Memory) -> RefFault {
        RefFault::Memory
    }
}

/// Why a text names no place. Each such text has one of these faults.
#[derive(Clone, Copy, Debug, PartialEq, Eq)]
pub enum PlaceFault {
    /// The text has no `:`.
    NoTransport,
    /// What stands before the first `:` is no transport.
    UnknownTransport,
    /// It is a transport that other tools have and this one leaves out.
    LeftOut,
    /// `docker:` without `//`.
    Slashes,
    /// The path of `dir:` or `oci:` is empty.
    EmptyPath,
    /// What follows the path of `oci:` and a `:` is no name of an entry.
    BadOciRef,
    /// The reference behind `docker://` has this fault; its offset counts in the whole text.
    Reference(RefFault),
    /// Memory was wanting, which says nothing of the text.
    Memory,
}

impl From<skopeo_outside::Memory> for PlaceFault {
    ghost use Rattle.image_ref.specs.declared.fault.PlaceFault.TheVariants as place;

    ghost from_gives = { λ _ e. e ≡ place.Memory };

    fn from(_e: skopeo_outside::Memory) -> PlaceFault {
        PlaceFault::Memory
    }
}
