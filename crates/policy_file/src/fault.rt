ghost use Rattle.std.specs.Prelude.{◌≡◌};
ghost use Rattle.policy_file.specs.declared.fault.PolicyFault.TheVariants.{Memory};

use skopeo_outside::Text;

/// What is wrong with a policy file (containers-policy.json(5)).
#[derive(Clone, Copy, Debug, PartialEq, Eq)]
pub enum PolicyKind {
    NotJson,
    Shape,
    UnknownKey,
    NoDefault,
    EmptyList,
    UnknownType,
    BadKeys,
    BadIdentity,
}

/// The first fault of a policy file with the JSON Pointer (RFC 6901) of its member, or want of
/// memory.
#[derive(Debug, Drop)]
pub enum PolicyFault {
    Refused { fault: PolicyKind, member: Text },
    Memory,
}

impl From<skopeo_outside::Memory> for PolicyFault {
    ghost from_gives = { λ _ e. e ≡ Memory };

    fn from(_e: skopeo_outside::Memory) -> PolicyFault {
        PolicyFault::Memory
    }
}
