ghost use Rattle.std.specs.Prelude.{◌≡◌, [], ◌∷◌, IfOk};
ghost use Rattle.json_tree.specs.declared.path.Step.TheVariants.{Name, Place};
ghost use Rattle.policy_file.specs.declared.refusal.Refusal.TheVariants.{Memory};
ghost use Rattle.policy_file.specs.Judged.{Judged, Judges, IsRefusal, IsToldBy, under};

use crate::fault::{PolicyFault, PolicyKind};
use json_tree::{Path, Step};
use skopeo_outside::{Memory, Text};
use std::alloc::{AllocError, AllocFailed, Global};

/// The first fault below a value with the steps to its member, or want of memory.
#[derive(Debug, Drop)]
pub(crate) enum Refusal {
    Refused(PolicyKind, Path),
    Memory,
}

impl From<skopeo_outside::Memory> for Refusal {
    ghost from_gives = { λ _ e. e ≡ Memory };

    fn from(_e: skopeo_outside::Memory) -> Refusal {
        Refusal::Memory
    }
}

impl From<AllocError> for Refusal {
    ghost from_gives = { λ _ e. e ≡ Memory };

    fn from(_e: AllocError) -> Refusal {
        Refusal::Memory
    }
}

impl<T: Drop> From<AllocFailed<T>> for Refusal {
    ghost from_gives = { λ _ e. e ≡ Memory };

    fn from(_e: AllocFailed<T>) -> Refusal {
        Refusal::Memory
    }
}

/// The refusal of the value itself.
pub(crate) fn refused(alloc: Global, kind: PolicyKind) -> Refusal
    ensures { result ≡ Refusal.Refused kind [] }
{
    Refusal::Refused(kind, Path::root(alloc))
}

/// What was read of the member of that name.
pub(crate) fn at<A: Drop>(alloc: Global, name: &str, read: Result<A, Refusal>) -> Result<A, Refusal>
    ensures { (x : Judged A) → Judges read x → Judges result (under (Name name.now) x) }
{
    match read {
        Ok(a) => Ok(a),
        Err(Refusal::Memory) => Err(Refusal::Memory),
        Err(Refusal::Refused(kind, path)) => {
            let step = Step::Name(Text::from_str(alloc, name)?);
            Err(Refusal::Refused(kind, path.under(step)?))
        }
    }
}

/// What was read of the item at that place.
pub(crate) fn at_place<A: Drop>(place: usize, read: Result<A, Refusal>) -> Result<A, Refusal>
    ensures { (x : Judged A) → Judges read x → Judges result (under (Place place) x) }
{
    match read {
        Ok(a) => Ok(a),
        Err(Refusal::Memory) => Err(Refusal::Memory),
        Err(Refusal::Refused(kind, path)) => Err(Refusal::Refused(
            kind,
            path.under(Step::Place(place))?,
        )),
    }
}

/// The refusal of the member of that name.
pub(crate) fn refused_at(alloc: Global, kind: PolicyKind, name: &str) -> Result<Refusal, Memory>
    ensures { IfOk result (λ e. e ≡ Refusal.Refused kind (Name name.now ∷ [])) }
{
    let step = Step::Name(Text::from_str(alloc, name)?);
    Ok(Refusal::Refused(kind, Path::root(alloc).under(step)?))
}

/// The fault as callers are told it.
pub(crate) fn told(alloc: Global, refusal: Refusal) -> PolicyFault
    ensures { IsToldBy result refusal }
{
    match refusal {
        Refusal::Memory => PolicyFault::Memory,
        Refusal::Refused(fault, path) => match path.pointer(alloc) {
            Ok(member) => PolicyFault::Refused { fault, member },
            Err(_) => PolicyFault::Memory,
        },
    }
}
