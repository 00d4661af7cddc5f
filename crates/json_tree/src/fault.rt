ghost use Rattle.std.specs.Prelude.{◌≡◌, ℕ, List, Result};
ghost use Rattle.json_tree.specs.declared.path.Step.{Step};
ghost use Rattle.json_tree.specs.declared.path.Step.TheVariants.{Name};
ghost use Rattle.json_tree.specs.declared.fault.Fault.TheVariants.{Memory};
ghost use Rattle.json_tree.specs.Checked.{Checked, Gives, both, nearer, under};

use crate::path::{Path, Step};
use skopeo_outside::Text;
use std::alloc::{AllocError, AllocFailed, Global};

/// Why a tree is refused: the first bad member, or want of memory.
#[derive(Debug, Drop)]
pub enum Fault {
    Member(Path),
    Memory,
}

impl From<skopeo_outside::Memory> for Fault {
    ghost from_gives = { λ _ e. e ≡ Memory };

    fn from(_e: skopeo_outside::Memory) -> Fault {
        Fault::Memory
    }
}

impl From<AllocError> for Fault {
    ghost from_gives = { λ _ e. e ≡ Memory };

    fn from(_e: AllocError) -> Fault {
        Fault::Memory
    }
}

impl<T: Drop> From<AllocFailed<T>> for Fault {
    ghost from_gives = { λ _ e. e ≡ Memory };

    fn from(_e: AllocFailed<T>) -> Fault {
        Fault::Memory
    }
}

/// The path with fewer steps, and the first where they have as many.
fn nearer(p: Path, q: Path) -> Path
    ensures { result ≡ nearer p q }
{
    if q.len() < p.len() { q } else { p }
}

/// Both values, or the nearer fault.
pub fn both<A: Drop, B: Drop>(
    first: Result<A, Fault>,
    second: Result<B, Fault>,
) -> Result<(A, B), Fault>
    ensures { (x : Checked A) (y : Checked B) → Gives first x → Gives second y → Gives result (both x y) }
{
    match first {
        Ok(a) => match second {
            Ok(b) => Ok((a, b)),
            Err(fault) => Err(fault),
        },
        Err(Fault::Memory) => Err(Fault::Memory),
        Err(Fault::Member(p)) => match second {
            Ok(_) => Err(Fault::Member(p)),
            Err(Fault::Memory) => Err(Fault::Memory),
            Err(Fault::Member(q)) => Err(Fault::Member(nearer(p, q))),
        },
    }
}

/// What was read behind one step.
pub fn under<A: Drop>(step: Step, read: Result<A, Fault>) -> Result<A, Fault>
    ensures { (x : Checked A) → Gives read x → Gives result (under step x) }
{
    match read {
        Ok(a) => Ok(a),
        Err(Fault::Memory) => Err(Fault::Memory),
        Err(Fault::Member(p)) => Err(Fault::Member(p.under(step)?)),
    }
}

/// What was read of the member of that name. It takes memory only where there is a fault.
pub fn at<A: Drop>(alloc: Global, name: &str, read: Result<A, Fault>) -> Result<A, Fault>
    ensures { (x : Checked A) → Gives read x → Gives result (under (Name name.now) x) }
{
    match read {
        Ok(a) => Ok(a),
        Err(Fault::Memory) => Err(Fault::Memory),
        Err(Fault::Member(path)) => {
            let step = Step::Name(Text::copy_of(alloc, name)?);
            Err(Fault::Member(path.under(step)?))
        }
    }
}
