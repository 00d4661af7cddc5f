// The head of a request, read off a connection.
ghost use Rattle.std.specs.Prelude.{◌≡◌, ◌⊎◌, IfOk, IsErrOf};
ghost use Rattle.lab_registry.specs.Heads.{TakesHead, RunsLong, IsCut};
ghost use Rattle.lab_registry.specs.declared.unanswered.Unanswered.TheVariants.{TooLong, Cut};

use crate::unanswered::Unanswered;
use skopeo_outside::Many;
use std::alloc::Global;
use std::io::Read;

/// The most bytes of a head.
const HEAD_MAX: usize = 65_536;

/// Reads the head of a request, and nothing behind it.
#[tactic(auto, using(crate::proofs::HeadLemmas::begins, crate::proofs::HeadLemmas::goes_on, crate::proofs::HeadLemmas::ends_here, crate::proofs::HeadLemmas::is_cut, crate::proofs::HeadLemmas::runs_long))]
pub fn read_head<F: Read>(alloc: Global, from: &mut F) -> Result<Many<u8>, Unanswered>
    ensures head { IfOk result
        (λ head. TakesHead (F.remaining from.old) (F.remaining from.new) head) }
    ensures long { IsErrOf result TooLong → RunsLong (F.remaining from.old) (F.remaining from.new) }
    ensures cut { IsErrOf result Cut → IsCut (F.remaining from.old) (F.remaining from.new) }
{
    let mut head = Many::new(alloc);
    for _ in 0..HEAD_MAX {
        let mut byte = [0];
        if from.read(&mut byte)? == 0 {
            return Err(Unanswered::Cut);
        }
        head.push(byte[0])?;
        if head.as_slice().ends_with(b"\r\n\r\n") {
            return Ok(head);
        }
    }
    Err(Unanswered::TooLong)
}
