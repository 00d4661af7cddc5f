// A verifier for trials.
ghost use Rattle.std.specs.Prelude.{◌≡◌, ◌++◌, IfOk, OnOk, IsErrOf, codes, length};
ghost use Rattle.lab_registry.specs.Question.{line, judgement, IsJudged};
ghost use Rattle.lab_registry.specs.declared.unjudged.Unjudged.TheVariants.{NoQuestion};

use crate::question::read_signature;
use crate::unjudged::Unjudged;
use skopeo_outside::{Many, Memory, Text};
use std::alloc::Global;
use std::io::{Read, Write};

/// That a signature is good, with its payload.
fn good(alloc: Global, payload: &[u8]) -> Result<Many<u8>, Memory>
    ensures { IfOk result (λ answer. answer ≡ line (codes "good ") (length payload.now) ++ payload.now) }
{
    let mut digits = Text::new(alloc);
    digits.push_number(payload.len())?;
    let mut answer = Many::new(alloc);
    answer.extend(b"good ")?;
    answer.extend(digits.as_str().as_bytes())?;
    answer.extend(b"\n")?;
    answer.extend(payload)?;
    Ok(answer)
}

/// The answer for a signature.
#[tactic(auto, unfolding(crate::specs::Question::judgement))]
fn judge(alloc: Global, signature: &[u8]) -> Result<Many<u8>, Memory>
    ensures { IfOk result (λ answer. answer ≡ judgement signature.now) }
{
    if signature.starts_with(b"GOOD ") {
        return good(alloc, &signature[5..]);
    }
    let mut answer = Many::new(alloc);
    answer.extend(b"bad no key\n")?;
    Ok(answer)
}

/// Reads one question to its end, and writes the answer for its signature. Nothing is written for what is no question.
pub fn answer_question<F: Read, T: Write>(
    alloc: Global,
    from: &mut F,
    to: &mut T,
) -> Result<(), Unjudged>
    ensures judged { OnOk result (IsJudged (F.remaining from.old) (T.contents to.old) (T.contents to.new)) }
    ensures refused { IsErrOf result NoQuestion → to.new ≡ to.old }
{
    let mut bytes = Vec::new(alloc);
    from.read_to_end(&mut bytes)?;
    let signature = read_signature(alloc, bytes.as_slice())?;
    let answer = judge(alloc, signature)?;
    to.write_all(answer.as_slice())?;
    Ok(())
}
