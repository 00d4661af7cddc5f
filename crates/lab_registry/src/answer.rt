// One connection of the registry.
ghost use Rattle.std.specs.Prelude.{◌≡◌, OnOk, IsErrOf};
ghost use Rattle.std.specs.Io.KnownBytes.{Keeps};
ghost use Rattle.lab_registry.specs.Heads.{RunsLong, IsCut};
ghost use Rattle.lab_registry.specs.Answered.{IsAnswered};
ghost use Rattle.lab_registry.specs.declared.unanswered.Unanswered.TheVariants.{TooLong, Cut};

use crate::request::read_head;
use crate::unanswered::Unanswered;
use skopeo_outside::{Many, MapPeer, Peer};
use std::alloc::Global;
use std::io::{Read, Write};

/// The host at which the registry listens.
const HOST: &str = "127.0.0.1";

/// Reads the head of one request, and writes the registry's answer to it.
pub fn answer_request<F: Read, T: Write>(
    alloc: Global,
    peer: &mut MapPeer,
    port: u16,
    from: &mut F,
    to: &mut T,
) -> Result<(), Unanswered>
    ensures kept { peer.new ≡ peer.old }
    ensures answered { OnOk result (IsAnswered peer.old
        (F.remaining from.old) (F.remaining from.new) (T.contents to.old) (T.contents to.new)) }
    ensures long { IsErrOf result TooLong → RunsLong (F.remaining from.old) (F.remaining from.new)
        × (to.new ≡ to.old) }
    ensures cut { IsErrOf result Cut → IsCut (F.remaining from.old) (F.remaining from.new)
        × (to.new ≡ to.old) }
{
    let head = read_head(alloc, from)?;
    let mut answer = Many::new(alloc);
    peer.answer(HOST, port, head.as_slice(), &mut answer)?;
    to.write_all(answer.as_slice())?;
    Ok(())
}
