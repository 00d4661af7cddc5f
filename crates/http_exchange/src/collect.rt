// A body that is collected whole.
ghost use Rattle.std.specs.Prelude.{◌≡◌, ◌<◌, ◌≤◌, ◌+◌, ◌-◌, ℕ, IsTrue, None, length};
ghost use Rattle.http_exchange.specs.Received.{CountsFaults};
ghost use Rattle.http_exchange.specs.Collected.{Collects};

use crate::stream::Body;
use http_message::AnswerFault;
use skopeo_outside::{Many, Wire};
use std::alloc::Global;

/// Collects the body within the limit. It is too long once one byte more than the limit came.
pub fn collect<W: Wire>(
    alloc: Global,
    wire: &mut W,
    body: &mut Body,
    limit: u64,
) -> Result<Many<u8>, AnswerFault>
    requires open { IsTrue (W.is_open wire.old) }
    requires alive { body.old.failed ≡ None }
    ensures collected { Collects (W.conversations wire.old) (W.conversations wire.new) body.old body.new limit result }
    ensures faults { CountsFaults (W.faults wire.old) (W.faults wire.new) result }
{
    let mut bytes = Many::new(alloc);
    let mut piece = [0; 8192];
    'pieces: loop {
        let count = body.read_piece(wire, &mut piece)?;
        if count == 0 {
            return Ok(bytes);
        }
        bytes.extend(&piece[..count])?;
        if bytes.len() as u64 > limit {
            return Err(AnswerFault::BodyTooLong(limit + 1));
        }
    }
}
