// The head of an answer, received.
ghost use Rattle.std.specs.Prelude.{◌≡◌, ◌≤◌, ◌<◌, ◌+◌, ◌-◌, ℕ, true, false, IsTrue, OnOk};
ghost use Rattle.http_message.specs.Heads.{HasNoHead, HasNoFinalHead};
ghost use Rattle.http_exchange.specs.Received.{Receives, CountsFaults};
ghost use Rattle.http_exchange.specs.Found.{HeadFound, FinalHeadFound};

use crate::block::read_block;
use crate::inbox::Inbox;
use http_message::{AnswerFault, Ending, Head, is_interim, read_head};
use skopeo_outside::Wire;
use std::alloc::Global;

/// Receives a head, all of it. What follows it waits.
fn receive_head<W: Wire>(
    alloc: Global,
    wire: &mut W,
    inbox: &mut Inbox,
) -> Result<Head, AnswerFault>
    requires { IsTrue (W.is_open wire.old) }
    ensures open { OnOk result (IsTrue (W.is_open wire.new)) }
    ensures received { Receives (W.conversations wire.old) (W.conversations wire.new) inbox.old inbox.new
        (HeadFound inbox.new.waiting) HasNoHead result }
    ensures faults { CountsFaults (W.faults wire.old) (W.faults wire.new) result }
{
    let len = read_block(wire, inbox, Ending::EmptyLine)?;
    let head = read_head(alloc, &inbox.waiting()[..len])?;
    inbox.skip(len);
    Ok(head)
}

/// Receives heads up to the first that is no interim one, of which it passes over so many.
pub fn receive_final_head<W: Wire>(
    alloc: Global,
    wire: &mut W,
    inbox: &mut Inbox,
    skips: usize,
) -> Result<Head, AnswerFault>
    requires { IsTrue (W.is_open wire.old) }
    ensures open { OnOk result (IsTrue (W.is_open wire.new)) }
    ensures received { Receives (W.conversations wire.old) (W.conversations wire.new) inbox.old inbox.new
        (FinalHeadFound skips inbox.new.waiting) (HasNoFinalHead skips) result }
    ensures faults { CountsFaults (W.faults wire.old) (W.faults wire.new) result }
{
    let head = receive_head(alloc, wire, inbox)?;
    if !is_interim(head.status) {
        return Ok(head);
    }
    if skips == 0 {
        return Err(AnswerFault::BadAnswer);
    }
    receive_final_head(alloc, wire, inbox, skips - 1)
}
