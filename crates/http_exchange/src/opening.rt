// The head of an answer, received, and the framing of the body behind it.
ghost use Rattle.std.specs.Prelude.{◌≡◌, map, ℕ, Bool, IsTrue, OnOk};
ghost use Rattle.http_message.specs.Shown.{field_bytes};
ghost use Rattle.http_exchange.specs.Received.{Receives, CountsFaults};
ghost use Rattle.http_exchange.specs.Opening.{framed, FirstOr, OpeningFound, NoOpening};

use crate::head::receive_final_head;
use crate::inbox::Inbox;
use crate::state::State;
use http_message::{AnswerFault, Framing, Head, framing_of, has_body, is_encoded};
use skopeo_outside::Wire;
use std::alloc::Global;

const MOST_INTERIM: usize = 8;

/// A head, and what comes first of the body behind it.
#[derive(Drop)]
pub struct Opening {
    pub head: Head,
    pub state: State,
}

/// What comes first of the body behind a head. A wrong framing is a bad answer.
fn first_state(alloc: Global, get: bool, head: &Head) -> Result<State, AnswerFault>
    ensures { FirstOr (framed get head.now.status (map field_bytes head.now.fields.items)) result }
{
    if !has_body(get, head.status) {
        return Ok(State::Left(0));
    }
    match framing_of(alloc, &head.fields)? {
        Framing::Wrong => Err(AnswerFault::BadAnswer),
        Framing::Sized(size) => Ok(State::Left(size)),
        Framing::Chunked => Ok(State::Line),
        Framing::ToEnd => Ok(State::Open),
    }
}

/// Receives the final head of an answer. What follows it waits.
pub fn receive_opening<W: Wire>(
    alloc: Global,
    wire: &mut W,
    inbox: &mut Inbox,
    get: bool,
) -> Result<Opening, AnswerFault>
    requires { IsTrue (W.is_open wire.old) }
    ensures open { OnOk result (IsTrue (W.is_open wire.new)) }
    ensures received { Receives (W.conversations wire.old) (W.conversations wire.new) inbox.old inbox.new
        (OpeningFound get inbox.new.waiting) (NoOpening get) result }
    ensures faults { CountsFaults (W.faults wire.old) (W.faults wire.new) result }
{
    let head = receive_final_head(alloc, wire, inbox, MOST_INTERIM)?;
    if is_encoded(&head.fields) {
        return Err(AnswerFault::Encoded);
    }
    let state = first_state(alloc, get, &head)?;
    Ok(Opening { head, state })
}
