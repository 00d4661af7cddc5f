// One request, up to the head of its answer.
ghost use Rattle.std.specs.Prelude.{◌≡◌, [], ℕ, List, codes, length, None, IsTrue, OnOk};
ghost use Rattle.http_message.specs.Requests.{MaySend};
ghost use Rattle.http_message.specs.Sent.{is_text};
ghost use Rattle.http_exchange.specs.Received.{CountsFaults};
ghost use Rattle.http_exchange.specs.Reader.{fresh};
ghost use Rattle.http_exchange.specs.Talk.{is_get};
ghost use Rattle.http_exchange.specs.Asked.{Asked};

use crate::inbox::fault_of_stop;
use crate::opening::receive_opening;
use crate::sending::send_head;
use crate::stream::Body;
use http_message::{AnswerFault, Head, Request};
use skopeo_outside::Wire;
use std::alloc::Global;

/// Whether a request is a GET.
pub fn is_get(request: &Request) -> bool
    ensures { result ≡ is_get request.now }
{
    request.method.as_str() == "GET"
}

/// Whether a request is a HEAD.
pub fn is_head(request: &Request) -> bool
    ensures { result ≡ is_text (codes "HEAD") request.now.method }
{
    request.method.as_str() == "HEAD"
}

/// Sends a request with its body, and receives the head of its answer.
#[tactic(auto, using(http_message::proofs::LaxHeads::may_counted))]
pub fn ask<W: Wire>(
    alloc: Global,
    wire: &mut W,
    request: &Request,
    body: &[u8],
    reader: &mut Body,
) -> Result<Head, AnswerFault>
    requires may { MaySend request.now (length body.now) }
    requires fresh { reader.old ≡ fresh }
    ensures open { OnOk result (IsTrue (W.is_open wire.new)) }
    ensures alive { reader.new.failed ≡ None }
    ensures asked { Asked request.now body.now (W.conversations wire.old) (W.conversations wire.new) reader.new result }
    ensures faults { CountsFaults (W.faults wire.old) (W.faults wire.new) result }
{
    if let Err(stop) = send_head(alloc, wire, request) {
        return Err(fault_of_stop(stop));
    }
    if let Err(stop) = wire.send(body) {
        return Err(fault_of_stop(stop));
    }
    let opening = receive_opening(alloc, wire, &mut reader.inbox, is_get(request))?;
    reader.state = opening.state;
    Ok(opening.head)
}
