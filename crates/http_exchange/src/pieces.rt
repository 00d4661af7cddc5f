// A request that is sent piece by piece.
ghost use Rattle.std.specs.Prelude.{◌≡◌, ◌⊎◌, ◌≤◌, ◌-◌, [], ◌∷◌, ℕ, false, codes, length, IsTrue, IsFalse, IfOk, IfErr, OnOk, OnErr};
ghost use Rattle.skopeo_outside.specs.Wire.{Gains, GoesOn, SendsPart, with_sent};
ghost use Rattle.http_message.specs.Requests.{text_of, counted, MaySend};
ghost use Rattle.http_message.specs.OneRequest.{GainsRequests};
ghost use Rattle.http_message.specs.Sent.{is_text};
ghost use Rattle.http_exchange.specs.Received.{empty};
ghost use Rattle.http_exchange.specs.Talk.{is_get};
ghost use Rattle.http_exchange.specs.Sending.{sending_to, host_name};
ghost use Rattle.http_exchange.specs.Opened.{CountsWire};
ghost use Rattle.http_exchange.specs.Calls.{Ends, FailsToBegin, IsSendingFault, IsStopped};

use crate::follow::shown_fault;
use crate::inbox::Inbox;
use crate::opening::receive_opening;
use crate::sending::send_head;
use http_message::{ExchangeFault, Request, Response, respond};
use skopeo_outside::{Many, Step, Stop, Wire};
use std::alloc::Global;
use std::marker::Model;

/// How many bytes of its body a request that was begun has yet to send.
#[derive(Debug, Drop)]
pub struct Unsent {
    left: u64,
}

impl Model for Unsent {
    ghost Value = { ℕ };

    ghost view = { λ u. u.left };
}

impl Unsent {
    /// Their number.
    pub fn left(&self) -> u64
        ensures { result ≡ self.now }
    {
        self.left
    }
}

/// The bytes that a request counts for its body.
fn counted(length: Option<u64>) -> u64
    ensures { result ≡ counted length }
{
    match length {
        Some(length) => length,
        None => 0,
    }
}

/// The fault that a stop of the wire comes to.
fn stopped(stop: Stop) -> ExchangeFault
    ensures { IsStopped stop result }
{
    match stop {
        Stop::Fault => ExchangeFault::Wire,
        Stop::Memory => ExchangeFault::Memory,
    }
}

/// Connects to the host of a request, which is neither a GET nor a HEAD, and sends its head. Its body goes by
/// `send_piece`, which sends no more than it counts, and its answer comes by `end`. The connection stays open at Ok,
/// and is closed else.
#[tactic(auto, using(crate::proofs::PlainLaws::one_begun, crate::proofs::PlainLaws::one_stopped))]
pub fn begin<W: Wire>(
    alloc: Global,
    wire: &mut W,
    request: &Request,
) -> Result<Unsent, ExchangeFault>
    requires may { MaySend request.now (counted request.now.length) }
    requires no_get { is_get request.now ≡ false }
    requires no_head { is_text (codes "HEAD") request.now.method ≡ false }
    ensures open { OnOk result (IsTrue (W.is_open wire.new)) }
    ensures closed { OnErr result (IsFalse (W.is_open wire.new)) }
    ensures left { IfOk result (λ unsent. unsent ≡ counted request.now.length) }
    ensures begun { OnOk result (Gains (sending_to request.now (text_of request.now []) ∷ []) (W.conversations wire.old) (W.conversations wire.new)) }
    ensures failed { IfErr result (λ fault. FailsToBegin (host_name request.now.host) request.now.port (text_of request.now []) fault
        (W.conversations wire.old) (W.conversations wire.new)) }
    ensures one { GainsRequests (W.conversations wire.old) (W.conversations wire.new) }
    ensures faults { CountsWire (W.faults wire.old) (W.faults wire.new) result }
{
    if let Err(stop) = send_head(alloc, wire, request) {
        wire.close();
        return Err(stopped(stop));
    }
    Ok(Unsent {
        left: counted(request.length),
    })
}

/// Sends a piece of the body of a request that was begun, within what is left of it. The connection is closed at an Err.
pub fn send_piece<W: Wire>(
    wire: &mut W,
    unsent: &mut Unsent,
    bytes: &[u8],
) -> Result<(), ExchangeFault>
    requires open { IsTrue (W.is_open wire.old) }
    requires within { length bytes.now ≤ unsent.old }
    ensures open { OnOk result (IsTrue (W.is_open wire.new)) }
    ensures closed { OnErr result (IsFalse (W.is_open wire.new)) }
    ensures left { unsent.new ≡ unsent.old - length bytes.now }
    ensures sent { OnOk result (GoesOn (with_sent bytes.now) (W.conversations wire.old) (W.conversations wire.new)) }
    ensures part { OnErr result (SendsPart bytes.now (W.conversations wire.old) (W.conversations wire.new)) }
    ensures why { IfErr result IsSendingFault }
    ensures faults { CountsWire (W.faults wire.old) (W.faults wire.new) result }
{
    unsent.left -= bytes.len() as u64;
    if let Err(stop) = wire.send(bytes) {
        wire.close();
        return Err(stopped(stop));
    }
    Ok(())
}

/// The answer to a request that was sent, with an inbox to which nothing came.
fn end_by<W: Wire>(
    alloc: Global,
    wire: &mut W,
    step: Step,
    limit: u64,
    inbox: &mut Inbox,
) -> Result<Response, ExchangeFault>
    requires open { IsTrue (W.is_open wire.old) }
    requires fresh { inbox.old ≡ empty }
    ensures ends { Ends step limit (W.conversations wire.old) (W.conversations wire.new) result }
    ensures faults { CountsWire (W.faults wire.old) (W.faults wire.new) result }
{
    let opening = match receive_opening(alloc, wire, inbox, false) {
        Ok(opening) => opening,
        Err(fault) => return Err(shown_fault(alloc, step, inbox.first(), fault)),
    };
    match respond(alloc, &opening.head, Many::new(alloc)) {
        Ok(response) => Ok(response),
        Err(_) => Err(ExchangeFault::Memory),
    }
}

/// Receives the response to a request that was begun and sent, and closes the connection. Such a response has no
/// body that is read, so it is within any limit.
pub fn end<W: Wire>(
    alloc: Global,
    wire: &mut W,
    step: Step,
    limit: u64,
) -> Result<Response, ExchangeFault>
    requires { IsTrue (W.is_open wire.old) }
    ensures closed { IsFalse (W.is_open wire.new) }
    ensures ends { Ends step limit (W.conversations wire.old) (W.conversations wire.new) result }
    ensures faults { CountsWire (W.faults wire.old) (W.faults wire.new) result }
{
    let mut inbox = Inbox::new(alloc);
    let result = end_by(alloc, wire, step, limit, &mut inbox);
    wire.close();
    result
}
