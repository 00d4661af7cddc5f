// A request with its body, and the response.
ghost use Rattle.std.specs.Prelude.{◌≡◌, None, length, IsTrue, IsFalse};
ghost use Rattle.http_message.specs.Requests.{MaySend};
ghost use Rattle.http_message.specs.OneRequest.{GainsRequests};
ghost use Rattle.http_exchange.specs.Reader.{fresh};
ghost use Rattle.http_exchange.specs.Chain.{Exchanges};
ghost use Rattle.http_exchange.specs.Opened.{CountsWire};

use crate::collect::collect;
use crate::follow::{follow, shown_fault};
use crate::stream::Body;
use http_message::{ExchangeFault, Request, Response, respond};
use skopeo_outside::{Step, Wire};
use std::alloc::Global;

/// Most redirects that are followed.
pub const MOST_REDIRECTS: u32 = 5;

/// The exchange, with a reader to which nothing came.
fn exchange_by<W: Wire>(
    alloc: Global,
    wire: &mut W,
    request: &Request,
    step: Step,
    body: &[u8],
    limit: u64,
    reader: &mut Body,
) -> Result<Response, ExchangeFault>
    requires may { MaySend request.now (length body.now) }
    requires fresh { reader.old ≡ fresh }
    ensures exchanged { Exchanges step request.now body.now limit (W.conversations wire.old) (W.conversations wire.new) result }
    ensures faults { CountsWire (W.faults wire.old) (W.faults wire.new) result }
{
    let head = match follow(alloc, wire, step, request, body, reader, MOST_REDIRECTS) {
        Ok(head) => head,
        Err(fault) => return Err(fault),
    };
    let bytes = match collect(alloc, wire, reader, limit) {
        Ok(bytes) => bytes,
        Err(fault) => return Err(shown_fault(alloc, step, reader.inbox.first(), fault)),
    };
    match respond(alloc, &head, bytes) {
        Ok(response) => Ok(response),
        Err(_) => Err(ExchangeFault::Memory),
    }
}

/// Sends a request with its body, follows up to five redirects of a GET or a HEAD, and receives the response, whose
/// body is within the limit. The connection is closed. BadAnswer has the step, and the first bytes, at most 64, of
/// the last conversation, or of the location where a redirect leads nowhere.
pub fn exchange<W: Wire>(
    alloc: Global,
    wire: &mut W,
    request: &Request,
    step: Step,
    body: &[u8],
    limit: u64,
) -> Result<Response, ExchangeFault>
    requires may { MaySend request.now (length body.now) }
    ensures closed { IsFalse (W.is_open wire.new) }
    ensures exchanged { Exchanges step request.now body.now limit (W.conversations wire.old) (W.conversations wire.new) result }
    ensures one { GainsRequests (W.conversations wire.old) (W.conversations wire.new) }
    ensures faults { CountsWire (W.faults wire.old) (W.faults wire.new) result }
{
    let mut reader = Body::new(alloc);
    let result = exchange_by(alloc, wire, request, step, body, limit, &mut reader);
    wire.close();
    result
}
