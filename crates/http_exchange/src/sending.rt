// A request that is sent.
ghost use Rattle.std.specs.Prelude.{◌≡◌, [], ◌∷◌, ℕ, List, IsTrue, OnOk, IfErr};
ghost use Rattle.skopeo_outside.specs.Outside.{HasCause};
ghost use Rattle.skopeo_outside.specs.Wire.{Gains};
ghost use Rattle.http_message.specs.Requests.{text_of, counted, MaySend};
ghost use Rattle.http_exchange.specs.Sending.{sending, sending_to, host_name, FailsSending};

use http_message::{Request, write_head};
use image_ref::cut_at;
use skopeo_outside::{Stop, Wire};
use std::alloc::Global;

/// Connects, and sends some bytes.
fn connect_and_send<W: Wire>(wire: &mut W, host: &str, port: u16, bytes: &[u8]) -> Result<(), Stop>
    ensures open { OnOk result (IsTrue (W.is_open wire.new)) }
    ensures begun { OnOk result (Gains (sending host.now port bytes.now ∷ []) (W.conversations wire.old) (W.conversations wire.new)) }
    ensures failed { IfErr result (λ stop. FailsSending host.now port bytes.now stop (W.conversations wire.old) (W.conversations wire.new)) }
    ensures cause { HasCause (W.faults wire.old) (W.faults wire.new) result }
{
    if let Err(stop) = wire.connect(host, port) {
        return Err(stop);
    }
    if let Err(stop) = wire.send(bytes) {
        return Err(stop);
    }
    Ok(())
}

/// Connects to the host of a request, and sends its head.
pub fn send_head<W: Wire>(alloc: Global, wire: &mut W, request: &Request) -> Result<(), Stop>
    requires may { MaySend request.now (counted request.now.length) }
    ensures open { OnOk result (IsTrue (W.is_open wire.new)) }
    ensures begun { OnOk result (Gains (sending_to request.now (text_of request.now []) ∷ []) (W.conversations wire.old) (W.conversations wire.new)) }
    ensures failed { IfErr result (λ stop. FailsSending (host_name request.now.host) request.now.port (text_of request.now []) stop
        (W.conversations wire.old) (W.conversations wire.new)) }
    ensures cause { HasCause (W.faults wire.old) (W.faults wire.new) result }
{
    let head = write_head(alloc, request)?;
    let (host, _) = cut_at(request.host.as_str(), ':');
    connect_and_send(wire, host, request.port, head.as_str().as_bytes())
}
