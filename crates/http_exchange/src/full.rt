// A buffer that is filled with the next bytes of a body.
ghost use Rattle.std.specs.Prelude.{◌≡◌, ◌<◌, ◌≤◌, ◌+◌, ◌-◌, ◌⊎◌, ℕ, true, false, length, take, drop, IfOk, IsErrOf, Some, None, IsTrue};
ghost use Rattle.skopeo_outside.specs.Outside.{Rose};
ghost use Rattle.http_message.specs.declared.fault.AnswerFault.{AnswerFault};
ghost use Rattle.http_exchange.specs.Received.{CountsFaults};
ghost use Rattle.http_exchange.specs.Reader.{NextPiece, Again, Keeps, IsReady, is_over};
ghost use Rattle.http_exchange.specs.Filling.{KeepsFull, BlamesWire, Fills};

use crate::stream::Body;
use http_message::AnswerFault;
use skopeo_outside::Wire;

/// Gives the next piece of a body that has not failed, behind so many bytes of `into`.
fn read_at<W: Wire>(
    wire: &mut W,
    body: &mut Body,
    into: &mut [u8],
    at: usize,
) -> Result<usize, AnswerFault>
    requires open { IsReady body.old (W.is_open wire.old) }
    requires room { at < length into.old }
    requires alive { body.old.failed ≡ None }
    ensures keeps { Keeps body.old body.new (W.is_open wire.new) result }
    ensures piece { NextPiece (W.conversations wire.old) (W.conversations wire.new) body.old body.new (drop at into.new) result }
    ensures over { IfOk result (λ n. n ≡ 0 → is_over body.new.state ≡ true) }
    ensures going { IfOk result (λ n. 0 < n → is_over body.new.state ≡ false) }
    ensures front { take at into.new ≡ take at into.old }
    ensures faults { CountsFaults (W.faults wire.old) (W.faults wire.new) result }
{
    body.read_unless_over(wire, &mut into[at..])
}

/// Fills `into` with the next bytes of a body that has not failed. A fault behind some bytes is answered by the next call.
fn fill_on<W: Wire>(wire: &mut W, body: &mut Body, into: &mut [u8]) -> Result<usize, AnswerFault>
    requires open { IsReady body.old (W.is_open wire.old) }
    requires room { 0 < length into.old }
    requires alive { body.old.failed ≡ None }
    ensures keeps { KeepsFull (length into.new) body.old body.new (W.is_open wire.new) result }
    ensures fills { Fills (W.conversations wire.old) (W.conversations wire.new) body.old body.new into.new result }
    ensures faults { CountsFaults (W.faults wire.old) (W.faults wire.new) result }
    ensures blames { BlamesWire (W.faults wire.old) (W.faults wire.new) body.old body.new }
{
    let mut count = 0;
    'pieces: while count < into.len() {
        match read_at(wire, body, into, count) {
            Ok(more) => {
                if more == 0 {
                    return Ok(count);
                }
                count += more;
            }
            Err(fault) => {
                if count > 0 {
                    return Ok(count);
                }
                return Err(fault);
            }
        }
    }
    Ok(count)
}

/// Fills `into` with the next bytes of the body. After a fault that fault is given again, and the wire is not asked.
pub fn fill<W: Wire>(wire: &mut W, body: &mut Body, into: &mut [u8]) -> Result<usize, AnswerFault>
    requires open { IsReady body.old (W.is_open wire.old) }
    requires room { 0 < length into.old }
    ensures keeps { KeepsFull (length into.new) body.old body.new (W.is_open wire.new) result }
    ensures fills { Fills (W.conversations wire.old) (W.conversations wire.new) body.old body.new into.new result }
    ensures again { Again (W.conversations wire.old) (W.conversations wire.new) body.old body.new result }
    ensures count { W.faults wire.old ≤ W.faults wire.new }
    ensures wire { IsErrOf result AnswerFault.Wire → Rose (W.faults wire.old) (W.faults wire.new) ⊎ (body.old.failed ≡ Some AnswerFault.Wire) }
    ensures blames { BlamesWire (W.faults wire.old) (W.faults wire.new) body.old body.new }
{
    match body.failed {
        Some(fault) => Err(fault),
        None => fill_on(wire, body, into),
    }
}
