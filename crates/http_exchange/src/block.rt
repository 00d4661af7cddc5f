// Heads, trailer parts and chunk lines, received until they end.
ghost use Rattle.std.specs.Prelude.{◌≡◌, ◌<◌, ◌≤◌, ◌+◌, ◌-◌, ℕ, true, false, List, length, IsTrue, OnOk};
ghost use Rattle.http_message.specs.Blocks.{IsBlock, HasNoBlock, HasNoEnd};
ghost use Rattle.http_exchange.specs.Received.{Receives, CountsFaults};
ghost use Rattle.http_exchange.specs.Found.{BlockFound, NoneFound};

use crate::inbox::Inbox;
use http_message::{AnswerFault, Ending, MOST_BYTES, find_end};
use skopeo_outside::Wire;

/// The fault where 65,536 bytes wait without an end: one byte more is too long, and their end a bad answer.
fn overlong<W: Wire>(wire: &mut W, inbox: &mut Inbox, ending: Ending) -> Result<usize, AnswerFault>
    requires open { IsTrue (W.is_open wire.old) }
    requires full { length inbox.old.waiting ≡ 65536 }
    requires none { HasNoEnd ending inbox.old.waiting 65536 }
    ensures received { Receives (W.conversations wire.old) (W.conversations wire.new) inbox.old inbox.new
        NoneFound (HasNoBlock ending) result }
    ensures faults { CountsFaults (W.faults wire.old) (W.faults wire.new) result }
{
    if inbox.pass_one(wire)? {
        return Err(AnswerFault::HeadTooLong(65537));
    }
    Err(AnswerFault::BadAnswer)
}

/// Receives until a block stands at the front, and answers its length. The bytes stay.
pub fn read_block<W: Wire>(
    wire: &mut W,
    inbox: &mut Inbox,
    ending: Ending,
) -> Result<usize, AnswerFault>
    requires { IsTrue (W.is_open wire.old) }
    ensures open { OnOk result (IsTrue (W.is_open wire.new)) }
    ensures received { Receives (W.conversations wire.old) (W.conversations wire.new) inbox.old inbox.new
        (BlockFound ending inbox.new.waiting) (HasNoBlock ending) result }
    ensures faults { CountsFaults (W.faults wire.old) (W.faults wire.new) result }
{
    let mut from = 0;
    loop {
        let have = inbox.len();
        if let Some(at) = find_end(ending, inbox.waiting(), from, have) {
            return Ok(at + 1);
        }
        if have >= MOST_BYTES {
            return overlong(wire, inbox, ending);
        }
        from = have;
        if !inbox.fill(wire)? {
            return Err(AnswerFault::BadAnswer);
        }
    }
}
