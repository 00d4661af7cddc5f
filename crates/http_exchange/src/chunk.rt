// The parts of a body in chunks, received (RFC 9112, section 7.1).
ghost use Rattle.std.specs.Prelude.{◌≡◌, ◌<◌, ◌≤◌, ◌+◌, ◌-◌, ℕ, true, false, List, length, IsTrue, OnOk};
ghost use Rattle.http_message.specs.Bodies.{TooFew};
ghost use Rattle.http_message.specs.Chunks.{NoChunkLine, NoTrailer};
ghost use Rattle.http_exchange.specs.Received.{Receives, CountsFaults};
ghost use Rattle.http_exchange.specs.Found.{Enough, ChunkLineFound, TrailerFound, ClosingFound, NoClosing, NextFound, NoNext};
ghost use Rattle.http_exchange.specs.Reader.{Settles};

use crate::block::read_block;
use crate::inbox::Inbox;
use crate::state::State;
use http_message::{AnswerFault, Ending, read_chunk_line, read_trailer};
use skopeo_outside::Wire;

/// Receives until two bytes wait.
fn read_two<W: Wire>(wire: &mut W, inbox: &mut Inbox) -> Result<(), AnswerFault>
    requires { IsTrue (W.is_open wire.old) }
    ensures open { OnOk result (IsTrue (W.is_open wire.new)) }
    ensures received { Receives (W.conversations wire.old) (W.conversations wire.new) inbox.old inbox.new
        (λ _. Enough 2 inbox.new.waiting) (TooFew 2) result }
    ensures faults { CountsFaults (W.faults wire.old) (W.faults wire.new) result }
{
    'pieces: while inbox.len() < 2 {
        if !inbox.fill(wire)? {
            return Err(AnswerFault::BadAnswer);
        }
    }
    Ok(())
}

/// Receives the closing of a chunk.
fn receive_closing<W: Wire>(wire: &mut W, inbox: &mut Inbox) -> Result<(), AnswerFault>
    requires { IsTrue (W.is_open wire.old) }
    ensures open { OnOk result (IsTrue (W.is_open wire.new)) }
    ensures received { Receives (W.conversations wire.old) (W.conversations wire.new) inbox.old inbox.new
        (λ _. ClosingFound inbox.new.waiting) NoClosing result }
    ensures faults { CountsFaults (W.faults wire.old) (W.faults wire.new) result }
{
    read_two(wire, inbox)?;
    if &inbox.waiting()[..2] != b"\r\n".as_slice() {
        return Err(AnswerFault::BadAnswer);
    }
    inbox.skip(2);
    Ok(())
}

/// Receives a chunk line, and answers the chunk's size.
fn receive_chunk_line<W: Wire>(wire: &mut W, inbox: &mut Inbox) -> Result<u64, AnswerFault>
    requires { IsTrue (W.is_open wire.old) }
    ensures open { OnOk result (IsTrue (W.is_open wire.new)) }
    ensures received { Receives (W.conversations wire.old) (W.conversations wire.new) inbox.old inbox.new
        (ChunkLineFound inbox.new.waiting) NoChunkLine result }
    ensures faults { CountsFaults (W.faults wire.old) (W.faults wire.new) result }
{
    let len = read_block(wire, inbox, Ending::LineFeed)?;
    let size = read_chunk_line(&inbox.waiting()[..len])?;
    inbox.skip(len);
    Ok(size)
}

/// Receives a trailer part.
fn receive_trailer<W: Wire>(wire: &mut W, inbox: &mut Inbox) -> Result<(), AnswerFault>
    requires { IsTrue (W.is_open wire.old) }
    ensures open { OnOk result (IsTrue (W.is_open wire.new)) }
    ensures received { Receives (W.conversations wire.old) (W.conversations wire.new) inbox.old inbox.new
        (λ _. TrailerFound inbox.new.waiting) NoTrailer result }
    ensures faults { CountsFaults (W.faults wire.old) (W.faults wire.new) result }
{
    let len = read_block(wire, inbox, Ending::EmptyLine)?;
    read_trailer(&inbox.waiting()[..len])?;
    inbox.skip(len);
    Ok(())
}

/// Receives the line of the next chunk, and behind that of the last one the trailer part.
pub fn next_chunk<W: Wire>(wire: &mut W, inbox: &mut Inbox) -> Result<State, AnswerFault>
    requires { IsTrue (W.is_open wire.old) }
    ensures open { OnOk result (IsTrue (W.is_open wire.new)) }
    ensures received { Receives (W.conversations wire.old) (W.conversations wire.new) inbox.old inbox.new
        (NextFound inbox.new.waiting) NoNext result }
    ensures faults { CountsFaults (W.faults wire.old) (W.faults wire.new) result }
{
    let size = receive_chunk_line(wire, inbox)?;
    if size > 0 {
        return Ok(State::Chunk(size));
    }
    receive_trailer(wire, inbox)?;
    Ok(State::Over)
}

/// Receives the closing of a chunk, and the line of the next one.
pub fn end_chunk<W: Wire>(wire: &mut W, inbox: &mut Inbox) -> Result<State, AnswerFault>
    requires { IsTrue (W.is_open wire.old) }
    ensures open { OnOk result (IsTrue (W.is_open wire.new)) }
    ensures settled { Settles (W.conversations wire.old) (W.conversations wire.new) inbox.old inbox.new (State.Chunk 0) result }
    ensures faults { CountsFaults (W.faults wire.old) (W.faults wire.new) result }
{
    receive_closing(wire, inbox)?;
    next_chunk(wire, inbox)
}
