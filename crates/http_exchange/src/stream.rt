// A body that is given piece by piece.
ghost use Rattle.std.specs.Prelude.{◌≡◌, ◌<◌, ◌≤◌, ◌+◌, ◌-◌, ◌⊎◌, [], ℕ, Bool, true, false, List, length, take, drop, IsTrue, OnOk, IfOk, IsErrOf, Some, None};
ghost use Rattle.skopeo_outside.specs.Outside.{Rose};
ghost use Rattle.http_message.specs.declared.fault.AnswerFault.{AnswerFault};
ghost use Rattle.http_exchange.specs.Received.{Receives, CountsFaults};
ghost use Rattle.http_exchange.specs.Found.{Given, SomeGiven, NoneCame, NoByteCame};
ghost use Rattle.http_exchange.specs.Reader.{Reader, Settles, Gives, NextPiece, Again, Keeps, IsReady, is_settled, is_over, fresh};

use crate::chunk::{end_chunk, next_chunk};
use crate::inbox::Inbox;
use crate::state::State;
use http_message::AnswerFault;
use skopeo_outside::Wire;
use std::alloc::Global;
use std::marker::Model;

/// A body that is given piece by piece: what came and was not given, at most 65,536 bytes, and what comes next.
#[derive(Drop)]
pub struct Body {
    pub inbox: Inbox,
    pub state: State,
    pub failed: Option<AnswerFault>,
}

impl Model for Body {
    ghost Value = { Reader };

    ghost view = { λ b. record { held = b.inbox; state = b.state; failed = b.failed } };
}

/// Gives some of the bytes that wait.
fn take_waiting(inbox: &mut Inbox, most: u64, into: &mut [u8]) -> usize
    requires room { 0 < length into.old }
    requires most { 0 < most }
    requires some { 0 < length inbox.old.waiting }
    ensures given { Given most into.new inbox.new.waiting result inbox.old.waiting false }
    ensures some { 0 < result }
    ensures first { inbox.new.first ≡ inbox.old.first }
{
    let count = into.len().min(inbox.len()).min(most as usize);
    into[..count].copy_from_slice(&inbox.waiting()[..count]);
    inbox.skip(count);
    count
}

/// Gives some of the next bytes, at most `most`: of those that wait, else of those that come. Nothing is the end.
fn give<W: Wire>(
    wire: &mut W,
    inbox: &mut Inbox,
    most: u64,
    into: &mut [u8],
) -> Result<usize, AnswerFault>
    requires open { IsTrue (W.is_open wire.old) }
    requires room { 0 < length into.old }
    requires most { 0 < most }
    ensures open { OnOk result (IsTrue (W.is_open wire.new)) }
    ensures received { Receives (W.conversations wire.old) (W.conversations wire.new) inbox.old inbox.new
        (Given most into.new inbox.new.waiting) NoneCame result }
    ensures faults { CountsFaults (W.faults wire.old) (W.faults wire.new) result }
{
    if inbox.len() > 0 {
        return Ok(take_waiting(inbox, most, into));
    }
    let room = into.len().min(most as usize);
    inbox.pass_on(wire, &mut into[..room])
}

/// Gives some of the next bytes, at most `most`. Their end is a bad answer.
fn give_some<W: Wire>(
    wire: &mut W,
    inbox: &mut Inbox,
    most: u64,
    into: &mut [u8],
) -> Result<usize, AnswerFault>
    requires open { IsTrue (W.is_open wire.old) }
    requires room { 0 < length into.old }
    requires most { 0 < most }
    ensures open { OnOk result (IsTrue (W.is_open wire.new)) }
    ensures received { Receives (W.conversations wire.old) (W.conversations wire.new) inbox.old inbox.new
        (SomeGiven most into.new inbox.new.waiting) NoByteCame result }
    ensures some { IfOk result (λ n. 0 < n) }
    ensures faults { CountsFaults (W.faults wire.old) (W.faults wire.new) result }
{
    let count = give(wire, inbox, most, into)?;
    if count == 0 {
        return Err(AnswerFault::BadAnswer);
    }
    Ok(count)
}

/// Whether some bytes of the body come next, or its end.
fn is_settled(state: State) -> bool
    ensures { result ≡ is_settled state }
{
    match state {
        State::Left(left) => left > 0,
        State::Chunk(left) => left > 0,
        State::Line => false,
        State::Open => true,
        State::Over => true,
    }
}

/// Whether the body was given whole.
fn is_over(state: State) -> bool
    ensures { result ≡ is_over state }
{
    match state {
        State::Left(_) => false,
        State::Open => false,
        State::Line => false,
        State::Chunk(_) => false,
        State::Over => true,
    }
}

/// Goes on to the next bytes of the body, or to its end.
fn settle<W: Wire>(wire: &mut W, inbox: &mut Inbox, state: State) -> Result<State, AnswerFault>
    requires { IsTrue (W.is_open wire.old) }
    ensures open { OnOk result (IsTrue (W.is_open wire.new)) }
    ensures settled { Settles (W.conversations wire.old) (W.conversations wire.new) inbox.old inbox.new state result }
    ensures faults { CountsFaults (W.faults wire.old) (W.faults wire.new) result }
{
    if is_settled(state) {
        return Ok(state);
    }
    match state {
        State::Line => next_chunk(wire, inbox),
        State::Chunk(_) => end_chunk(wire, inbox),
        State::Left(_) => Ok(State::Over),
        State::Open => Ok(State::Open),
        State::Over => Ok(State::Over),
    }
}

/// Gives some bytes of a body that goes to the end of the connection.
fn take_open<W: Wire>(
    wire: &mut W,
    inbox: &mut Inbox,
    into: &mut [u8],
) -> Result<(usize, State), AnswerFault>
    requires open { IsTrue (W.is_open wire.old) }
    requires room { 0 < length into.old }
    ensures open { OnOk result (IsTrue (W.is_open wire.new)) }
    ensures gives { Gives (W.conversations wire.old) (W.conversations wire.new) inbox.old inbox.new State.Open into.new result }
    ensures over { IfOk result (λ r. r.0 ≡ 0 → is_over r.1 ≡ true) }
    ensures going { IfOk result (λ r. 0 < r.0 → is_over r.1 ≡ false) }
    ensures faults { CountsFaults (W.faults wire.old) (W.faults wire.new) result }
{
    let count = give(wire, inbox, u64::MAX, into)?;
    if count == 0 {
        return Ok((0, State::Over));
    }
    Ok((count, State::Open))
}

/// Gives some bytes of a settled body, and answers what comes next.
fn take_piece<W: Wire>(
    wire: &mut W,
    inbox: &mut Inbox,
    state: State,
    into: &mut [u8],
) -> Result<(usize, State), AnswerFault>
    requires open { IsTrue (W.is_open wire.old) }
    requires room { 0 < length into.old }
    requires settled { is_settled state ≡ true }
    ensures open { OnOk result (IsTrue (W.is_open wire.new)) }
    ensures gives { Gives (W.conversations wire.old) (W.conversations wire.new) inbox.old inbox.new state into.new result }
    ensures over { IfOk result (λ r. r.0 ≡ 0 → is_over r.1 ≡ true) }
    ensures going { IfOk result (λ r. 0 < r.0 → is_over r.1 ≡ false) }
    ensures faults { CountsFaults (W.faults wire.old) (W.faults wire.new) result }
{
    match state {
        State::Left(left) => {
            let count = give_some(wire, inbox, left, into)?;
            Ok((count, State::Left(left - count as u64)))
        }
        State::Chunk(left) => {
            let count = give_some(wire, inbox, left, into)?;
            Ok((count, State::Chunk(left - count as u64)))
        }
        State::Open => take_open(wire, inbox, into),
        State::Line => Ok((0, State::Line)),
        State::Over => Ok((0, State::Over)),
    }
}

/// Gives the next bytes of a body, and answers what comes next.
fn give_next<W: Wire>(
    wire: &mut W,
    inbox: &mut Inbox,
    state: State,
    into: &mut [u8],
) -> Result<(usize, State), AnswerFault>
    requires open { IsTrue (W.is_open wire.old) }
    requires room { 0 < length into.old }
    ensures open { OnOk result (IsTrue (W.is_open wire.new)) }
    ensures gives { Gives (W.conversations wire.old) (W.conversations wire.new) inbox.old inbox.new state into.new result }
    ensures over { IfOk result (λ r. r.0 ≡ 0 → is_over r.1 ≡ true) }
    ensures going { IfOk result (λ r. 0 < r.0 → is_over r.1 ≡ false) }
    ensures faults { CountsFaults (W.faults wire.old) (W.faults wire.new) result }
{
    let ready = settle(wire, inbox, state)?;
    take_piece(wire, inbox, ready, into)
}

impl Body {
    /// A body of which nothing came.
    pub fn new(alloc: Global) -> Self
        ensures { result ≡ fresh }
    {
        Body {
            inbox: Inbox::new(alloc),
            state: State::Left(0),
            failed: None,
        }
    }

    /// Gives the next piece of a body that has not failed. A fault stays.
    fn read_on<W: Wire>(&mut self, wire: &mut W, into: &mut [u8]) -> Result<usize, AnswerFault>
        requires open { IsTrue (W.is_open wire.old) }
        requires room { 0 < length into.old }
        requires alive { self.old.failed ≡ None }
        ensures open { OnOk result (IsTrue (W.is_open wire.new)) }
        ensures piece { NextPiece (W.conversations wire.old) (W.conversations wire.new) self.old self.new into.new result }
        ensures over { IfOk result (λ n. n ≡ 0 → is_over self.new.state ≡ true) }
        ensures going { IfOk result (λ n. 0 < n → is_over self.new.state ≡ false) }
        ensures faults { CountsFaults (W.faults wire.old) (W.faults wire.new) result }
    {
        match give_next(wire, &mut self.inbox, self.state, into) {
            Ok((count, state)) => {
                self.state = state;
                Ok(count)
            }
            Err(fault) => {
                self.failed = Some(fault);
                Err(fault)
            }
        }
    }

    /// The same, and the end of the body or a fault closes the connection.
    fn read_closing<W: Wire>(&mut self, wire: &mut W, into: &mut [u8]) -> Result<usize, AnswerFault>
        requires open { IsTrue (W.is_open wire.old) }
        requires room { 0 < length into.old }
        requires alive { self.old.failed ≡ None }
        ensures keeps { Keeps self.old self.new (W.is_open wire.new) result }
        ensures piece { NextPiece (W.conversations wire.old) (W.conversations wire.new) self.old self.new into.new result }
        ensures over { IfOk result (λ n. n ≡ 0 → is_over self.new.state ≡ true) }
        ensures going { IfOk result (λ n. 0 < n → is_over self.new.state ≡ false) }
        ensures faults { CountsFaults (W.faults wire.old) (W.faults wire.new) result }
    {
        match self.read_on(wire, into) {
            Ok(count) => {
                if count > 0 {
                    return Ok(count);
                }
                wire.close();
                Ok(count)
            }
            Err(fault) => {
                wire.close();
                Err(fault)
            }
        }
    }

    /// Gives the next piece of a body that has not failed. Behind the whole body the wire is not asked.
    pub fn read_unless_over<W: Wire>(
        &mut self,
        wire: &mut W,
        into: &mut [u8],
    ) -> Result<usize, AnswerFault>
        requires open { is_over self.old.state ≡ false → IsTrue (W.is_open wire.old) }
        requires room { 0 < length into.old }
        requires alive { self.old.failed ≡ None }
        ensures keeps { Keeps self.old self.new (W.is_open wire.new) result }
        ensures piece { NextPiece (W.conversations wire.old) (W.conversations wire.new) self.old self.new into.new result }
        ensures over { IfOk result (λ n. n ≡ 0 → is_over self.new.state ≡ true) }
        ensures going { IfOk result (λ n. 0 < n → is_over self.new.state ≡ false) }
        ensures faults { CountsFaults (W.faults wire.old) (W.faults wire.new) result }
    {
        if is_over(self.state) {
            return Ok(0);
        }
        self.read_closing(wire, into)
    }

    /// Gives the next piece of the body, at the front of `into`. Nothing is the body's end. After a fault that
    /// fault is given again, and the wire is not asked. The end and a fault close the connection.
    pub fn read_piece<W: Wire>(
        &mut self,
        wire: &mut W,
        into: &mut [u8],
    ) -> Result<usize, AnswerFault>
        requires open { IsReady self.old (W.is_open wire.old) }
        requires room { 0 < length into.old }
        ensures keeps { Keeps self.old self.new (W.is_open wire.new) result }
        ensures piece { NextPiece (W.conversations wire.old) (W.conversations wire.new) self.old self.new into.new result }
        ensures again { Again (W.conversations wire.old) (W.conversations wire.new) self.old self.new result }
        ensures count { W.faults wire.old ≤ W.faults wire.new }
        ensures wire { IsErrOf result AnswerFault.Wire → Rose (W.faults wire.old) (W.faults wire.new) ⊎ (self.old.failed ≡ Some AnswerFault.Wire) }
    {
        match self.failed {
            Some(fault) => Err(fault),
            None => self.read_unless_over(wire, into),
        }
    }
}
