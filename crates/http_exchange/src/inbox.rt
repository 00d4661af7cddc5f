// What has come on a connection: the first bytes of all, and those that wait to be read.
ghost use Rattle.std.specs.Prelude.{[], ◌≡◌, ◌==◌, ◌++◌, ◌≤◌, ◌<◌, ◌-◌, ◌+◌, List, ℕ, Bool, true, false, take, drop, length, vec_len, IsTrue, IfOk, OnOk, OnErr, IsErrOf};
ghost use Rattle.skopeo_outside.specs.Outside.{HasCause};
ghost use Rattle.skopeo_outside.specs.Wire.{GoesOn, with_received};
ghost use Rattle.http_exchange.specs.Received.{Held, Notes, empty, Receives, Filled, NotFilled, CountsFaults, fault_of_stop};
ghost use Rattle.http_exchange.specs.Found.{Passed, Given, NoneCame};

use http_message::{AnswerFault, MOST_BYTES};
use skopeo_outside::{Memory, Stop, Wire};
use std::alloc::Global;
use std::marker::Model;

const FIRST_ROOM: usize = 4096;

const MOST_SHOWN: usize = 64;

/// The first 64 bytes that came, and a buffer of at most 65,536 bytes, in which those wait, between two offsets, that
/// were not read yet. What stands behind them is room, zeroed once, into which more is received.
#[derive(Drop)]
pub struct Inbox {
    first: [u8; 64],
    known: usize,
    buffer: Vec<u8>,
    at: usize,
    end: usize,
}

impl Model for Inbox {
    ghost Value = { Held };

    ghost view = { λ i. record { first = take i.known i.first; waiting = drop i.at (take i.end i.buffer.items) } };

    ghost invariant = { λ i. (i.at ≤ i.end) × (i.end ≤ vec_len i.buffer) × (i.known ≤ 64) × (vec_len i.buffer ≤ 65536) };
}

/// Adds a piece to the first bytes, as far as there is room.
fn note(first: &mut [u8], known: usize, piece: &[u8]) -> usize
    requires size { length first.old ≡ 64 }
    requires known { known ≤ 64 }
    ensures within { result ≤ 64 }
    ensures noted { Notes (take known first.old) piece.now (take result first.new) }
{
    let count = piece.len().min(MOST_SHOWN - known);
    first[known..known + count].copy_from_slice(&piece[..count]);
    known + count
}

/// Moves the bytes between two offsets to the front.
fn move_front(buffer: &mut [u8], at: usize, end: usize)
    requires waits { at ≤ end }
    requires within { end ≤ length buffer.old }
    ensures len { length buffer.new ≡ length buffer.old }
    ensures front { take (end - at) buffer.new ≡ drop at (take end buffer.old) }
{
    buffer.copy_within(at..end, 0);
}

/// Lengthens a buffer by zeros, to twice its length, and to 4,096 bytes at least and 65,536 at most.
fn grow(buffer: &mut Vec<u8>) -> Result<(), Memory>
    requires short { vec_len buffer.old < 65536 }
    ensures longer { OnOk result (vec_len buffer.old < vec_len buffer.new) }
    ensures most { vec_len buffer.new ≤ 65536 }
    ensures front { take (vec_len buffer.old) buffer.new.items ≡ buffer.old.items }
{
    let len = (buffer.len() * 2).max(FIRST_ROOM).min(MOST_BYTES);
    buffer.resize(len, 0)?;
    Ok(())
}

/// Makes room for a byte at least behind the bytes that wait between two offsets: where they begin now. They are moved
/// only where they reach the end, and the buffer grows only where they fill it.
fn make_room(buffer: &mut Vec<u8>, at: usize, end: usize) -> Result<usize, Memory>
    requires waits { at ≤ end }
    requires within { end ≤ vec_len buffer.old }
    requires most { vec_len buffer.old ≤ 65536 }
    requires some { end - at < 65536 }
    ensures room { IfOk result (λ start. start + (end - at) < vec_len buffer.new) }
    ensures same { IfOk result (λ start. drop start (take (start + (end - at)) buffer.new.items) ≡ drop at (take end buffer.old.items)) }
    ensures most { vec_len buffer.new ≤ 65536 }
    ensures kept { OnErr result (end ≤ vec_len buffer.new) }
{
    if at == end && 0 < end {
        return Ok(0);
    }
    if end < buffer.len() {
        return Ok(at);
    }
    if 0 < at {
        move_front(buffer.as_mut_slice(), at, end);
        return Ok(0);
    }
    grow(buffer)?;
    Ok(0)
}

/// Receives some bytes behind an offset. Nothing is the end.
fn receive_behind<W: Wire>(wire: &mut W, buffer: &mut [u8], end: usize) -> Result<usize, Stop>
    requires open { IsTrue (W.is_open wire.old) }
    requires room { end < length buffer.old }
    ensures open { OnOk result (IsTrue (W.is_open wire.new)) }
    ensures len { length buffer.new ≡ length buffer.old }
    ensures front { take end buffer.new ≡ take end buffer.old }
    ensures within { IfOk result (λ count. end + count ≤ length buffer.new) }
    ensures received { IfOk result (λ count. GoesOn (with_received (take count (drop end buffer.new)) (count == 0))
        (W.conversations wire.old) (W.conversations wire.new)) }
    ensures nothing { OnErr result (W.conversations wire.new ≡ W.conversations wire.old) }
    ensures cause { HasCause (W.faults wire.old) (W.faults wire.new) result }
{
    wire.recv(&mut buffer[end..])
}

/// The fault that a stop of the wire comes to.
pub fn fault_of_stop(stop: Stop) -> AnswerFault
    ensures { result ≡ fault_of_stop stop }
{
    match stop {
        Stop::Fault => AnswerFault::Wire,
        Stop::Memory => AnswerFault::Memory,
    }
}

impl Inbox {
    /// An inbox to which nothing came.
    pub fn new(alloc: Global) -> Inbox
        ensures { result ≡ empty }
    {
        Inbox {
            first: [0; 64],
            known: 0,
            buffer: Vec::new(alloc),
            at: 0,
            end: 0,
        }
    }

    /// The first bytes of all that came.
    pub fn first(&self) -> &[u8]
        ensures { result.now ≡ self.now.first }
    {
        &self.first[..self.known]
    }

    /// The bytes that were not read yet.
    pub fn waiting(&self) -> &[u8]
        ensures waiting { result.now ≡ self.now.waiting }
        ensures most { length self.now.waiting ≤ 65536 }
    {
        &self.buffer[self.at..self.end]
    }

    /// How many bytes were not read yet.
    pub fn len(&self) -> usize
        ensures len { result ≡ length self.now.waiting }
        ensures most { result ≤ 65536 }
    {
        self.end - self.at
    }

    /// Passes over bytes that were read.
    pub fn skip(&mut self, count: usize)
        requires { count ≤ length self.old.waiting }
        ensures waiting { self.new.waiting ≡ drop count self.old.waiting }
        ensures first { self.new.first ≡ self.old.first }
    {
        self.at += count;
    }

    /// Adds a piece to the first bytes.
    fn note_came(&mut self, piece: &[u8])
        ensures noted { Notes self.old.first piece.now self.new.first }
        ensures waiting { self.new.waiting ≡ self.old.waiting }
    {
        self.known = note(&mut self.first, self.known, piece);
    }

    /// Receives some bytes behind those that wait, into the room there. False is the end.
    pub fn fill<W: Wire>(&mut self, wire: &mut W) -> Result<bool, AnswerFault>
        requires open { IsTrue (W.is_open wire.old) }
        requires room { length self.old.waiting < 65536 }
        ensures open { OnOk result (IsTrue (W.is_open wire.new)) }
        ensures received { Receives (W.conversations wire.old) (W.conversations wire.new) self.old self.new
            (Filled self.old.waiting self.new.waiting) (NotFilled self.old.waiting) result }
        ensures faults { CountsFaults (W.faults wire.old) (W.faults wire.new) result }
    {
        let start = match make_room(&mut self.buffer, self.at, self.end) {
            Ok(start) => start,
            Err(_) => return Err(AnswerFault::Memory),
        };
        let end = start + (self.end - self.at);
        self.at = start;
        self.end = end;
        let count = match receive_behind(wire, self.buffer.as_mut_slice(), end) {
            Ok(count) => count,
            Err(stop) => return Err(fault_of_stop(stop)),
        };
        let known = note(&mut self.first, self.known, &self.buffer[end..end + count]);
        self.known = known;
        self.end = end + count;
        Ok(count > 0)
    }

    /// Receives one byte behind those that wait, and drops it. False is the end.
    pub fn pass_one<W: Wire>(&mut self, wire: &mut W) -> Result<bool, AnswerFault>
        requires open { IsTrue (W.is_open wire.old) }
        ensures received { Receives (W.conversations wire.old) (W.conversations wire.new) self.old self.new
            (Passed self.old.waiting) (NotFilled self.old.waiting) result }
        ensures faults { CountsFaults (W.faults wire.old) (W.faults wire.new) result }
    {
        let mut piece = [0; 1];
        let count = match wire.recv(&mut piece) {
            Ok(count) => count,
            Err(stop) => return Err(fault_of_stop(stop)),
        };
        self.note_came(&piece[..count]);
        Ok(count > 0)
    }

    /// Receives some bytes to the front of `into`, where none wait. Nothing is the end.
    pub fn pass_on<W: Wire>(&mut self, wire: &mut W, into: &mut [u8]) -> Result<usize, AnswerFault>
        requires open { IsTrue (W.is_open wire.old) }
        requires room { 0 < length into.old }
        requires none { self.old.waiting ≡ [] }
        ensures open { OnOk result (IsTrue (W.is_open wire.new)) }
        ensures received { Receives (W.conversations wire.old) (W.conversations wire.new) self.old self.new
            (Given (length into.new) into.new self.new.waiting) NoneCame result }
        ensures faults { CountsFaults (W.faults wire.old) (W.faults wire.new) result }
    {
        let count = match wire.recv(into) {
            Ok(count) => count,
            Err(stop) => return Err(fault_of_stop(stop)),
        };
        self.note_came(&into[..count]);
        Ok(count)
    }
}
