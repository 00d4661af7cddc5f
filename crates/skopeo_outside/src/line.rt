// A wire in memory, whose other end is a value.
ghost use Rattle.skopeo_outside.specs.declared.line.Talk.{Talk};
ghost use Rattle.std.specs.Prelude.{List, ⊤, [], ◌∷◌, IsFalse, take, ◌≡◌, ◌==◌, ◌&&◌, ◌≤◌, ◌++◌, ◌<◌, Some, is_some, length, IfOk, OnErr, OnOk, IsTrue, IsErrOf};
ghost use Rattle.skopeo_outside.specs.Wire.{SendsPart, begun, on_last, with_sent, with_received};
ghost use Rattle.skopeo_outside.specs.Talks.{all_kept, kept, kept_last};
ghost use Rattle.skopeo_outside.specs.Line.{AnswersOf, line_told, line_open, line_peer, line_piece, is_asked, left, Begins, Sends, Receives, IsFresh, KeepsEnd, Comes, Gives};

use crate::lists::Many;
use crate::stop::{Memory, Stop};
use crate::wire::Wire;
use std::alloc::Global;

/// The other end of a wire in memory.
pub trait Peer {
    /// Relates the peer, the host and port, what was sent, the list before and after an answer, and the peer then.
    ghost answers: { AnswersOf Self } = { λ _ _ _ _ _ _ _. ⊤ };

    /// Adds the answer to what was sent so far on this connection.
    fn answer(
        &mut self,
        host: &str,
        port: u16,
        sent: &[u8],
        into: &mut Many<u8>,
    ) -> Result<(), Memory>
        ensures answer { OnOk result (answers self.old host.now port sent.now into.old into.new self.new) };
}

/// A conversation as it is kept.
#[derive(Drop)]
struct Talk {
    host: String,
    port: u16,
    sent: Vec<u8>,
    received: Vec<u8>,
    ended: bool,
}

impl Talk {
    fn new(alloc: Global, host: &str, port: u16) -> Result<Talk, Stop>
        ensures begun { IfOk result (λ talk. kept talk ≡ begun host.now port) }
        ensures err { OnErr result (IsErrOf result Stop.Memory) }
    {
        Ok(Talk {
            host: String::from_str(alloc, host)?,
            port,
            sent: Vec::new(alloc),
            received: Vec::new(alloc),
            ended: false,
        })
    }
}

/// Notes bytes that are sent.
fn note_sent(last: &mut Option<Talk>, bytes: &[u8]) -> Result<(), Stop>
    requires { IsTrue (is_some last.old) }
    ensures some { IsTrue (is_some last.new) }
    ensures ok { OnOk result ((past : List Talk) → all_kept past last.new ≡ on_last (with_sent bytes.now) (all_kept past last.old)) }
    ensures err { OnErr result ((past : List Talk) → all_kept past last.new ≡ all_kept past last.old) }
    ensures memory { OnErr result (IsErrOf result Stop.Memory) }
{
    if let Some(talk) = last {
        talk.sent.extend_from_slice(bytes)?;
    }
    Ok(())
}

/// Notes what one call of recv gives.
fn note_received(last: &mut Option<Talk>, piece: &[u8]) -> Result<(), Stop>
    requires { IsTrue (is_some last.old) }
    ensures some { IsTrue (is_some last.new) }
    ensures ok { OnOk result ((past : List Talk) → all_kept past last.new ≡ on_last (with_received piece.now (length piece.now == 0)) (all_kept past last.old)) }
    ensures err { OnErr result ((past : List Talk) → all_kept past last.new ≡ all_kept past last.old) }
    ensures memory { OnErr result (IsErrOf result Stop.Memory) }
{
    if let Some(talk) = last {
        if piece.is_empty() {
            talk.ended = true;
        } else {
            talk.received.extend_from_slice(piece)?;
        }
    }
    Ok(())
}

/// Makes the last conversation a past one, and a new one the last.
fn go_on(past: &mut Vec<Talk>, last: &mut Option<Talk>, next: Talk) -> Result<(), Stop>
    ensures ok { OnOk result (all_kept past.new.items last.new ≡ all_kept past.old.items last.old ++ kept_last (Some next)) }
    ensures some { OnOk result (IsTrue (is_some last.new)) }
    ensures err { OnErr result ((all_kept past.new.items last.new ≡ all_kept past.old.items last.old) × (IsErrOf result Stop.Memory)) }
{
    past.reserve(1)?;
    if let Some(talk) = last.take() {
        past.push(talk)?;
    }
    *last = Some(next);
    Ok(())
}

/// A wire in memory that never fails. It asks its peer at the first `recv` after a `send`, and gives the answer in pieces.
#[derive(Drop)]
pub struct SureWire<P: Peer + Drop> {
    alloc: Global,
    peer: P,
    past: Vec<Talk>,
    last: Option<Talk>,
    connected: bool,
    answer: Many<u8>,
    given: usize,
    asked: bool,
    piece: usize,
}

impl<P: Peer + Drop> SureWire<P> {
    /// A wire to the peer, which gives at most `piece` bytes at a time.
    pub fn new(alloc: Global, peer: P, piece: usize) -> Self
        ensures conversations { line_told result ≡ Some [] }
        ensures closed { IsFalse (line_open result) }
        ensures peer { line_peer result ≡ peer }
        ensures piece { line_piece result ≡ piece }
    {
        SureWire {
            alloc,
            peer,
            past: Vec::new(alloc),
            last: None,
            connected: false,
            answer: Many::new(alloc),
            given: 0,
            asked: true,
            piece,
        }
    }

    /// The other end.
    pub fn peer(&self) -> &P
        ensures { result.now ≡ line_peer self.now }
    {
        &self.peer
    }

    /// Asks the peer, unless nothing was sent since it was asked last.
    fn ask(&mut self) -> Result<(), Stop>
        requires { IsTrue (is_some self.old.last) }
        ensures last { self.new.last ≡ self.old.last }
        ensures past { self.new.past ≡ self.old.past }
        ensures connected { self.new.connected ≡ self.old.connected }
        ensures piece { self.new.piece ≡ self.old.piece }
        ensures given { OnOk result (self.new.given ≤ length self.new.answer) }
        ensures comes { OnOk result (Comes P.answers self.old self.new (left self.new)) }
        ensures asked { OnOk result (IsTrue (is_asked self.new)) }
        ensures err { OnErr result (IsErrOf result Stop.Memory) }
    {
        if self.asked {
            self.given = self.given.min(self.answer.len());
            return Ok(());
        }
        let mut answer = Many::new(self.alloc);
        if let Some(talk) = &self.last {
            self.peer
                .answer(&talk.host, talk.port, &talk.sent, &mut answer)?;
        }
        self.answer = answer;
        self.given = 0;
        self.asked = true;
        Ok(())
    }
}

impl<P: Peer + Drop> Wire for SureWire<P> {
    ghost conversations = { line_told };

    ghost is_open = { line_open };

    ghost faults = { λ _. 0 };

    fn connect(&mut self, host: &str, port: u16) -> Result<(), Stop>
        ensures open { OnOk result (IsTrue (line_open self.new)) }
        ensures gained { OnOk result (Begins host.now port self.old self.new) }
        ensures wanted { OnErr result (IsErrOf result Stop.Memory × (line_told self.new ≡ line_told self.old)) }
        ensures fresh { OnOk result (IsFresh self.new) }
        ensures end { KeepsEnd self.old self.new }
    {
        self.connected = false;
        let talk = Talk::new(self.alloc, host, port)?;
        go_on(&mut self.past, &mut self.last, talk)?;
        self.connected = true;
        self.asked = true;
        self.answer.clear();
        self.given = 0;
        Ok(())
    }

    fn send(&mut self, bytes: &[u8]) -> Result<(), Stop>
        requires { IsTrue (line_open self.old) }
        ensures open { OnOk result (IsTrue (line_open self.new)) }
        ensures sent { OnOk result (Sends bytes.now self.old self.new) }
        ensures part { OnErr result (SendsPart bytes.now (line_told self.old) (line_told self.new)) }
        ensures wanted { OnErr result (IsErrOf result Stop.Memory × (line_told self.new ≡ line_told self.old)) }
        ensures asks { OnOk result (IsFalse (is_asked self.new)) }
        ensures end { KeepsEnd self.old self.new }
    {
        note_sent(&mut self.last, bytes)?;
        self.asked = false;
        Ok(())
    }

    fn recv(&mut self, into: &mut [u8]) -> Result<usize, Stop>
        requires { IsTrue (line_open self.old) }
        ensures open { OnOk result (IsTrue (line_open self.new)) }
        ensures within { IfOk result (λ count. count ≤ length into.new) }
        ensures received { IfOk result (Receives self.old self.new into.new) }
        ensures gives { IfOk result (Gives P.answers self.old self.new (length into.old) into.new) }
        ensures wanted { OnErr result (IsErrOf result Stop.Memory × (line_told self.new ≡ line_told self.old)) }
    {
        self.ask()?;
        let rest = self.answer.len() - self.given;
        let count = rest.min(into.len()).min(self.piece);
        into[..count].copy_from_slice(&self.answer.as_slice()[self.given..self.given + count]);
        note_received(&mut self.last, &into[..count])?;
        self.given += count;
        Ok(count)
    }

    fn close(&mut self)
        ensures closed { IsFalse (line_open self.new) }
        ensures nothing { line_told self.new ≡ line_told self.old }
        ensures end { KeepsEnd self.old self.new }
    {
        self.connected = false;
    }

    fn faults(&self) -> u64 {
        0
    }
}
