// A wire in memory with a list of the calls that are to fail.
ghost use Rattle.std.specs.Prelude.{◌≡◌, ◌≤◌, [], Some, length, IfOk, OnOk, OnErr, IsErrOf, IsTrue, IsFalse};
ghost use Rattle.skopeo_outside.specs.Failing.{FailsAsListed, first_half};
ghost use Rattle.skopeo_outside.specs.Wire.{SendsPart};
ghost use Rattle.skopeo_outside.specs.Line.{line_told, line_open, line_peer, line_piece, is_asked, Begins, Sends, Receives, IsFresh, KeepsEnd, Gives};

use crate::failures::Failures;
use crate::line::{Peer, SureWire};
use crate::stop::Stop;
use crate::wire::Wire;
use std::alloc::Global;

/// The first half of a piece.
fn first_half(bytes: &[u8]) -> &[u8]
    ensures { result.now ≡ first_half bytes.now }
{
    &bytes[..bytes.len() / 2]
}

/// A wire in memory, with a list of the calls that are to fail. A call to send that fails has sent the first half.
#[derive(Drop)]
pub struct MemWire<P: Peer + Drop> {
    pub line: SureWire<P>,
    pub failures: Failures,
}

impl<P: Peer + Drop> MemWire<P> {
    /// A wire to the peer, which gives at most `piece` bytes at a time. The calls of these numbers, from 1, fail.
    pub fn new(alloc: Global, peer: P, piece: usize, failing: Vec<u64>) -> Self
        ensures conversations { line_told result.line ≡ Some [] }
        ensures closed { IsFalse (line_open result.line) }
        ensures peer { line_peer result.line ≡ peer }
        ensures piece { line_piece result.line ≡ piece }
        ensures calls { result.failures.calls ≡ 0 }
        ensures failing { result.failures.failing.items ≡ failing.items }
        ensures count { result.failures.count ≡ 0 }
    {
        MemWire {
            line: SureWire::new(alloc, peer, piece),
            failures: Failures::new(failing),
        }
    }
}

impl<P: Peer + Drop> Wire for MemWire<P> {
    ghost conversations = { λ w. line_told w.line };

    ghost is_open = { λ w. line_open w.line };

    ghost faults = { λ w. w.failures.count };

    fn connect(&mut self, host: &str, port: u16) -> Result<(), Stop>
        ensures open { OnOk result (IsTrue (line_open self.new.line)) }
        ensures gained { OnOk result (Begins host.now port self.old.line self.new.line) }
        ensures failed { IsErrOf result Stop.Fault → Begins host.now port self.old.line self.new.line }
        ensures wanted { IsErrOf result Stop.Memory → line_told self.new.line ≡ line_told self.old.line }
        ensures fresh { OnOk result (IsFresh self.new.line) }
        ensures end { KeepsEnd self.old.line self.new.line }
        ensures calls { FailsAsListed self.old.failures self.new.failures result }
    {
        let fails = self.failures.next();
        self.line.connect(host, port)?;
        fails
    }

    #[tactic(auto, using(crate::proofs::WireLemmas::sends_less))]
    fn send(&mut self, bytes: &[u8]) -> Result<(), Stop>
        requires { IsTrue (line_open self.old.line) }
        ensures open { OnOk result (IsTrue (line_open self.new.line)) }
        ensures sent { OnOk result (Sends bytes.now self.old.line self.new.line) }
        ensures part { OnErr result (SendsPart bytes.now (line_told self.old.line) (line_told self.new.line)) }
        ensures half { IsErrOf result Stop.Fault → Sends (first_half bytes.now) self.old.line self.new.line }
        ensures wanted { IsErrOf result Stop.Memory → line_told self.new.line ≡ line_told self.old.line }
        ensures asks { OnOk result (IsFalse (is_asked self.new.line)) }
        ensures end { KeepsEnd self.old.line self.new.line }
        ensures calls { FailsAsListed self.old.failures self.new.failures result }
    {
        if let Err(stop) = self.failures.next() {
            self.line.send(first_half(bytes))?;
            return Err(stop);
        }
        self.line.send(bytes)
    }

    fn recv(&mut self, into: &mut [u8]) -> Result<usize, Stop>
        requires { IsTrue (line_open self.old.line) }
        ensures open { OnOk result (IsTrue (line_open self.new.line)) }
        ensures within { IfOk result (λ count. count ≤ length into.new) }
        ensures received { IfOk result (Receives self.old.line self.new.line into.new) }
        ensures gives { IfOk result (Gives P.answers self.old.line self.new.line (length into.old) into.new) }
        ensures nothing { OnErr result (line_told self.new.line ≡ line_told self.old.line) }
        ensures failed { IsErrOf result Stop.Fault → self.new.line ≡ self.old.line }
        ensures calls { FailsAsListed self.old.failures self.new.failures result }
    {
        self.failures.next()?;
        self.line.recv(into)
    }

    fn close(&mut self) {
        self.line.close();
    }

    fn faults(&self) -> u64 {
        self.failures.count
    }
}
