// A network as the program sees it: one connection at a time.
ghost use Rattle.std.specs.Prelude.{◌≡◌, ◌==◌, ◌<◌, ◌≤◌, ℕ, Bool, List, [], ◌∷◌, Option, length, take, IfOk, OnOk, OnErr, IsErrOf, IsTrue, IsFalse};
ghost use Rattle.skopeo_outside.specs.Outside.{HasCause};
ghost use Rattle.skopeo_outside.specs.Wire.{Conversation, Conversations, Gains, GainsOrNot, GoesOn, SendsPart, begun, with_sent, with_received};

use crate::stop::Stop;

/// A wire holds at most one connection to a host and port.
pub trait Wire {
    /// The conversations so far, the last one last, where they are told.
    ghost conversations: { Self → Conversations };

    /// Whether a connection is open. After an `Err` nothing is said of it.
    ghost is_open: { Self → Bool };

    /// How often a call has answered `Stop::Fault`, up to the last value of a u64.
    ghost faults: { Self → ℕ };

    /// Closes what is open, and begins a conversation. One that failed stands without bytes.
    fn connect(&mut self, host: &str, port: u16) -> Result<(), Stop>
        ensures open { OnOk result (IsTrue (is_open self.new)) }
        ensures gained { OnOk result (Gains (begun host.now port ∷ []) (conversations self.old) (conversations self.new)) }
        ensures failed { IsErrOf result Stop.Fault → Gains (begun host.now port ∷ []) (conversations self.old) (conversations self.new) }
        ensures wanted { IsErrOf result Stop.Memory → GainsOrNot (begun host.now port ∷ []) (conversations self.old) (conversations self.new) }
        ensures cause { HasCause (faults self.old) (faults self.new) result };

    /// Sends all the bytes, or at an `Err` a front of them.
    fn send(&mut self, bytes: &[u8]) -> Result<(), Stop>
        requires { IsTrue (is_open self.old) }
        ensures open { OnOk result (IsTrue (is_open self.new)) }
        ensures sent { OnOk result (GoesOn (with_sent bytes.now) (conversations self.old) (conversations self.new)) }
        ensures part { OnErr result (SendsPart bytes.now (conversations self.old) (conversations self.new)) }
        ensures cause { HasCause (faults self.old) (faults self.new) result };

    /// Receives some bytes to the front of `into`, or 0 at the end.
    fn recv(&mut self, into: &mut [u8]) -> Result<usize, Stop>
        requires open { IsTrue (is_open self.old) }
        requires room { 0 < length into.old }
        ensures open { OnOk result (IsTrue (is_open self.new)) }
        ensures within { IfOk result (λ count. count ≤ length into.new) }
        ensures received { IfOk result (λ count. GoesOn (with_received (take count into.new) (count == 0)) (conversations self.old) (conversations self.new)) }
        ensures nothing { OnErr result (conversations self.new ≡ conversations self.old) }
        ensures cause { HasCause (faults self.old) (faults self.new) result };

    /// Closes what is open. Takes no memory.
    fn close(&mut self)
        ensures closed { IsFalse (is_open self.new) }
        ensures nothing { conversations self.new ≡ conversations self.old }
        ensures count { faults self.old ≡ faults self.new };

    /// The count of faults.
    fn faults(&self) -> u64
        ensures { result ≡ faults self.now };
}
