// Programs that are asked for an answer.
ghost use Rattle.std.specs.Prelude.{◌≡◌, ◌≤◌, ◌+◌, ℕ, length, IfOk, OnOk, IsErrOf};
ghost use Rattle.skopeo_outside.specs.Outside.{HasCause};
ghost use Rattle.skopeo_outside.specs.Helper.{Runs, GainsRun, GainsRunOrNot, ended_run, failed_run};

use crate::lists::Many;
use crate::stop::Stop;

/// Programs that are run, one at a time.
pub trait Helper {
    /// The runs so far, the last one last, where they are told.
    ghost runs: { Self → Runs };

    /// How often a call has answered `Stop::Fault`, up to the last value of a u64.
    ghost faults: { Self → ℕ };

    /// Runs a program without arguments on an input, and keeps at most `limit + 1` bytes of its output in `answer`, which
    /// is cleared first. Answers the program's status, which is -1 where a signal ended it.
    fn run(
        &mut self,
        program: &str,
        input: &[u8],
        limit: usize,
        answer: &mut Many<u8>,
    ) -> Result<i32, Stop>
        ensures ran { IfOk result (λ status. GainsRun (ended_run program.now input.now status answer.new) (runs self.old) (runs self.new)) }
        ensures kept { OnOk result (length answer.new ≤ limit + 1) }
        ensures failed { IsErrOf result Stop.Fault → GainsRun (failed_run program.now input.now) (runs self.old) (runs self.new) }
        ensures wanted { IsErrOf result Stop.Memory → GainsRunOrNot (failed_run program.now input.now) (runs self.old) (runs self.new) }
        ensures cause { HasCause (faults self.old) (faults self.new) result };

    /// The count of faults.
    fn faults(&self) -> u64
        ensures { result ≡ faults self.now };
}
