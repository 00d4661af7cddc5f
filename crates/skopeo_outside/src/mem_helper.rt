// Helpers in memory: a table of replies, and the runs so far.
ghost use Rattle.std.specs.Prelude.{◌≡◌, ◌∷◌, ◌++◌, ◌≤◌, ◌+◌, [], length, take, Some, IfOk, OnOk, OnErr, IsErrOf};
ghost use Rattle.std.specs.Option.{option_copied};
ghost use Rattle.skopeo_outside.specs.Failing.{FailsAsListed};
ghost use Rattle.skopeo_outside.specs.Helper.{GainsRun, ended_run, failed_run};
ghost use Rattle.skopeo_outside.specs.Replies.{runs_of, runs_told, run_with, reply_of, status_of, kept_of};

use crate::failures::Failures;
use crate::helper::Helper;
use crate::lists::{Many, Text};
use crate::stop::{Memory, Stop};
use std::alloc::Global;

/// What a program answers to an input.
#[derive(Debug, Drop)]
pub struct Reply {
    pub program: Text,
    pub input: Many<u8>,
    pub status: i32,
    pub answer: Many<u8>,
}

/// How a run ended.
#[derive(Debug, Drop)]
pub struct Ended {
    pub status: i32,
    pub answer: Many<u8>,
}

/// A run so far; one that failed has no end.
#[derive(Debug, Drop)]
pub struct Ran {
    pub program: Text,
    pub input: Many<u8>,
    pub ended: Option<Ended>,
}

/// A copy of some bytes.
fn copy_of(alloc: Global, bytes: &[u8]) -> Result<Many<u8>, Memory>
    ensures { IfOk result (λ copy. copy ≡ bytes.now) }
{
    let mut copy = Many::new(alloc);
    copy.extend(bytes)?;
    Ok(copy)
}

/// The first reply of a program to an input.
fn reply_to<'r>(replies: &'r [Reply], program: &str, input: &[u8]) -> Option<&'r Reply>
    ensures { option_copied result ≡ reply_of replies.now program.now input.now }
{
    for reply in replies {
        if reply.program.as_str() == program && reply.input.as_slice() == input {
            return Some(reply);
        }
    }
    None
}

/// Keeps the first bytes of an answer, at most one more than a limit.
fn keep(answer: &mut Many<u8>, bytes: &[u8], limit: usize) -> Result<(), Memory>
    requires { answer.old ≡ [] }
    ensures { OnOk result (answer.new ≡ take (limit + 1) bytes.now) }
{
    if limit < bytes.len() {
        answer.extend(&bytes[..limit + 1])
    } else {
        answer.extend(bytes)
    }
}

/// Programs that answer by a table, and with status 1 and nothing where it has no reply. They never fail.
#[derive(Drop)]
pub struct SureHelper {
    pub alloc: Global,
    pub replies: Many<Reply>,
    pub ran: Many<Ran>,
}

impl SureHelper {
    /// Programs with these replies. None was run yet.
    pub fn new(alloc: Global, replies: Many<Reply>) -> Self
        ensures replies { result.replies ≡ replies }
        ensures ran { result.ran ≡ [] }
    {
        SureHelper {
            alloc,
            replies,
            ran: Many::new(alloc),
        }
    }

    /// Notes a run. Without memory the runs stay.
    fn note(&mut self, program: &str, input: &[u8], ended: Option<Ended>) -> Result<(), Memory>
        ensures ok { OnOk result (runs_of self.new.ran ≡ runs_of self.old.ran ++ run_with program.now input.now ended ∷ []) }
        ensures replies { self.new.replies ≡ self.old.replies }
        ensures unchanged { OnErr result (self.new.ran ≡ self.old.ran) }
    {
        let program = Text::copy_of(self.alloc, program)?;
        let input = copy_of(self.alloc, input)?;
        self.ran.push(Ran {
            program,
            input,
            ended,
        })
    }

    /// Puts what is kept of a reply in the place of what an answer holds, and gives its status.
    fn look_up(
        &self,
        program: &str,
        input: &[u8],
        limit: usize,
        answer: &mut Many<u8>,
    ) -> Result<i32, Memory>
        ensures status { IfOk result (λ status. status ≡ status_of (reply_of self.now.replies program.now input.now)) }
        ensures answer { OnOk result (answer.new ≡ kept_of limit (reply_of self.now.replies program.now input.now)) }
    {
        answer.clear();
        match reply_to(self.replies.as_slice(), program, input) {
            Some(reply) => {
                let status = reply.status;
                keep(answer, reply.answer.as_slice(), limit)?;
                Ok(status)
            }
            None => Ok(1),
        }
    }

    /// Answers, and notes the run. Without memory the runs stay.
    fn reply(
        &mut self,
        program: &str,
        input: &[u8],
        limit: usize,
        answer: &mut Many<u8>,
    ) -> Result<i32, Memory>
        ensures ran { IfOk result (λ status. runs_of self.new.ran ≡ runs_of self.old.ran ++ ended_run program.now input.now status answer.new ∷ []) }
        ensures status { IfOk result (λ status. status ≡ status_of (reply_of self.old.replies program.now input.now)) }
        ensures answer { OnOk result (answer.new ≡ kept_of limit (reply_of self.old.replies program.now input.now)) }
        ensures replies { self.new.replies ≡ self.old.replies }
        ensures unchanged { OnErr result (self.new.ran ≡ self.old.ran) }
    {
        let status = self.look_up(program, input, limit, answer)?;
        let ended = Ended {
            status,
            answer: copy_of(self.alloc, answer.as_slice())?,
        };
        self.note(program, input, Some(ended))?;
        Ok(status)
    }
}

impl Helper for SureHelper {
    ghost runs = { runs_told };

    ghost faults = { λ _. 0 };

    #[tactic(auto, using(crate::proofs::Keeping::length_kept))]
    fn run(
        &mut self,
        program: &str,
        input: &[u8],
        limit: usize,
        answer: &mut Many<u8>,
    ) -> Result<i32, Stop>
        ensures ran { IfOk result (λ status. GainsRun (ended_run program.now input.now status answer.new) (runs_told self.old) (runs_told self.new)) }
        ensures status { IfOk result (λ status. status ≡ status_of (reply_of self.old.replies program.now input.now)) }
        ensures answer { OnOk result (answer.new ≡ kept_of limit (reply_of self.old.replies program.now input.now)) }
        ensures kept { OnOk result (length answer.new ≤ limit + 1) }
        ensures replies { self.new.replies ≡ self.old.replies }
        ensures wanted { OnErr result (IsErrOf result Stop.Memory × (self.new.ran ≡ self.old.ran)) }
    {
        Ok(self.reply(program, input, limit, answer)?)
    }

    fn faults(&self) -> u64 {
        0
    }
}

/// The same, with a list of the calls that are to fail.
#[derive(Drop)]
pub struct MemHelper {
    pub sure: SureHelper,
    pub failures: Failures,
}

impl MemHelper {
    /// Programs with these replies. The calls of these numbers, from 1, fail.
    pub fn new(alloc: Global, replies: Many<Reply>, failing: Vec<u64>) -> Self
        ensures replies { result.sure.replies ≡ replies }
        ensures ran { result.sure.ran ≡ [] }
        ensures calls { result.failures.calls ≡ 0 }
        ensures failing { result.failures.failing.items ≡ failing.items }
        ensures count { result.failures.count ≡ 0 }
    {
        MemHelper {
            sure: SureHelper::new(alloc, replies),
            failures: Failures::new(failing),
        }
    }
}

impl Helper for MemHelper {
    ghost runs = { λ h. runs_told h.sure };

    ghost faults = { λ h. h.failures.count };

    #[tactic(auto, using(crate::proofs::Keeping::length_kept))]
    fn run(
        &mut self,
        program: &str,
        input: &[u8],
        limit: usize,
        answer: &mut Many<u8>,
    ) -> Result<i32, Stop>
        ensures ran { IfOk result (λ status. GainsRun (ended_run program.now input.now status answer.new) (runs_told self.old.sure) (runs_told self.new.sure)) }
        ensures status { IfOk result (λ status. status ≡ status_of (reply_of self.old.sure.replies program.now input.now)) }
        ensures answer { OnOk result (answer.new ≡ kept_of limit (reply_of self.old.sure.replies program.now input.now)) }
        ensures kept { OnOk result (length answer.new ≤ limit + 1) }
        ensures replies { self.new.sure.replies ≡ self.old.sure.replies }
        ensures failed { IsErrOf result Stop.Fault → GainsRun (failed_run program.now input.now) (runs_told self.old.sure) (runs_told self.new.sure) }
        ensures wanted { IsErrOf result Stop.Memory → self.new.sure.ran ≡ self.old.sure.ran }
        ensures calls { FailsAsListed self.old.failures self.new.failures result }
    {
        if self.failures.next().is_err() {
            self.sure.note(program, input, None)?;
            return Err(Stop::Fault);
        }
        Ok(self.sure.reply(program, input, limit, answer)?)
    }

    fn faults(&self) -> u64 {
        self.failures.count
    }
}
