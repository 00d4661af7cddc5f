// Real programs behind the trait. They tell no runs.
ghost use Rattle.std.specs.Prelude.{◌≡◌, ◌≤◌, ◌<◌, ◌↔◌, ℕ, None, Ok, OnOk, IfOk, IsSome, IsErrOf, length};
ghost use Rattle.skopeo_outside.specs.Outside.{HasCause, Rose};
ghost use Rattle.real_files.specs.Counted.{one_more};

use crate::child::{ask, start};
use crate::note::{Call, Note};
use skopeo_outside::{Helper, Many, Stop};
use std::io;
use std::io::ErrorKind;
use std::marker::Model;
use std::process::Processes;

/// Real programs, one at a time, with a count of the runs that failed and a note of the first.
#[derive(Drop)]
pub struct RealHelper<'r, R: Processes + AllocGlobal> {
    rt: &'r R,
    faults: u64,
    note: Option<Note>,
}

/// Seen as the count of faults. There is a note exactly where there was a fault.
impl<'r, R: Processes + AllocGlobal> Model for RealHelper<'r, R> {
    ghost use Rattle.std.specs.Prelude.{◌↔◌, ◌<◌, ℕ, IsSome};

    ghost Value = { ℕ };

    ghost view = { λ h. h.faults };

    ghost invariant = { λ h. IsSome h.note ↔ (0 < h.faults) };
}

impl<'r, R: Processes + AllocGlobal> RealHelper<'r, R> {
    /// No run has failed.
    pub fn new(rt: &'r R) -> Self
        ensures count { result ≡ 0 }
    {
        RealHelper {
            rt,
            faults: 0,
            note: None,
        }
    }

    /// The first run that failed.
    pub fn note(&self) -> Option<&Note>
        ensures noted { IsSome result ↔ (0 < self.now) }
    {
        self.note.as_ref()
    }

    /// Counts a fault, and notes the first.
    fn count(&mut self, call: Call, program: &str, error: &io::Error)
        ensures exact { self.new ≡ one_more self.old }
        ensures later { self.old ≤ self.new }
        ensures rose { Rose self.old self.new }
    {
        let faults = self.faults.saturating_add(1);
        if self.note.is_none() {
            self.note = Some(Note::new(self.rt.alloc(), call, program, error));
        }
        self.faults = faults;
    }

    /// What a run answers for what the system answered: want of memory is no fault.
    fn answer<T>(&mut self, call: Call, program: &str, answer: io::Result<T>) -> Result<T, Stop>
        ensures value { IfOk result (λ value. answer ≡ Ok value) }
        ensures calm { OnOk result (self.new ≡ self.old) }
        ensures memory { IsErrOf result Stop.Memory → self.new ≡ self.old }
        ensures fault { IsErrOf result Stop.Fault → self.new ≡ one_more self.old }
        ensures cause { HasCause self.old self.new result }
    {
        match answer {
            Ok(value) => Ok(value),
            Err(error) => {
                if error.kind() == ErrorKind::OutOfMemory {
                    return Err(Stop::Memory);
                }
                self.count(call, program, &error);
                Err(Stop::Fault)
            }
        }
    }
}

impl<'r, R: Processes + AllocGlobal> Helper for RealHelper<'r, R> {
    ghost runs = { λ _. None };

    ghost faults = { λ h. h };

    fn run(
        &mut self,
        program: &str,
        input: &[u8],
        limit: usize,
        answer: &mut Many<u8>,
    ) -> Result<i32, Stop> {
        answer.clear();
        let started = start(self.rt, program);
        let child = self.answer(Call::Start, program, started)?;
        let ended = ask(child, input, limit.saturating_add(1), answer);
        self.answer(Call::Run, program, ended)
    }

    fn faults(&self) -> u64 {
        self.faults
    }
}
