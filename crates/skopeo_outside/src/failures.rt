// The calls of an object in memory that are to fail.
ghost use Rattle.std.specs.Prelude.{◌≡◌, ◌≤◌, OnOk, OnErr, IfErr, IsErrOf};
ghost use Rattle.skopeo_outside.specs.Failing.{FailsAsListed};

use crate::stop::Stop;

/// Which calls fail: those whose numbers, from 1, stand in a list.
#[derive(Drop)]
pub struct Failures {
    pub calls: u64,
    pub failing: Vec<u64>,
    pub count: u64,
}

impl Failures {
    /// The calls of these numbers, from 1, fail. None was made yet.
    pub fn new(failing: Vec<u64>) -> Self
        ensures calls { result.calls ≡ 0 }
        ensures failing { result.failing.items ≡ failing.items }
        ensures count { result.count ≡ 0 }
    {
        Failures {
            calls: 0,
            failing,
            count: 0,
        }
    }

    /// Counts a call, which fails where its number stands in the list.
    pub fn next(&mut self) -> Result<(), Stop>
        ensures calls { FailsAsListed self.old self.new result }
        ensures ok { OnOk result (self.new.count ≡ self.old.count) }
        ensures fault { IfErr result (λ stop. stop ≡ Stop.Fault) }
    {
        self.calls = self.calls.saturating_add(1);
        if self.failing.contains(&self.calls) {
            self.count = self.count.saturating_add(1);
            return Err(Stop::Fault);
        }
        Ok(())
    }
}
