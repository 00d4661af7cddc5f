// A lane, on which one job is done at a time.
ghost use Rattle.std.specs.Prelude.{◌≡◌, ◌⊎◌, ◌∷◌, ◌++◌, [], Some, OnOk, OnErr, IfOk, IfErr, IsTrue};
ghost use Rattle.std.specs.Option.{option_map};
ghost use Rattle.image_ref.specs.Reference.{IsPath};
ghost use Rattle.copy_workers.specs.Answers.{had, mounted, carried};
ghost use Rattle.copy_workers.specs.Lanes.{Lore, Calm, Keeps, WasNamed};

use crate::cause::Cause;
use digest_reader::Job;

/// A lane, which does one job at a time. It tells of each job whether it is secured, whether and why it has failed, which
/// repositories its mounts named, and what it answered when it was asked for it; and it tells its target and its origin. A
/// lane is asked for a job only while it is calm, which is while it tells no failure: so a failure stays told, and no lane
/// has to keep more than one. What it answered it can keep as an `Asked`, which takes no memory.
pub trait BlobLane {
    /// What a lane keeps from when it was made. Contracts alone see it.
    type Origin;

    ghost tells: { Lore Self Self.Origin };

    /// The host and the repository of the registry that the jobs are for. None where they are for none.
    fn target(&self) -> Option<(&str, &str)>
        ensures { option_map (λ t. (t.0.now, t.1.now)) result ≡ tells.target self.now };

    /// Whether the destination has the job's blob.
    fn have(&mut self, job: &Job) -> Result<bool, Cause>
        requires calm { Calm tells self.old }
        ensures secured { IfOk result (λ has. IsTrue has → tells.secured self.new job.now) }
        ensures failed { IfErr result (λ cause. tells.failed self.new job.now ≡ Some cause) }
        ensures calm { OnOk result (Calm tells self.new) }
        ensures named { tells.named self.new job.now ≡ tells.named self.old job.now }
        ensures asked { tells.asked self.new job.now ≡ tells.asked self.old job.now ++ had result ∷ [] }
        ensures kept { Keeps tells job.now self.old self.new };

    /// Asks the registry to mount the job's blob from another repository there; false where it declined.
    fn mount(&mut self, job: &Job, from: &str) -> Result<bool, Cause>
        requires calm { Calm tells self.old }
        requires path { IsPath from.now }
        ensures secured { IfOk result (λ has. IsTrue has → tells.secured self.new job.now) }
        ensures failed { IfErr result (λ cause. tells.failed self.new job.now ≡ Some cause) }
        ensures calm { OnOk result (Calm tells self.new) }
        ensures named { OnOk result (WasNamed tells job.now from.now self.old self.new) }
        ensures refused { OnErr result ((tells.named self.new job.now ≡ tells.named self.old job.now)
            ⊎ WasNamed tells job.now from.now self.old self.new) }
        ensures asked { tells.asked self.new job.now ≡ tells.asked self.old job.now ++ mounted result ∷ [] }
        ensures kept { Keeps tells job.now self.old self.new };

    /// Carries the job's blob from the source to the destination.
    fn carry(&mut self, job: &Job) -> Result<(), Cause>
        requires calm { Calm tells self.old }
        ensures secured { OnOk result (tells.secured self.new job.now) }
        ensures failed { IfErr result (λ cause. tells.failed self.new job.now ≡ Some cause) }
        ensures calm { OnOk result (Calm tells self.new) }
        ensures named { tells.named self.new job.now ≡ tells.named self.old job.now }
        ensures asked { tells.asked self.new job.now ≡ tells.asked self.old job.now ++ carried result ∷ [] }
        ensures kept { Keeps tells job.now self.old self.new };
}
