// What a lane was asked for, and what it answered.
ghost use Rattle.std.specs.Prelude.{◌≡◌, [], List, ℕ};
ghost use Rattle.copy_workers.specs.Answers.{had, mounted, carried};
ghost use Rattle.copy_workers.specs.Asked.{answers_to, Adds};

use crate::cause::Cause;
use digest_reader::Job;
use image_ref::Digest;
use std::marker::Model;
use std::snapshot::Snapshot;

/// What a lane answered when it was asked for a job.
#[derive(Clone, Copy, Debug, PartialEq, Eq)]
pub enum LaneAnswer {
    /// `have`: the destination has the blob.
    Present,
    /// `have`: it has not.
    Absent,
    /// `mount`: the blob was mounted.
    Mounted,
    /// `mount`: the registry declined.
    Declined,
    /// `carry`: the blob was carried.
    Carried,
    /// Any of them: a cause.
    Failed,
}

/// The answers so far, the last one at the head. No value of it is kept.
#[derive(Drop)]
pub(crate) enum Trail {
    Start,
    Then(Snapshot<Trail>, Digest, LaneAnswer),
}

/// What a lane was asked for and what it answered, for a lane to keep beside its state. It has no bytes and takes no
/// memory: contracts alone see the answers, as a list.
#[derive(Drop)]
pub struct Asked {
    trail: Snapshot<Trail>,
}

impl Model for Asked {
    ghost use Rattle.copy_workers.specs.Asked.{Answered, trail_of};

    ghost Value = { Answered };

    ghost view = { λ a. trail_of a.trail.value };
}

impl Asked {
    /// That a lane was asked for nothing.
    #[tactic(auto, unfolding(crate::specs::Asked::answers_to))]
    pub fn new() -> Asked
        ensures { (digest : List ℕ) → answers_to result digest ≡ [] }
    {
        Asked {
            trail: Snapshot::of(&Trail::Start),
        }
    }

    /// Adds what `have` answered.
    pub fn had(&mut self, job: &Job, answer: &Result<bool, Cause>)
        ensures { Adds job.now.digest (had answer.now) self.old self.new }
    {
        let answer = match answer {
            Ok(true) => LaneAnswer::Present,
            Ok(false) => LaneAnswer::Absent,
            Err(_) => LaneAnswer::Failed,
        };
        self.note(job.digest, answer);
    }

    /// Adds what `mount` answered.
    pub fn mounted(&mut self, job: &Job, answer: &Result<bool, Cause>)
        ensures { Adds job.now.digest (mounted answer.now) self.old self.new }
    {
        let answer = match answer {
            Ok(true) => LaneAnswer::Mounted,
            Ok(false) => LaneAnswer::Declined,
            Err(_) => LaneAnswer::Failed,
        };
        self.note(job.digest, answer);
    }

    /// Adds what `carry` answered.
    pub fn carried(&mut self, job: &Job, answer: &Result<(), Cause>)
        ensures { Adds job.now.digest (carried answer.now) self.old self.new }
    {
        let answer = match answer {
            Ok(()) => LaneAnswer::Carried,
            Err(_) => LaneAnswer::Failed,
        };
        self.note(job.digest, answer);
    }

    #[tactic(auto, using(crate::proofs::AskedLemmas::one_more))]
    fn note(&mut self, digest: Digest, answer: LaneAnswer)
        ensures { Adds digest answer self.old self.new }
    {
        let before = std::mem::replace(&mut self.trail, Snapshot::of(&Trail::Start));
        self.trail = Snapshot::of(&Trail::Then(before, digest, answer));
    }
}
