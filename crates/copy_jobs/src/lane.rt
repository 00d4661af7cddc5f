// A lane of the engine, which owns its wires and files.
ghost use Rattle.std.specs.Prelude.{◌≡◌, Some};
ghost use Rattle.transports.specs.Places.{AreApart};
ghost use Rattle.copy_jobs.specs.Lane.{IsSound, IsFresh};

use crate::carry::carry_blob;
use copy_workers::{Asked, BlobLane, Cause};
use digest_reader::Job;
use skopeo_outside::{Files, Lane, Wire};
use std::alloc::Global;
use std::marker::Model;
use std::snapshot::Snapshot;
use transports::{Dest, Source};

/// A job that has failed, and why.
#[derive(Drop)]
struct Failed {
    job: Job,
    cause: Snapshot<Cause>,
}

/// That a job has failed so.
fn failure_of(job: &Job, cause: &Cause) -> Failed
    ensures job { result.job ≡ job.now }
    ensures cause { result.cause.value ≡ cause.now }
{
    Failed {
        job: *job,
        cause: Snapshot::of(cause),
    }
}

/// A lane with its wires and files, which keeps what they told when it was made. It carries from one source to one
/// destination, through a buffer that is made once.
pub(crate) struct EngineLane<'a, W: Wire, F: Files> {
    alloc: Global,
    lane: Lane<W, F>,
    origin: Snapshot<Lane<W, F>>,
    source: &'a Source,
    dest: &'a Dest,
    buffer: Vec<u8>,
    failure: Option<Failed>,
    asked: Asked,
}

impl<'a, W: Wire, F: Files> Model for EngineLane<'a, W, F> {
    ghost use Rattle.std.specs.Option.{option_map};
    ghost use Rattle.std.specs.Coded.{codes};
    ghost use Rattle.skopeo_outside.specs.Shelf.{tree_code};
    ghost use Rattle.copy_jobs.specs.Lane.{LaneState, IsSound};

    ghost Value = { LaneState };

    ghost coded = { Prim.hlevel (codes, tree_code) };

    ghost view = { λ l. record { lane = l.lane; origin = l.origin.value; source = l.source.now; dest = l.dest.now; failure = option_map (λ f. (f.job, f.cause.value)) l.failure; asked = l.asked } };

    ghost invariant = { λ l. IsSound (record { lane = l.lane; origin = l.origin.value; source = l.source.now; dest = l.dest.now; failure = option_map (λ f. (f.job, f.cause.value)) l.failure; asked = l.asked }) };
}

impl<'a, W: Wire, F: Files> EngineLane<'a, W, F> {
    /// A lane of which no job was asked.
    #[tactic(auto, using(crate::proofs::FreshLemmas::sound_fresh, crate::proofs::FreshLemmas::fresh_is))]
    pub(crate) fn new(alloc: Global, lane: Lane<W, F>, source: &'a Source, dest: &'a Dest) -> Self
        requires apart { AreApart source.now dest.now }
        ensures fresh { IsFresh source.now dest.now lane result }
    {
        let origin = Snapshot::of(&lane);
        EngineLane {
            alloc,
            lane,
            origin,
            source,
            dest,
            buffer: Vec::new(alloc),
            failure: None,
            asked: Asked::new(),
        }
    }

    /// The wires and files.
    pub(crate) fn into_lane(self) -> Lane<W, F>
        ensures lane { result ≡ self.entry.lane }
        ensures sound { IsSound self.entry }
    {
        let EngineLane {
            alloc: _,
            lane,
            origin: _,
            source: _,
            dest: _,
            buffer: _,
            failure: _,
            asked: _,
        } = self;
        lane
    }
}

impl<'a, W: Wire, F: Files> BlobLane for EngineLane<'a, W, F> {
    ghost use Rattle.copy_jobs.specs.Lane.{lane_lore};

    /// The lane as it was made, with the source and the destination.
    type Origin = (Lane<W, F>, Source, Dest);

    ghost tells = { lane_lore };

    fn target(&self) -> Option<(&str, &str)> {
        None
    }

    /// A folder is emptied before its first blob, and reports none.
    fn have(&mut self, job: &Job) -> Result<bool, Cause> {
        let has = Ok(false);
        self.asked.had(job, &has);
        has
    }

    /// Nothing is mounted in a folder: a lane without a target is not asked for it.
    fn mount(&mut self, job: &Job, _from: &str) -> Result<bool, Cause> {
        self.failure = Some(failure_of(job, &Cause::Memory));
        let declined = Err(Cause::Memory);
        self.asked.mounted(job, &declined);
        declined
    }

    fn carry(&mut self, job: &Job) -> Result<(), Cause> {
        match carry_blob(
            self.source,
            self.dest,
            self.alloc,
            &mut self.lane,
            &mut self.buffer,
            job,
        ) {
            Ok(()) => {
                self.asked.carried(job, &Ok(()));
                Ok(())
            }
            Err(cause) => {
                self.failure = Some(failure_of(job, &cause));
                let failed = Err(cause);
                self.asked.carried(job, &failed);
                failed
            }
        }
    }
}
