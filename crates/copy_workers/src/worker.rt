// A worker: a lane with a seat at the desk.
ghost use Rattle.std.specs.Prelude.{◌≡◌, ◌<◌, ◌≤◌, [], ℕ, IfSome, IfNone, All, length, vec_len, vec_capacity};
ghost use Rattle.location_cache.specs.Seats.{HasDrawn, HasFailed};
ghost use Rattle.copy_workers.specs.Lanes.{Calm, IsUnused};
ghost use Rattle.copy_workers.specs.Kept.{KeepsAll};
ghost use Rattle.copy_workers.specs.Jobs.{AreJobs};
ghost use Rattle.copy_workers.specs.Works.{Stopped, DrewPast, DrewOne, IsFresh, Works, Ends};

use crate::finish::finish;
use crate::lane::BlobLane;
use crate::receipt::Outcome;
use digest_reader::Job;
use location_cache::{Desk, DeskSeat, Jobs};

/// A lane, its number, its seat and what became of the jobs that it drew.
pub(crate) struct Worker<L, J: Jobs> {
    pub(crate) lane: L,
    pub(crate) number: u32,
    pub(crate) seat: DeskSeat<J>,
    pub(crate) outcomes: Vec<Outcome>,
}

/// Draws a job, unless one has failed.
fn next_job<J: Jobs>(desk: &Desk<J>, seat: &mut DeskSeat<J>) -> Option<u32>
    requires own { seat.old.desk ≡ desk.now }
    ensures own { seat.new.desk ≡ desk.now }
    ensures some { IfSome result (λ job. (0 < job) × (job ≤ J.jobs) × DrewOne job seat.old.view seat.new.view) }
    ensures greater { IfSome result (λ job. (earlier : ℕ) → HasDrawn seat.old.view earlier → earlier < job) }
    ensures calm { IfSome result (λ _. (job : ℕ) → HasFailed seat.old.view job → ⊥) }
    ensures none { IfNone result (Stopped seat.new.view × DrewPast J.jobs seat.old.view seat.new.view) }
{
    if desk.least(seat).is_some() {
        return None;
    }
    desk.draw(seat)
}

impl<L: BlobLane, J: Jobs> Worker<L, J> {
    /// Does a job that was drawn.
    fn do_job(&mut self, desk: &Desk<J>, job: &Job)
        requires own { self.old.seat.desk ≡ desk.now }
        requires drew { HasDrawn self.old.seat.view job.now.number }
        requires calm { Calm L.tells self.old.lane }
        requires unasked { L.tells.asked self.old.lane job.now ≡ [] }
        requires room { vec_len self.old.outcomes < vec_capacity self.old.outcomes }
        ensures own { self.new.seat.desk ≡ desk.now }
        ensures ends { Ends L.tells job.now self.old.number self.old.lane self.new.lane
            self.old.seat.view self.new.seat.view self.old.outcomes.items self.new.outcomes.items }
        ensures number { self.new.number ≡ self.old.number }
        ensures capacity { vec_capacity self.old.outcomes ≤ vec_capacity self.new.outcomes }
    {
        let end = finish(&mut self.lane, job);
        if end.is_err() {
            desk.fail(&mut self.seat, job.number);
        }
        let outcome = Outcome {
            job: job.number,
            lane: self.number,
            end,
        };
        self.outcomes.push(outcome).unwrap();
    }

    /// Does the jobs that it draws, until one has failed or none is left.
    pub(crate) fn work(&mut self, desk: &Desk<J>, jobs: &[Job])
        requires own { self.old.seat.desk ≡ desk.now }
        requires jobs { AreJobs jobs.now × (length jobs.now ≡ J.jobs) }
        requires room { length jobs.now ≤ vec_capacity self.old.outcomes }
        requires seat { IsFresh self.old.seat.view }
        requires empty { self.old.outcomes.items ≡ [] }
        requires unused { IsUnused L.tells jobs.now self.old.lane }
        ensures own { self.new.seat.desk ≡ desk.now }
        ensures works { Works L.tells jobs.now self.new.lane self.new.outcomes.items self.new.seat.view }
        ensures stopped { Stopped self.new.seat.view }
        ensures lane { All (λ o. o.lane ≡ self.old.number) self.new.outcomes.items }
        ensures number { self.new.number ≡ self.old.number }
        ensures few { vec_len self.new.outcomes ≤ length jobs.now }
        ensures room { self.new.seat.view.room ≡ self.old.seat.view.room }
        ensures kept { KeepsAll L.tells jobs.now self.old.lane self.new.lane }
    {
        let mut last = 0;
        while let Some(number) = next_job(desk, &mut self.seat) {
            self.do_job(desk, &jobs[number as usize - 1]);
            last = number;
        }
    }
}
