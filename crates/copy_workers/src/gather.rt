// What workers leave, taken together.
ghost use Rattle.std.specs.Prelude.{◌≡◌, ◌+◌, ◌<◌, ◌≤◌, ◌++◌, ◌∷◌, [], All, length, vec_len, vec_capacity};
ghost use Rattle.location_cache.specs.declared.view.View.{View};
ghost use Rattle.location_cache.specs.Seats.{AreDrawn, SawFailed};
ghost use Rattle.copy_workers.specs.Works.{Stopped};
ghost use Rattle.copy_workers.specs.Teams.{IsFinished, AreNumbered, rooms, outcomes_of, lanes_of};
ghost use Rattle.copy_workers.specs.Gathered.{Gathered};

use crate::lane::BlobLane;
use crate::receipt::Outcome;
use crate::worker::Worker;
use digest_reader::Job;
use location_cache::{Desk, DeskSeat, Jobs};

/// Takes a worker apart.
fn take_in<L: BlobLane, J: Jobs>(
    worker: Worker<L, J>,
    lanes: &mut Vec<L>,
    outcomes: &mut Vec<Outcome>,
) -> DeskSeat<J>
    requires lanes { vec_len lanes.old < vec_capacity lanes.old }
    requires outcomes { vec_len outcomes.old + vec_len worker.outcomes ≤ vec_capacity outcomes.old }
    ensures seat { result ≡ worker.seat }
    ensures lane { lanes.new.items ≡ lanes.old.items ++ worker.lane ∷ [] }
    ensures outcomes { outcomes.new.items ≡ outcomes.old.items ++ worker.outcomes.items }
    ensures lanes_room { vec_capacity lanes.old ≤ vec_capacity lanes.new }
    ensures outcomes_room { vec_capacity outcomes.old ≤ vec_capacity outcomes.new }
{
    let Worker {
        lane,
        number: _,
        seat,
        outcomes: mut mine,
    } = worker;
    lanes.push(lane).unwrap();
    outcomes.append(&mut mine).unwrap();
    seat
}

/// Takes all workers apart, from the last one, and closes the desk.
pub(crate) fn gather<L: BlobLane, J: Jobs>(
    desk: Desk<J>,
    mut workers: Vec<Worker<L, J>>,
    jobs: &[Job],
    lanes: &mut Vec<L>,
    outcomes: &mut Vec<Outcome>,
)
    requires jobs { length jobs.now ≡ J.jobs }
    requires some { 0 < vec_len workers }
    requires finished { All (IsFinished L.tells desk jobs.now) workers.items }
    requires numbered { AreNumbered (vec_len workers) workers.items }
    requires room { rooms workers.items ≡ 16 }
    requires lanes { (vec_len lanes.old ≡ 0) × (vec_len workers ≤ vec_capacity lanes.old) }
    requires outcomes { (vec_len outcomes.old ≡ 0) × (outcomes_of workers.items ≤ vec_capacity outcomes.old) }
    ensures lanes { lanes.new.items ≡ lanes_of workers.items }
    ensures gathered { (v : View) × Gathered L.tells jobs.now lanes.new.items outcomes.new.items v
        × AreDrawn (length jobs.now) v × SawFailed v × Stopped v }
{
    let Some(first) = workers.pop() else {
        unreachable!()
    };
    let mut seat = take_in(first, lanes, outcomes);
    while let Some(worker) = workers.pop() {
        let ended = take_in(worker, lanes, outcomes);
        seat = desk.join(seat, ended);
    }
    workers.destroy_empty();
    desk.close(seat);
}
