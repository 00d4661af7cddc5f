// Workers made of lanes.
ghost use Rattle.std.specs.Prelude.{◌≡◌, ◌<◌, ◌≤◌, [], All, length, vec_len, vec_capacity};
ghost use Rattle.copy_workers.specs.Works.{IsFresh};
ghost use Rattle.copy_workers.specs.Teams.{IsReady, AreNumbered, HasRoom, AreUnused, Hires, rooms, lanes_of};

use crate::lane::BlobLane;
use crate::receipt::Outcome;
use crate::worker::Worker;
use digest_reader::Job;
use location_cache::{Desk, DeskSeat, Jobs};

/// Seats each lane at the desk, the last one first, with a list for its outcomes.
pub(crate) fn staff<L: BlobLane, J: Jobs>(
    desk: &Desk<J>,
    first: DeskSeat<J>,
    jobs: &[Job],
    lanes: &mut Vec<L>,
    lists: &mut Vec<Vec<Outcome>>,
    workers: &mut Vec<Worker<L, J>>,
)
    requires own { first.desk ≡ desk.now }
    requires seat { IsFresh first.view × (first.view.room ≡ 16) }
    requires some { (0 < vec_len lanes.old) × (vec_len lanes.old ≤ 16) }
    requires unused { AreUnused L.tells jobs.now lanes.old.items }
    requires lists { (vec_len lists.old ≡ vec_len lanes.old) × All (HasRoom (length jobs.now)) lists.old.items }
    requires room { (vec_len workers.old ≡ 0) × (vec_len lanes.old ≤ vec_capacity workers.old) }
    ensures ready { All (IsReady L.tells desk.now jobs.now) workers.new.items }
    ensures numbered { AreNumbered (vec_len lanes.old) workers.new.items }
    ensures count { vec_len workers.new ≡ vec_len lanes.old }
    ensures room { rooms workers.new.items ≡ 16 }
    ensures lanes { lanes_of workers.new.items ≡ lanes.old.items }
    ensures moved { (vec_len lanes.new ≡ 0) × (vec_len lanes.old ≤ vec_capacity lanes.new) }
{
    let mut seat = first;
    while lanes.len() > 1 {
        let (kept, given) = desk.split(seat);
        seat = kept;
        hire(given, lanes, lists, workers);
    }
    hire(seat, lanes, lists, workers);
}

/// Makes a worker of the last lane.
fn hire<L: BlobLane, J: Jobs>(
    seat: DeskSeat<J>,
    lanes: &mut Vec<L>,
    lists: &mut Vec<Vec<Outcome>>,
    workers: &mut Vec<Worker<L, J>>,
)
    requires some { (0 < vec_len lanes.old) × (vec_len lanes.old ≤ 16) }
    requires lists { vec_len lists.old ≡ vec_len lanes.old }
    requires room { vec_len workers.old < vec_capacity workers.old }
    ensures hired { Hires seat lanes.old.items lanes.new.items lists.old.items lists.new.items
        workers.old.items workers.new.items }
    ensures lanes_room { vec_capacity lanes.new ≡ vec_capacity lanes.old }
    ensures workers_room { vec_capacity workers.old ≤ vec_capacity workers.new }
{
    let Some(lane) = lanes.pop() else {
        unreachable!()
    };
    let Some(outcomes) = lists.pop() else {
        unreachable!()
    };
    let worker = Worker {
        lane,
        number: lanes.len() as u32,
        seat,
        outcomes,
    };
    workers.push(worker).unwrap();
}
