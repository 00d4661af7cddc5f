// Lanes are lent for jobs and come back.
ghost use Rattle.std.specs.Prelude.{◌≡◌, ◌+◌, ◌<◌, ◌≤◌, ◌++◌, [], All, map, vec_len, vec_capacity};
ghost use Rattle.transports.specs.Places.{AreApart};
ghost use Rattle.copy_jobs.specs.Lane.{IsSound};
ghost use Rattle.copy_jobs.specs.Lent.{IsLent, AreLent};

use crate::lane::EngineLane;
use skopeo_outside::{Files, Lane, Wire};
use std::alloc::Global;
use transports::{Dest, Source};

/// Lends the first lane.
fn lend_one<'a, W: Wire, F: Files>(
    alloc: Global,
    lanes: &mut Vec<Lane<W, F>>,
    list: &mut Vec<EngineLane<'a, W, F>>,
    source: &'a Source,
    dest: &'a Dest,
)
    requires apart { AreApart source.now dest.now }
    requires some { 0 < vec_len lanes.old }
    requires room { vec_len list.old < vec_capacity list.old }
    ensures lent { IsLent source.now dest.now lanes.old.items lanes.new.items list.old.items list.new.items }
    ensures room { vec_capacity list.old ≤ vec_capacity list.new }
    ensures lanes_room { vec_capacity lanes.new ≡ vec_capacity lanes.old }
{
    let lane = lanes.remove(0);
    list.push(EngineLane::new(alloc, lane, source, dest))
        .unwrap();
}

/// Lends so many first lanes.
#[tactic(auto, using(crate::proofs::LentLemmas::lent_more, crate::proofs::LentLemmas::lent_none, crate::proofs::LentLemmas::lent_count, crate::proofs::LentLemmas::lent_length))]
pub(crate) fn lend<'a, W: Wire, F: Files>(
    alloc: Global,
    lanes: &mut Vec<Lane<W, F>>,
    list: &mut Vec<EngineLane<'a, W, F>>,
    source: &'a Source,
    dest: &'a Dest,
    count: usize,
)
    requires apart { AreApart source.now dest.now }
    requires empty { list.old.items ≡ [] }
    requires some { count ≤ vec_len lanes.old }
    requires room { count ≤ vec_capacity list.old }
    ensures lent { AreLent source.now dest.now count lanes.old.items lanes.new.items list.new.items }
    ensures lanes_room { vec_len lanes.old ≤ vec_capacity lanes.new }
{
    while list.len() < count {
        lend_one(alloc, lanes, list, source, dest);
    }
}

/// Takes lanes apart, the last one first.
#[tactic(auto, using(crate::proofs::LentLemmas::back_none, crate::proofs::LentLemmas::back_more, crate::proofs::LentLemmas::back_all))]
pub(crate) fn give_back<'a, W: Wire, F: Files>(
    mut list: Vec<EngineLane<'a, W, F>>,
    lanes: &mut Vec<Lane<W, F>>,
)
    requires room { vec_len list + vec_len lanes.old ≤ vec_capacity lanes.old }
    ensures back { lanes.new.items ≡ map (λ s. s.lane) list.entry.items ++ lanes.old.items }
    ensures sound { All IsSound list.entry.items }
{
    while let Some(state) = list.pop() {
        lanes.insert(0, state.into_lane()).unwrap();
    }
    list.destroy_empty();
}
