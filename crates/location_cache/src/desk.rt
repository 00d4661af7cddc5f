// A desk and its seats.
ghost use Rattle.std.specs.Prelude.{◌≡◌, ◌-◌, ◌^◌, ◌<◌, [], IfOk, IfSome, IfNone, ℕ};
ghost use Rattle.std.specs.Option.{unwrap_or};
ghost use Rattle.location_cache.specs.Rule.{first_view, with_failed, with_seen, left_of, right_of, joined, none_failed};
ghost use Rattle.location_cache.specs.Seats.{AreDrawn, HasDrawn, HasFailed, IsDrawn, DrewNone, SawFailed, IsLeast};

use crate::rule::{DeskRule, Draw, Halves, Look, Lower};
use crate::view::{Jobs, View};
use atomic_table::{Seat, Table};
use skopeo_outside::Memory;
use std::alloc::Global;
use std::marker::{Model, PhantomData};

/// A desk from which the seats at it draw numbered jobs. Contracts see it as the name of its table.
#[derive(Drop)]
pub struct Desk<J: Jobs> {
    table: Table<(), View, (), DeskRule<J>, Global>,
    jobs: u32,
}

impl<J: Jobs> Model for Desk<J> {
    ghost use Rattle.std.specs.Prelude.{◌≡◌, ◌-◌, ◌^◌, ◌<◌};
    ghost use Rattle.atomic_table.specs.Seated.{TableId};

    ghost Value = { TableId };

    ghost view = { λ d. d.table.shared.table_id };

    ghost invariant = { λ d. (d.table.shared.table_id.words ≡ 2) × (d.table.shared.table_id.slots ≡ 0)
        × (d.jobs ≡ J.jobs) × (J.jobs < 2 ^ 32 - 16) };
}

/// A seat at a desk. Contracts see which desk it is at, and what it knows.
#[derive(Drop)]
pub struct DeskSeat<J: Jobs> {
    seat: Seat<(), View>,
    done: bool,
    of: PhantomData<J>,
}

impl<J: Jobs> Model for DeskSeat<J> {
    ghost use Rattle.std.specs.Prelude.{◌≡◌, ◌<◌, []};
    ghost use Rattle.location_cache.specs.Seats.{Seated};

    ghost Value = { Seated };

    ghost view = { λ s. record { desk = s.seat.table_id; view = s.seat.me.0 } };

    ghost invariant = { λ s. (s.seat.me.1 ≡ []) × (s.done ≡ s.seat.me.0.done) × (0 < s.seat.me.0.room) };
}

impl<J: Jobs> Desk<J> {
    /// A desk for so many jobs, fewer than 2^32 - 16, and the first seat at it, which has all the room.
    /// Its error is want of memory.
    pub fn new(alloc: Global, jobs: u32) -> Result<(Desk<J>, DeskSeat<J>), Memory>
        requires jobs { jobs ≡ J.jobs }
        requires few { jobs < 2 ^ 32 - 16 }
        ensures desk { IfOk result (λ r. r.1.desk ≡ r.0) }
        ensures view { IfOk result (λ r. r.1.view ≡ first_view) }
    {
        let (table, seat) = Table::of_words(alloc, &[0, u64::MAX], &())?;
        let desk = Desk { table, jobs };
        let seat = DeskSeat {
            seat,
            done: false,
            of: PhantomData,
        };
        Ok((desk, seat))
    }

    /// Draws the next job, by its number from 1. There is none exactly where the seat was done, or the number
    /// that it drew now is past the jobs. It takes no memory.
    pub fn draw(&self, seat: &mut DeskSeat<J>) -> Option<u32>
        requires own { seat.old.desk ≡ self.now }
        ensures own { seat.new.desk ≡ seat.old.desk }
        ensures some { IfSome result (λ job. IsDrawn J.jobs job seat.old.view seat.new.view) }
        ensures none { IfNone result (DrewNone J.jobs seat.old.view seat.new.view) }
        ensures greater { IfSome result (λ job. (earlier : ℕ) → HasDrawn seat.old.view earlier
            → earlier < job) }
    {
        if seat.done {
            return None;
        }
        let drawn = self.table.shared.fetch_add::<Draw<J>>(&mut seat.seat, 0, 1);
        if drawn < u64::from(self.jobs) {
            Some(drawn as u32 + 1)
        } else {
            seat.done = true;
            None
        }
    }

    /// Notes as failed a job that the seat drew. It takes no memory.
    pub fn fail(&self, seat: &mut DeskSeat<J>, job: u32)
        requires own { seat.old.desk ≡ self.now }
        requires drew { HasDrawn seat.old.view job }
        ensures own { seat.new.desk ≡ seat.old.desk }
        ensures view { seat.new.view ≡ with_failed job seat.old.view }
    {
        self.table
            .shared
            .fetch_min::<Lower>(&mut seat.seat, 1, u64::from(job));
    }

    /// The least job that has failed so far, at any seat. There is none exactly where the seat has then seen
    /// the sentinel. It takes no memory.
    pub fn least(&self, seat: &mut DeskSeat<J>) -> Option<u32>
        requires own { seat.old.desk ≡ self.now }
        ensures own { seat.new.desk ≡ seat.old.desk }
        ensures view { seat.new.view ≡ with_seen (unwrap_or result none_failed) seat.old.view }
        ensures least { IfSome result (λ least. IsLeast least seat.old.view) }
        ensures calm { IfNone result ((job : ℕ) → HasFailed seat.old.view job → ⊥) }
    {
        let least = self.table.shared.load::<Look<J>>(&mut seat.seat, 1);
        if least == u64::MAX {
            return None;
        }
        Some(least as u32)
    }

    /// Gives a part of a seat's room to a new seat. The lists stay with the first.
    pub fn split(&self, seat: DeskSeat<J>) -> (DeskSeat<J>, DeskSeat<J>)
        requires own { seat.desk ≡ self.now }
        requires room { 1 < seat.view.room }
        ensures own { (result.0.desk ≡ self.now) × (result.1.desk ≡ self.now) }
        ensures left { result.0.view ≡ left_of seat.view }
        ensures right { result.1.view ≡ right_of seat.view }
    {
        let DeskSeat {
            mut seat,
            done,
            of: _,
        } = seat;
        let other = self.table.shared.split_seat::<Halves>(&mut seat);
        (DeskSeat::of(seat, done), DeskSeat::of(other, done))
    }

    /// Takes in a seat that has ended, with its lists and its room.
    pub fn join(&self, kept: DeskSeat<J>, ended: DeskSeat<J>) -> DeskSeat<J>
        requires own { (kept.desk ≡ self.now) × (ended.desk ≡ self.now) }
        ensures own { result.desk ≡ self.now }
        ensures view { result.view ≡ joined kept.view ended.view }
    {
        let DeskSeat {
            mut seat,
            done,
            of: _,
        } = kept;
        let DeskSeat {
            seat: other,
            done: other_done,
            of: _,
        } = ended;
        self.table.shared.join_seat::<Halves>(&mut seat, other);
        DeskSeat::of(seat, done || other_done)
    }

    /// Ends the desk with its last seat, which has all the room: the jobs up to some number were drawn, each once.
    pub fn close(self, seat: DeskSeat<J>)
        requires own { seat.desk ≡ self }
        requires last { seat.view.room ≡ 16 }
        ensures drawn { AreDrawn J.jobs seat.view }
        ensures saw { SawFailed seat.view }
    {
        let Desk { table, jobs: _ } = self;
        let DeskSeat {
            seat,
            done: _,
            of: _,
        } = seat;
        table.close_with(seat).free();
    }
}

impl<J: Jobs> DeskSeat<J> {
    fn of(seat: Seat<(), View>, done: bool) -> Self
        requires slots { seat.me.1 ≡ [] }
        requires done { done ≡ seat.me.0.done }
        requires room { 0 < seat.me.0.room }
        ensures desk { result.desk ≡ seat.table_id }
        ensures view { result.view ≡ seat.me.0 }
    {
        DeskSeat {
            seat,
            done,
            of: PhantomData,
        }
    }
}
