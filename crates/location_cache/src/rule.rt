// The rule of a desk, and what each step tells.
use crate::view::{Jobs, View};
use atomic_table::{Join, Play, Split, TableRule};
use std::marker::PhantomData;

// Word 0 is the number of draws, word 1 the least failed job.
pub struct DeskRule<J> {
    jobs: PhantomData<J>,
}

impl<J: Jobs> TableRule<(), View, ()> for DeskRule<J> {
    ghost use Rattle.location_cache.specs.Rule.{IsKept, first_view};

    ghost holds = { λ _ s. IsKept J.jobs s.words s.views };

    ghost first = { λ _. first_view };
}

pub struct Draw<J> {
    jobs: PhantomData<J>,
}

impl<J: Jobs> Play<(), View> for Draw<J> {
    ghost use Rattle.location_cache.specs.Rule.{Draws};

    ghost then = { λ _ me found after. Draws J.jobs me found after };
}

pub struct Lower;

impl Play<(), View> for Lower {
    ghost use Rattle.location_cache.specs.Rule.{Lowers};

    ghost then = { λ step me _ after. Lowers step.first me after };
}

pub struct Look<J> {
    jobs: PhantomData<J>,
}

impl<J: Jobs> Play<(), View> for Look<J> {
    ghost use Rattle.location_cache.specs.Rule.{Looks};

    ghost then = { λ _ me found after. Looks J.jobs me found after };
}

pub struct Halves;

impl Split<View> for Halves {
    ghost use Rattle.location_cache.specs.Rule.{left_of, right_of};

    ghost left = { left_of };

    ghost right = { right_of };
}

impl Join<View> for Halves {
    ghost use Rattle.location_cache.specs.Rule.{joined, spent};

    ghost both = { joined };

    ghost spent = { spent };
}
